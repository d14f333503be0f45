//! Heaps and the trees of records in them ([MS-PST] 2.3.1 and 2.3.2).

use crate::image::{LONGEST_BODY, put_over};
use std::alloc::{AllocError, Global};

/// The most bytes that an item of a heap has.
pub(crate) const LONGEST_ITEM: usize = 3_580;

// How many items a span has at most.
const MOST_ITEMS: usize = 2_000;

// The items of a span, one behind another, and where each of them begins and the last ends.
#[derive(Drop)]
struct Span {
    items: Vec<u8>,
    ends: Vec<u16>,
}

/// A heap on a node (2.3.1): items in spans of at most 8,176 bytes.
#[derive(Drop)]
pub(crate) struct Heap {
    alloc: Global,
    client: u8,
    done: Vec<Span>,
    last: Span,
    room: usize,
}

// How many bytes stand in front of the items of a span (2.3.1.2, 2.3.1.3 and 2.3.1.4).
fn head_length(span: usize) -> usize {
    match span {
        0 => 12,
        _ if span % 128 == 8 => 66,
        _ => 2,
    }
}

fn room_of(span: usize) -> usize {
    LONGEST_BODY.saturating_sub(head_length(span).saturating_add(7))
}

impl Heap {
    /// A heap without items, for this client.
    pub(crate) fn new(alloc: Global, client: u8) -> Heap {
        Heap {
            alloc,
            client,
            done: Vec::new(alloc),
            last: Span {
                items: Vec::new(alloc),
                ends: Vec::new(alloc),
            },
            room: room_of(0),
        }
    }

    fn begin_span(&mut self) -> Result<(), AllocError> {
        let next = Span {
            items: Vec::new(self.alloc),
            ends: Vec::new(self.alloc),
        };
        let span = std::mem::replace(&mut self.last, next);
        self.done.push(span)?;
        self.room = room_of(self.done.len());
        Ok(())
    }

    /// Adds an item; gives its identifier (2.3.1.1), 0 for one without bytes.
    pub(crate) fn add(&mut self, item: &[u8]) -> Result<u32, AllocError> {
        if item.is_empty() {
            return Ok(0);
        }
        let taken = item.len().saturating_add(2);
        if taken > self.room || self.last.ends.len() >= MOST_ITEMS {
            self.begin_span()?;
        }
        self.last.items.extend_from_slice(item)?;
        let end = u16::try_from(self.last.items.len()).unwrap_or(0);
        self.last.ends.push(end)?;
        self.room = self.room.saturating_sub(taken);
        let span = u32::try_from(self.done.len())
            .unwrap_or(0)
            .saturating_mul(0x1_0000);
        let item = u32::try_from(self.last.ends.len())
            .unwrap_or(0)
            .saturating_mul(32);
        Ok(span.saturating_add(item))
    }

    /// Gives the first item other bytes, as many as it has.
    pub(crate) fn put_first(&mut self, item: &[u8]) {
        match self.done.first_mut() {
            Some(first) => put_over(&mut first.items, 0, item),
            None => put_over(&mut self.last.items, 0, item),
        }
    }

    // One span: its head, its items, and behind them the map of their places (2.3.1.5).
    fn body(&self, number: usize, span: &Span, root: u32) -> Result<Vec<u8>, AllocError> {
        let head = head_length(number);
        let end = head.saturating_add(span.items.len());
        let map = end.saturating_add(end % 2);
        let mut body = Vec::with_capacity(self.alloc, LONGEST_BODY)?;
        body.extend_from_slice(&u16::try_from(map).unwrap_or(0).to_le_bytes())?;
        if number == 0 {
            body.extend_from_slice(&[0xec, self.client])?;
            body.extend_from_slice(&root.to_le_bytes())?;
        }
        for _ in body.len()..head {
            body.push(0)?;
        }
        body.extend_from_slice(&span.items)?;
        for _ in end..map {
            body.push(0)?;
        }
        let head = u16::try_from(head).unwrap_or(0);
        let count = u16::try_from(span.ends.len()).unwrap_or(0);
        for number in [count, 0, head] {
            body.extend_from_slice(&number.to_le_bytes())?;
        }
        for end in &span.ends {
            body.extend_from_slice(&head.saturating_add(*end).to_le_bytes())?;
        }
        Ok(body)
    }

    /// The bytes of each span; the first names the item that the heap's client begins with.
    pub(crate) fn bodies(&self, root: u32) -> Result<Vec<Vec<u8>>, AllocError> {
        let mut bodies = Vec::new(self.alloc);
        for (number, span) in self.done.iter().enumerate() {
            bodies.push(self.body(number, span, root)?)?;
        }
        bodies.push(self.body(self.done.len(), &self.last, root)?)?;
        Ok(bodies)
    }

    // Adds the items of one level of a tree of records; gives the records of the level above.
    fn level(
        &mut self,
        records: &[u8],
        key_size: usize,
        width: usize,
    ) -> Result<Vec<u8>, AllocError> {
        let most = LONGEST_ITEM
            .checked_div(width)
            .unwrap_or(1)
            .saturating_mul(width)
            .max(1);
        let mut above = Vec::new(self.alloc);
        for some in records.chunks(most) {
            let item = self.add(some)?;
            above.extend_from_slice(some.get(..key_size).unwrap_or(&[]))?;
            above.extend_from_slice(&item.to_le_bytes())?;
        }
        Ok(above)
    }

    /// Adds a tree of records (BTH, 2.3.2), whose keys rise; gives its header, of eight bytes, which the client keeps.
    pub(crate) fn add_records(
        &mut self,
        records: &[u8],
        key_size: u8,
        data_size: u8,
    ) -> Result<[u8; 8], AllocError> {
        let key = usize::from(key_size);
        let mut width = key.saturating_add(usize::from(data_size));
        let mut level = 0_u8;
        let mut below = self.level(records, key, width)?;
        for _ in 0..4 {
            width = key.saturating_add(4);
            if below.len() <= width {
                break;
            }
            below = self.level(&below, key, width)?;
            level = level.saturating_add(1);
        }
        let mut header = [0xb5, key_size, data_size, level, 0, 0, 0, 0];
        if let Some(item) = below.get(key..) {
            for (place, byte) in header.iter_mut().skip(4).zip(item) {
                *place = *byte;
            }
        }
        Ok(header)
    }
}
