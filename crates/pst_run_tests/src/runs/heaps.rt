//! Bodies of blocks made by hand: heaps ([MS-PST] 2.3.1), and on them property contexts (2.3.3) and tables (2.3.4).

use pst_make::set;
use std::alloc::Global;
use std::test::Fail;

/// The last byte of the signature of a table.
pub(super) const TABLE: u8 = 0x7c;

/// That of a property context.
pub(super) const PROPERTIES: u8 = 0xbc;

/// The four bytes of a property's value, or what they name.
#[derive(Clone, Copy)]
pub(super) enum Held<'a> {
    /// These bytes.
    Here([u8; 4]),
    /// An item of the heap, which has these bytes.
    Item(&'a [u8]),
    /// A subnode.
    Subnode(u32),
}

/// A property: its identifier, its type, and its value.
pub(super) type Property<'a> = (u16, u16, Held<'a>);

/// A property whose identifier is its number among others, from 1 on: its type, its value, and how that is shown.
pub(super) type Numbered<'a> = (u16, Held<'a>, &'a str);

// A heap that is being made: its bytes, and where its items begin.
#[derive(Drop)]
struct Heap {
    body: Vec<u8>,
    begins: Vec<u8>,
    count: usize,
}

fn number_of(len: usize) -> Result<[u8; 2], Fail> {
    let number = u16::try_from(len).map_err(|_| "too long")?;
    Ok(number.to_le_bytes())
}

impl Heap {
    // Its user root will be its first item, 0x20.
    fn new(alloc: Global, client: u8) -> Result<Heap, Fail> {
        let header = [0, 0, 0xec, client, 0x20, 0, 0, 0, 0, 0, 0, 0];
        Ok(Heap {
            body: Vec::from_slice(alloc, &header)?,
            begins: Vec::new(alloc),
            count: 0,
        })
    }

    fn add(&mut self, item: &[u8]) -> Result<(), Fail> {
        self.begins.extend_from_slice(&number_of(self.body.len())?)?;
        self.body.extend_from_slice(item)?;
        self.count = self.count.saturating_add(1);
        Ok(())
    }

    // With its page map behind the items, on an even place.
    fn end(mut self) -> Result<Vec<u8>, Fail> {
        self.begins.extend_from_slice(&number_of(self.body.len())?)?;
        if self.body.len() % 2 == 1 {
            self.body.push(0)?;
        }
        let map = number_of(self.body.len())?;
        set(&mut self.body, 0, &map)?;
        self.body.extend_from_slice(&number_of(self.count)?)?;
        self.body.extend_from_slice(&[0, 0])?;
        self.body.extend_from_slice(&self.begins)?;
        Ok(self.body)
    }
}

/// A heap of these items, the first of which is 0x20, the second 0x40, and so on.
pub(super) fn heap_of(alloc: Global, client: u8, items: &[&[u8]]) -> Result<Vec<u8>, Fail> {
    let mut heap = Heap::new(alloc, client)?;
    for item in items {
        heap.add(item)?;
    }
    heap.end()
}

/// A property context of these properties: its BTH is item 0x20, its records are item 0x40, and behind them stand the items of
/// the values.
pub(super) fn context_of(alloc: Global, properties: &[Property]) -> Result<Vec<u8>, Fail> {
    let mut records = Vec::new(alloc);
    let mut next: u32 = 0x60;
    for (id, kind, held) in properties {
        let value = match held {
            Held::Here(bytes) => *bytes,
            Held::Subnode(nid) => nid.to_le_bytes(),
            Held::Item(_) => {
                let item = next;
                next = next.saturating_add(0x20);
                item.to_le_bytes()
            }
        };
        records.extend_from_slice(&id.to_le_bytes())?;
        records.extend_from_slice(&kind.to_le_bytes())?;
        records.extend_from_slice(&value)?;
    }
    let mut heap = Heap::new(alloc, PROPERTIES)?;
    heap.add(&[0xb5, 2, 6, 0, 0x40, 0, 0, 0])?;
    heap.add(&records)?;
    for (_, _, held) in properties {
        if let Held::Item(bytes) = held {
            heap.add(bytes)?;
        }
    }
    heap.end()
}

/// A property context of properties that are numbered.
pub(super) fn numbered_of(alloc: Global, rows: &[Numbered]) -> Result<Vec<u8>, Fail> {
    let mut properties = Vec::new(alloc);
    let mut id: u16 = 1;
    for (kind, held, _) in rows {
        properties.push((id, *kind, *held))?;
        id = id.saturating_add(1);
    }
    context_of(alloc, &properties)
}

// TCINFO of one column, of 4 bytes, the identifier of the row; the byte that says whether it is there is at 4. The row index is
// item 0x40, the rows are item 0x80.
const ROWS_INFO: [u8; 30] = [
    0x7c, 1, 4, 0, 4, 0, 4, 0, 5, 0, //
    0x40, 0, 0, 0, 0x80, 0, 0, 0, 0, 0, 0, 0, //
    3, 0, 0xf2, 0x67, 0, 0, 4, 0,
];

/// A table of the rows with these identifiers, and nothing else in them.
pub(super) fn table_of(alloc: Global, rows: &[u32]) -> Result<Vec<u8>, Fail> {
    let mut records = Vec::new(alloc);
    let mut matrix = Vec::new(alloc);
    let mut number: u32 = 0;
    for row in rows {
        records.extend_from_slice(&row.to_le_bytes())?;
        records.extend_from_slice(&number.to_le_bytes())?;
        matrix.extend_from_slice(&row.to_le_bytes())?;
        matrix.push(0x80)?;
        number = number.saturating_add(1);
    }
    let index = [0xb5, 4, 4, 0, 0x60, 0, 0, 0];
    heap_of(alloc, TABLE, &[&ROWS_INFO, &index, &records, &matrix])
}
