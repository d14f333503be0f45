//! Table contexts ([MS-PST] 2.3.4).

use crate::heap::{Heap, LONGEST_ITEM};
use crate::image::{LONGEST_BODY, put_over};
use crate::laid::Tree;
use crate::properties::{BOOLEAN, Held, INTEGER32, TIME, VALUE, Written, name_of};
use std::alloc::{AllocError, Global};

// The columns that each table has: the identifier of the row, and a version.
const ROW_ID: u16 = 0x67f2;

const ROW_VERSION: u16 = 0x67f3;

// A column: its property and type, and where its cells lie in a row.
#[derive(Clone, Copy)]
struct Column {
    id: u16,
    kind: u16,
    place: u16,
    width: u16,
    bit: u16,
}

// How the rows of a table are laid out: its columns in order of their tags, and where the widths end.
#[derive(Drop)]
struct Layout {
    columns: Vec<Column>,
    ends: [u16; 4],
}

fn width_of(kind: u16) -> u16 {
    match kind {
        TIME => 8,
        BOOLEAN => 1,
        _ => 4,
    }
}

impl Layout {
    // Of these columns, pairs of property and type in order of the properties, all below those that each table has.
    fn new(alloc: Global, asked: &[(u16, u16)]) -> Result<Layout, AllocError> {
        let mut columns = Vec::new(alloc);
        let (mut place, mut bit, mut words) = (8_u16, 2_u16, 8_u16);
        for width in [8, 4, 1] {
            for (id, kind) in asked {
                if width_of(*kind) == width {
                    columns.push(Column {
                        id: *id,
                        kind: *kind,
                        place,
                        width,
                        bit,
                    })?;
                    place = place.saturating_add(width);
                    bit = bit.saturating_add(1);
                }
            }
            if width == 4 {
                words = place;
            }
        }
        for (id, place, bit) in [(ROW_ID, 0, 0), (ROW_VERSION, 4, 1)] {
            columns.push(Column {
                id,
                kind: INTEGER32,
                place,
                width: 4,
                bit,
            })?;
        }
        columns.sort_by_key(|column| column.id)?;
        let bits = bit.saturating_add(7) / 8;
        Ok(Layout {
            columns,
            ends: [words, words, place, place.saturating_add(bits)],
        })
    }

    fn row_length(&self) -> usize {
        usize::from(self.ends[3])
    }

    // Puts the cell of a column into a row, and says that it is there.
    fn put(&self, row: &mut [u8], id: u16, value: u64) {
        let Some(column) = self.columns.iter().find(|column| column.id == id) else {
            return;
        };
        let bytes = value.to_le_bytes();
        let width = usize::from(column.width).min(bytes.len());
        put_over(row, usize::from(column.place), &bytes[..width]);
        let byte = usize::from(self.ends[2]).saturating_add(usize::from(column.bit / 8));
        if let Some(there) = row.get_mut(byte) {
            *there |= 0x80_u8 >> (column.bit % 8);
        }
    }
}

/// A value of a cell.
#[derive(Clone, Copy)]
pub(crate) enum Cell<'a> {
    /// A number that stands in the cell.
    Number(u64),
    /// Bytes in the heap.
    Bytes(&'a [u8]),
}

/// A table whose rows are added in order of their identifiers.
#[derive(Drop)]
pub(crate) struct Table {
    alloc: Global,
    encoded: bool,
    heap: Heap,
    layout: Layout,
    index: Vec<u8>,
    rows: Vec<u8>,
    count: u32,
    held: Vec<Held>,
}

impl Table {
    /// Without rows, of these columns: pairs of property and type in order of the properties.
    pub(crate) fn new(
        alloc: Global,
        columns: &[(u16, u16)],
        encoded: bool,
    ) -> Result<Table, AllocError> {
        let layout = Layout::new(alloc, columns)?;
        let mut heap = Heap::new(alloc, 0x7c);
        let head = layout.columns.len().saturating_mul(8).saturating_add(22);
        let zeros = vec![in alloc; 0_u8; head]?;
        heap.add(&zeros)?;
        Ok(Table {
            alloc,
            encoded,
            heap,
            layout,
            index: Vec::new(alloc),
            rows: Vec::new(alloc),
            count: 0,
            held: Vec::new(alloc),
        })
    }

    /// Adds a row.
    pub(crate) fn add(&mut self, id: u32, cells: &[(u16, Cell)]) -> Result<(), AllocError> {
        let mut row = vec![in self.alloc; 0_u8; self.layout.row_length()]?;
        self.layout.put(&mut row, ROW_ID, u64::from(id));
        self.index.extend_from_slice(&id.to_le_bytes())?;
        self.index.extend_from_slice(&self.count.to_le_bytes())?;
        self.count = self.count.saturating_add(1);
        self.layout
            .put(&mut row, ROW_VERSION, u64::from(self.count));
        for (column, cell) in cells {
            let value = match cell {
                Cell::Number(number) => *number,
                Cell::Bytes(bytes) => {
                    u64::from(name_of(
                        self.alloc,
                        &mut self.heap,
                        &mut self.held,
                        bytes,
                        self.encoded,
                    )?)
                }
            };
            self.layout.put(&mut row, *column, value);
        }
        self.rows.extend_from_slice(&row)
    }

    // The rows (2.3.4.4): an item of the heap, or a subnode with whole rows in each block.
    fn matrix(&mut self) -> Result<u32, AllocError> {
        if self.rows.len() <= LONGEST_ITEM {
            return self.heap.add(&self.rows);
        }
        let width = self.layout.row_length().max(1);
        let whole = LONGEST_BODY
            .checked_div(width)
            .unwrap_or(1)
            .saturating_mul(width)
            .max(1);
        let mut spans: Vec<Vec<u8>> = Vec::new(self.alloc);
        for some in self.rows.chunks(whole) {
            if let Some(before) = spans.last_mut() {
                for _ in before.len()..LONGEST_BODY {
                    before.push(0)?;
                }
            }
            spans.push(Vec::from_slice(self.alloc, some)?)?;
        }
        let nid = 0x2000_u32.saturating_add(VALUE);
        let tree = Tree::of_bodies(self.alloc, spans, self.encoded)?;
        self.held.push(Held { nid, tree })?;
        Ok(nid)
    }

    // TCINFO (2.3.4.1) and the columns (2.3.4.2).
    fn head(&self, index: u32, matrix: u32) -> Result<Vec<u8>, AllocError> {
        let mut head = Vec::new(self.alloc);
        head.extend_from_slice(&[0x7c, u8::try_from(self.layout.columns.len()).unwrap_or(0)])?;
        for end in &self.layout.ends {
            head.extend_from_slice(&end.to_le_bytes())?;
        }
        for number in [index, matrix, 0] {
            head.extend_from_slice(&number.to_le_bytes())?;
        }
        for column in &self.layout.columns {
            for number in [column.kind, column.id, column.place] {
                head.extend_from_slice(&number.to_le_bytes())?;
            }
            for byte in [column.width, column.bit] {
                head.push(u8::try_from(byte).unwrap_or(0))?;
            }
        }
        Ok(head)
    }

    // Has the rows stand in the other order than their identifiers, the last first.
    fn turn(&mut self) -> Result<(), AllocError> {
        let width = self.layout.row_length();
        let (mut rows, mut end) = (
            Vec::with_capacity(self.alloc, self.rows.len())?,
            self.rows.len(),
        );
        let (mut index, mut at) = (Vec::with_capacity(self.alloc, self.index.len())?, 0_usize);
        for number in 0..self.count {
            let start = end.saturating_sub(width);
            rows.extend_from_slice(self.rows.get(start..end).unwrap_or(&[]))?;
            end = start;
            index.extend_from_slice(self.index.get(at..at.saturating_add(4)).unwrap_or(&[]))?;
            let place = self.count.saturating_sub(number).saturating_sub(1);
            index.extend_from_slice(&place.to_le_bytes())?;
            at = at.saturating_add(8);
        }
        self.rows = rows;
        self.index = index;
        Ok(())
    }

    /// The context; its rows stand in the order of their identifiers, or in the other.
    pub(crate) fn written(mut self, falling: bool) -> Result<Written, AllocError> {
        if falling {
            self.turn()?;
        }
        let header = self.heap.add_records(&self.index, 4, 4)?;
        let index = self.heap.add(&header)?;
        let matrix = self.matrix()?;
        let head = self.head(index, matrix)?;
        self.heap.put_first(&head);
        let tree = Tree::of_bodies(self.alloc, self.heap.bodies(0x20)?, self.encoded)?;
        Ok(Written {
            tree,
            held: self.held,
        })
    }
}
