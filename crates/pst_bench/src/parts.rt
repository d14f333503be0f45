//! The parts of a message ([MS-PST] 2.4.5) that are subnodes: its recipients, its attachments, and values that are long.

use crate::chance::Chance;
use crate::image::Image;
use crate::laid::Tree;
use crate::lists::{Sub, subnode_list};
use crate::properties::{BINARY, Held, INTEGER32, Properties, STRING, Written};
use crate::table::{Cell, Table};
use crate::texts::{text, units_of};
use std::alloc::{AllocError, Global};

// The nodes of the tables of a message, and of its first attachment.
const RECIPIENTS: u32 = 0x692;

const ATTACHMENTS: u32 = 0x671;

const FIRST_ATTACHMENT: u32 = 0x8025;

const RECIPIENT_COLUMNS: [(u16, u16); 5] = [
    (0x0c15, INTEGER32),
    (0x0ffe, INTEGER32),
    (0x3001, STRING),
    (0x3002, STRING),
    (0x3003, STRING),
];

const ATTACHMENT_COLUMNS: [(u16, u16); 4] = [
    (0x0e20, INTEGER32),
    (0x3704, STRING),
    (0x3705, INTEGER32),
    (0x370b, INTEGER32),
];

/// A subnode of a message: its data, and the values that stand in subnodes of its own.
#[derive(Drop)]
pub(crate) struct Part {
    nid: u32,
    tree: Tree,
    held: Vec<Held>,
}

/// Writes the values that stand in subnodes, and gives their list.
pub(crate) fn lay_held(image: &mut Image, held: &[Held]) -> Result<u64, AllocError> {
    let mut subs = Vec::new(image.alloc);
    for value in held {
        let data = value.tree.lay(image)?;
        subs.push(Sub {
            nid: value.nid,
            data,
            sub: 0,
        })?;
    }
    subnode_list(image, &subs)
}

impl Part {
    /// Writes it.
    pub(crate) fn lay(&self, image: &mut Image) -> Result<Sub, AllocError> {
        let sub = lay_held(image, &self.held)?;
        let data = self.tree.lay(image)?;
        Ok(Sub {
            nid: self.nid,
            data,
            sub,
        })
    }
}

/// All parts of a message in order of their identifiers: these, and the values of its properties that stand in subnodes.
pub(crate) fn all_parts(
    alloc: Global,
    mut parts: Vec<Part>,
    held: Vec<Held>,
) -> Result<Vec<Part>, AllocError> {
    for value in held {
        let Held { nid, tree } = value;
        let held = Vec::new(alloc);
        parts.push(Part { nid, tree, held })?;
    }
    parts.sort_by_key(|part| part.nid)?;
    Ok(parts)
}

/// The table of so many recipients.
pub(crate) fn recipients(
    alloc: Global,
    chance: &mut Chance,
    count: u32,
    encoded: bool,
) -> Result<Part, AllocError> {
    let mut table = Table::new(alloc, &RECIPIENT_COLUMNS, encoded)?;
    let smtp = units_of(alloc, "SMTP")?;
    for row in 0..count {
        let length = chance.spread(6, 3);
        let name = text(alloc, chance, length)?;
        let address = text(alloc, chance, length.saturating_add(10))?;
        let cells = [
            (0x0c15, Cell::Number(1)),
            (0x0ffe, Cell::Number(6)),
            (0x3001, Cell::Bytes(&name)),
            (0x3002, Cell::Bytes(&smtp)),
            (0x3003, Cell::Bytes(&address)),
        ];
        table.add(row, &cells)?;
    }
    let Written { tree, held } = table.written(false)?;
    Ok(Part {
        nid: RECIPIENTS,
        tree,
        held,
    })
}

// An attachment with so many bytes of the pool (2.4.6.2).
fn attachment(
    alloc: Global,
    name: &[u8],
    bytes: &[u8],
    nid: u32,
    encoded: bool,
) -> Result<Part, AllocError> {
    let mut made = Properties::new(alloc, encoded)?;
    made.number(0x0e20, INTEGER32, u32::try_from(bytes.len()).unwrap_or(0))?;
    made.bytes(0x3701, BINARY, bytes)?;
    made.bytes(0x3704, STRING, name)?;
    made.number(0x3705, INTEGER32, 1)?;
    made.bytes(0x3707, STRING, name)?;
    made.number(0x370b, INTEGER32, 0xffff_ffff)?;
    let Written { tree, held } = made.written()?;
    Ok(Part { nid, tree, held })
}

/// The table of so many attachments, and these, each of which has bytes from the start of the pool on.
pub(crate) fn attachments(
    alloc: Global,
    chance: &mut Chance,
    pool: &[u8],
    count: u32,
    encoded: bool,
) -> Result<Vec<Part>, AllocError> {
    let mut table = Table::new(alloc, &ATTACHMENT_COLUMNS, encoded)?;
    let mut made = Vec::new(alloc);
    for number in 0..count {
        let length = chance.spread(12, 2);
        let name = text(alloc, chance, length)?;
        let size = chance.spread(1_000, 8) as usize;
        let bytes = pool.get(..size).unwrap_or(pool);
        let nid = FIRST_ATTACHMENT.saturating_add(number.saturating_mul(32));
        let cells = [
            (0x0e20, Cell::Number(bytes.len() as u64)),
            (0x3704, Cell::Bytes(&name)),
            (0x3705, Cell::Number(1)),
            (0x370b, Cell::Number(0xffff_ffff)),
        ];
        table.add(nid, &cells)?;
        made.push(attachment(alloc, &name, bytes, nid, encoded)?)?;
    }
    let Written { tree, held } = table.written(false)?;
    let mut parts = Vec::new(alloc);
    parts.push(Part {
        nid: ATTACHMENTS,
        tree,
        held,
    })?;
    for part in made {
        parts.push(part)?;
    }
    Ok(parts)
}
