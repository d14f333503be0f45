//! Folders ([MS-PST] 2.4.4), and stores of many folders and of many nodes.

use crate::chance::Chance;
use crate::image::Image;
use crate::message::lay_written;
use crate::pages::finished;
use crate::properties::{BINARY, BOOLEAN, INTEGER32, Properties, STRING};
use crate::table::{Cell, Table};
use crate::texts::{text, units_of};
use std::alloc::{AllocError, Global};

/// The root folder, and the first of those with messages.
pub(crate) const ROOT: u32 = 0x122;

pub(crate) const INBOX: u32 = 0x8082;

const COLUMNS: [(u16, u16); 4] = [
    (0x3001, STRING),
    (0x3602, INTEGER32),
    (0x3603, INTEGER32),
    (0x360a, BOOLEAN),
];

// How many folders lie in one.
const INSIDE: u32 = 12;

/// The properties of the store (2.4.3), and its map of named properties (2.4.7), which names none.
pub(crate) fn begin(image: &mut Image, encoded: bool) -> Result<(), AllocError> {
    let alloc = image.alloc;
    let mut made = Properties::new(alloc, encoded)?;
    made.bytes(0x0ff9, BINARY, &[7; 16])?;
    made.bytes(0x3001, STRING, &units_of(alloc, "Personal Folders")?)?;
    made.number(0x35df, INTEGER32, 0x89)?;
    let (data, sub) = lay_written(image, &made.written()?)?;
    image.node(0x21, data, sub, 0)?;
    let mut made = Properties::new(alloc, encoded)?;
    made.number(1, INTEGER32, 251)?;
    for id in [2, 3, 4] {
        made.bytes(id, BINARY, &[])?;
    }
    let (data, sub) = lay_written(image, &made.written()?)?;
    image.node(0x61, data, sub, 0)
}

/// A folder: its properties, the table of these subfolders, that of its messages where it has some, and that of associated ones.
pub(crate) fn folder(
    image: &mut Image,
    nid: u32,
    parent: u32,
    name: &str,
    subfolders: &[u32],
    contents: Option<(u64, u64)>,
    encoded: bool,
) -> Result<(), AllocError> {
    let name = units_of(image.alloc, name)?;
    named_folder(image, nid, parent, &name, subfolders, contents, encoded)
}

// The same with a name in 16-bit units.
fn named_folder(
    image: &mut Image,
    nid: u32,
    parent: u32,
    name: &[u8],
    subfolders: &[u32],
    contents: Option<(u64, u64)>,
    encoded: bool,
) -> Result<(), AllocError> {
    let alloc = image.alloc;
    let mut made = Properties::new(alloc, encoded)?;
    made.bytes(0x3001, STRING, name)?;
    made.number(0x3602, INTEGER32, 0)?;
    made.number(0x3603, INTEGER32, 0)?;
    made.number(0x360a, BOOLEAN, u32::from(!subfolders.is_empty()))?;
    let (data, sub) = lay_written(image, &made.written()?)?;
    image.node(nid, data, sub, parent)?;
    let mut table = Table::new(alloc, &COLUMNS, encoded)?;
    for below in subfolders {
        let cells = [
            (0x3001, Cell::Bytes(name)),
            (0x3602, Cell::Number(0)),
            (0x3603, Cell::Number(0)),
            (0x360a, Cell::Number(0)),
        ];
        table.add(*below, &cells)?;
    }
    let (data, sub) = lay_written(image, &table.written(false)?)?;
    image.node(nid.saturating_add(0x0b), data, sub, 0)?;
    let nothing = Table::new(alloc, &COLUMNS, encoded)?;
    let (empty, _) = lay_written(image, &nothing.written(false)?)?;
    let (data, sub) = contents.unwrap_or((empty, 0));
    image.node(nid.saturating_add(0x0c), data, sub, 0)?;
    image.node(nid.saturating_add(0x0d), empty, 0, 0)
}

fn nid_of(number: u32) -> u32 {
    if number == 0 {
        ROOT
    } else {
        0x1_0000_u32
            .saturating_add(number)
            .saturating_mul(32)
            .saturating_add(2)
    }
}

/// A store of so many folders, of which each but the lowest has twelve more in it.
pub(crate) fn many_folders(alloc: Global, seed: u64, count: u32) -> Result<Vec<u8>, AllocError> {
    let mut chance = Chance::new(seed);
    let mut image = Image::new(alloc, (count as usize).saturating_mul(1_100))?;
    begin(&mut image, false)?;
    for number in 0..count {
        let mut below = Vec::new(alloc);
        let first = number.saturating_mul(INSIDE).saturating_add(1);
        for inside in first..first.saturating_add(INSIDE).min(count) {
            below.push(nid_of(inside))?;
        }
        let parent = nid_of(number.saturating_sub(1) / INSIDE);
        let length = chance.spread(5, 3);
        let name = text(alloc, &mut chance, length)?;
        named_folder(
            &mut image,
            nid_of(number),
            parent,
            &name,
            &below,
            None,
            false,
        )?;
    }
    finished(image, 0)
}

/// A store of a root folder and of so many nodes that have nothing.
pub(crate) fn bare_nodes(alloc: Global, seed: u64, count: u32) -> Result<Vec<u8>, AllocError> {
    let mut chance = Chance::new(seed);
    let mut image = Image::new(alloc, (count as usize).saturating_mul(40))?;
    begin(&mut image, false)?;
    folder(&mut image, ROOT, ROOT, "", &[], None, false)?;
    let mut nid = 0x20_001f_u32;
    for _ in 0..count {
        image.node(nid, 0, 0, 0)?;
        nid = nid.saturating_add(chance.below(8).saturating_add(1).saturating_mul(32));
    }
    finished(image, 0)
}
