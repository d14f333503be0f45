//! A store of mail ([MS-PST] 2.4): a few folders, of which the first have most of the messages.

use crate::chance::Chance;
use crate::folders::{INBOX, ROOT, begin, folder};
use crate::image::Image;
use crate::message::{Kind, Message, drawn_message, lay_written};
use crate::pages::finished;
use crate::properties::{INTEGER32, STRING, TIME};
use crate::table::{Cell, Table};
use crate::texts::units_of;
use std::alloc::{AllocError, Global};

// How many messages are made, of which each is laid down many times, and how many folders they lie in.
const MADE: u32 = 256;

const FOLDERS: u32 = 8;

// How many bytes the attachments are made of.
const POOL: u32 = 300_000;

const COLUMNS: [(u16, u16); 7] = [
    (0x001a, STRING),
    (0x0037, STRING),
    (0x0042, STRING),
    (0x0c1a, STRING),
    (0x0e06, TIME),
    (0x0e07, INTEGER32),
    (0x0e08, INTEGER32),
];

/// The identifier of the message with a number.
pub(crate) fn message_nid(number: u32) -> u32 {
    0x2_0000_u32
        .saturating_add(number)
        .saturating_mul(32)
        .saturating_add(4)
}

// A row of the contents table of a folder.
fn add_row<'a>(
    table: &mut Table,
    nid: u32,
    class: &'a [u8],
    message: &'a Message,
) -> Result<(), AllocError> {
    let cells = [
        (0x001a, Cell::Bytes(class)),
        (0x0037, Cell::Bytes(&message.subject)),
        (0x0042, Cell::Bytes(&message.sender)),
        (0x0c1a, Cell::Bytes(&message.sender)),
        (0x0e06, Cell::Number(message.sent)),
        (0x0e07, Cell::Number(1)),
        (0x0e08, Cell::Number(u64::from(message.size))),
    ];
    table.add(nid, &cells)
}

// Messages that chance makes.
fn messages(
    alloc: Global,
    chance: &mut Chance,
    kind: Kind,
    encoded: bool,
) -> Result<Vec<Message>, AllocError> {
    let mut pool = Vec::new(alloc);
    for _ in 0..POOL {
        pool.push((chance.below(256) & 0xff) as u8)?;
    }
    let mut made = Vec::new(alloc);
    for _ in 0..MADE {
        made.push(drawn_message(alloc, chance, &pool, kind, encoded)?)?;
    }
    Ok(made)
}

/// The folder of the next message: each has about half of what is left.
pub(crate) fn drawn_folder(chance: &mut Chance) -> u32 {
    (chance.below(256) | 0x80)
        .leading_zeros()
        .saturating_sub(24)
        .min(FOLDERS.saturating_sub(1))
}

/// The folders of a store, into which messages are put.
#[derive(Drop)]
pub(crate) struct Folders {
    class: Vec<u8>,
    tables: Vec<Table>,
    encoded: bool,
}

impl Folders {
    /// Eight without messages.
    pub(crate) fn new(alloc: Global, encoded: bool) -> Result<Folders, AllocError> {
        let class = units_of(alloc, "IPM.Note")?;
        let mut tables = Vec::new(alloc);
        for _ in 0..FOLDERS {
            tables.push(Table::new(alloc, &COLUMNS, encoded)?)?;
        }
        Ok(Folders {
            class,
            tables,
            encoded,
        })
    }

    /// Writes a message, and puts it into the folder with a number, at most seven.
    pub(crate) fn put(
        &mut self,
        image: &mut Image,
        inside: u32,
        nid: u32,
        message: &Message,
    ) -> Result<(), AllocError> {
        let Some(table) = self.tables.get_mut(inside as usize) else {
            return Ok(());
        };
        let (data, sub) = message.lay(image)?;
        let parent = INBOX.saturating_add(inside.saturating_mul(32));
        image.node(nid, data, sub, parent)?;
        add_row(table, nid, &self.class, message)
    }

    /// Writes them, and the root folder above them.
    pub(crate) fn close(self, image: &mut Image) -> Result<(), AllocError> {
        let Folders {
            tables,
            encoded,
            ..
        } = self;
        let mut nid = INBOX;
        let mut names = Vec::new(image.alloc);
        for table in tables {
            let falling = nid % 64 == 2;
            let written = table.written(falling)?;
            let contents = lay_written(image, &written)?;
            folder(image, nid, ROOT, "Mail", &[], Some(contents), encoded)?;
            names.push(nid)?;
            nid = nid.saturating_add(32);
        }
        folder(image, ROOT, ROOT, "", &names, None, encoded)
    }
}

/// A store of so many messages.
pub(crate) fn mail(
    alloc: Global,
    seed: u64,
    count: u32,
    kind: Kind,
    encoded: bool,
) -> Result<Vec<u8>, AllocError> {
    let mut chance = Chance::new(seed);
    let made = messages(alloc, &mut chance, kind, encoded)?;
    let mut image = Image::new(alloc, (count as usize).saturating_mul(3_000))?;
    begin(&mut image, encoded)?;
    let mut folders = Folders::new(alloc, encoded)?;
    for number in 0..count {
        let inside = drawn_folder(&mut chance);
        let drawn = chance.below(MADE) as usize;
        if let Some(message) = made.get(drawn) {
            folders.put(&mut image, inside, message_nid(number), message)?;
        }
    }
    folders.close(&mut image)?;
    finished(image, u8::from(encoded))
}
