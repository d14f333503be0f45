//! A store of mail as people have it ([MS-PST] 2.4.5): long texts in several scripts, bodies in HTML and in compressed RTF,
//! internet headers, keys and entry identifiers. Each message is another one.

use crate::chance::Chance;
use crate::folders::begin;
use crate::image::Image;
use crate::mail::{Folders, drawn_folder, message_nid};
use crate::message::{Message, drawn_attached, drawn_recipients, drawn_time};
use crate::pages::finished;
use crate::parts::{all_parts, attachments, recipients};
use crate::phrases::Phrases;
use crate::properties::{BINARY, BOOLEAN, INTEGER32, Properties, STRING, TIME, Written};
use crate::texts::{text, units_of};
use std::alloc::{AllocError, Global};

// How many bytes the pool has, and how many of them an attachment has at most.
const POOL: u32 = 600_000;

const LONGEST_FILE: u32 = 256_000;

// What messages are made of: phrases, and bytes without an order.
#[derive(Drop)]
struct Stock {
    phrases: Phrases,
    pool: Vec<u8>,
}

impl Stock {
    fn new(alloc: Global, chance: &mut Chance) -> Result<Stock, AllocError> {
        let phrases = Phrases::new(alloc, chance)?;
        let mut pool = Vec::with_capacity(alloc, POOL as usize)?;
        for _ in 0..POOL {
            pool.push((chance.below(256) & 0xff) as u8)?;
        }
        Ok(Stock { phrases, pool })
    }

    // So many bytes of the pool, from a place on that chance gives.
    fn bytes(&self, chance: &mut Chance, length: u32) -> &[u8] {
        let from = chance.below(POOL.saturating_sub(length)) as usize;
        let end = from.saturating_add(length as usize);
        self.pool.get(from..end).unwrap_or(&self.pool)
    }

    // Sets a property to bytes of the pool.
    fn put(
        &self,
        made: &mut Properties,
        chance: &mut Chance,
        id: u16,
        length: u32,
    ) -> Result<(), AllocError> {
        made.bytes(id, BINARY, self.bytes(chance, length))
    }
}

// What a message is about, who sent it, and when.
#[derive(Drop)]
struct Heads {
    subject: Vec<u8>,
    sender: Vec<u8>,
    address: Vec<u8>,
    sent: u64,
}

impl Heads {
    fn new(alloc: Global, chance: &mut Chance) -> Result<Heads, AllocError> {
        let lengths = [chance.spread(8, 4), chance.spread(6, 3)];
        Ok(Heads {
            subject: text(alloc, chance, lengths[0])?,
            sender: text(alloc, chance, lengths[1])?,
            address: text(alloc, chance, lengths[1].saturating_add(12))?,
            sent: drawn_time(chance),
        })
    }

    // The properties up to those of the message itself, in order of their identifiers.
    fn put(
        &self,
        made: &mut Properties,
        chance: &mut Chance,
        stock: &Stock,
        words: &[Vec<u8>; 2],
    ) -> Result<(), AllocError> {
        let [class, smtp] = words;
        made.bytes(0x001a, STRING, class)?;
        made.bytes(0x0037, STRING, &self.subject)?;
        made.bytes(0x0039, TIME, &self.sent.to_le_bytes())?;
        stock.put(made, chance, 0x003b, 40)?;
        stock.put(made, chance, 0x0041, 100)?;
        made.bytes(0x0042, STRING, &self.sender)?;
        made.bytes(0x0070, STRING, &self.subject)?;
        stock.put(made, chance, 0x0071, 22)?;
        let length = chance.spread(800, 3);
        made.bytes(0x007d, STRING, &stock.phrases.plain(chance, length)?)?;
        stock.put(made, chance, 0x0c19, 100)?;
        made.bytes(0x0c1a, STRING, &self.sender)?;
        stock.put(made, chance, 0x0c1d, 40)?;
        made.bytes(0x0c1e, STRING, smtp)?;
        made.bytes(0x0c1f, STRING, &self.address)?;
        made.bytes(0x0e04, STRING, &self.sender)?;
        made.bytes(0x0e06, TIME, &self.sent.to_le_bytes())
    }
}

// The bodies and what stands behind them: the text, of half of the messages one in RTF, of three quarters one in HTML.
fn put_bodies(
    made: &mut Properties,
    chance: &mut Chance,
    stock: &Stock,
    body: &[u8],
    sent: u64,
) -> Result<(), AllocError> {
    made.bytes(0x1000, STRING, body)?;
    if chance.below(2) == 0 {
        let length = chance.spread(785, 7);
        stock.put(made, chance, 0x1009, length)?;
    }
    if chance.below(4) != 0 {
        let length = chance.spread(785, 7);
        made.bytes(0x1013, BINARY, &stock.phrases.html(chance, length)?)?;
    }
    made.bytes(0x3007, TIME, &sent.to_le_bytes())?;
    made.bytes(0x3008, TIME, &sent.to_le_bytes())?;
    stock.put(made, chance, 0x300b, 16)?;
    made.number(0x3fde, INTEGER32, 65_001)
}

// A message that chance makes.
fn long_message(
    alloc: Global,
    chance: &mut Chance,
    stock: &Stock,
    words: &[Vec<u8>; 2],
) -> Result<Message, AllocError> {
    let heads = Heads::new(alloc, chance)?;
    let length = chance.spread(234, 8);
    let body = stock.phrases.text(chance, length)?;
    let size = u32::try_from(body.len()).unwrap_or(0);
    let attached = drawn_attached(chance);
    let mut made = Properties::new(alloc, false)?;
    heads.put(&mut made, chance, stock, words)?;
    let flags = attached.min(1).saturating_mul(16).saturating_add(1);
    made.number(0x0e07, INTEGER32, flags)?;
    made.number(0x0e08, INTEGER32, size)?;
    made.number(0x0e1b, BOOLEAN, attached.min(1))?;
    put_bodies(&mut made, chance, stock, &body, heads.sent)?;
    let mut parts = Vec::new(alloc);
    if attached > 0 {
        let files = stock.bytes(chance, LONGEST_FILE);
        parts = attachments(alloc, chance, files, attached, false)?;
    }
    let count = drawn_recipients(chance);
    parts.push(recipients(alloc, chance, count, false)?)?;
    let Written { tree, held } = made.written()?;
    let parts = all_parts(alloc, parts, held)?;
    let Heads {
        subject,
        sender,
        sent,
        ..
    } = heads;
    Ok(Message {
        tree,
        parts,
        subject,
        sender,
        size,
        sent,
    })
}

/// A store of so many messages, some 64 KB each.
pub(crate) fn long_mail(alloc: Global, seed: u64, count: u32) -> Result<Vec<u8>, AllocError> {
    let mut chance = Chance::new(seed);
    let stock = Stock::new(alloc, &mut chance)?;
    let words = [units_of(alloc, "IPM.Note")?, units_of(alloc, "SMTP")?];
    let mut image = Image::new(alloc, (count as usize).saturating_mul(72_000))?;
    begin(&mut image, false)?;
    let mut folders = Folders::new(alloc, false)?;
    for number in 0..count {
        let inside = drawn_folder(&mut chance);
        let message = long_message(alloc, &mut chance, &stock, &words)?;
        folders.put(&mut image, inside, message_nid(number), &message)?;
    }
    folders.close(&mut image)?;
    finished(image, 0)
}
