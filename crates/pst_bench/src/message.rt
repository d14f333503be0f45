//! Messages ([MS-PST] 2.4.5): what one is made of, laid down as often as it is wanted.

use crate::chance::Chance;
use crate::image::Image;
use crate::laid::Tree;
use crate::lists::subnode_list;
use crate::parts::{Part, all_parts, attachments, lay_held, recipients};
use crate::properties::{BOOLEAN, INTEGER32, Properties, STRING, TIME, Written};
use crate::texts::{text, units_of};
use std::alloc::{AllocError, Global};

// When the first message was sent, in 2019, and how long an hour is, in units of 100 nanoseconds.
const FIRST_TIME: u64 = 132_000_000_000_000_000;

const HOUR: u64 = 36_000_000_000;

/// A message, and what its row in a contents table shows.
#[derive(Drop)]
pub(crate) struct Message {
    pub(crate) tree: Tree,
    pub(crate) parts: Vec<Part>,
    pub(crate) subject: Vec<u8>,
    pub(crate) sender: Vec<u8>,
    pub(crate) size: u32,
    pub(crate) sent: u64,
}

/// Writes a context; gives its data and the list of its subnodes.
pub(crate) fn lay_written(image: &mut Image, written: &Written) -> Result<(u64, u64), AllocError> {
    let sub = lay_held(image, &written.held)?;
    Ok((written.tree.lay(image)?, sub))
}

impl Message {
    /// Writes it; gives its data and the list of its subnodes.
    pub(crate) fn lay(&self, image: &mut Image) -> Result<(u64, u64), AllocError> {
        let mut subs = Vec::new(image.alloc);
        for part in &self.parts {
            subs.push(part.lay(image)?)?;
        }
        let list = subnode_list(image, &subs)?;
        Ok((self.tree.lay(image)?, list))
    }
}

// What a message says of itself.
#[derive(Clone, Copy)]
struct Said<'a> {
    subject: &'a [u8],
    sender: &'a [u8],
    address: &'a [u8],
    to: &'a [u8],
    body: &'a [u8],
    sent: u64,
    attached: u32,
}

// Its properties (2.4.5.1), in order of their identifiers.
fn properties(alloc: Global, said: &Said, encoded: bool) -> Result<Written, AllocError> {
    let (class, smtp) = (units_of(alloc, "IPM.Note")?, units_of(alloc, "SMTP")?);
    let received = said.sent.saturating_add(90_000_000);
    let mut made = Properties::new(alloc, encoded)?;
    made.bytes(0x001a, STRING, &class)?;
    made.bytes(0x0037, STRING, said.subject)?;
    made.bytes(0x0039, TIME, &said.sent.to_le_bytes())?;
    made.bytes(0x0042, STRING, said.sender)?;
    made.bytes(0x0070, STRING, said.subject)?;
    made.bytes(0x0c1a, STRING, said.sender)?;
    made.bytes(0x0c1e, STRING, &smtp)?;
    made.bytes(0x0c1f, STRING, said.address)?;
    made.bytes(0x0e04, STRING, said.to)?;
    made.bytes(0x0e06, TIME, &received.to_le_bytes())?;
    made.number(
        0x0e07,
        INTEGER32,
        said.attached.min(1).saturating_mul(16).saturating_add(1),
    )?;
    made.number(
        0x0e08,
        INTEGER32,
        u32::try_from(said.body.len()).unwrap_or(0),
    )?;
    made.number(0x0e1b, BOOLEAN, said.attached.min(1))?;
    made.bytes(0x1000, STRING, said.body)?;
    made.bytes(0x3007, TIME, &received.to_le_bytes())?;
    made.bytes(0x3008, TIME, &received.to_le_bytes())?;
    made.number(0x3fde, INTEGER32, 65_001)?;
    made.written()
}

/// How long the body of a message may be, and whether files may be attached.
#[derive(Clone, Copy)]
pub(crate) struct Kind {
    pub(crate) doublings: u32,
    pub(crate) attached: bool,
}

/// When a message was sent: at a whole hour from the first on.
pub(crate) fn drawn_time(chance: &mut Chance) -> u64 {
    FIRST_TIME.saturating_add(u64::from(chance.below(50_000)).saturating_mul(HOUR))
}

/// How many files are attached: to one message in five one to three, to the others none.
pub(crate) fn drawn_attached(chance: &mut Chance) -> u32 {
    if chance.below(5) == 0 {
        chance.below(3).saturating_add(1)
    } else {
        0
    }
}

/// How many recipients there are: mostly one to four, now and then up to fifty.
pub(crate) fn drawn_recipients(chance: &mut Chance) -> u32 {
    let few = chance.below(4).saturating_add(1);
    if chance.below(20) == 0 {
        chance.below(50).saturating_add(1)
    } else {
        few
    }
}

/// A message that chance makes: with a text of every length, mostly one to four recipients and now and then up to fifty, and, where
/// that may be, one time in five with one to three attachments.
pub(crate) fn drawn_message(
    alloc: Global,
    chance: &mut Chance,
    pool: &[u8],
    kind: Kind,
    encoded: bool,
) -> Result<Message, AllocError> {
    let lengths = [
        chance.spread(8, 4),
        chance.spread(6, 3),
        chance.spread(20, kind.doublings),
    ];
    let subject = text(alloc, chance, lengths[0])?;
    let sender = text(alloc, chance, lengths[1])?;
    let address = text(alloc, chance, lengths[1].saturating_add(12))?;
    let to = text(alloc, chance, lengths[1])?;
    let body = text(alloc, chance, lengths[2])?;
    let sent = drawn_time(chance);
    let attached = if kind.attached {
        drawn_attached(chance)
    } else {
        0
    };
    let count = drawn_recipients(chance);
    let said = Said {
        subject: &subject,
        sender: &sender,
        address: &address,
        to: &to,
        body: &body,
        sent,
        attached,
    };
    let written = properties(alloc, &said, encoded)?;
    let mut parts = Vec::new(alloc);
    if attached > 0 {
        for part in attachments(alloc, chance, pool, attached, encoded)? {
            parts.push(part)?;
        }
    }
    parts.push(recipients(alloc, chance, count, encoded)?)?;
    let Written { tree, held } = written;
    let parts = all_parts(alloc, parts, held)?;
    let size = u32::try_from(body.len()).unwrap_or(0);
    Ok(Message {
        tree,
        parts,
        subject,
        sender,
        size,
        sent,
    })
}
