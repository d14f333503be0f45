//! Stores that a stranger made to be slow: contexts that share their data, each under a list of subnodes of its own, where the
//! lists are long and their identifiers do not rise.

use crate::chance::Chance;
use crate::folders::{ROOT, begin, folder};
use crate::image::Image;
use crate::laid::Tree;
use crate::lists::{Sub, leaves_of, list_over, subnode_list};
use crate::message::lay_written;
use crate::pages::finished;
use crate::properties::{BINARY, Properties, STRING, VALUE};
use crate::texts::{text, units_of};
use std::alloc::{AllocError, Global};

// How many values in subnodes a context names.
const NAMED: u32 = 200;

// The type of the nodes of search folders (2.2.2.1).
const SEARCH_FOLDER: u32 = 0x03;

fn nid_of(number: u32, kind: u32) -> u32 {
    0x1_0000_u32
        .saturating_add(number)
        .saturating_mul(32)
        .saturating_add(kind)
}

// A store, the message store and the root folder of it.
fn begun(alloc: Global) -> Result<Image, AllocError> {
    let mut image = Image::new(alloc, 4_000_000)?;
    begin(&mut image, false)?;
    folder(&mut image, ROOT, ROOT, "", &[], None, false)?;
    Ok(image)
}

// The identifiers of so many subnodes, in an order that chance gives them (the method of Fisher and Yates).
fn shuffled(
    alloc: Global,
    chance: &mut Chance,
    count: u32,
    kind: u32,
) -> Result<Vec<u32>, AllocError> {
    let mut nids = Vec::new(alloc);
    for number in 0..count {
        nids.push(nid_of(number, kind))?;
    }
    for last in 1..nids.len() {
        let other = chance.below(u32::try_from(last).unwrap_or(0).saturating_add(1)) as usize;
        if other <= last && last < nids.len() {
            nids.swap(last, other);
        }
    }
    Ok(nids)
}

/// Search folders that share a property context of 200 records, which name subnodes, under lists of their own over shared blocks
/// of so many subnodes in no order.
pub(crate) fn own_values(
    alloc: Global,
    seed: u64,
    contexts: u32,
    count: u32,
) -> Result<Vec<u8>, AllocError> {
    let mut chance = Chance::new(seed);
    let mut image = begun(alloc)?;
    let value = Tree::of_bytes(alloc, &units_of(alloc, "value")?, false)?.lay(&mut image)?;
    let mut made = Properties::new(alloc, false)?;
    for number in 0..NAMED {
        let named = nid_of(number.saturating_mul(count / NAMED), VALUE);
        made.number(
            u16::try_from(number).unwrap_or(0).saturating_add(1),
            BINARY,
            named,
        )?;
    }
    let (data, _) = lay_written(&mut image, &made.written()?)?;
    let mut subs = Vec::new(alloc);
    for nid in shuffled(alloc, &mut chance, count, VALUE)? {
        subs.push(Sub {
            nid,
            data: value,
            sub: 0,
        })?;
    }
    let leaves = leaves_of(&mut image, &subs)?;
    for number in 0..contexts {
        let list = list_over(&mut image, &leaves)?;
        image.node(nid_of(number, SEARCH_FOLDER), data, list, 0)?;
    }
    finished(image, 0)
}

/// Search folders with data of their own, of some hundred bytes, by turns with one of two long lists of subnodes in no order.
pub(crate) fn turning_lists(
    alloc: Global,
    seed: u64,
    contexts: u32,
    count: u32,
) -> Result<Vec<u8>, AllocError> {
    let mut chance = Chance::new(seed);
    let mut image = begun(alloc)?;
    let mut lists = Vec::new(alloc);
    for kind in [VALUE, 5] {
        let mut subs = Vec::new(alloc);
        for nid in shuffled(alloc, &mut chance, count, kind)? {
            subs.push(Sub {
                nid,
                data: 0,
                sub: 0,
            })?;
        }
        lists.push(subnode_list(&mut image, &subs)?)?;
    }
    for number in 0..contexts {
        let mut made = Properties::new(alloc, false)?;
        let length = chance.spread(280, 1);
        made.bytes(0x0037, STRING, &text(alloc, &mut chance, length)?)?;
        let (data, _) = lay_written(&mut image, &made.written()?)?;
        let list = lists.get((number % 2) as usize).copied().unwrap_or(0);
        image.node(nid_of(number, SEARCH_FOLDER), data, list, 0)?;
    }
    finished(image, 0)
}
