//! Runs over stores with bytes changed: what a case is, and how it is run.

use super::heaps::{Numbered, Property, context_of, heap_of, numbered_of, table_of};
use super::ran;
use crate::told::is_at;
use pst_make::{BlockPlan, Change, NodePlan, Plan, build, change_all, m0, m0_plan, m1, m2};
use std::alloc::Global;
use std::process::Abort;
use std::str;
use std::test::Fail;

/// The bytes of a block.
#[derive(Clone, Copy)]
pub(super) enum Body<'a> {
    /// These.
    Bytes(&'a [u8]),
    /// So many zero bytes.
    Zeros(usize),
    /// Those of a block that names others: its first 8 bytes, and then numbers of 8 bytes.
    Names([u8; 8], &'a [u64]),
    /// Those of a heap, by the last byte of its signature and its items.
    Heap(u8, &'a [&'a [u8]]),
    /// Those of a property context.
    Properties(&'a [Property<'a>]),
    /// Those of one whose properties are numbered.
    Numbered(&'a [Numbered<'a>]),
    /// Those of a table whose rows have these identifiers, and nothing else.
    Rows(&'a [u32]),
}

/// A store, before bytes are changed in it.
#[derive(Clone, Copy)]
pub(super) enum Store<'a> {
    /// A message store and a root folder.
    M0,
    /// Those, and a hierarchy table that names one folder more.
    M1,
    /// A message store, a root folder with a named property, and a name map.
    M2,
    /// M0 with more blocks, each its identifier and its bytes, and more nodes, each its identifier, its data and its
    /// subnodes.
    Wider(&'a [(u64, Body<'a>)], &'a [(u32, u64, u64)]),
    /// M0 with node 0x201, below which lie so many subnode lists, each below the one before.
    Nested(u64),
    /// M0 with a second region, and behind its allocation map a page of another map, whose units are marked.
    TwoRegions,
}

/// What is answered.
#[derive(Clone, Copy)]
pub(super) enum Answer<'a> {
    /// This document.
    Yes(&'a str),
    /// The line of a fault.
    No(&'a str),
}

/// A file and the answer to it.
#[derive(Clone, Copy)]
pub(super) struct Case<'a> {
    /// What it is, in words.
    pub what: &'a str,
    /// The store that it is made of.
    pub store: Store<'a>,
    /// What is done to its bytes, in order.
    pub changes: &'a [Change<'a>],
    /// What is answered.
    pub answer: Answer<'a>,
}

/// The first bytes of a subnode list of one entry.
pub(super) const LIST_OF_ONE: [u8; 8] = [2, 0, 1, 0, 0, 0, 0, 0];

/// The first bytes of a subnode list of two entries.
pub(super) const LIST_OF_TWO: [u8; 8] = [2, 0, 2, 0, 0, 0, 0, 0];

/// Words, and what is answered to them.
pub(super) type Asked<'a> = (&'a [&'a str], Answer<'a>);

fn body_of(alloc: Global, body: Body) -> Result<Vec<u8>, Fail> {
    match body {
        Body::Bytes(bytes) => Ok(Vec::from_slice(alloc, bytes)?),
        Body::Zeros(len) => Ok(vec![in alloc; 0u8; len]?),
        Body::Names(front, numbers) => {
            let mut bytes = Vec::from_slice(alloc, &front)?;
            for number in numbers {
                bytes.extend_from_slice(&number.to_le_bytes())?;
            }
            Ok(bytes)
        }
        Body::Heap(client, items) => heap_of(alloc, client, items),
        Body::Properties(properties) => context_of(alloc, properties),
        Body::Numbered(rows) => numbered_of(alloc, rows),
        Body::Rows(rows) => table_of(alloc, rows),
    }
}

fn add_block(alloc: Global, plan: &mut Plan, bid: u64, body: Body) -> Result<(), Fail> {
    let body = body_of(alloc, body)?;
    plan.blocks.push(BlockPlan { bid, body })?;
    Ok(())
}

fn add_node(plan: &mut Plan, nid: u32, bid_data: u64, bid_sub: u64) -> Result<(), Fail> {
    plan.nodes.push(NodePlan {
        nid,
        bid_data,
        bid_sub,
        parent: 0,
    })?;
    Ok(())
}

fn wider(
    alloc: Global,
    blocks: &[(u64, Body)],
    nodes: &[(u32, u64, u64)],
) -> Result<Vec<u8>, Fail> {
    let mut plan = m0_plan(alloc)?;
    for (bid, body) in blocks {
        add_block(alloc, &mut plan, *bid, *body)?;
    }
    for (nid, bid_data, bid_sub) in nodes {
        add_node(&mut plan, *nid, *bid_data, *bid_sub)?;
    }
    Ok(build(alloc, &plan)?)
}

// The lists are blocks 14, 18 and on, each of one subnode 0x41 without data.
fn nested(alloc: Global, lists: u64) -> Result<Vec<u8>, Fail> {
    let mut plan = m0_plan(alloc)?;
    let mut bid: u64 = 14;
    for left in (0..lists).rev() {
        let next = bid.wrapping_add(4);
        let below = if left > 0 { next } else { 0 };
        add_block(
            alloc,
            &mut plan,
            bid,
            Body::Names(LIST_OF_ONE, &[0x41, 0, below]),
        )?;
        bid = next;
    }
    add_node(&mut plan, 0x201, 0, 14)?;
    Ok(build(alloc, &plan)?)
}

// What makes M0 a store of two regions: ibFileEof and ibAMapLast, the second allocation map at 271,360, and a page of type 0x82
// at 272,384.
const SECOND_REGION: [Change<'static>; 9] = [
    Change::Grow(253_952),
    Change::Set(184, &[0x00, 0x04, 0x08]),
    Change::Set(192, &[0x00, 0x24, 0x04]),
    Change::Header,
    Change::Set(271_360, &[0xff, 0x00, 0xff]),
    Change::Set(271_856, &[0x84, 0x84, 0, 0, 0, 0, 0, 0, 0x00, 0x24, 0x04]),
    Change::Page(271_360),
    Change::Set(272_880, &[0x82, 0x82, 0, 0, 0, 0, 0, 0, 0x00, 0x28, 0x04]),
    Change::Page(272_384),
];

/// The bytes of a store.
pub(super) fn store_of(alloc: Global, store: Store) -> Result<Vec<u8>, Fail> {
    match store {
        Store::M0 => Ok(m0(alloc)?),
        Store::M1 => Ok(m1(alloc)?),
        Store::M2 => Ok(m2(alloc)?),
        Store::Wider(blocks, nodes) => wider(alloc, blocks, nodes),
        Store::Nested(lists) => nested(alloc, lists),
        Store::TwoRegions => {
            let mut image = m0(alloc)?;
            change_all(&mut image, &SECOND_REGION)?;
            Ok(image)
        }
    }
}

/// Runs words over a file, and compares the status and both outputs.
pub(super) fn ends_with<R: Abort + AllocGlobal>(
    rt: &R,
    words: &[&str],
    image: &[u8],
    wanted: (u8, &str, &str),
    what: &str,
) -> Result<(), Fail> {
    let alloc = rt.alloc();
    let (mut out, mut err) = (Vec::new(alloc), Vec::new(alloc));
    let mut input = image;
    let status = ran(alloc, words, &mut input, &mut out, &mut err)?;
    let got = (status, str::from_utf8(&out)?, str::from_utf8(&err)?);
    is_at(rt, what, got, wanted);
    Ok(())
}

// The status, the output and the error output of an answer.
fn end_of<'a>(answer: Answer<'a>) -> (u8, &'a str, &'a str) {
    match answer {
        Answer::Yes(document) => (0, document, ""),
        Answer::No(line) => (1, "", line),
    }
}

/// Runs `check` over a file, and compares what is answered.
pub(super) fn is_answered<R: Abort + AllocGlobal>(
    rt: &R,
    image: &[u8],
    answer: Answer,
    what: &str,
) -> Result<(), Fail> {
    ends_with(rt, &["check", "store.pst"], image, end_of(answer), what)
}

/// Runs words, one after another, over a store in which bytes are changed.
pub(super) fn are_asked<R: Abort + AllocGlobal>(
    rt: &R,
    store: Store,
    changes: &[Change],
    rows: &[Asked],
) -> Result<(), Fail> {
    let mut image = store_of(rt.alloc(), store)?;
    change_all(&mut image, changes)?;
    for (words, answer) in rows {
        let what = words.last().copied().unwrap_or("no words");
        ends_with(rt, words, &image, end_of(*answer), what)?;
    }
    Ok(())
}

/// Runs each case.
pub(super) fn are_answered<R: Abort + AllocGlobal>(rt: &R, cases: &[Case]) -> Result<(), Fail> {
    for case in cases {
        let mut image = store_of(rt.alloc(), case.store)?;
        change_all(&mut image, case.changes)?;
        is_answered(rt, &image, case.answer, case.what)?;
    }
    Ok(())
}
