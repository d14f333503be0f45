//! Whole XBLOCKs of a data tree that has no fault, passed over by their totals.

ghost use Rattle.std.specs.Prelude.{◌≡◌, ℕ, ◌+◌, ◌≤◌, None, length};
ghost use Rattle.pst_block.specs.Table.{IsWithin};
ghost use Rattle.pst_block.specs.Blocks.{table_of};
ghost use Rattle.pst_datatree.specs.Cut.{cut};
ghost use Rattle.pst_datatree.specs.Named.{IfBlock};
ghost use Rattle.pst_datatree.specs.Data.{xxblock_fault, tree_fault};
ghost use Rattle.pst_datatree.specs.Position.{Passes, xxblock_left, named_left};

use crate::look::{child_count, child_entry, xblock_count, xblock_size};
use crate::named::Named;
use crate::position::Position;
use pst_block::{BlockEntry, Blocks};

// The position behind the next XBLOCK of an XXBLOCK, where its data blocks are all used up or its bytes all passed over, and
// how many bytes are to be passed over from there.
fn pass_of_xxblock(
    blocks: &Blocks,
    entry: BlockEntry,
    at: Position,
    skip: u64,
) -> Option<(Position, u64)>
    requires within { IsWithin (table_of blocks.now).image entry }
    requires sound { xxblock_fault (table_of blocks.now) entry ≡ None }
    ensures { Passes (xxblock_left (table_of blocks.now) entry) at skip result }
{
    if at.child >= child_count(blocks, entry) {
        return None;
    }
    let holder = child_entry(blocks, entry, at.child);
    let len = u64::from(xblock_count(blocks, holder));
    if at.leaf >= len {
        let place = Position {
            child: at.child + 1,
            leaf: at.leaf - len,
        };
        return Some((place, skip));
    }
    let size = xblock_size(blocks, holder);
    if at.leaf != 0 || size > skip {
        return None;
    }
    let place = Position {
        child: at.child + 1,
        leaf: 0,
    };
    Some((place, skip - size))
}

// The same of what an identifier names: only an XXBLOCK has XBLOCKs.
fn pass_of(blocks: &Blocks, named: Named, at: Position, skip: u64) -> Option<(Position, u64)>
    requires within { IfBlock named (IsWithin (table_of blocks.now).image) }
    requires sound { tree_fault (table_of blocks.now) named ≡ None }
    ensures { Passes (named_left (table_of blocks.now) named) at skip result }
{
    let Named::Xxblock(entry) = named else {
        return None;
    };
    pass_of_xxblock(blocks, entry, at, skip)
}

// The position behind all XBLOCKs that can be passed over, and how many bytes are to be passed over from there.
pub(crate) fn pass_all(blocks: &Blocks, named: Named, at: Position, skip: u64) -> (Position, u64)
    requires within { IfBlock named (IsWithin (table_of blocks.now).image) }
    requires sound { tree_fault (table_of blocks.now) named ≡ None }
    ensures same { (more : ℕ) → cut skip (skip + more) (named_left (table_of blocks.now) named at) ≡
        cut result.1 (result.1 + more) (named_left (table_of blocks.now) named result.0) }
    ensures small { result.1 ≤ skip }
    ensures fewer { length (named_left (table_of blocks.now) named result.0) ≤ length
        (named_left (table_of blocks.now) named at) }
{
    let mut place = at;
    let mut left = skip;
    while let Some((next, rest)) = pass_of(blocks, named, place, left) {
        place = next;
        left = rest;
    }
    (place, left)
}
