//! How many bytes a block takes, and its body.

ghost use Rattle.std.specs.Prelude.{◌≡◌, ◌+◌, ◌%◌, ◌≤◌};
ghost use Rattle.pst_header.specs.declared.header.TheConstants.{UNIT};
ghost use Rattle.pst_block.specs.Block.{block_size as size_of, body_span as span_of};

use pst_bytes::Span;
use pst_header::UNIT;
use pst_page::BlockEntry;

/// How many bytes a block takes whose body has `cb` bytes: those and the 16 of its trailer, rounded up to whole units
/// ([MS-PST] 2.2.2.8).
#[tactic(auto, unfolding(crate::specs::Block::block_size))]
pub fn block_size(cb: u16) -> u64
    ensures value { result ≡ size_of cb }
    ensures large { cb + 16 ≤ result }
    ensures small { result ≤ cb + 79 }
    ensures whole { result % UNIT ≡ 0 }
{
    (u64::from(cb) + 79) / UNIT * UNIT
}

/// Where the body of an entry's block lies.
pub(crate) fn body_span(entry: BlockEntry) -> Span
    ensures { result ≡ span_of entry }
{
    Span {
        at: entry.ib,
        len: u64::from(entry.cb),
    }
}
