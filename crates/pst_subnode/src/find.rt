//! Look-ups in subnode lists.

ghost use Rattle.std.specs.Prelude.{◌≡◌, None};
ghost use Rattle.pst_block.specs.Blocks.{table_of};
ghost use Rattle.pst_btree.specs.Entries.{first_with};
ghost use Rattle.pst_subnode.specs.List.{sub_nid, subs_of};
ghost use Rattle.pst_subnode.specs.Left.{subs_left};
ghost use Rattle.pst_subnode.specs.Tree.{sub_fault};
ghost use Rattle.pst_subnode.specs.declared.check.TheConstants.{LISTS};

use crate::entries::Subs;
use crate::guess::guess;
use crate::scan::scan;
use crate::sub::Sub;
use pst_block::Blocks;

/// The entries of the subnode list of a block identifier, in order, those of an SIBLOCK's SLBLOCKs one after another
/// ([MS-PST] 2.2.2.8.3.3). An identifier that names no block, or a block that is no list, has none.
pub fn subs<'a>(blocks: &Blocks<'a>, bid: u64) -> Subs<'a>
    ensures { subs_left result ≡ subs_of (table_of blocks.now) bid }
{
    Subs::of_bid(blocks, bid)
}

/// The entry of a subnode in the list of a block identifier, which has no fault. It takes some ten steps where the
/// identifiers rise, as writers let them; else, and where there is none, one for each entry.
pub fn find_sub(blocks: &Blocks, bid: u64, nid: u32) -> Option<Sub>
    requires { sub_fault (table_of blocks.now) LISTS bid ≡ None }
    ensures { result ≡ first_with sub_nid nid (subs_of (table_of blocks.now) bid) }
{
    match guess(blocks, bid, nid) {
        Some(sub) => Some(sub),
        None => scan(blocks, bid, nid),
    }
}
