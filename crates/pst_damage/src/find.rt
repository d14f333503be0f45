//! How all that is broken of a file is found.

ghost use Rattle.std.specs.Prelude.{◌≡◌, ◌≤◌, length, IfOk, IfErr};
ghost use Rattle.pst_bytes.specs.Image.{bytes_of};
ghost use Rattle.pst_fault.specs.Fault.{no_memory};
ghost use Rattle.pst_remains.specs.View.{parts_in};
ghost use Rattle.pst_damage.specs.Damage.{damage_in, damage_of};
ghost use Rattle.pst_damage.specs.View.{damage_parts};

use crate::damage::Damage;
use crate::judge::judge_nodes;
use pst_bytes::Image;
use pst_fault::Fault;
use pst_remains::{Remains, find_remains};
use std::alloc::Global;

/// All that is broken of a file of which this remains: what was told of it, and then the nodes that are left of it, as
/// `find_damage` says. NoMemory where memory is refused; nothing else is refused.
#[tactic(auto, unfolding(crate::specs::Damage::damage_in))]
pub fn damage_beside(alloc: Global, remains: Remains) -> Result<Damage, Fault>
    ensures exact { IfOk result (λ d. damage_parts d ≡ damage_in (parts_in remains.entry)) }
    ensures err { IfErr result (λ f. f ≡ no_memory) }
{
    let judged = judge_nodes(
        alloc,
        remains.good_blocks(),
        remains.node_list(),
        &remains.broken,
    )?;
    Ok(Damage {
        header: remains.header,
        pages: remains.pages,
        blocks: remains.blocks,
        maps: remains.maps,
        nodes: judged.broken,
        whole: judged.whole,
    })
}

/// All that is broken of a file whose magic numbers, version and method are right ([MS-PST] 2.2.2.6), part by part. First what
/// `find_remains` tells of its header, pages, blocks and allocation maps; then the nodes that are left, over the blocks without
/// fault, each with its first fault:
///
/// - of its data tree, as `check_data` says, and then of its subnodes, as `check_sub` says: a node that leads to a block that
///   is broken or has no entry has BlockMissing, with that block's identifier;
/// - where there is none, that the node of the store, 0x21, has properties; that the node of the name map, 0x61, is a name map;
///   and of a folder, a search folder or a message what `check_messaging` says of it. A folder passes over a table whose own
///   node is broken or not there, and over each row that names what lies behind a page with a fault: this is neither
///   NodeMissing nor NodeKind.
///
/// Of the nodes 0x21 and 0x122, the root folder, NodeMissing is told at their place among these, where they are neither left
/// nor lie behind a page with a fault. And it is counted what is whole.
///
/// What is found without fault is remembered, and passed over where it is met again. Of what has one the fault is remembered by the
/// blocks of its data and of its subnodes: of the data tree of a node and of each list and data of a subnode below it, of a context in
/// each role, of the rows of a folder's table by its data alone, and of what a message holds by its list of subnodes alone, where it
/// is that of a context; so each is gone through once, however many nodes lead to it. An XBLOCK is gone through, up to the fault, for
/// each node that leads to it by blocks of its own, and so is a message that names what is missing, or of another type. Of a node
/// nothing is kept in memory beside what `find_remains` keeps, and at most 80 bytes where it is broken; and some 100 of each fault
/// that is remembered.
///
/// NoMemory where memory is refused.
#[tactic(auto, unfolding(crate::specs::Damage::damage_of))]
pub fn find_damage(alloc: Global, image: Image) -> Result<Damage, Fault>
    requires { 564 ≤ length (bytes_of image) }

    // All that is broken.
    ensures exact { IfOk result (λ d. damage_parts d ≡ damage_of (bytes_of image.entry)) }

    // Only memory refuses.
    ensures err { IfErr result (λ f. f ≡ no_memory) }
{
    let remains = find_remains(alloc, image)?;
    damage_beside(alloc, remains)
}
