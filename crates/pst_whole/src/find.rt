//! How what is whole of a damaged file is found.

ghost use Rattle.std.specs.Prelude.{◌≡◌, IfOk, IfErr};
ghost use Rattle.pst_fault.specs.Fault.{no_memory};
ghost use Rattle.pst_remains.specs.View.{parts_in};
ghost use Rattle.pst_whole.specs.View.{remains_whole};

use crate::told::{told_there, untold};
use crate::whole::WholeNodes;
use pst_damage::judge_nodes;
use pst_fault::Fault;
use pst_remains::Remains;
use std::alloc::Global;

/// What is whole of a file of which this remains: each node is judged by the rules of `damage`. NoMemory where memory is refused;
/// nothing else is refused.
#[tactic(auto, using(crate::proofs::LostLemmas::told_there_is, crate::proofs::LostLemmas::untold_is))]
pub fn find_whole<'a>(alloc: Global, remains: Remains<'a>) -> Result<WholeNodes<'a>, Fault>
    ensures parts { IfOk result (λ w. remains_whole w ≡ parts_in remains.entry) }
    ensures err { IfErr result (λ f. f ≡ no_memory) }
{
    let nodes = remains.node_list();
    let judged = judge_nodes(alloc, remains.good_blocks(), nodes, &remains.broken)?;
    let told = told_there(nodes, judged.broken);
    let entries = untold(alloc, nodes, &told)?;
    Ok(WholeNodes::of(remains, told, entries))
}
