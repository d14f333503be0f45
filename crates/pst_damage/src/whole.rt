//! What is whole of a damaged file.

ghost use Rattle.std.specs.Prelude.{◌≡◌, ◌-◌};
ghost use Rattle.std.specs.List.{count_by};
ghost use Rattle.pst_damage.specs.Judged.{Judged, sound_by, broken_by};
ghost use Rattle.pst_damage.specs.Whole.{whole_of as counts, folder_entry, message_entry, folder_node, message_node};

use crate::broken::BrokenNode;
use pst_btree::NodeEntry;
use pst_msg::{is_folder, is_message};

/// How many nodes that are left of a damaged file have no fault; and how many of these are folders or search folders, and how
/// many messages, also those that belong to a folder itself ([MS-PST] 2.2.2.1).
#[derive(Clone, Copy, Debug, PartialEq, Eq)]
pub struct Whole {
    pub nodes: usize,
    pub folders: usize,
    pub messages: usize,
}

// How many more folders stand among some nodes than among broken ones.
fn folders_beside(nodes: &[NodeEntry], told: &[BrokenNode]) -> usize
    ensures { result ≡ count_by folder_entry nodes.now - count_by folder_node told.now }
{
    let all = nodes.iter().filter(|entry| is_folder(entry.nid)).count();
    let broken = told.iter().filter(|node| is_folder(node.nid)).count();
    all.saturating_sub(broken)
}

fn messages_beside(nodes: &[NodeEntry], told: &[BrokenNode]) -> usize
    ensures { result ≡ count_by message_entry nodes.now - count_by message_node told.now }
{
    let all = nodes.iter().filter(|entry| is_message(entry.nid)).count();
    let broken = told.iter().filter(|node| is_message(node.nid)).count();
    all.saturating_sub(broken)
}

/// What is whole of these nodes, where all that is broken of them was told.
#[tactic(auto, using(crate::proofs::WholeLemmas::whole_beside))]
pub(crate) fn whole_of(nodes: &[NodeEntry], told: &[BrokenNode]) -> Whole
    ensures { (part : Judged) → told.now ≡ broken_by part nodes.now →
        result ≡ counts (sound_by part nodes.now) }
{
    Whole {
        nodes: nodes.len().saturating_sub(told.len()),
        folders: folders_beside(nodes, told),
        messages: messages_beside(nodes, told),
    }
}
