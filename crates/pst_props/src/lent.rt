//! What documents show, lent the indexes of what was shown before: of the lists of subnodes that were asked, and of the spans of data.

ghost use Rattle.std.specs.Prelude.{◌≡◌};
ghost use Rattle.pst_block.specs.Table.{Table};
ghost use Rattle.pst_ndb.specs.NodeIndexes.{AreNodeIndexes};
ghost use Rattle.pst_ndb.specs.Views.{table_of_node, nid_of, roots_of};
ghost use Rattle.pst_tc.specs.Tc.{node_of_tc};
ghost use Rattle.pst_value_json.specs.pst_pc.View.{node_of_pc};
ghost use Rattle.pst_verify.specs.pst_msg.View.{message_roots, node_of_message};

use pst_datatree::is_internal;
use pst_mail::{known_message, known_pc};
use pst_ndb::{Node, NodeIndexes};
use pst_tc::known_tc;
use pst_value_json::{Pc, Tc};
use pst_verify::Message;
use std::alloc::Global;

// So many subnodes are looked up in lists without an index.
const OFTEN: u64 = 24;

/// Indexes for what is shown, none yet: once lists without one were asked for more than 24 subnodes, one gets its. No memory is taken.
pub fn new_indexes(alloc: Global) -> NodeIndexes
    ensures { (t : Table) → AreNodeIndexes t result }
{
    NodeIndexes::new(alloc, OFTEN)
}

// Whether a node has no list, and no data but one block: there is nothing to lend it, so what is of it stays as it is.
fn is_bare(node: Node) -> bool {
    node.bid_sub() == 0 && !is_internal(node.bid_data())
}

/// A property context, whose node is lent what `NodeIndexes::lend` lends it.
pub fn lend_pc<'a>(indexes: &'a NodeIndexes, pc: Pc<'a>) -> Pc<'a>
    requires { AreNodeIndexes (table_of_node (node_of_pc pc)) indexes.now }
    ensures roots { roots_of (node_of_pc result) ≡ roots_of (node_of_pc pc.entry) }
    ensures table { table_of_node (node_of_pc result) ≡ table_of_node (node_of_pc pc.entry) }
    ensures nid { nid_of (node_of_pc result) ≡ nid_of (node_of_pc pc.entry) }
{
    if is_bare(pc.node()) {
        return pc;
    }
    pc.is_sound();
    known_pc(indexes.lend(pc.node()))
}

/// A table context, likewise.
pub fn lend_tc<'a>(indexes: &'a NodeIndexes, table: Tc<'a>) -> Tc<'a>
    requires { AreNodeIndexes (table_of_node (node_of_tc table)) indexes.now }
    ensures roots { roots_of (node_of_tc result) ≡ roots_of (node_of_tc table.entry) }
    ensures table { table_of_node (node_of_tc result) ≡ table_of_node (node_of_tc table.entry) }
{
    if is_bare(table.node()) {
        return table;
    }
    table.is_sound();
    known_tc(indexes.lend(table.node()))
}

/// A message, likewise.
pub fn lend_message<'a>(indexes: &'a NodeIndexes, message: Message<'a>) -> Message<'a>
    requires { AreNodeIndexes (table_of_node (node_of_message message)) indexes.now }
    ensures roots { message_roots result ≡ message_roots message.entry }
    ensures table { table_of_node (node_of_message result)
        ≡ table_of_node (node_of_message message.entry) }
    ensures nid { nid_of (node_of_message result) ≡ nid_of (node_of_message message.entry) }
{
    message.is_sound();
    known_message(indexes.lend(message.node()))
}
