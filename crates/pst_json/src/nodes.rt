//! The nodes of a file as a document.

ghost use Rattle.std.specs.Prelude.{◌≡◌, IfOk, OnOk};
ghost use Rattle.serde_json.specs.View.{view};
ghost use Rattle.pst_btree.specs.Trees.{node_entries};
ghost use Rattle.pst_json.specs.Nodes.{node_data, nodes_data, nodes_line as line_of_nodes};
ghost use Rattle.pst_value_json.specs.pst_text.Parts.{list_data};

use pst_btree::{NodeEntry, NodeTree};
use pst_value_json::{Leaf, Pen, end_line, only};
use serde_json::Value as Doc;
use std::alloc::{AllocError, Global};

// Writes a node, as an object.
#[tactic(auto, unfolding(crate::specs::Nodes::node_data))]
fn write_node<P: Pen>(alloc: Global, entry: &NodeEntry, pen: &mut P) -> Result<(), AllocError>
    ensures put { OnOk result (P.Puts pen.old pen.new (node_data entry.now)) }
    ensures kept { (base : P) → P.Keeps base pen.old → P.Keeps base pen.new }
{
    pen.first(alloc, "data_bid", b"{\"data_bid\":")?;
    pen.leaf(alloc, &Leaf::Natural(entry.bid_data))?;
    pen.next(alloc, "nid", b",\"nid\":")?;
    pen.leaf(alloc, &Leaf::Nid(Some(entry.nid)))?;
    pen.next(alloc, "parent", b",\"parent\":")?;
    pen.leaf(alloc, &Leaf::Nid(Some(entry.parent)))?;
    pen.next(alloc, "sub_bid", b",\"sub_bid\":")?;
    pen.leaf(alloc, &Leaf::Natural(entry.bid_sub))?;
    pen.close(alloc)
}

// Writes the nodes, as a list.
fn write_entries<P: Pen>(alloc: Global, tree: &NodeTree, pen: &mut P) -> Result<(), AllocError>
    ensures put { OnOk result
        (P.Puts pen.old pen.new (list_data node_data (node_entries tree.now))) }
    ensures kept { (base : P) → P.Keeps base pen.old → P.Keeps base pen.new }
{
    pen.open_list(alloc)?;
    let mut later = false;
    for entry in tree.nodes() {
        pen.comma(later)?;
        write_node(alloc, &entry, pen)?;
        pen.item(alloc)?;
        later = true;
    }
    pen.close_list(later)
}

// Writes the document.
#[tactic(auto, unfolding(crate::specs::Nodes::nodes_data))]
fn write_nodes<P: Pen>(alloc: Global, tree: &NodeTree, pen: &mut P) -> Result<(), AllocError>
    ensures put { OnOk result (P.Puts pen.old pen.new (nodes_data (node_entries tree.now))) }
    ensures kept { (base : P) → P.Keeps base pen.old → P.Keeps base pen.new }
{
    pen.first(alloc, "nodes", b"{\"nodes\":")?;
    write_entries(alloc, tree, pen)?;
    pen.close(alloc)
}

/// The nodes of a file as a JSON object with one member, an array that has an object for each node in order of their
/// identifiers. Its keys stand in the order of their bytes. The identifiers of blocks are numbers, those of nodes texts.
pub fn nodes_doc(alloc: Global, tree: &NodeTree) -> Result<Doc, AllocError>
    ensures { IfOk result (λ d. view d ≡ nodes_data (node_entries tree.now)) }
{
    let mut docs = Vec::new(alloc);
    write_nodes(alloc, tree, &mut docs)?;
    Ok(only(docs))
}

/// The line that shows the nodes of a file: the compact text of their document, and a line feed. No memory is taken beside the text.
#[tactic(auto, unfolding(crate::specs::Nodes::nodes_line, pst_text::specs::Line::data_line))]
pub fn nodes_line(alloc: Global, tree: &NodeTree) -> Result<Vec<u8>, AllocError>
    ensures { IfOk result (λ t. t.items ≡ line_of_nodes (node_entries tree.now)) }
{
    let mut text = Vec::new(alloc);
    write_nodes(alloc, tree, &mut text)?;
    end_line(text)
}
