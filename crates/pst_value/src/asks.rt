//! What a context asks of the list of subnodes of its node.

ghost use Rattle.std.specs.Prelude.{◌≡◌};
ghost use Rattle.pst_ndb.specs.Views.{table_of_node, roots_of};
ghost use Rattle.pst_value.specs.Asks.{is_fitting, has_matrix};

use crate::check::has_length;
use crate::prop_type::PropType;
use pst_fault::Fault;
use pst_ndb::Node;
use pst_page::PageKind;
use std::alloc::Global;
use std::collections::BTreeSet;

/// What a context asks of the list of subnodes of its node: which subnodes have to be there, each with data of a length that the
/// type of a value allows; and in a table context which data the row matrix has, where that is a subnode. A context that was found
/// without fault by one list has none by any other list that meets this.
#[derive(Drop)]
pub struct Asks {
    // The identifiers of subnodes that values name, each with the type of the value.
    values: BTreeSet<(u32, u16)>,
    // The identifier of the row matrix, and the block of its data, bit 0 cleared; None where it is no subnode.
    matrix: Option<(u32, u64)>,
}

// Whether a node has a subnode whose data has a length that a type allows.
#[tactic(auto, unfolding(crate::specs::Asks::is_fitting))]
fn has_fitting(node: Node, nid: u32, kind: u16) -> bool
    ensures { let t = table_of_node node.entry in
        result ≡ is_fitting t (roots_of node.entry) (nid, kind) }
{
    match node.sub(nid) {
        Some(sub) => has_length(PropType(kind), sub.spans().size()),
        None => false,
    }
}

// Whether a node has a subnode whose data begins with this block.
fn has_block(node: Node, nid: u32, block: u64) -> bool
    ensures { let t = table_of_node node.entry in
        result ≡ has_matrix t (roots_of node.entry) (Some (nid, block)) }
{
    match node.sub(nid) {
        Some(sub) => PageKind::Bbt.key_of(sub.bid_data()) == block,
        None => false,
    }
}

impl Asks {
    ghost use Rattle.std.specs.Prelude.{◌≡◌, ℕ, true, length, Option, OnOk, IfErr};
    ghost use Rattle.std.specs.BTreeSet.{keys};
    ghost use Rattle.pst_block.specs.Table.{Table};
    ghost use Rattle.pst_fault.specs.Fault.{no_memory};
    ghost use Rattle.pst_ndb.specs.Roots.{Roots};
    ghost use Rattle.pst_ndb.specs.Views.{table_of_node, roots_of};
    ghost use Rattle.pst_value.specs.Asks.{is_fitting, all_fit, has_matrix};
    ghost use Rattle.pst_value.specs.Met.{asked_matrix, asked_values, are_met, AsksMore};

    /// Nothing is asked but for the row matrix, by the identifier of its subnode and the block of its data, where it is one.
    /// No memory is taken.
    #[tactic(auto, unfolding(crate::specs::Met::are_met))]
    pub fn of_matrix(alloc: Global, matrix: Option<(u32, u64)>) -> Asks
        ensures { (t : Table) (s : Roots) → are_met t s result ≡ has_matrix t s matrix }
    {
        Asks {
            values: BTreeSet::new(alloc),
            matrix,
        }
    }

    /// How many subnodes are asked for by values, each once for each type of a value there.
    pub fn len(&self) -> usize
        ensures { result ≡ length (asked_values self.now) }
    {
        self.values.len()
    }

    /// The identifier of the row matrix, and the block of its data, where it is a subnode.
    pub fn matrix(&self) -> Option<(u32, u64)>
        ensures { result ≡ asked_matrix self.now }
    {
        self.matrix
    }

    /// Asks for a subnode in which a value of a type lies. NoMemory where memory is refused.
    pub fn put(&mut self, nid: u32, kind: u16) -> Result<(), Fault>
        ensures more { AsksMore self.old self.new }
        ensures there { OnOk result ((t : Table) (s : Roots) →
            are_met t s self.new ≡ true → is_fitting t s (nid, kind) ≡ true) }
        ensures memory { IfErr result (λ f. f ≡ no_memory) }
    {
        self.values.insert((nid, kind))?;
        Ok(())
    }

    // Whether a node has each of the subnodes that values ask for.
    fn all_fit(&self, node: Node) -> bool
        ensures { let t = table_of_node node.entry in
            result ≡ all_fit t (roots_of node.entry) (keys self.now.values) }
    {
        let mut rest = self.values.iter();
        while let Some(ask) = rest.next() {
            if !has_fitting(node, ask.0, ask.1) {
                return false;
            }
        }
        true
    }

    /// Whether the list of a node's subnodes meets all that is asked. Each is looked up as `Node::sub` does.
    #[tactic(auto, unfolding(crate::specs::Met::are_met))]
    pub fn are_met(&self, node: Node) -> bool
        ensures { let t = table_of_node node.entry in
            result ≡ are_met t (roots_of node.entry) self.now }
    {
        if let Some((nid, block)) = self.matrix {
            if !has_block(node, nid, block) {
                return false;
            }
        }
        self.all_fit(node)
    }
}
