//! What a property context asks of the list of subnodes of its node.

ghost use Rattle.std.specs.Prelude.{◌≡◌, None, OnOk, IfErr};
ghost use Rattle.pst_bytes.specs.Image.{IsInside};
ghost use Rattle.pst_fault.specs.Each.{first_of};
ghost use Rattle.pst_fault.specs.Fault.{no_memory};
ghost use Rattle.pst_ndb.specs.Views.{table_of_node, roots_of};
ghost use Rattle.pst_heap.specs.View.{node_of, data_of};
ghost use Rattle.pst_bth.specs.View.{heap_of, sizes_in, records_of};
ghost use Rattle.pst_value.specs.Met.{AsksMore, HoldsWith};
ghost use Rattle.pst_pc.specs.Fault.{property_fault};
ghost use Rattle.pst_pc.specs.Values.{pc_sizes};

use crate::pc::Pc;
use pst_bth::Bth;
use pst_bytes::Span;
use pst_fault::Fault;
use pst_heap::Heap;
use pst_value::{Asks, PropType, ask_value};
use std::alloc::Global;

// Asks for what the value of a record does.
#[tactic(auto, unfolding(crate::specs::Fault::property_fault), using(crate::proofs::PcLemmas::has_value))]
fn ask_property(heap: &Heap, id: u32, content: Span, asks: &mut Asks) -> Result<(), Fault>
    requires inside { IsInside (data_of heap.now).image content }
    requires size { content.len ≡ 6 }
    requires sound { let node = node_of heap.now in
        property_fault (table_of_node node) (roots_of node) (id, content) ≡ None }
    ensures holds { let node = node_of heap.now in let t = table_of_node node in
        OnOk result (HoldsWith t (roots_of node) asks.new (λ s. property_fault t s (id, content))) }
    ensures more { AsksMore asks.old asks.new }
    ensures memory { IfErr result (λ f. f ≡ no_memory) }
{
    let kind = PropType(heap.image().number16(content.at));
    let raw = Span {
        at: content.at + 2,
        len: 4,
    };
    ask_value(heap, kind, raw, asks)
}

// Asks for what the values of all records do, in order.
fn ask_properties(heap: &Heap, bth: &Bth, asks: &mut Asks) -> Result<(), Fault>
    requires heap { node_of (heap_of bth.now) ≡ node_of heap.now }
    requires sizes { sizes_in bth.now ≡ pc_sizes }
    requires sound { let node = node_of heap.now in
        first_of (property_fault (table_of_node node) (roots_of node)) (records_of bth.now) ≡ None }
    ensures holds { let node = node_of heap.now in let t = table_of_node node in
        OnOk result (HoldsWith t (roots_of node) asks.new
        (λ s. first_of (property_fault t s) (records_of bth.now))) }
    ensures memory { IfErr result (λ f. f ≡ no_memory) }
{
    let mut rest = bth.records();
    while let Some(taken) = rest.next() {
        ask_property(heap, taken.0, taken.1, asks)?;
    }
    Ok(())
}

impl<'a> Pc<'a> {
    ghost use Rattle.std.specs.Prelude.{◌≡◌, IfOk, IfErr};
    ghost use Rattle.pst_fault.specs.Fault.{no_memory};
    ghost use Rattle.pst_ndb.specs.Views.{table_of_node, roots_of};
    ghost use Rattle.pst_value.specs.Met.{HoldsWith};
    ghost use Rattle.pst_pc.specs.Fault.{pc_fault};
    ghost use Rattle.pst_pc.specs.View.{node_of_pc};

    /// What it asks of the list of its node's subnodes. The same data has no fault as a property context by any other list that
    /// meets this. Its records are gone through, and no value is looked up. NoMemory, if memory runs out.
    #[tactic(auto, using(crate::proofs::PcLemmas::has_records, crate::proofs::AskLemmas::pc_holds))]
    pub fn asks(&self, alloc: Global) -> Result<Asks, Fault>
        ensures holds { let node = node_of_pc self.now in let t = table_of_node node in
            IfOk result (λ asks. HoldsWith t (roots_of node) asks (pc_fault t)) }
        ensures memory { IfErr result (λ f. f ≡ no_memory) }
    {
        let mut asks = Asks::of_matrix(alloc, None);
        ask_properties(&self.heap(), &self.bth(), &mut asks)?;
        Ok(asks)
    }
}
