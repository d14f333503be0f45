//! A property context as a view.

ghost use Rattle.std.specs.Prelude.{◌≡◌, None};
ghost use Rattle.pst_ndb.specs.Views.{table_of_node, roots_of};
ghost use Rattle.pst_heap.specs.View.{node_of};
ghost use Rattle.pst_pc.specs.Fault.{pc_fault};

use crate::prop::Prop;
use pst_bth::{Bth, known_bth};
use pst_bytes::Span;
use pst_heap::{Heap, known_heap};
use pst_ndb::{Node, SubIndex};
use pst_value::{PropType, known_value};

/// A property context without fault ([MS-PST] 2.3.3): a finite map from identifiers to properties.
#[derive(Clone, Copy)]
pub struct Pc<'a> {
    heap: Heap<'a>,
    ghost sound: { pc_fault (table_of_node (node_of heap)) (roots_of (node_of heap)) ≡ None },
}

impl<'a> Pc<'a> {
    ghost use Rattle.std.specs.Prelude.{◌≡◌, IfSome, None, option_map};
    ghost use Rattle.pst_bytes.specs.Image.{IsInside};
    ghost use Rattle.pst_btree.specs.Entries.{first_with};
    ghost use Rattle.pst_ndb.specs.Views.{image_of_node, table_of_node, nid_of, roots_of, IsIndexedBy};
    ghost use Rattle.pst_heap.specs.View.{node_of};
    ghost use Rattle.pst_bth.specs.View.{heap_of, sizes_in, records_of};
    ghost use Rattle.pst_pc.specs.Fault.{property_fault, pc_fault};
    ghost use Rattle.pst_pc.specs.Grammar.{IsPc};
    ghost use Rattle.pst_pc.specs.Values.{pc_sizes, pc_records, props_of, id_of};
    ghost use Rattle.pst_pc.specs.View.{node_of_pc, property_of, IsPropAt, IsPropWith};

    // That of a heap which is one.
    pub(crate) fn of(heap: Heap<'a>) -> Pc<'a>
        requires { pc_fault (table_of_node (node_of heap)) (roots_of (node_of heap)) ≡ None }
        ensures { node_of_pc result ≡ node_of heap.entry }
    {
        Pc { heap }
    }

    /// What is known of every property context: it has no first fault, so it is one by the grammar.
    #[tactic(auto, using(crate::proofs::PcLaws::none_pc))]
    pub fn is_sound(&self)
        ensures sound { let node = node_of_pc self.now in
            pc_fault (table_of_node node) (roots_of node) ≡ None }
        ensures context { let node = node_of_pc self.now in
            IsPc (table_of_node node) (roots_of node) }
    {}

    /// The node whose data it is.
    pub fn node(&self) -> Node<'a>
        ensures { result ≡ node_of_pc self.now }
    {
        self.heap.node()
    }

    /// The same, whose node is lent an index of its subnodes: values in subnodes are found by it from then on, each of n in about
    /// log n steps, in whatever order their list has them.
    #[tactic(auto, using(crate::proofs::PcLemmas::has_heap))]
    pub fn indexed(self, index: &'a SubIndex) -> Pc<'a>
        requires { IsIndexedBy (node_of_pc self) index.now }
        ensures roots { roots_of (node_of_pc result) ≡ roots_of (node_of_pc self.entry) }
        ensures image { image_of_node (node_of_pc result) ≡ image_of_node (node_of_pc self.entry) }
        ensures table { table_of_node (node_of_pc result) ≡ table_of_node (node_of_pc self.entry) }
        ensures nid { nid_of (node_of_pc result) ≡ nid_of (node_of_pc self.entry) }
    {
        Pc::of(known_heap(self.node().indexed(index)))
    }

    // The heap in which it is.
    pub(crate) fn heap(&self) -> Heap<'a>
        ensures { node_of result ≡ node_of_pc self.now }
    {
        self.heap
    }

    // Its records.
    #[tactic(auto, unfolding(crate::specs::Values::pc_records), using(crate::proofs::PcLemmas::has_bth))]
    pub(crate) fn bth(&self) -> Bth<'a>
        ensures heap { node_of (heap_of result) ≡ node_of_pc self.now }
        ensures sizes { sizes_in result ≡ pc_sizes }
        ensures records { let node = node_of_pc self.now in
            records_of result ≡ pc_records (table_of_node node) (roots_of node) }
    {
        let heap = self.heap();
        known_bth(&heap, heap.user_root(), 2, 6)
    }

    // The property of a record.
    #[tactic(auto, using(crate::proofs::PcLemmas::has_value))]
    pub(crate) fn prop(&self, id: u16, content: Span) -> Prop<'a>
        requires inside { IsInside (table_of_node (node_of_pc self.now)).image content }
        requires size { content.len ≡ 6 }
        requires sound { let node = node_of_pc self.now in
            property_fault (table_of_node node) (roots_of node) (id, content) ≡ None }
        ensures { IsPropAt (node_of_pc self.now) (id, content) result }
    {
        let heap = self.heap();
        let kind = PropType(heap.image().number16(content.at));
        let raw = Span {
            at: content.at + 2,
            len: 4,
        };
        let value = known_value(&heap, kind, raw);
        let at = value.at();
        Prop {
            id,
            kind,
            value,
            at,
        }
    }

    /// The property with an identifier; None exactly where it has none. It is found as a record of the BTH is, and its value is
    /// looked up, as an item of the heap or as a subnode, whose pieces are not gone through.
    #[tactic(auto, using(crate::proofs::PcLemmas::found_sound, crate::proofs::PcLemmas::found_property, crate::proofs::PcLemmas::found_nothing))]
    pub fn get(&self, id: u16) -> Option<Prop<'a>>
        ensures value { let node = node_of_pc self.now in
            option_map property_of result
            ≡ first_with id_of id (props_of (table_of_node node) (roots_of node)) }
        ensures lent { IfSome result (IsPropWith (node_of_pc self.now) id) }
    {
        let Some(content) = self.bth().find(u32::from(id)) else {
            return None;
        };
        Some(self.prop(id, content))
    }
}
