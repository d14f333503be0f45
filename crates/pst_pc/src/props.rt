//! All properties, in order of their identifiers.

ghost use Rattle.std.specs.Prelude.{◌≡◌, None};
ghost use Rattle.pst_fault.specs.Each.{first_of};
ghost use Rattle.pst_ndb.specs.Views.{table_of_node, roots_of};
ghost use Rattle.pst_heap.specs.View.{data_of};
ghost use Rattle.pst_bth.specs.View.{heap_of, sizes_in};
ghost use Rattle.pst_bth.specs.Left.{bth_left, records_left};
ghost use Rattle.pst_pc.specs.Fault.{property_fault};
ghost use Rattle.pst_pc.specs.Values.{pc_sizes};
ghost use Rattle.pst_pc.specs.View.{node_of_pc};

use crate::pc::Pc;
use crate::prop::Prop;
use pst_bth::Records;

/// The properties of a property context that are left, identifiers rising. No memory is taken.
#[derive(Clone, Copy)]
pub struct Props<'a> {
    pc: Pc<'a>,
    rest: Records<'a>,
    ghost image: { let heap = heap_of (bth_left rest) in
        (data_of heap).image ≡ (table_of_node (node_of_pc pc)).image },
    ghost sizes: { sizes_in (bth_left rest) ≡ pc_sizes },
    ghost sound: { let node = node_of_pc pc in
        first_of (property_fault (table_of_node node) (roots_of node)) (records_left rest) ≡ None },
}

impl<'a> Iterator for Props<'a> {
    ghost use Rattle.std.specs.Iterator.{item_count};
    ghost use Rattle.pst_pc.specs.Left.{props_left, TakesProp};

    type Item = Prop<'a>;

    ghost next_gives = { TakesProp };

    ghost remaining = { item_count props_left };

    #[tactic(auto, unfolding(pst_bth::specs::Rows::row_key), using(crate::proofs::PcLemmas::first_sound, crate::proofs::PcLemmas::rest_sound))]
    fn next(&mut self) -> Option<Prop<'a>> {
        let (_, content) = self.rest.next()?;
        let id = self.pc.node().image().number16(content.at - 2);
        Some(self.pc.prop(id, content))
    }
}

impl<'a> Pc<'a> {
    ghost use Rattle.std.specs.Prelude.{◌≡◌};
    ghost use Rattle.pst_ndb.specs.Views.{table_of_node, roots_of};
    ghost use Rattle.pst_pc.specs.Left.{pc_left, rest_of, props_left};
    ghost use Rattle.pst_pc.specs.Values.{pc_records, props_of};
    ghost use Rattle.pst_pc.specs.View.{node_of_pc};

    /// All properties, in order of their identifiers, each once.
    #[tactic(auto, unfolding(crate::specs::Values::props_of), using(crate::proofs::PcLemmas::has_records))]
    pub fn props(&self) -> Props<'a>
        ensures left { let node = node_of_pc self.now in
            props_left result ≡ props_of (table_of_node node) (roots_of node) }
        ensures records { let node = node_of_pc self.now in
            rest_of result ≡ pc_records (table_of_node node) (roots_of node) }
        ensures pc { pc_left result ≡ self.now }
    {
        Props {
            pc: *self,
            rest: self.bth().records(),
        }
    }
}
