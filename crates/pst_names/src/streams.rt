//! The streams of the name map, looked up.

ghost use Rattle.std.specs.Prelude.{◌≡◌, ◌<◌};
ghost use Rattle.pst_fault.specs.First.{Checks};
ghost use Rattle.pst_ndb.specs.Views.{image_of_node, table_of_node, roots_of};
ghost use Rattle.pst_datatree.specs.Shown.{ShowsSpans, bytes_in};
ghost use Rattle.pst_pc.specs.View.{node_of_pc};
ghost use Rattle.pst_names.specs.Streams.{stream_of, stream_bytes, stream_spans};
ghost use Rattle.pst_names.specs.Fault.{type_fault, width_fault};

use pst_datatree::{Value, empty_value};
use pst_fault::{Fault, Kind};
use pst_pc::Pc;

// The GUID stream ([MS-PST] 2.4.7.2).
pub(crate) const GUIDS: u16 = 0x0002;
// The entry stream (2.4.7.3).
pub(crate) const ENTRIES: u16 = 0x0003;
// The string stream (2.4.7.4).
pub(crate) const STRINGS: u16 = 0x0004;

/// The value of a stream; the empty one where it is not there.
#[tactic(auto, using(crate::proofs::StreamLemmas::found_spans, crate::proofs::StreamLemmas::no_spans), unfolding(crate::specs::Streams::stream_of))]
pub(crate) fn stream<'a>(pc: &Pc<'a>, id: u16) -> Value<'a>
    ensures shows { let node = node_of_pc pc.now in
        ShowsSpans (image_of_node node)
        (stream_spans (table_of_node node) (roots_of node) id) result }
    ensures bytes { let node = node_of_pc pc.now in
        bytes_in result ≡ stream_bytes (stream_of (table_of_node node) (roots_of node) id) }
{
    match pc.get(id) {
        Some(property) => property.value,
        None => empty_value(pc.node().image()),
    }
}

/// A stream that is there has type 0102, binary; told of no node.
#[tactic(auto, unfolding(crate::specs::Streams::stream_of))]
pub(crate) fn check_type(pc: &Pc, id: u16) -> Result<(), Fault>
    ensures exact { let node = node_of_pc pc.now in
        Checks result (type_fault (stream_of (table_of_node node) (roots_of node) id)) }
{
    match pc.get(id) {
        Some(property) if property.kind.0 != 0x0102 => {
            Err(Fault::at(Kind::Property, property.at))
        }
        _ => Ok(()),
    }
}

/// The length of a stream is a multiple of a width; told of no node.
#[tactic(auto, unfolding(crate::specs::Streams::stream_of))]
pub(crate) fn check_width(pc: &Pc, id: u16, width: u64) -> Result<(), Fault>
    requires { 0 < width }
    ensures exact { let node = node_of_pc pc.now in
        Checks result (width_fault width
        (stream_of (table_of_node node) (roots_of node) id)) }
{
    match pc.get(id) {
        Some(property) if property.value.len() % width != 0 => {
            Err(Fault::at(Kind::Property, property.at))
        }
        _ => Ok(()),
    }
}
