//! A heap, and its items.

ghost use Rattle.std.specs.Prelude.{◌≡◌, None};
ghost use Rattle.pst_bytes.specs.Image.{IsInside};
ghost use Rattle.pst_datatree.specs.Spans.{first_span};
ghost use Rattle.pst_heap.specs.Fault.{heap_fault};
ghost use Rattle.pst_heap.specs.Values.{data_of_node};

use crate::page_map::PageMap;
use crate::told::told_of;
use pst_bytes::{Image, Span};
use pst_fault::{Fault, Kind};
use pst_ndb::Node;

/// The heap that the data of a node is ([MS-PST] 2.3.1), without fault.
#[derive(Clone, Copy)]
pub struct Heap<'a> {
    node: Node<'a>,
    // The first span, with the header; most heaps have no other.
    first: Span,
    ghost sound: { heap_fault (data_of_node node) ≡ None },
    ghost first_is: { first ≡ first_span (data_of_node node).spans },
    ghost inside: { IsInside (data_of_node node).image first },
}

impl<'a> Heap<'a> {
    ghost use Rattle.std.specs.Prelude.{◌≡◌, ◌+◌, ◌≤◌, length, IfOk, IfSome, None, Some, option_map, slice_get};
    ghost use Rattle.pst_bytes.specs.Image.{bytes_of, bytes_at, IsInside, IsPartOf};
    ghost use Rattle.pst_fault.specs.First.{Checks};
    ghost use Rattle.pst_datatree.specs.Spans.{first_span};
    ghost use Rattle.pst_heap.specs.Values.{block_of, item_of};
    ghost use Rattle.pst_heap.specs.Fault.{item_fault};
    ghost use Rattle.pst_heap.specs.Fault.{heap_fault};
    ghost use Rattle.pst_heap.specs.Values.{client_of, user_root_of, user_root_place};
    ghost use Rattle.pst_heap.specs.Values.{data_of_node};
    ghost use Rattle.pst_heap.specs.Fault.{told_of as told};
    ghost use Rattle.pst_heap.specs.View.{node_of, data_of, file_of_heap};

    // The heap of a node whose data has no first fault. Its first span is looked up.
    #[tactic(auto, using(crate::proofs::HeapLemmas::first_there))]
    pub(crate) fn known(node: Node<'a>) -> Heap<'a>
        requires { heap_fault (data_of_node node) ≡ None }
        ensures { node_of result ≡ node.entry }
    {
        let first = node.leaf(0).unwrap();
        Heap::with_first(node, first)
    }

    // The same, where its first span is known.
    pub(crate) fn with_first(node: Node<'a>, first: Span) -> Heap<'a>
        requires sound { heap_fault (data_of_node node) ≡ None }
        requires same { first ≡ first_span (data_of_node node).spans }
        requires inside { IsInside (data_of_node node).image first }
        ensures { node_of result ≡ node.entry }
    {
        Heap { node, first }
    }

    /// What is known of every heap: it has no first fault.
    pub fn is_sound(&self)
        ensures { heap_fault (data_of self.now) ≡ None }
    {}

    /// The node whose data it is.
    pub fn node(&self) -> Node<'a>
        ensures { result ≡ node_of self.now }
    {
        self.node
    }

    /// The file.
    pub fn image(&self) -> Image<'a>
        ensures same { result ≡ file_of_heap self.now }
        ensures bytes { bytes_of result ≡ (data_of self.now).image }
    {
        self.node.image()
    }

    // The first span, with the header.
    #[tactic(auto, using(crate::proofs::HeapLemmas::first_long))]
    pub(crate) fn first(&self) -> Span
        ensures value { result ≡ first_span (data_of self.now).spans }
        ensures inside { IsInside (data_of self.now).image result }
        ensures long { 12 ≤ result.len }
    {
        self.first
    }

    // The span with a number, looked up in the data. Most heaps have one span, so this stands apart.
    #[inline(never)]
    fn looked_up(&self, n: u32) -> Option<Span>
        ensures value { result ≡ slice_get (data_of self.now).spans n }
        ensures inside { IfSome result (IsInside (data_of self.now).image) }
    {
        self.node.leaf(u64::from(n))
    }

    // The span with a number.
    #[inline]
    #[tactic(auto, using(crate::proofs::HeapLemmas::first_there))]
    pub(crate) fn span(&self, n: u32) -> Option<Span>
        ensures value { result ≡ slice_get (data_of self.now).spans n }
        ensures inside { IfSome result (IsInside (data_of self.now).image) }
    {
        if n == 0 {
            return Some(self.first());
        }
        self.looked_up(n)
    }

    /// The client signature of the header (bClientSig, [MS-PST] 2.3.1.2).
    pub fn client(&self) -> u8
        ensures { result ≡ client_of (data_of self.now) }
    {
        self.image().number8(self.first().at + 3)
    }

    /// Where the identifier of the user's root stands in the file, 4 bytes.
    pub fn user_root_place(&self) -> u64
        ensures value { result ≡ user_root_place (data_of self.now) }
        ensures inside { result + 4 ≤ length (data_of self.now).image }
    {
        let _file = self.image();
        self.first().at + 4
    }

    /// The identifier of the user's root (hidUserRoot, [MS-PST] 2.3.1.2), as it is written.
    pub fn user_root(&self) -> u32
        ensures { result ≡ user_root_of (data_of self.now) }
    {
        self.image().number32(self.user_root_place())
    }

    // Where the item with an identifier lies, in the span that it tells.
    #[inline]
    #[tactic(auto, using(crate::proofs::HeapLemmas::item_some))]
    pub(crate) fn item_in(&self, span: Span, hid: u32) -> Option<Span>
        requires there { slice_get (data_of self.now).spans (block_of hid) ≡ Some span }
        requires inside { IsInside (data_of self.now).image span }
        ensures value { result ≡ item_of (data_of self.now) hid }
        ensures inside { IfSome result (IsInside (data_of self.now).image) }
    {
        PageMap::known(self.image(), span).item(hid)
    }

    /// Where the item with an identifier lies (HID, [MS-PST] 2.3.1.1): in one span of the node's data. None exactly where no
    /// item has it. Spans are not gone through, but XBLOCKs in front of it are. Whoever asks for many keeps their `Items`.
    #[inline]
    #[tactic(auto, using(crate::proofs::HeapLemmas::item_none))]
    pub fn item_span(&self, hid: u32) -> Option<Span>
        ensures value { result ≡ item_of (data_of self.now) hid }
        ensures inside { IfSome result (IsInside (data_of self.now).image) }
    {
        let span = self.span(hid / 65_536)?;
        self.item_in(span, hid)
    }

    /// The bytes of the item with an identifier, in the file's own memory. HeapId, at 0, with the node's bidData and the node
    /// from which it was reached, exactly where no item has it.
    pub fn item(&self, hid: u32) -> Result<&'a [u8], Fault>
        ensures exact { let first = item_fault (data_of self.now) hid in
            Checks result (option_map (told (node_of self.now)) first) }
        ensures value { let found = item_of (data_of self.now) hid in
            IfOk result (λ slice. IfSome found (λ s. slice.now
            ≡ bytes_at (data_of self.now).image s)) }
        ensures own { let found = item_of (data_of self.now) hid in
            IfOk result (λ slice. IfSome found (λ s. IsPartOf (file_of_heap self.now) s slice)) }
    {
        match self.item_span(hid) {
            Some(span) => Ok(self.image().slice(span)),
            None => Err(told_of(&self.node, Fault::at(Kind::HeapId, 0))),
        }
    }
}
