//! A node, and what it has.

ghost use Rattle.std.specs.Prelude.{◌≡◌, None, IfSome};
ghost use Rattle.pst_block.specs.Blocks.{table_of};
ghost use Rattle.pst_datatree.specs.Data.{data_fault};
ghost use Rattle.pst_subnode.specs.declared.check.TheConstants.{LISTS};
ghost use Rattle.pst_subnode.specs.Index.{IsIndexOf};
ghost use Rattle.pst_subnode.specs.List.{subs_of};
ghost use Rattle.pst_subnode.specs.Tree.{sub_fault};
ghost use Rattle.pst_subnode.proofs.IndexLemmas.{index_facts};
ghost use Rattle.pst_ndb.specs.SpanIndex.{IsSpanIndexOf, span_index_facts};

use crate::span_index::{SpanIndex, leaf_by};
use pst_block::Blocks;
use pst_btree::NodeEntry;
use pst_bytes::{Image, Span};
use pst_datatree::{
    Leaves, Parts, Pieces, Value, data_lies_inside, leaf, leaf_count, spans, value,
};
use pst_fault::Fault;
use pst_subnode::{Sub, SubIndex, Subs, find_sub, find_sub_by, subs};
use std::alloc::Global;

/// A node of a checked file, or a subnode of one: its data and its subnodes are known to be without fault.
#[derive(Clone, Copy)]
pub struct Node<'a> {
    pub(crate) blocks: Blocks<'a>,
    top: u32,
    nid: u32,
    bid_data: u64,
    bid_sub: u64,
    // An index of its subnodes, where it was lent one.
    index: Option<&'a SubIndex>,
    // An index of the spans of its data, where it was lent one.
    spans: Option<&'a SpanIndex>,
    ghost content: { data_fault (table_of blocks) bid_data ≡ None },
    ghost subs: { sub_fault (table_of blocks) LISTS bid_sub ≡ None },
    ghost indexed: { IfSome index (λ i. IsIndexOf i.now (subs_of (table_of blocks) bid_sub)) } by { Prim.hlevel index_facts },
    ghost span_indexed: { IfSome spans (λ i. IsSpanIndexOf i.now (table_of blocks) bid_data) } by { Prim.hlevel span_index_facts },
}

impl<'a> Node<'a> {
    ghost use Rattle.std.specs.Prelude.{◌≡◌, ◌-◌, ◌<◌, ◌≤◌, None, IfSome, IfOk, IfErr, length, slice_get, option_map};
    ghost use Rattle.std.specs.List.{Contains};
    ghost use Rattle.pst_fault.specs.Fault.{no_memory};
    ghost use Rattle.pst_bytes.specs.Image.{bytes_of, IsInside};
    ghost use Rattle.pst_block.specs.Blocks.{table_of, image_of};
    ghost use Rattle.pst_datatree.specs.Data.{data_spans, data_fault, size_of};
    ghost use Rattle.pst_datatree.specs.Spans.{nonempty, first_span, joined_bytes, AreInside};
    ghost use Rattle.pst_datatree.specs.Left.{spans_left, file_of};
    ghost use Rattle.pst_datatree.specs.Leaves.{leaves_spans, leaves_file};
    ghost use Rattle.pst_datatree.specs.Parts.{HasParts};
    ghost use Rattle.pst_datatree.specs.PartsView.{table_of_parts, tree_of_parts, image_of_parts};
    ghost use Rattle.pst_datatree.specs.Shown.{ShowsSpans, bytes_in, size_in, place_in};
    ghost use Rattle.pst_btree.specs.Entries.{first_with};
    ghost use Rattle.pst_subnode.specs.declared.check.TheConstants.{LISTS};
    ghost use Rattle.pst_subnode.specs.Index.{is_held, is_scanned};
    ghost use Rattle.pst_subnode.specs.List.{sub_nid, subs_of};
    ghost use Rattle.pst_subnode.specs.Left.{subs_left};
    ghost use Rattle.pst_subnode.specs.Tree.{sub_fault};
    ghost use Rattle.pst_ndb.specs.Fault.{node_fault};
    ghost use Rattle.pst_ndb.specs.Node.{entry_parts, sub_parts};
    ghost use Rattle.pst_ndb.specs.Roots.{subnode_of, sub_roots};
    ghost use Rattle.pst_ndb.specs.SpanIndex.{has_many_parts, holds_starts};
    ghost use Rattle.pst_ndb.specs.Views.{image_of_node, table_of_node, top_of, nid_of, data_bid_of, sub_bid_of, parts_of, roots_of, height_of, IsIndexedBy, IsSpanIndexedBy};

    /// The node of an entry of the node B-tree.
    #[tactic(auto, using(crate::proofs::NodeLemmas::none_data, crate::proofs::NodeLemmas::none_subs))]
    pub(crate) fn of_entry(blocks: Blocks<'a>, entry: NodeEntry) -> Node<'a>
        requires { node_fault (table_of blocks) entry ≡ None }
        ensures { parts_of result ≡
            entry_parts (image_of blocks.entry) (table_of blocks.entry) entry }
    {
        Node {
            blocks,
            top: entry.nid,
            nid: entry.nid,
            bid_data: entry.bid_data,
            bid_sub: entry.bid_sub,
            index: None,
            spans: None,
        }
    }

    /// What is known of every node: neither its data nor its subnodes have a fault, all spans of its data lie in the file,
    /// and no more lists nest below it than may.
    #[tactic(auto, using(pst_subnode::proofs::HeightLaws::height_low))]
    pub fn is_sound(&self)
        ensures content { data_fault (table_of_node self.now) (data_bid_of self.now) ≡ None }
        ensures subs { sub_fault (table_of_node self.now) LISTS (sub_bid_of self.now) ≡ None }
        ensures image { (table_of_node self.now).image ≡ bytes_of (image_of_node self.now) }
        ensures inside { AreInside (table_of_node self.now).image
            (data_spans (table_of_node self.now) (data_bid_of self.now)) }
        ensures low { height_of self.now ≤ LISTS }
    {
        data_lies_inside(&self.blocks, self.bid_data);
    }

    /// The file.
    pub fn image(&self) -> Image<'a>
        ensures same { result ≡ image_of_node self.now }
        ensures bytes { bytes_of result ≡ (table_of_node self.now).image }
    {
        self.blocks.image()
    }

    /// The identifier of the node ([MS-PST] 2.2.2.1).
    pub fn nid(&self) -> u32
        ensures { result ≡ nid_of self.now }
    {
        self.nid
    }

    /// The identifier of the node of the node B-tree from which it was reached: its own for a node of the tree.
    pub fn top(&self) -> u32
        ensures { result ≡ top_of self.now }
    {
        self.top
    }

    /// The block identifier of its data, as it is written; 0 where it has none.
    pub fn bid_data(&self) -> u64
        ensures { result ≡ data_bid_of self.now }
    {
        self.bid_data
    }

    /// The block identifier of its subnodes, as it is written; 0 where it has none.
    pub fn bid_sub(&self) -> u64
        ensures { result ≡ sub_bid_of self.now }
    {
        self.bid_sub
    }

    /// The bytes of its data.
    pub fn bytes(&self) -> Value<'a>
        ensures shows { ShowsSpans (image_of_node self.now)
            (data_spans (table_of_node self.now) (data_bid_of self.now)) result }
        ensures bytes { bytes_in result ≡ joined_bytes (table_of_node self.now).image
            (data_spans (table_of_node self.now) (data_bid_of self.now)) }
        ensures size { size_in result ≡
            size_of (data_spans (table_of_node self.now) (data_bid_of self.now)) }
        ensures place { place_in result ≡ (first_span
            (nonempty (data_spans (table_of_node self.now) (data_bid_of self.now)))).at }
    {
        value(&self.blocks, self.bid_data)
    }

    /// The slices of its data, one for each span, in order; and with `next_span` the spans.
    pub fn spans(&self) -> Pieces<'a>
        ensures spans { spans_left result ≡
            data_spans (table_of_node self.now) (data_bid_of self.now) }
        ensures file { file_of result ≡ image_of_node self.now }
    {
        spans(&self.blocks, self.bid_data)
    }

    /// The parts of its data: of an XXBLOCK the XBLOCKs that it names, and else the data itself. Its spans are theirs, one after
    /// another.
    pub fn parts(&self) -> Parts<'a>
        ensures table { table_of_parts result ≡ table_of_node self.now }
        ensures image { image_of_parts result ≡ image_of_node self.now }
        ensures tree { tree_of_parts result ≡ data_bid_of self.now }
        ensures joined { HasParts (table_of_node self.now) (data_bid_of self.now) }
    {
        Parts::of(&self.blocks, self.bid_data)
    }

    /// The span with a number of its data, from 0 on; None exactly from `leaf_count` on. By the index that the node was lent it is
    /// found in about log n steps, of n parts; where it was lent none, part by part.
    pub fn leaf(&self, n: u64) -> Option<Span>
        ensures value { result ≡
            slice_get (data_spans (table_of_node self.now) (data_bid_of self.now)) n }
        ensures inside { IfSome result (IsInside (table_of_node self.now).image) }
    {
        match self.spans {
            Some(index) => leaf_by(&self.blocks, self.bid_data, index, n),
            None => leaf(&self.blocks, self.bid_data, n),
        }
    }

    /// An index of the spans of its data, to be lent to it (`span_indexed`): it is made in about as many steps as its data has
    /// parts. Where these are 32 at most it holds nothing, and takes no memory. NoMemory, if memory runs out.
    pub fn span_index(&self, alloc: Global) -> Result<SpanIndex, Fault>
        ensures index { IfOk result (IsSpanIndexedBy self.now) }
        ensures held { let t = table_of_node self.now in
            IfOk result (λ i. holds_starts i ≡ has_many_parts t (data_bid_of self.now)) }
        ensures memory { IfErr result (λ f. f ≡ no_memory) }
    {
        SpanIndex::of(alloc, &self.blocks, self.bid_data)
    }

    /// The same node, which is lent an index of the spans of its data, or of those of a node whose data is the same: `leaf` finds
    /// them by this index from then on.
    pub fn span_indexed(self, index: &'a SpanIndex) -> Node<'a>
        requires { IsSpanIndexedBy self index.now }
        ensures parts { parts_of result ≡ parts_of self.entry }
        ensures roots { roots_of result ≡ roots_of self.entry }
        ensures image { image_of_node result ≡ image_of_node self.entry }
        ensures table { table_of_node result ≡ table_of_node self.entry }
        ensures nid { nid_of result ≡ nid_of self.entry }
    {
        let mut node = self;
        node.spans = Some(index);
        node
    }

    /// The spans of its data by their numbers, for many look-ups in any order.
    pub fn leaves(&self) -> Leaves<'a>
        ensures spans { leaves_spans result ≡
            data_spans (table_of_node self.now) (data_bid_of self.now) }
        ensures file { leaves_file result ≡ image_of_node self.now }
    {
        Leaves::of(&self.blocks, self.bid_data)
    }

    /// How many spans its data has: one for each data block, as often as it is named.
    pub fn leaf_count(&self) -> u64
        ensures { result ≡ length (data_spans (table_of_node self.now) (data_bid_of self.now)) }
    {
        leaf_count(&self.blocks, self.bid_data)
    }

    /// Its subnodes, in the order of their list ([MS-PST] 2.2.2.8.3.3).
    pub fn subs(&self) -> Subs<'a>
        ensures { subs_left result ≡ subs_of (table_of_node self.now) (sub_bid_of self.now) }
    {
        subs(&self.blocks, self.bid_sub)
    }

    /// An index of its subnodes, to be lent to it (`indexed`): of n subnodes it is made in about n log n steps. Where their list
    /// is one SLBLOCK whose identifiers rise, or a short one, it holds nothing, and takes no memory. NoMemory, if memory runs out.
    pub fn index(&self, alloc: Global) -> Result<SubIndex, Fault>
        ensures index { IfOk result (IsIndexedBy self.now) }
        ensures held { let t = table_of_node self.now in
            IfOk result (λ i. is_held i ≡ is_scanned t (sub_bid_of self.now)) }
        ensures memory { IfErr result (λ f. f ≡ no_memory) }
    {
        SubIndex::of(alloc, &self.blocks, self.bid_sub)
    }

    /// The same node, which is lent an index of its subnodes, or of those of a node whose list is the same: `sub`, and whatever
    /// stands on it, finds them by this index from then on.
    pub fn indexed(self, index: &'a SubIndex) -> Node<'a>
        requires { IsIndexedBy self index.now }
        ensures parts { parts_of result ≡ parts_of self.entry }
        ensures roots { roots_of result ≡ roots_of self.entry }
        ensures image { image_of_node result ≡ image_of_node self.entry }
        ensures table { table_of_node result ≡ table_of_node self.entry }
        ensures nid { nid_of result ≡ nid_of self.entry }
    {
        let mut node = self;
        node.index = Some(index);
        node
    }

    /// The entry of a subnode with an identifier in the node's list: by the index that the node was lent, each of n entries in
    /// about log n steps; where it was lent none, as `find_sub` finds it.
    #[tactic(auto, using(pst_subnode::proofs::HeightLaws::found_entry, crate::proofs::NodeLemmas::first_keyed))]
    pub fn sub_entry(&self, nid: u32) -> Option<Sub>
        ensures value { result ≡
            first_with sub_nid nid (subs_of (table_of_node self.now) (sub_bid_of self.now)) }
        ensures there { IfSome result
            (Contains (subs_of (table_of_node self.now) (sub_bid_of self.now))) }
        ensures nid { IfSome result (λ s. s.nid ≡ nid) }
    {
        match self.index {
            Some(index) => find_sub_by(&self.blocks, self.bid_sub, index, nid),
            None => find_sub(&self.blocks, self.bid_sub, nid),
        }
    }

    /// The subnode with an identifier; None exactly where the list has none. It is reached from where this node was.
    #[tactic(auto, unfolding(crate::specs::Roots::subnode_of))]
    pub fn sub(&self, nid: u32) -> Option<Node<'a>>
        ensures value { option_map parts_of result ≡ option_map (sub_parts (parts_of self.now))
            (first_with sub_nid nid (subs_of (table_of_node self.now) (sub_bid_of self.now))) }
        ensures roots { option_map roots_of result ≡
            subnode_of (table_of_node self.now) (roots_of self.now) nid }
        ensures image { IfSome result (λ n. image_of_node n ≡ image_of_node self.now) }
        ensures table { IfSome result (λ n. table_of_node n ≡ table_of_node self.now) }
        ensures top { IfSome result (λ n. top_of n ≡ top_of self.now) }
        ensures nid { IfSome result (λ n. nid_of n ≡ nid) }
        // Its own subnodes nest one list fewer at least.
        ensures lower { IfSome result (λ n. height_of n < height_of self.now) }
        ensures below { IfSome result (λ n.
            sub_fault (table_of_node n) (LISTS - 1) (sub_bid_of n) ≡ None) }
    {
        let entry = self.sub_entry(nid)?;
        Some(self.child(entry))
    }

    /// The subnode of an entry of its list.
    #[tactic(auto, using(pst_subnode::proofs::HeightLaws::entry_data, pst_subnode::proofs::HeightLaws::entry_subs, pst_subnode::proofs::HeightLaws::entry_below, pst_subnode::proofs::HeightLaws::lower_law))]
    pub fn child(&self, entry: Sub) -> Node<'a>
        requires { Contains (subs_of (table_of_node self.now) (sub_bid_of self.now)) entry }
        ensures parts { parts_of result ≡ sub_parts (parts_of self.now) entry }
        ensures roots { roots_of result ≡ sub_roots (roots_of self.now) entry }
        ensures lower { height_of result < height_of self.now }
        ensures below { sub_fault (table_of_node result) (LISTS - 1) (sub_bid_of result) ≡ None }
    {
        Node {
            blocks: self.blocks,
            top: self.top,
            nid: entry.nid,
            bid_data: entry.bid_data,
            bid_sub: entry.bid_sub,
            index: None,
            spans: None,
        }
    }
}
