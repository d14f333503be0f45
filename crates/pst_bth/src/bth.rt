//! A BTH as a view.

ghost use Rattle.std.specs.Prelude.{◌≡◌, ◌≤◌, None, true};
ghost use Rattle.pst_bytes.specs.Image.{IsInside};
ghost use Rattle.pst_heap.specs.View.{data_of};
ghost use Rattle.pst_bth.specs.Rows.{is_key_size};
ghost use Rattle.pst_bth.specs.Fault.{bth_header_fault};

use crate::find::find_below;
use crate::leaf::{Leaf, leaf_at, leaf_below};
use crate::rows::Rows;
use crate::sizes::Sizes;
use pst_bytes::Span;
use pst_heap::Heap;

/// A BTH without fault ([MS-PST] 2.3.2), in the items of a heap: a finite map from keys to the spans of their data.
#[derive(Clone, Copy)]
pub struct Bth<'a> {
    heap: Heap<'a>,
    sizes: Sizes,
    // The header item.
    head: Span,
    ghost key_is: { is_key_size sizes.key ≡ true },
    ghost long: { 8 ≤ head.len },
    ghost inside: { IsInside (data_of heap).image head },
    ghost sound: { bth_header_fault (data_of heap) sizes head ≡ None },
}

impl<'a> Bth<'a> {
    ghost use Rattle.std.specs.Prelude.{◌+◌, ◌-◌, ◌<◌, ◌≤◌, length, IfSome, option_map};
    ghost use Rattle.pst_btree.specs.Entries.{first_with};
    ghost use Rattle.pst_bytes.specs.Image.{bytes_of};
    ghost use Rattle.pst_bth.specs.Rows.{row_key, row_count, row_place};
    ghost use Rattle.pst_bth.specs.Leaf.{LeafFrom};
    ghost use Rattle.pst_bth.specs.View.{rows_image, rows_item, rows_key_size, rows_size};
    ghost use Rattle.pst_bth.specs.Rows.{leaf_size};
    ghost use Rattle.pst_bth.specs.Values.{record_key, record_span, record_at, records_under};
    ghost use Rattle.pst_bth.specs.View.{heap_of, sizes_in, rows_of, records_of};

    // The BTH with a header item that has no first fault.
    #[tactic(auto, using(crate::proofs::BthLemmas::sound_long))]
    pub(crate) fn of_header(heap: Heap<'a>, sizes: Sizes, head: Span) -> Bth<'a>
        requires key { is_key_size sizes.key ≡ true }
        requires inside { IsInside (data_of heap).image head }
        requires sound { bth_header_fault (data_of heap) sizes head ≡ None }
        ensures heap { heap_of result ≡ heap.entry }
        ensures sizes { sizes_in result ≡ sizes }
        ensures records { records_of result ≡ records_under (data_of heap.entry) sizes head }
    {
        Bth { heap, sizes, head }
    }

    /// The heap in which it is.
    pub fn heap(&self) -> Heap<'a>
        ensures { result ≡ heap_of self.now }
    {
        self.heap
    }

    // The place of the record with a key.
    #[tactic(auto, using(crate::proofs::BthLemmas::has_root, crate::proofs::BthLemmas::nothing_found, crate::proofs::BthLemmas::rows_some))]
    fn find_row(&self, key: u32) -> Option<u64>
        ensures value { let h = data_of (heap_of self.now) in
            result ≡ first_with (row_key h.image (sizes_in self.now).key) key (rows_of self.now) }
        ensures inside { let h = data_of (heap_of self.now) in
            IfSome result (λ at. at + leaf_size (sizes_in self.now) ≤ length h.image) }
    {
        let image = self.heap.image();
        if image.number32(self.head.at + 4) == 0 {
            return None;
        }
        let levels = image.number8(self.head.at + 3);
        find_below(
            &self.heap,
            self.sizes,
            levels,
            self.head.at + 4,
            u64::from(key),
        )
    }

    /// Where the data of the record with a key lies; None exactly where no record has it. It goes down one path, and searches
    /// each item by halving.
    #[tactic(auto, using(crate::proofs::BthLemmas::found_record))]
    pub fn find(&self, key: u32) -> Option<Span>
        ensures value { let found = first_with record_key key (records_of self.now) in
            result ≡ option_map record_span found }
        ensures inside { IfSome result (IsInside (data_of (heap_of self.now)).image) }
        ensures behind { IfSome result (λ s. (sizes_in self.now).key ≤ s.at) }
        ensures size { IfSome result (λ s. s.len ≡ (sizes_in self.now).ent) }
    {
        let _file = self.heap.image();
        let at = self.find_row(key)?;
        Some(Span {
            at: at + u64::from(self.sizes.key),
            len: u64::from(self.sizes.ent),
        })
    }

    // The records of a leaf.
    pub(crate) fn leaf_rows(&self, item: Span) -> Rows<'a>
        requires { IsInside (data_of (heap_of self.now)).image item }
        ensures image { bytes_of (rows_image result) ≡ (data_of (heap_of self.now)).image }
        ensures item { rows_item result ≡ item }
        ensures key { rows_key_size result ≡ (sizes_in self.now).key }
        ensures size { rows_size result ≡ leaf_size (sizes_in self.now) }
    {
        self.sizes.leaf(self.heap.image(), item)
    }

    // The record of a leaf with a number.
    pub(crate) fn record(&self, rows: Rows, i: u64) -> (u32, Span)
        requires there { i < row_count (rows_size rows) (rows_item rows) }
        requires image { bytes_of (rows_image rows) ≡ (data_of (heap_of self.now)).image }
        requires key { rows_key_size rows ≡ (sizes_in self.now).key }
        requires size { rows_size rows ≡ leaf_size (sizes_in self.now) }
        ensures value { let I = (data_of (heap_of self.now)).image in
            result ≡ record_at I (sizes_in self.now)
            (row_place (rows_size rows.entry) (rows_item rows.entry) i) }
        ensures inside { IsInside (data_of (heap_of self.now)).image result.1 }
        ensures behind { (sizes_in self.now).key ≤ result.1.at }
        ensures size { result.1.len ≡ (sizes_in self.now).ent }
        ensures key { let cb = (sizes_in self.now).key in
            result.0 ≡ row_key (data_of (heap_of self.now)).image cb (result.1.at - cb) }
    {
        let _file = self.heap.image();
        let data = Span {
            at: rows.place(i) + u64::from(self.sizes.key),
            len: u64::from(self.sizes.ent),
        };
        (rows.key(i) as u32, data)
    }

    // The first leaf with a record whose key is at least this one. Most trees are one leaf.
    #[inline]
    #[tactic(auto, using(crate::proofs::BthLemmas::has_root))]
    pub(crate) fn leaf_from(&self, low: u64) -> Option<Leaf>
        ensures found { let z = sizes_in self.now in
            LeafFrom (data_of (heap_of self.now)).image z.key (leaf_size z) low
            (rows_of self.now) result }
        ensures inside { IfSome result (λ l. IsInside (data_of (heap_of self.now)).image l.item) }
    {
        let image = self.heap.image();
        if image.number32(self.head.at + 4) == 0 {
            return None;
        }
        let levels = image.number8(self.head.at + 3);
        if levels == 0 {
            return leaf_at(&self.heap, self.sizes, self.head.at + 4, low);
        }
        leaf_below(&self.heap, self.sizes, levels, self.head.at + 4, low)
    }
}
