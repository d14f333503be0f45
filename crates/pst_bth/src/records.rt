//! All records of a BTH, in order of their keys.

ghost use Rattle.std.specs.Prelude.{◌≡◌};
ghost use Rattle.pst_bytes.specs.Image.{bytes_of};
ghost use Rattle.pst_heap.specs.View.{data_of};
ghost use Rattle.pst_bth.specs.Rows.{leaf_size};
ghost use Rattle.pst_bth.specs.View.{heap_of, sizes_in, rows_image, rows_key_size, rows_size};

use crate::bth::Bth;
use crate::rows::Rows;
use pst_bytes::Span;

/// The records of a BTH that are left, keys rising: each a key, and the span of its data. A leaf is gone through record by
/// record, and behind its last one the next leaf is looked up once more from the top, so that all of n records take no more
/// than some n log n steps. No memory is taken.
#[derive(Clone, Copy)]
pub struct Records<'a> {
    bth: Bth<'a>,
    // The leaf that is gone through, and its next record by its number.
    leaf: Rows<'a>,
    next: u64,
    // The least key that is wanted behind that leaf.
    low: u64,
    ghost image: { bytes_of (rows_image leaf) ≡ (data_of (heap_of bth)).image },
    ghost key: { rows_key_size leaf ≡ (sizes_in bth).key },
    ghost size: { rows_size leaf ≡ leaf_size (sizes_in bth) },
}

impl<'a> Records<'a> {
    ghost use Rattle.std.specs.Prelude.{◌≡◌, ◌+◌, ◌<◌, ◌≤◌, Some, None, ◌∷◌, length, map};
    ghost use Rattle.pst_btree.specs.Order.{Rises};
    ghost use Rattle.pst_bth.specs.Rows.{row_count};
    ghost use Rattle.pst_bth.specs.View.{rows_item, rows_size};
    ghost use Rattle.pst_bth.specs.Values.{record_key};
    ghost use Rattle.pst_bth.specs.Left.{bth_left, records_left, Reaches, HasPlace};

    // Goes on to the next leaf, where the one that is gone through has no record left; false where no record is left.
    #[inline(never)]
    fn turn(&mut self) -> bool
        requires { row_count (rows_size self.old.leaf) (rows_item self.old.leaf) ≤ self.old.next }
        ensures { Reaches self.old result self.new }
    {
        let Some(leaf) = self.bth.leaf_from(self.low) else {
            return false;
        };
        let rows = self.bth.leaf_rows(leaf.item);
        self.low = rows.key(rows.count() - 1) + 1;
        self.leaf = rows;
        self.next = leaf.first;
        true
    }

    // Goes on to the leaf that has the next record; false where no record is left.
    #[inline]
    fn reach(&mut self) -> bool
        ensures { Reaches self.old result self.new }
    {
        if self.next < self.leaf.count() {
            return true;
        }
        self.turn()
    }

    // The next record of the leaf that is gone through.
    #[inline]
    fn step(&mut self) -> (u32, Span)
        requires { self.old.next < row_count (rows_size self.old.leaf) (rows_item self.old.leaf) }
        ensures first { records_left self.old ≡ result ∷ records_left self.new }
        ensures bth { bth_left self.new ≡ bth_left self.old }
        ensures place { HasPlace (bth_left self.old) (Some result) }
    {
        let _count = self.leaf.count();
        let record = self.bth.record(self.leaf, self.next);
        self.next += 1;
        record
    }

    // Passes over what is left of the leaf that is gone through. So many records came before, and so many do then.
    fn pass_leaf(&mut self, before: u64) -> u64
        requires there { self.old.next
            < row_count (rows_size self.old.leaf) (rows_item self.old.leaf) }
        requires rises { Rises before None (map record_key (records_left self.old)) }
        ensures count { result + length (records_left self.new) ≡
            before + length (records_left self.old) }
        ensures rises { Rises result None (map record_key (records_left self.new)) }
        ensures more { before < result }
        ensures bth { bth_left self.new ≡ bth_left self.old }
    {
        let count = self.leaf.count();
        let _last = self.leaf.key(count - 1);
        let passed = count - self.next;
        self.next = count;
        before + passed
    }
}

impl<'a> Iterator for Records<'a> {
    ghost use Rattle.std.specs.Iterator.{item_count};
    ghost use Rattle.pst_bth.specs.Left.{records_left, TakesRecord};

    type Item = (u32, Span);

    ghost next_gives = { TakesRecord };

    ghost remaining = { item_count records_left };

    #[inline]
    fn next(&mut self) -> Option<(u32, Span)> {
        if !self.reach() {
            return None;
        }
        Some(self.step())
    }
}

impl<'a> Bth<'a> {
    ghost use Rattle.std.specs.Prelude.{◌≡◌, length};
    ghost use Rattle.pst_bth.specs.View.{records_of};
    ghost use Rattle.pst_bth.specs.Left.{bth_left, records_left};

    /// All records, in order of their keys, each once.
    pub fn records(&self) -> Records<'a>
        ensures records { records_left result ≡ records_of self.now }
        ensures bth { bth_left result ≡ self.now }
    {
        Records {
            bth: *self,
            leaf: self.leaf_rows(Span { at: 0, len: 0 }),
            next: 0,
            low: 0,
        }
    }

    /// How many records there are. Each leaf is looked at once, and none of its records but the last.
    pub fn count(&self) -> u64
        ensures { result ≡ length (records_of self.now) }
    {
        let mut rest = self.records();
        let mut count = 0;
        while rest.reach() {
            count = rest.pass_leaf(count);
        }
        count
    }
}
