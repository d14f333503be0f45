//! The records of an item.

ghost use Rattle.std.specs.Prelude.{◌≡◌, ◌+◌, ◌*◌, ◌≤◌, true};
ghost use Rattle.pst_bytes.specs.Image.{bytes_of, IsInside};
ghost use Rattle.pst_btree.specs.Order.{is_below as below};
ghost use Rattle.pst_bth.specs.Rows.{is_key_size};
ghost use Rattle.pst_bth.specs.Rows.{row_count};

use pst_bytes::{Image, Span};
use pst_fault::{Fault, Kind};

fn is_below(key: u64, high: Option<u64>) -> bool
    ensures { result ≡ below key high }
{
    match high {
        Some(high) => key < high,
        None => true,
    }
}

/// The records of an item: their keys rise or not, and the item lies in the file.
#[derive(Clone, Copy)]
pub(crate) struct Rows<'a> {
    image: Image<'a>,
    item: Span,
    // How many bytes a key takes, and a record.
    key: u8,
    size: u16,
    // How many records there are.
    count: u64,
    ghost inside: { IsInside (bytes_of image) item },
    ghost key_is: { is_key_size key ≡ true },
    ghost wide: { key ≤ size },
    ghost ends: { count * size ≤ item.len },
    ghost count_is: { count ≡ row_count size item },
}

impl<'a> Rows<'a> {
    ghost use Rattle.std.specs.Prelude.{◌≡◌, ◌+◌, ◌*◌, ◌<◌, ◌≤◌, ◌^◌, length, true};
    ghost use Rattle.pst_bytes.specs.Image.{bytes_of, IsInside};
    ghost use Rattle.pst_fault.specs.First.{answer};
    ghost use Rattle.pst_bth.specs.Rows.{is_key_size};
    ghost use Rattle.pst_bth.specs.Rows.{row_key, row_count, row_place, rows_at, rows_from};
    ghost use Rattle.pst_bth.specs.Fault.{bth_order_fault};
    ghost use Rattle.pst_bth.specs.Rows.{next_row_key};
    ghost use Rattle.pst_bth.specs.Find.{IsUpToKey};
    ghost use Rattle.pst_bth.specs.View.{rows_image, rows_item, rows_key_size, rows_size};

    /// The records of an item, which have this size and begin with a key of this many bytes.
    #[tactic(auto, unfolding(crate::specs::Rows::row_count), using(crate::proofs::RowLemmas::key_size_some))]
    pub(crate) fn of_item(image: Image<'a>, item: Span, key: u8, size: u16) -> Rows<'a>
        requires inside { IsInside (bytes_of image) item }
        requires key_is { is_key_size key ≡ true }
        requires wide { key ≤ size }
        ensures image { rows_image result ≡ image.entry }
        ensures item { rows_item result ≡ item }
        ensures key { rows_key_size result ≡ key }
        ensures size { rows_size result ≡ size }
    {
        let count = item.len / u64::from(size);
        Rows {
            image,
            item,
            key,
            size,
            count,
        }
    }

    /// How many records there are.
    pub(crate) fn count(self) -> u64
        ensures { result ≡ row_count (rows_size self.entry) (rows_item self.entry) }
    {
        self.count
    }

    /// Where a record lies.
    pub(crate) fn place(self, i: u64) -> u64
        requires { i < row_count (rows_size self) (rows_item self) }
        ensures value { result ≡ row_place (rows_size self.entry) (rows_item self.entry) i }
        ensures inside { result + rows_size self.entry ≤ length (bytes_of (rows_image self.entry)) }
    {
        self.item.at + i * u64::from(self.size)
    }

    /// The key of a record.
    #[tactic(auto, unfolding(crate::specs::Rows::row_key, crate::specs::Rows::is_key_size))]
    pub(crate) fn key(self, i: u64) -> u64
        requires { i < row_count (rows_size self) (rows_item self) }
        ensures value { let at = row_place (rows_size self.entry) (rows_item self.entry) i in
            result ≡ row_key (bytes_of (rows_image self.entry)) (rows_key_size self.entry) at }
        ensures small { result < 2 ^ 32 }
    {
        let at = self.place(i);
        if self.key == 2 {
            u64::from(self.image.number16(at))
        } else {
            u64::from(self.image.number32(at))
        }
    }

    /// Where the identifier of the item stands that a record of a branch names.
    pub(crate) fn child(self, i: u64) -> u64
        requires there { i < row_count (rows_size self) (rows_item self) }
        requires branch { rows_size self ≡ rows_key_size self + 4 }
        ensures value { let at = row_place (rows_size self.entry) (rows_item self.entry) i in
            result ≡ at + rows_key_size self.entry }
        ensures inside { result + 4 ≤ length (bytes_of (rows_image self.entry)) }
    {
        self.place(i) + u64::from(self.key)
    }

    /// What the keys below a record are below: the next record's key, or the bound of the item.
    #[tactic(auto, using(crate::proofs::RowLemmas::rows_next, crate::proofs::RowLemmas::rows_end))]
    pub(crate) fn bound(self, i: u64, high: Option<u64>) -> Option<u64>
        requires { i < row_count (rows_size self) (rows_item self) }
        ensures { let r = self.entry in
            let behind = rows_from (rows_size r) (rows_item r) (i + 1) in
            result ≡ next_row_key (bytes_of (rows_image r)) (rows_key_size r) behind high }
    {
        if i + 1 < self.count {
            Some(self.key(i + 1))
        } else {
            high
        }
    }

    /// The keys rise strictly, are at least `low` and, where there is a `high`, below it. Bth at the first record whose key
    /// does not.
    #[tactic(auto, using(crate::proofs::RowLemmas::rows_start, crate::proofs::RowLemmas::rows_next, crate::proofs::RowLemmas::rows_end, crate::proofs::OrderLemmas::rows_order_goes_on, crate::proofs::OrderLemmas::rows_order_low, crate::proofs::OrderLemmas::rows_order_high, crate::proofs::OrderLemmas::rows_order_done))]
    pub(crate) fn check_order(self, low: u64, high: Option<u64>) -> Result<(), Fault>
        ensures exact { let r = self.entry in let all = rows_at (rows_size r) (rows_item r) in
            result ≡ answer (bth_order_fault (bytes_of (rows_image r)) (rows_key_size r)
            low high all) tt }
    {
        let mut least = low;
        for i in 0..self.count {
            let key = self.key(i);
            if key < least || !is_below(key, high) {
                return Err(Fault::at(Kind::Bth, self.place(i)));
            }
            least = key + 1;
        }
        Ok(())
    }

    /// How many records have a key of at most this one, by halving.
    pub(crate) fn up_to(self, key: u64) -> u64
        ensures { let r = self.entry in
            IsUpToKey (bytes_of (rows_image r)) (rows_key_size r) (rows_size r)
            (rows_item r) key result }
    {
        let mut low = 0;
        let mut high = self.count;
        while low < high {
            let middle = low + (high - low) / 2;
            if self.key(middle) <= key {
                low = middle + 1;
            } else {
                high = middle;
            }
        }
        low
    }
}
