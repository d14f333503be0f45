//! Look-ups that go down one path, and search each item by halving.

ghost use Rattle.std.specs.Prelude.{◌≡◌, ◌+◌, ◌≤◌, length, true, IfSome};
ghost use Rattle.pst_bytes.specs.Image.{bytes_of};
ghost use Rattle.pst_btree.specs.Entries.{first_with};
ghost use Rattle.pst_heap.specs.View.{data_of};
ghost use Rattle.pst_bth.specs.Rows.{is_key_size};
ghost use Rattle.pst_bth.specs.Rows.{row_key, rows_at};
ghost use Rattle.pst_bth.specs.Rows.{leaf_size};
ghost use Rattle.pst_bth.specs.Values.{tree_rows};
ghost use Rattle.pst_bth.specs.Find.{HasBthTree, AreRising};
ghost use Rattle.pst_bth.specs.View.{rows_image, rows_item, rows_key_size, rows_size};

use crate::item::item_named;
use crate::rows::Rows;
use crate::sizes::Sizes;
use pst_heap::Heap;

// The place of the record of a leaf with a key.
fn find_in(rows: Rows, key: u64) -> Option<u64>
    requires { let I = bytes_of (rows_image rows) in
        AreRising I (rows_key_size rows) (rows_at (rows_size rows) (rows_item rows)) }
    ensures value { let r = rows.entry in
        result ≡ first_with (row_key (bytes_of (rows_image r)) (rows_key_size r)) key
        (rows_at (rows_size r) (rows_item r)) }
    ensures inside { let I = bytes_of (rows_image rows.entry) in
        IfSome result (λ at. at + rows_size rows.entry ≤ length I) }
{
    let count = rows.up_to(key);
    if count == 0 {
        return None;
    }
    if rows.key(count - 1) != key {
        return None;
    }
    Some(rows.place(count - 1))
}

/// The place of the record with a key, in the item that is named at a place or below it.
pub(crate) fn find_below(heap: &Heap, sizes: Sizes, level: u8, named: u64, key: u64) -> Option<u64>
    requires key { is_key_size sizes.key ≡ true }
    requires inside { named + 4 ≤ length (data_of heap.now).image }
    requires tree { HasBthTree (data_of heap.now) sizes level named }
    ensures value { let h = data_of heap.now in
        result ≡ first_with (row_key h.image sizes.key) key (tree_rows h sizes level named) }
    ensures inside { IfSome result (λ at. at + leaf_size sizes ≤ length (data_of heap.now).image) }
{
    let item = item_named(heap, named);
    if level == 0 {
        return find_in(sizes.leaf(heap.image(), item), key);
    }
    let rows = sizes.branch(heap.image(), item);
    let count = rows.up_to(key);
    if count == 0 {
        return None;
    }
    find_below(heap, sizes, level - 1, rows.child(count - 1), key)
}
