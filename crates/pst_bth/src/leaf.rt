//! The first leaf of a tree that has a record from a key on.

ghost use Rattle.std.specs.Prelude.{◌≡◌, ◌+◌, ◌≤◌, length, true, IfSome};
ghost use Rattle.pst_bytes.specs.Image.{bytes_of, IsInside};
ghost use Rattle.pst_heap.specs.View.{data_of};
ghost use Rattle.pst_bth.specs.Rows.{is_key_size};
ghost use Rattle.pst_bth.specs.Rows.{rows_at};
ghost use Rattle.pst_bth.specs.Rows.{leaf_size};
ghost use Rattle.pst_bth.specs.Values.{tree_rows};
ghost use Rattle.pst_bth.specs.Find.{HasBthTree, AreRising};
ghost use Rattle.pst_bth.specs.Leaf.{FirstFrom, LeafFrom};
ghost use Rattle.pst_bth.specs.View.{rows_image, rows_item, rows_key_size, rows_size};

use crate::item::item_named;
use crate::rows::Rows;
use crate::sizes::Sizes;
use pst_bytes::Span;
use pst_heap::Heap;

// A leaf, and one of its records by its number.
#[derive(Clone, Copy)]
pub(crate) struct Leaf {
    pub(crate) item: Span,
    pub(crate) first: u64,
}

// The first record of a leaf whose key is at least this one.
fn first_in(rows: Rows, low: u64) -> Option<u64>
    requires { let I = bytes_of (rows_image rows) in
        AreRising I (rows_key_size rows) (rows_at (rows_size rows) (rows_item rows)) }
    ensures { let r = rows.entry in
        FirstFrom (bytes_of (rows_image r)) (rows_key_size r) (rows_size r)
        (rows_item r) low result }
{
    let count = rows.count();
    if count == 0 {
        return None;
    }
    if rows.key(count - 1) < low {
        return None;
    }
    if low < rows.key(0) {
        return Some(0);
    }
    let most = rows.up_to(low);
    if most == 0 {
        return Some(0);
    }
    if rows.key(most - 1) == low {
        return Some(most - 1);
    }
    Some(most)
}

/// The leaf that is named at a place, where it has a record whose key is at least this one.
#[inline]
pub(crate) fn leaf_at(heap: &Heap, sizes: Sizes, named: u64, low: u64) -> Option<Leaf>
    requires key { is_key_size sizes.key ≡ true }
    requires inside { named + 4 ≤ length (data_of heap.now).image }
    requires tree { HasBthTree (data_of heap.now) sizes 0 named }
    ensures found { let h = data_of heap.now in
        LeafFrom h.image sizes.key (leaf_size sizes) low (tree_rows h sizes 0 named) result }
    ensures inside { IfSome result (λ l. IsInside (data_of heap.now).image l.item) }
{
    let item = item_named(heap, named);
    let Some(first) = first_in(sizes.leaf(heap.image(), item), low) else {
        return None;
    };
    Some(Leaf { item, first })
}

/// The first leaf with a record whose key is at least this one, in the item that is named at a place or below it. Items whose
/// keys are all lower are passed over.
pub(crate) fn leaf_below(heap: &Heap, sizes: Sizes, level: u8, named: u64, low: u64) -> Option<Leaf>
    requires key { is_key_size sizes.key ≡ true }
    requires inside { named + 4 ≤ length (data_of heap.now).image }
    requires tree { HasBthTree (data_of heap.now) sizes level named }
    ensures found { let h = data_of heap.now in
        LeafFrom h.image sizes.key (leaf_size sizes) low (tree_rows h sizes level named) result }
    ensures inside { IfSome result (λ l. IsInside (data_of heap.now).image l.item) }
{
    let item = item_named(heap, named);
    if level == 0 {
        let Some(first) = first_in(sizes.leaf(heap.image(), item), low) else {
            return None;
        };
        return Some(Leaf { item, first });
    }
    let rows = sizes.branch(heap.image(), item);
    for i in rows.up_to(low).saturating_sub(1)..rows.count() {
        let below = level - 1;
        if let Some(leaf) = leaf_below(heap, sizes, below, rows.child(i), low) {
            return Some(leaf);
        }
    }
    None
}
