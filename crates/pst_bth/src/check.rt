//! The check of a BTH.

ghost use Rattle.std.specs.Prelude.{◌≡◌, ◌⊎◌, ℕ, ◌+◌, ◌≤◌, length, true, IfOk, IsOk, List, None, option_map};
ghost use Rattle.pst_bytes.specs.Image.{bytes_of, IsInside};
ghost use Rattle.pst_bytes.specs.declared.span.Span.{Span};
ghost use Rattle.pst_fault.specs.First.{answer, Checks};
ghost use Rattle.pst_heap.specs.Fault.{told_of as told};
ghost use Rattle.pst_heap.specs.View.{data_of, node_of};
ghost use Rattle.pst_bth.specs.Rows.{is_key_size, sizes_of};
ghost use Rattle.pst_bth.specs.Values.{has_bth_header as header, bth_records};
ghost use Rattle.pst_bth.specs.Fault.{bth_header_fault, bth_fault};
ghost use Rattle.pst_bth.specs.View.{heap_of, sizes_in, records_of};
ghost use Rattle.pst_bth.specs.Grammar.{IsBth};
ghost use Rattle.pst_bth.specs.Fault.{bad_item as bad, bth_leaf_fault, bth_branch_fault, bth_tree_fault};

use crate::bth::Bth;
use crate::sizes::Sizes;
use pst_bytes::Span;
use pst_fault::{Fault, Kind};
use pst_heap::{Heap, told_of};

/// How many levels of branches a BTH may have.
pub const LEVELS: u8 = 15;

// The fault of an item.
fn bad_item(item: Span) -> Fault
    ensures { result ≡ bad item }
{
    Fault::at(Kind::Bth, item.at)
}

// A leaf: the order of its keys.
#[tactic(auto, unfolding(crate::specs::Fault::bth_leaf_fault))]
fn check_leaf(
    heap: &Heap,
    sizes: Sizes,
    item: Span,
    low: u64,
    high: Option<u64>,
) -> Result<(), Fault>
    requires key { is_key_size sizes.key ≡ true }
    requires inside { IsInside (data_of heap.now).image item }
    ensures exact { result ≡ answer (bth_leaf_fault (data_of heap.now) sizes low high item) tt }
{
    sizes.leaf(heap.image(), item).check_order(low, high)
}

// A branch alone: that it has a record, and the order of its keys.
#[tactic(auto, unfolding(crate::specs::Fault::bth_branch_fault))]
fn check_branch(
    heap: &Heap,
    sizes: Sizes,
    item: Span,
    low: u64,
    high: Option<u64>,
) -> Result<(), Fault>
    requires key { is_key_size sizes.key ≡ true }
    requires inside { IsInside (data_of heap.now).image item }
    ensures exact { result ≡ answer (bth_branch_fault (data_of heap.now) sizes low high item) tt }
{
    let rows = sizes.branch(heap.image(), item);
    if rows.count() == 0 {
        return Err(bad_item(item));
    }
    rows.check_order(low, high)
}

// The item that is named at a place, and all below it: an item before those that its records name, and these from left to
// right. Keys are at least `low` and, where there is a `high`, below it.
#[tactic(auto, unfolding(crate::specs::Values::item_at), using(crate::proofs::TreeLemmas::tree_none, crate::proofs::TreeLemmas::tree_leaf, crate::proofs::TreeLemmas::tree_branch_fails, crate::proofs::TreeLemmas::tree_branch_left, crate::proofs::TreeLemmas::bth_children_done, crate::proofs::RowLemmas::rows_end))]
fn check_tree(
    heap: &Heap,
    sizes: Sizes,
    level: u8,
    named: u64,
    low: u64,
    high: Option<u64>,
) -> Result<(), Fault>
    requires key { is_key_size sizes.key ≡ true }
    requires inside { named + 4 ≤ length (data_of heap.now).image }
    ensures exact { let h = data_of heap.now in
        result ≡ answer (bth_tree_fault h sizes level named low high) tt }
{
    let hid = heap.image().number32(named);
    let Some(item) = heap.item_span(hid) else {
        return Err(Fault::at(Kind::HeapId, named));
    };
    if level == 0 {
        return check_leaf(heap, sizes, item, low, high);
    }
    check_branch(heap, sizes, item, low, high)?;
    let rows = sizes.branch(heap.image(), item);
    for i in 0..rows.count() {
        let below = level - 1;
        check_tree(
            heap,
            sizes,
            below,
            rows.child(i),
            rows.key(i),
            rows.bound(i, high),
        )?;
    }
    Ok(())
}

// Whether an item is the header of a BTH.
#[tactic(auto, unfolding(crate::specs::Values::has_bth_header))]
fn has_bth_header(heap: &Heap, sizes: Sizes, head: Span) -> bool
    requires { IsInside (data_of heap.now).image head }
    ensures { result ≡ header (data_of heap.now).image sizes head }
{
    let image = heap.image();
    head.len >= 8
        && image.number8(head.at) == 0xB5
        && image.number8(head.at + 1) == sizes.key
        && image.number8(head.at + 2) == sizes.ent
        && image.number8(head.at + 3) <= LEVELS
}

// The header of a BTH, and all items below it.
#[tactic(auto, unfolding(crate::specs::Fault::bth_header_fault, crate::specs::Fault::bth_root_fault), using(crate::proofs::BthLemmas::header_long))]
fn check_header(heap: &Heap, sizes: Sizes, head: Span) -> Result<(), Fault>
    requires key { is_key_size sizes.key ≡ true }
    requires inside { IsInside (data_of heap.now).image head }
    ensures exact { result ≡ answer (bth_header_fault (data_of heap.now) sizes head) tt }
{
    if !has_bth_header(heap, sizes, head) {
        return Err(bad_item(head));
    }
    let image = heap.image();
    if image.number32(head.at + 4) == 0 {
        return Ok(());
    }
    let levels = image.number8(head.at + 3);
    check_tree(heap, sizes, levels, head.at + 4, 0, None)
}

// A BTH, with no context told.
#[tactic(auto, unfolding(crate::specs::Fault::bth_fault), using(crate::proofs::BthLemmas::records_some))]
fn check_all<'a>(heap: &Heap<'a>, sizes: Sizes, named: u64, hid: u32) -> Result<Bth<'a>, Fault>
    requires key { is_key_size sizes.key ≡ true }
    ensures exact { Checks result (bth_fault (data_of heap.now) sizes named hid) }
    ensures heap { IfOk result (λ b. heap_of b ≡ heap.now) }
    ensures sizes { IfOk result (λ b. sizes_in b ≡ sizes) }
    ensures records { let h = data_of heap.now in
        IfOk result (λ b. records_of b ≡ bth_records h sizes hid) }
{
    let Some(head) = heap.item_span(hid) else {
        return Err(Fault::at(Kind::HeapId, named));
    };
    check_header(heap, sizes, head)?;
    Ok(Bth::of_header(*heap, sizes, head))
}

/// Checks the BTH whose header item has an identifier ([MS-PST] 2.3.2), which stands at `named` in the file. With the bidData of
/// the heap's node, and with the node from which that was reached, in this order:
///
/// - HeapId at `named`, where no item has the identifier;
/// - Bth at the header item, where it has less than 8 bytes, bType is not 0xB5, cbKey or cbEnt are not these, or bIdxLevels is
///   over 15;
/// - then item by item from the root on, none where hidRoot is 0, an item before those that it names: HeapId at the four bytes
///   that name it, where no item has that identifier; Bth at the item, where a branch has no record; Bth at the first record
///   whose key does not rise, or breaks the bounds that the items above give.
///
/// It takes no memory, and looks at each record once.
#[tactic(auto, using(crate::proofs::RowLemmas::key_size_is))]
pub fn check_bth_at<'a>(
    heap: &Heap<'a>,
    named: u64,
    hid: u32,
    cb_key: u8,
    cb_ent: u8,
) -> Result<Bth<'a>, Fault>
    requires key { (cb_key ≡ 2) ⊎ (cb_key ≡ 4) }

    // A BTH, or the first fault.
    ensures exact { let first = bth_fault (data_of heap.now) (sizes_of cb_key cb_ent) named hid in
        Checks result (option_map (told (node_of heap.now)) first) }
    ensures heap { IfOk result (λ b. heap_of b ≡ heap.now) }
    ensures sizes { IfOk result (λ b. sizes_in b ≡ sizes_of cb_key cb_ent) }
    ensures records { let z = sizes_of cb_key cb_ent in
        IfOk result (λ b. records_of b ≡ bth_records (data_of heap.now) z hid) }

    // What is found is a BTH with these records, and a BTH is found.
    ensures found { let z = sizes_of cb_key cb_ent in
        IfOk result (λ b. IsBth (data_of heap.now) z hid (records_of b)) }
    ensures only { let z = sizes_of cb_key cb_ent in
        (records : List (ℕ × Span)) → IsBth (data_of heap.now) z hid records → IsOk result }
{
    let sizes = Sizes {
        key: cb_key,
        ent: cb_ent,
    };
    match check_all(heap, sizes, named, hid) {
        Ok(bth) => Ok(bth),
        Err(fault) => Err(told_of(&heap.node(), fault)),
    }
}

/// Checks the BTH whose header item has an identifier, as `check_bth_at` does; HeapId is at 0 where no item has it.
pub fn check_bth<'a>(heap: &Heap<'a>, hid: u32, cb_key: u8, cb_ent: u8) -> Result<Bth<'a>, Fault>
    requires key { (cb_key ≡ 2) ⊎ (cb_key ≡ 4) }
    ensures exact { let first = bth_fault (data_of heap.now) (sizes_of cb_key cb_ent) 0 hid in
        Checks result (option_map (told (node_of heap.now)) first) }
    ensures heap { IfOk result (λ b. heap_of b ≡ heap.now) }
    ensures sizes { IfOk result (λ b. sizes_in b ≡ sizes_of cb_key cb_ent) }
    ensures records { let z = sizes_of cb_key cb_ent in
        IfOk result (λ b. records_of b ≡ bth_records (data_of heap.now) z hid) }
    ensures found { let z = sizes_of cb_key cb_ent in
        IfOk result (λ b. IsBth (data_of heap.now) z hid (records_of b)) }
    ensures only { let z = sizes_of cb_key cb_ent in
        (records : List (ℕ × Span)) → IsBth (data_of heap.now) z hid records → IsOk result }
{
    check_bth_at(heap, 0, hid, cb_key, cb_ent)
}

/// The BTH whose header item has an identifier, where it is known to have no fault.
#[tactic(auto, unfolding(crate::specs::Fault::bth_fault), using(crate::proofs::BthLemmas::records_some, crate::proofs::RowLemmas::key_size_is))]
pub fn known_bth<'a>(heap: &Heap<'a>, hid: u32, cb_key: u8, cb_ent: u8) -> Bth<'a>
    requires key { (cb_key ≡ 2) ⊎ (cb_key ≡ 4) }
    requires sound { bth_fault (data_of heap.now) (sizes_of cb_key cb_ent) 0 hid ≡ None }
    ensures heap { heap_of result ≡ heap.now }
    ensures sizes { sizes_in result ≡ sizes_of cb_key cb_ent }
    ensures records { let z = sizes_of cb_key cb_ent in
        records_of result ≡ bth_records (data_of heap.now) z hid }
{
    let sizes = Sizes {
        key: cb_key,
        ent: cb_ent,
    };
    let Some(head) = heap.item_span(hid) else {
        unreachable!()
    };
    Bth::of_header(*heap, sizes, head)
}
