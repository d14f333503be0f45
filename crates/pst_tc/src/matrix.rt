//! The row matrix.

ghost use Rattle.std.specs.Prelude.{◌≡◌, ℕ, ◌≤◌, ◌<◌, true, IfSome, is_some};
ghost use Rattle.pst_bytes.specs.Image.{bytes_of, IsInside};
ghost use Rattle.pst_ndb.specs.Views.{table_of_node, roots_of};
ghost use Rattle.pst_heap.specs.View.{node_of, data_of};
ghost use Rattle.pst_value.specs.declared.hnid.Hnid.TheVariants.{Subnode};
ghost use Rattle.pst_value.specs.Values.{hnid_spans, spans_under};
ghost use Rattle.pst_tc.specs.declared.matrix.Matrix.TheVariants.{Nothing};
ghost use Rattle.pst_tc.specs.Blocks.{blocks_node, matrix_spans};
ghost use Rattle.pst_tc.specs.Values.{row_of_span as span_row, row_of_blocks, row_of_matrix as named_row, row_under};
ghost use Rattle.pst_tc.specs.Matrix.{matrix_row, LiesIn, HasRowsOf};

use crate::blocks::Blocks;
use pst_bytes::{Image, Span};
use pst_heap::Heap;
use pst_value::{Hnid, hnid_of};

// Where the rows of a table lie: nowhere, in an item of the heap, or in the blocks of a subnode.
#[derive(Clone, Copy)]
pub(crate) enum Matrix<'a> {
    Nothing,
    Item(Span),
    Blocks(Blocks<'a>),
}

// The row with a number among those of so many bytes in a span.
#[tactic(auto, unfolding(crate::specs::Values::row_of_span))]
fn row_of_span(image: Image, span: Span, size: u16, n: u32) -> Option<Span>
    requires { IsInside (bytes_of image) span }
    ensures value { result ≡ span_row size n span }
    ensures inside { IfSome result (IsInside (bytes_of image.entry)) }
    ensures size { IfSome result (λ s. s.len ≡ size) }
{
    let len = u64::from(size);
    let start = u64::from(n) * len;
    if start + len > span.len {
        return None;
    }
    Some(Span {
        at: span.at + start,
        len,
    })
}

/// The item that an HNID names, where it names one: there the rows of most tables lie.
#[inline]
#[tactic(auto, unfolding(crate::specs::Values::row_of_matrix, pst_value::specs::Values::hnid_spans))]
pub(crate) fn matrix_item(heap: &Heap, hnid: u32) -> Option<Span>
    ensures there { let node = node_of heap.now in
        IfSome result (λ item. is_some (hnid_spans (table_of_node node) (roots_of node) hnid)
        ≡ true) }
    ensures inside { IfSome result (IsInside (data_of heap.now).image) }
    ensures rows { let node = node_of heap.now in let t = table_of_node node in
        (size n : ℕ) →
        IfSome result (λ item. span_row size n item ≡ named_row t (roots_of node) hnid size n) }
{
    match hnid_of(hnid) {
        Hnid::Item(hid) => heap.item_span(hid),
        Hnid::Nothing | Hnid::Subnode(_) => None,
    }
}

// The blocks of a subnode. They are many bytes, so this stands apart from matrices that are an item.
#[inline(never)]
fn subnode_blocks<'a>(heap: &Heap<'a>, nid: u32) -> Option<Blocks<'a>>
    ensures there { let node = node_of heap.now in is_some result ≡
        is_some (spans_under (table_of_node node) (roots_of node) (Subnode nid)) }
    ensures inside { IfSome result (λ b.
        (table_of_node (blocks_node b)).image ≡ (data_of heap.now).image) }
    ensures rows { let node = node_of heap.now in let t = table_of_node node in
        (size n : ℕ) → IfSome result (λ b.
        row_of_blocks size n (matrix_spans b) ≡ row_under t (roots_of node) size n (Subnode nid)) }
{
    match heap.node().sub(nid) {
        Some(sub) => Some(Blocks::of(sub)),
        None => None,
    }
}

/// Puts the matrix that an HNID names in the place of none, and tells whether it names one; else there are no rows. It is many
/// bytes, all of which would be copied wherever it is handed on, so whoever keeps it has it put there.
#[inline(always)]
#[tactic(auto, unfolding(crate::specs::Values::row_of_matrix, pst_value::specs::Values::hnid_spans))]
pub(crate) fn put_matrix<'a>(heap: &Heap<'a>, hnid: u32, matrix: &mut Matrix<'a>) -> bool
    requires { matrix.old ≡ Nothing }
    ensures there { let node = node_of heap.now in
        result ≡ is_some (hnid_spans (table_of_node node) (roots_of node) hnid) }
    ensures inside { LiesIn (data_of heap.now).image matrix.new }
    ensures rows { let node = node_of heap.now in
        HasRowsOf (table_of_node node) (roots_of node) hnid matrix.new }
{
    match hnid_of(hnid) {
        Hnid::Nothing => true,
        Hnid::Item(hid) => match heap.item_span(hid) {
            Some(item) => {
                *matrix = Matrix::Item(item);
                true
            }
            None => false,
        },
        Hnid::Subnode(nid) => match subnode_blocks(heap, nid) {
            Some(blocks) => {
                *matrix = Matrix::Blocks(blocks);
                true
            }
            None => false,
        },
    }
}

/// The row with a number, of rows of so many bytes.
pub(crate) fn row_of(image: Image, matrix: &mut Matrix, size: u16, n: u32) -> Option<Span>
    requires lies { LiesIn (bytes_of image) matrix.old }
    requires least { 4 ≤ size }
    requires most { size ≤ 8176 }
    ensures value { result ≡ matrix_row matrix.old size n }
    ensures inside { IfSome result (IsInside (bytes_of image.entry)) }
    ensures size { IfSome result (λ s. s.len ≡ size) }
    ensures lies { LiesIn (bytes_of image.entry) matrix.new }
    ensures same { (k m : ℕ) → matrix_row matrix.new k m ≡ matrix_row matrix.old k m }
{
    match matrix {
        Matrix::Nothing => None,
        Matrix::Item(item) => row_of_span(image, *item, size, n),
        Matrix::Blocks(blocks) => {
            let per = u32::from(8176 / size);
            let Some(block) = blocks.block(u64::from(n / per)) else {
                return None;
            };
            row_of_span(image, block, size, n % per)
        }
    }
}
