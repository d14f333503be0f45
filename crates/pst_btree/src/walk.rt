//! The walk of a whole tree.

ghost use Rattle.std.specs.Prelude.{◌≡◌, ◌+◌, ◌<◌, ◌≤◌, length, None, IfOk, All};
ghost use Rattle.pst_bytes.specs.Image.{bytes_of};
ghost use Rattle.pst_header.specs.Head.{Head};
ghost use Rattle.pst_header.specs.Header.{end_of};
ghost use Rattle.pst_page.specs.Entry.{entry_size};
ghost use Rattle.pst_page.specs.Page.{level_at};
ghost use Rattle.pst_space.specs.Claimed.{unit_total};
ghost use Rattle.pst_space.specs.Step.{GivesStepBy, ClaimsSome};
ghost use Rattle.pst_btree.specs.Tree.{page_spans_at};
ghost use Rattle.pst_btree.specs.View.{tree_parts, entries, IsWalkedTree};
ghost use Rattle.pst_btree.specs.Walk.{tree_walk, found_so_far};

use crate::tree::TreeView;
use crate::walk_page::{Tally, walk_page};
use pst_bytes::Image;
use pst_fault::Fault;
use pst_header::{Bref, Header};
use pst_page::{PageKind, page_place};
use pst_space::Claims;
use std::alloc::Global;

// The level that the page at a place of the file says.
#[tactic(auto, unfolding(pst_page::specs::Page::level_at))]
fn level_of(image: Image, ib: u64) -> u8
    requires { ib + 512 ≤ length (bytes_of image) }
    ensures { result ≡ level_at (bytes_of image.entry) ib }
{
    image.number8(ib + 491)
}

/// Walks the tree under a root, claims its pages, and notes the places of its entries.
#[tactic(auto, using(pst_header::proofs::Head::head_end, crate::proofs::TreeLaws::walked, crate::proofs::WalkLemmas::walk_no_place, pst_space::proofs::StepLemmas::claims_none), unfolding(crate::specs::Tree::page_spans_at))]
pub fn walk<'a>(
    alloc: Global,
    image: Image<'a>,
    header: &Header,
    kind: PageKind,
    root: Bref,
    claims: &mut Claims,
) -> Result<(TreeView<'a>, Vec<u64>), Fault>
    requires head { Head (bytes_of image) header.now }
    requires units { length claims.old ≡ unit_total header.now }
    ensures same { length claims.new ≡ length claims.old }
    ensures exact { GivesStepBy (λ x.
        found_so_far claims.new (entries (tree_parts x.0)) x.0.pages) result claims.new
        (tree_walk kind (bytes_of image.entry) (end_of header.now) claims.old root) }
    ensures walked { IfOk result (λ x. IsWalkedTree image.entry (end_of header.now) kind root
        claims.old claims.new (tree_parts x.0)) }
    ensures places { IfOk result (λ x. x.1.items ≡ entries (tree_parts x.0)) }
    ensures inside { IfOk result (λ x.
        All (λ at. at + entry_size kind 0 ≤ length (bytes_of image.entry)) x.1.items) }
    ensures some { ClaimsSome claims.old claims.new
        (page_spans_at kind (bytes_of image.entry) (level_at (bytes_of image.entry) root.ib) root) }
{
    page_place(header, root)?;
    let level = level_of(image, root.ib);
    let end = header.end();
    let mut tally = Tally {
        places: Vec::new(alloc),
        pages: 0,
    };
    walk_page(
        image, header, kind, level, root, 0, None, claims, &mut tally,
    )?;
    let view = TreeView {
        image,
        end,
        kind,
        level,
        root,
        pages: tally.pages,
    };
    Ok((view, tally.places))
}
