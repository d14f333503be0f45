//! The walk of a whole damaged tree, and the nodes that its leaves name.

ghost use Rattle.std.specs.Prelude.{◌≡◌, ◌+◌, ◌≤◌, ◌++◌, length, map, None, IfOk, OnOk};
ghost use Rattle.pst_bytes.specs.Image.{bytes_of};
ghost use Rattle.pst_header.specs.Head.{IsMapped};
ghost use Rattle.pst_header.specs.Header.{end_of};
ghost use Rattle.pst_page.specs.declared.kind.PageKind.TheVariants.{Nbt};
ghost use Rattle.pst_page.specs.Entry.{key_at, node_entry_at};
ghost use Rattle.pst_page.specs.Page.{entries_at, level_at};
ghost use Rattle.pst_space.specs.Claimed.{unit_total};
ghost use Rattle.pst_btree.specs.Order.{Rises};
ghost use Rattle.pst_remains.specs.Leaf.{AreLeaves, IsLeaf};
ghost use Rattle.pst_remains.specs.Pages.{leaf_entries, faults_of as told, left_so_far, tree_left};

use crate::pages::{Broken, Seen};
use crate::walk_page::walk_page;
use pst_bytes::Image;
use pst_fault::Fault;
use pst_header::{Bref, Header};
use pst_page::{NodeEntry, Page, PageKind, known_page, page_place};
use pst_space::Claims;
use std::alloc::{AllocError, Global};

// The level that the page at a place of the file says.
#[tactic(auto, unfolding(pst_page::specs::Page::level_at))]
fn level_of(image: Image, ib: u64) -> u8
    requires { ib + 512 ≤ length (bytes_of image) }
    ensures { result ≡ level_at (bytes_of image.entry) ib }
{
    image.number8(ib + 491)
}

/// The tree under a root, which has the level that it says: its pages with a fault, and the leaves that are left. The pages
/// without fault are claimed, beside what is claimed before. AllocError where memory is refused.
#[tactic(auto, using(pst_header::proofs::Head::mapped_end, crate::proofs::WalkLemmas::tree_no_place))]
pub fn walk_tree(
    alloc: Global,
    image: Image,
    header: &Header,
    kind: PageKind,
    root: Bref,
    claims: &mut Claims,
) -> Result<Seen, AllocError>
    requires mapped { IsMapped (bytes_of image) header.now }
    requires units { length claims.old ≡ unit_total header.now }
    ensures same { length claims.new ≡ length claims.old }
    ensures left { IfOk result (λ s.
        tree_left kind (bytes_of image.entry) (end_of header.now) claims.old root
        ≡ left_so_far claims.new s.broken.items s.leaves.items) }
    ensures leaves { IfOk result (λ s. AreLeaves kind (bytes_of image.entry) s.leaves.items) }
    ensures keys { IfOk result (λ s. Rises 0 None (map (key_at kind (bytes_of image.entry))
        (leaf_entries (bytes_of image.entry) s.leaves.items))) }
{
    let mut seen = Seen {
        broken: Vec::new(alloc),
        leaves: Vec::new(alloc),
    };
    if let Err(fault) = page_place(header, root) {
        seen.broken.push(Broken {
            fault,
            from: 0,
            high: None,
        })?;
        return Ok(seen);
    }
    let level = level_of(image, root.ib);
    walk_page(
        image, header, kind, level, root, 0, 0, None, claims, &mut seen,
    )?;
    Ok(seen)
}

// Adds the nodes that a leaf names.
#[tactic(auto, using(pst_page::proofs::EntryLemmas::entries_from_start, pst_page::proofs::EntryLemmas::entries_from_next, pst_page::proofs::EntryLemmas::entries_from_end, crate::proofs::NodeLemmas::appended, crate::proofs::NodeLemmas::append_none))]
fn push_page(page: &Page, nodes: &mut Vec<NodeEntry>) -> Result<(), AllocError>
    requires kind { page.now.kind ≡ Nbt }
    requires leaf { IsLeaf Nbt (bytes_of page.now.image) page.now.bref.ib }
    ensures { OnOk result (nodes.new.items ≡ nodes.old.items
        ++ map (node_entry_at (bytes_of page.now.image))
        (entries_at (bytes_of page.now.image) page.now.bref.ib)) }
{
    for i in 0..page.count() {
        nodes.push(page.node_entry(i))?;
    }
    Ok(())
}

// The same, of the leaf at a place.
fn push_leaf(image: Image, ib: u64, nodes: &mut Vec<NodeEntry>) -> Result<(), AllocError>
    requires leaf { IsLeaf Nbt (bytes_of image) ib }
    ensures { OnOk result (nodes.new.items ≡ nodes.old.items
        ++ map (node_entry_at (bytes_of image.entry)) (entries_at (bytes_of image.entry) ib)) }
{
    let page = known_page(image, Bref { bid: 0, ib }, PageKind::Nbt);
    push_page(&page, nodes)
}

/// The nodes that the leaves at some places name, in order. AllocError where memory is refused.
#[tactic(auto, using(crate::proofs::NodeLemmas::nodes_next, crate::proofs::NodeLemmas::nodes_done))]
pub fn nodes_in(alloc: Global, image: Image, leaves: &[u64]) -> Result<Vec<NodeEntry>, AllocError>
    requires { AreLeaves Nbt (bytes_of image) leaves.now }
    ensures { IfOk result (λ v. v.items ≡ map (node_entry_at (bytes_of image.entry))
        (leaf_entries (bytes_of image.entry) leaves.now)) }
{
    let mut nodes = Vec::new(alloc);
    for ib in leaves {
        push_leaf(image, *ib, &mut nodes)?;
    }
    Ok(nodes)
}

// Adds the faults of pages.
#[tactic(auto, using(crate::proofs::NodeLemmas::faults_next, crate::proofs::NodeLemmas::faults_done))]
fn push_faults(broken: &[Broken], faults: &mut Vec<Fault>) -> Result<(), AllocError>
    ensures { OnOk result (faults.new.items ≡ faults.old.items ++ told broken.now) }
{
    for page in broken {
        faults.push(page.fault)?;
    }
    Ok(())
}

/// The faults of the pages of both trees, in order. AllocError where memory is refused.
pub fn faults_in(
    alloc: Global,
    first: &[Broken],
    second: &[Broken],
) -> Result<Vec<Fault>, AllocError>
    ensures { IfOk result (λ v. v.items ≡ told first.now ++ told second.now) }
{
    let mut faults = Vec::new(alloc);
    push_faults(first, &mut faults)?;
    push_faults(second, &mut faults)?;
    Ok(faults)
}
