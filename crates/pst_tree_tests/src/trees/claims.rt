//! What walks leave claimed.

ghost use Rattle.std.specs.Prelude.{◌≡◌, length};
ghost use Rattle.pst_bytes.specs.Image.{bytes_of};
ghost use Rattle.pst_header.specs.Head.{Head};
ghost use Rattle.pst_space.specs.Claimed.{unit_total};

use super::*;
use crate::told::is;
use pst_header::Header;

// A walk: of the block B-tree, of the node B-tree, and of the latter without a list.
#[derive(Clone, Copy)]
enum Walk {
    Blocks,
    Nodes,
    Tree,
}

// The fault with which a walk ends.
fn fault_of(
    alloc: Global,
    walk: Walk,
    image: Image,
    header: &Header,
    claims: &mut Claims,
) -> Option<Fault>
    requires head { Head (bytes_of image) header.now }
    requires units { length claims.old ≡ unit_total header.now }
    ensures { length claims.new ≡ length claims.old }
{
    match walk {
        Walk::Blocks => walk_blocks(alloc, image, header, claims).err(),
        Walk::Nodes => walk_nodes(alloc, image, header, claims).err(),
        Walk::Tree => walk_node_tree(alloc, image, header, claims).err(),
    }
}

// The fault of the last of these walks, and which of these units are claimed then.
fn walked<R: Abort>(
    rt: &R,
    alloc: Global,
    image: &[u8],
    walks: &[Walk],
    units: &[u64],
) -> (Option<Fault>, Vec<bool>) {
    let image = Image::new(image);
    let Ok(header) = read_header(image) else {
        rt.panic("no header");
    };
    let Ok(mut claims) = Claims::new(alloc, &header) else {
        rt.panic("no memory");
    };
    let mut fault = None;
    for walk in walks {
        fault = fault_of(alloc, *walk, image, &header, &mut claims);
    }
    (fault, flags_of(rt, alloc, &claims, units))
}

fn flags_of<R: Abort>(rt: &R, alloc: Global, claims: &Claims, units: &[u64]) -> Vec<bool> {
    let mut flags = Vec::new(alloc);
    for unit in units {
        flags.push(claims.is_claimed(*unit)).expect(rt, MEMORY);
    }
    flags
}

// Walks, units, the fault of the last walk, and which of the units are claimed then.
type Row = (
    &'static [Walk],
    &'static [u64],
    Option<(Kind, u64, u64)>,
    &'static [bool],
);

fn is_claimed<R: Abort + AllocGlobal>(rt: &R, image: &[u8], row: &Row) {
    let (walks, units, fault, flags) = *row;
    let (told, claimed) = walked(rt, rt.alloc(), image, walks, units);
    let wanted = match fault {
        Some((kind, at, bid)) => Some(Fault::within(kind, at, bid)),
        None => None,
    };
    is(rt, (told, claimed.as_slice()), (wanted, flags));
}

// The pages of a small store lie from 0x4A00 to 0x4BFF and from 0x4800 to 0x49FF: these are claimed, and no more, and each page
// lies on itself.
const SMALL: [Row; 6] = [
    (
        &[Walk::Blocks],
        &[16, 23, 24, 31, 32],
        None,
        &[false, false, true, true, false],
    ),
    (&[Walk::Blocks, Walk::Nodes], &[16], None, &[true]),
    (
        &[Walk::Blocks, Walk::Nodes, Walk::Blocks],
        &[],
        Some((Kind::Overlap, 0x4a00, 8)),
        &[],
    ),
    (
        &[Walk::Blocks, Walk::Nodes, Walk::Blocks, Walk::Nodes],
        &[],
        Some((Kind::Overlap, 0x4800, 4)),
        &[],
    ),
    (&[Walk::Tree], &[16, 23, 24], None, &[true, true, false]),
    (
        &[Walk::Tree, Walk::Tree],
        &[],
        Some((Kind::Overlap, 0x4800, 4)),
        &[],
    ),
];

/// Stops the test where something else is claimed of a small store.
pub(super) fn small_pages_are<R: Abort + AllocGlobal>(rt: &R, image: &[u8]) {
    for row in &SMALL {
        is_claimed(rt, image, row);
    }
}

// A branch whose second child lies at no place for a page: the branch, at unit (0x8000 - 0x4400) / 64 = 240, and the
// first leaf stay claimed, and no more.
const BEFORE: Row = (
    &[Walk::Blocks],
    &[239, 240, 255, 256],
    Some((Kind::PagePlace, 0x8020, 9)),
    &[false, true, true, false],
);

#[test]
fn pages_before_a_fault_are_claimed(rt: HostRuntime) {
    let mut image = three_leaves(&rt, rt.alloc(), 36);
    let root = [branch(4, 1), [20, 9, 0x8020], branch(40, 3)];
    put_page(&rt, &mut image, PageKind::Bbt, page_at(0), 1, &root);
    is_claimed(&rt, &image, &BEFORE);
}
