//! Pages of the small store, with bytes changed.

use crate::stores::{changed, small};
use crate::told::{is, is_at};
use pst_bytes::{Image, Span};
use pst_fault::{Fault, Kind, Place};
use pst_header::{Bref, read_header};
use pst_make::Change;
use pst_page::*;
use std::process::Abort;

// Where the two root pages of a small store lie, and their identifiers.
const NBT: Bref = Bref { bid: 4, ib: 0x4800 };

const BBT: Bref = Bref { bid: 8, ib: 0x4a00 };

fn fault_of(kind: Kind, bref: Bref) -> Fault {
    let place = Place {
        at: bref.ib,
        bid: bref.bid,
        nid: 0,
    };
    Fault { kind, place }
}

// The page that is read there; None where the header or the page is bad.
fn page_in(image: &[u8], bref: Bref, kind: PageKind) -> Option<Page<'_>> {
    let image = Image::new(image);
    let Ok(header) = read_header(image) else {
        return None;
    };
    read_page(image, &header, bref, kind).ok()
}

// The page of blocks, known where it is read.
#[tactic(auto, using(pst_page::proofs::PageLemmas::good_has_shape))]
fn known_in(image: &[u8]) -> Option<Page<'_>> {
    let image = Image::new(image);
    let Ok(header) = read_header(image) else {
        return None;
    };
    match read_page(image, &header, BBT, PageKind::Bbt) {
        Ok(_) => Some(known_page(image, BBT, PageKind::Bbt)),
        Err(_) => None,
    }
}

// The page of blocks that is opened at 0x4C00.
fn opened_in(image: &[u8]) -> Option<Page<'_>> {
    let image = Image::new(image);
    if image.len() < 0x4e00 {
        return None;
    }
    let bref = Bref {
        bid: 12,
        ib: 0x4c00,
    };
    open_page(image, bref, PageKind::Bbt).ok()
}

// How many entries a page has, its level, and how many bytes an entry takes.
fn shape_of(page: &Page) -> (u8, u8, u8) {
    (page.count(), page.level(), page.width())
}

// The place of an entry, and its key.
fn place_of(page: &Page, entry: u8) -> Option<(u64, u64)> {
    if entry >= page.count() {
        return None;
    }
    Some((page.place(entry), page.key(entry)))
}

// What an entry of a branch names.
fn child_of(page: &Page, entry: u8) -> Option<Bref> {
    if entry >= page.count() {
        return None;
    }
    Some(page.child(entry))
}

fn node_of(page: &Page, entry: u8) -> Option<NodeEntry> {
    if entry >= page.count() || page.level() != 0 {
        return None;
    }
    match page.kind {
        PageKind::Nbt => Some(page.node_entry(entry)),
        PageKind::Bbt => None,
    }
}

fn block_of(page: &Page, entry: u8) -> Option<BlockEntry> {
    if entry >= page.count() || page.level() != 0 {
        return None;
    }
    match page.kind {
        PageKind::Bbt => Some(page.block_entry(entry)),
        PageKind::Nbt => None,
    }
}

// The entries of the two root pages of a small store.
const NODES: [NodeEntry; 2] = [
    NodeEntry {
        nid: 0x21,
        bid_data: 4,
        bid_sub: 0,
        parent: 0,
    },
    NodeEntry {
        nid: 0x122,
        bid_data: 8,
        bid_sub: 0,
        parent: 0x122,
    },
];

const BLOCKS: [BlockEntry; 2] = [
    BlockEntry {
        bid: 4,
        ib: 0x4c00,
        cb: 44,
    },
    BlockEntry {
        bid: 8,
        ib: 0x4c40,
        cb: 38,
    },
];

#[test]
fn a_page_of_nodes_is_read(rt: HostRuntime) {
    let bytes = small(&rt, rt.alloc());
    let page = page_in(&bytes, NBT, PageKind::Nbt).expect(&rt, "no page");
    is(&rt, shape_of(&page), (2, 0, 32));
    is(&rt, place_of(&page, 1), Some((0x4820, 0x122)));
    is(&rt, node_of(&page, 0), NODES.first().copied());
    is(&rt, node_of(&page, 1), NODES.get(1).copied());
    is(&rt, page.entry(1), bytes.get(0x4820..0x4840));
    is(&rt, page.entry(2), None);
    is(&rt, page.entry(255), None);
}

#[test]
fn a_page_of_blocks_is_read(rt: HostRuntime) {
    let bytes = small(&rt, rt.alloc());
    let page = page_in(&bytes, BBT, PageKind::Bbt).expect(&rt, "no page");
    is(&rt, shape_of(&page), (2, 0, 24));
    is(&rt, block_of(&page, 0), BLOCKS.first().copied());
    is(&rt, block_of(&page, 1), BLOCKS.get(1).copied());
    is(&rt, page.entry(0), bytes.get(0x4a00..0x4a18));
    let again = known_in(&bytes).expect(&rt, "no page");
    is(&rt, again.entry(1), page.entry(1));
}

// A branch of one entry, that names the page of blocks; 0x4C00 exclusive or 12 is 0x4C0C.
const BRANCH: [Change<'static>; 5] = [
    Change::Set(
        0x4c00,
        &[
            5, 0, 0, 0, 0, 0, 0, 0, 8, 0, 0, 0, 0, 0, 0, 0, 0x00, 0x4a, 0, 0, 0, 0, 0, 0,
        ],
    ),
    Change::Set(0x4de8, &[1, 20, 24, 15]),
    Change::Set(0x4df0, &[0x80, 0x80, 0x0c, 0x4c]),
    Change::Set(0x4df8, &[12]),
    Change::Page(0x4c00),
];

#[test]
fn a_branch_names_its_children(rt: HostRuntime) {
    let bytes = changed(&rt, rt.alloc(), &BRANCH);
    let page = opened_in(&bytes).expect(&rt, "no page");
    is(&rt, shape_of(&page), (1, 15, 24));
    is(&rt, child_of(&page, 0), Some(BBT));
    is(&rt, place_of(&page, 0), Some((0x4c00, 4)));
}

// What is read there, or no page and no fault where the header is bad.
fn fault_at(image: &[u8], bref: Bref, kind: PageKind) -> Option<Fault> {
    let image = Image::new(image);
    let Ok(header) = read_header(image) else {
        return None;
    };
    read_page(image, &header, bref, kind).err()
}

// What a row is of, what is changed, and the kind of fault of the page that is read there then.
type Row = (
    &'static str,
    &'static [Change<'static>],
    Bref,
    PageKind,
    Option<Kind>,
);

fn is_told<R: Abort + AllocGlobal>(rt: &R, row: &Row) {
    let (what, changes, bref, page, kind) = *row;
    let image = changed(rt, rt.alloc(), changes);
    let wanted = match kind {
        Some(kind) => Some(fault_of(kind, bref)),
        None => None,
    };
    is_at(rt, what, fault_at(&image, bref, page), wanted);
}

fn are_told<R: Abort + AllocGlobal>(rt: &R, rows: &[Row]) {
    for row in rows {
        is_told(rt, row);
    }
}

// What a page has behind its entries is changed, and its check value is made right again.
const SHAPES: [Row; 10] = [
    (
        "a level over 15",
        &[Change::Set(0x49eb, &[16]), Change::Page(0x4800)],
        NBT,
        PageKind::Nbt,
        Some(Kind::PageShape),
    ),
    (
        "entries of 31 bytes",
        &[Change::Set(0x49ea, &[31]), Change::Page(0x4800)],
        NBT,
        PageKind::Nbt,
        Some(Kind::PageShape),
    ),
    (
        "16 entries of 32 bytes",
        &[Change::Set(0x49e8, &[16]), Change::Page(0x4800)],
        NBT,
        PageKind::Nbt,
        Some(Kind::PageShape),
    ),
    (
        "8 entries of 62 bytes",
        &[Change::Set(0x49e8, &[8, 15, 62]), Change::Page(0x4800)],
        NBT,
        PageKind::Nbt,
        Some(Kind::PageShape),
    ),
    (
        "a branch of no entry",
        &[Change::Set(0x49e8, &[0, 15, 32, 1]), Change::Page(0x4800)],
        NBT,
        PageKind::Nbt,
        Some(Kind::PageShape),
    ),
    (
        "a branch with entries of 23 bytes",
        &[Change::Set(0x49e8, &[1, 15, 23, 1]), Change::Page(0x4800)],
        NBT,
        PageKind::Nbt,
        Some(Kind::PageShape),
    ),
    (
        "15 entries",
        &[Change::Set(0x49e8, &[15, 15, 32, 0]), Change::Page(0x4800)],
        NBT,
        PageKind::Nbt,
        None,
    ),
    (
        "no entry",
        &[Change::Set(0x49e8, &[0, 15, 32, 0]), Change::Page(0x4800)],
        NBT,
        PageKind::Nbt,
        None,
    ),
    (
        "2 entries of 244 bytes",
        &[Change::Set(0x49e8, &[2, 15, 244, 0]), Change::Page(0x4800)],
        NBT,
        PageKind::Nbt,
        None,
    ),
    (
        "a branch of level 15",
        &[Change::Set(0x49e8, &[20, 15, 24, 15]), Change::Page(0x4800)],
        NBT,
        PageKind::Nbt,
        None,
    ),
];

#[test]
fn shapes_that_cannot_be(rt: HostRuntime) {
    are_told(&rt, &SHAPES);
}

const TRAILERS: [Row; 10] = [
    (
        "the other type",
        &[Change::Set(0x49f0, &[0x80, 0x80])],
        NBT,
        PageKind::Nbt,
        Some(Kind::PageTrailer),
    ),
    (
        "its first byte",
        &[Change::Set(0x49f0, &[0x80])],
        NBT,
        PageKind::Nbt,
        Some(Kind::PageTrailer),
    ),
    (
        "its second byte",
        &[Change::Set(0x49f1, &[0x80])],
        NBT,
        PageKind::Nbt,
        Some(Kind::PageTrailer),
    ),
    (
        "the signature",
        &[Change::Set(0x49f2, &[0])],
        NBT,
        PageKind::Nbt,
        Some(Kind::PageTrailer),
    ),
    (
        "the check value",
        &[Change::Set(0x49f4, &[0])],
        NBT,
        PageKind::Nbt,
        Some(Kind::PageTrailer),
    ),
    (
        "the identifier",
        &[Change::Set(0x49f8, &[5])],
        NBT,
        PageKind::Nbt,
        Some(Kind::PageTrailer),
    ),
    (
        "its last byte",
        &[Change::Set(0x49ff, &[1])],
        NBT,
        PageKind::Nbt,
        Some(Kind::PageTrailer),
    ),
    (
        "a byte of the page",
        &[Change::Set(0x4900, &[1])],
        NBT,
        PageKind::Nbt,
        Some(Kind::PageTrailer),
    ),
    (
        "a page of nodes, read as one of blocks",
        &[],
        NBT,
        PageKind::Bbt,
        Some(Kind::PageTrailer),
    ),
    (
        "another identifier",
        &[],
        OTHER,
        PageKind::Nbt,
        Some(Kind::PageTrailer),
    ),
];

const OTHER: Bref = Bref { bid: 6, ib: 0x4800 };

#[test]
fn trailers_that_are_wrong(rt: HostRuntime) {
    are_told(&rt, &TRAILERS);
}

// The fault of a page, how many pages were decoded, and the fault of its shape alone.
type Decoded = (Option<Fault>, u64, Option<Fault>);

// What decoding the page of nodes answers, and the count of decoded pages then, which was 7; and its shape alone.
fn decoded<R: Abort>(rt: &R, image: &[u8]) -> Decoded {
    let image = Image::new(image);
    if image.len() < NBT.ib + 512 {
        rt.panic("no page");
    }
    let mut pages = 7;
    let fault = decode_page(image, NBT, PageKind::Nbt, &mut pages).err();
    (fault, pages, check_shape(image, NBT, PageKind::Nbt).err())
}

const TRAILER: Option<Fault> = Some(Fault {
    kind: Kind::PageTrailer,
    place: AT_NBT,
});

const SHAPE: Option<Fault> = Some(Fault {
    kind: Kind::PageShape,
    place: AT_NBT,
});

const AT_NBT: Place = Place {
    at: 0x4800,
    bid: 4,
    nid: 0,
};

const DECODED: [(&[Change<'static>], Decoded); 4] = [
    (&[], (None, 8, None)),
    (&[Change::Flip(0x49f4)], (TRAILER, 8, None)),
    (&[Change::Set(0x49ea, &[31])], (TRAILER, 8, SHAPE)),
    (
        &[Change::Set(0x49ea, &[31]), Change::Page(0x4800)],
        (SHAPE, 8, SHAPE),
    ),
];

fn is_decoded<R: Abort + AllocGlobal>(rt: &R, changes: &[Change], wanted: Decoded) {
    let image = changed(rt, rt.alloc(), changes);
    is(rt, decoded(rt, &image), wanted);
}

// A page is counted whatever the answer is, and its shape is looked at whatever its trailer says.
#[test]
fn a_page_is_decoded_and_counted(rt: HostRuntime) {
    for (changes, wanted) in &DECODED {
        is_decoded(&rt, changes, *wanted);
    }
}

// The file goes on behind the mapped part, which ends at 271,360.
const PLACES: [Row; 7] = [
    (
        "0",
        &[Change::Grow(1024)],
        Bref { bid: 4, ib: 0 },
        PageKind::Nbt,
        Some(Kind::PagePlace),
    ),
    (
        "0x43c0",
        &[Change::Grow(1024)],
        Bref { bid: 4, ib: 0x43c0 },
        PageKind::Nbt,
        Some(Kind::PagePlace),
    ),
    (
        "0x4801",
        &[Change::Grow(1024)],
        Bref { bid: 4, ib: 0x4801 },
        PageKind::Nbt,
        Some(Kind::PagePlace),
    ),
    (
        "0x4820",
        &[Change::Grow(1024)],
        Bref { bid: 4, ib: 0x4820 },
        PageKind::Nbt,
        Some(Kind::PagePlace),
    ),
    (
        "448 bytes before the end",
        &[Change::Grow(1024)],
        Bref {
            bid: 4,
            ib: 271_360 - 448,
        },
        PageKind::Nbt,
        Some(Kind::PagePlace),
    ),
    (
        "the end",
        &[Change::Grow(1024)],
        Bref {
            bid: 4,
            ib: 271_360,
        },
        PageKind::Nbt,
        Some(Kind::PagePlace),
    ),
    (
        "the last unit of all",
        &[Change::Grow(1024)],
        Bref {
            bid: 4,
            ib: u64::MAX - 63,
        },
        PageKind::Nbt,
        Some(Kind::PagePlace),
    ),
];

fn place_in(image: &[u8], ib: u64) -> Option<Span> {
    let Ok(header) = read_header(Image::new(image)) else {
        return None;
    };
    page_place(&header, Bref { bid: 4, ib }).ok()
}

#[test]
fn places_where_no_page_may_lie(rt: HostRuntime) {
    are_told(&rt, &PLACES);
    let image = changed(&rt, rt.alloc(), &[Change::Grow(1024)]);
    for at in [0x4400, 0x4440, 271_360 - 512] {
        is_at(&rt, at, place_in(&image, at), Some(Span { at, len: 512 }));
    }
}

const KEYS: [(PageKind, u64, u64); 6] = [
    (PageKind::Bbt, 5, 4),
    (PageKind::Bbt, 6, 6),
    (PageKind::Bbt, u64::MAX, u64::MAX - 1),
    (PageKind::Nbt, 5, 5),
    (PageKind::Nbt, 0x1_0000_0121, 0x121),
    (PageKind::Nbt, u64::MAX, 0xffff_ffff),
];

fn key_at(kind: PageKind) -> u64 {
    let bytes = [0xab; 8];
    kind.key_at(Image::new(&bytes), 0)
}

#[test]
fn keys_of_entries(rt: HostRuntime) {
    for (kind, number, key) in &KEYS {
        is_at(&rt, *number, kind.key_of(*number), *key);
    }
    is(&rt, key_at(PageKind::Nbt), 0xabab_abab);
}
