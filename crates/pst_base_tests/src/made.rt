//! Test images: those of another program, seals, plans that are refused.

use crate::stores::{MEMORY, changed, digest_of, small};
use crate::told::{holds, is, is_at};
use pst_make::*;
use std::alloc::{AllocError, AllocFailed, Global};
use std::process::Abort;

fn add_block<R: Abort>(rt: &R, plan: &mut Plan, bid: u64, body: Vec<u8>) {
    plan.blocks.push(BlockPlan { bid, body }).expect(rt, MEMORY);
}

fn add_node<R: Abort>(rt: &R, plan: &mut Plan, nid: u32, bid_data: u64) {
    let node = NodePlan {
        nid,
        bid_data,
        bid_sub: 0,
        parent: 0,
    };
    plan.nodes.push(node).expect(rt, MEMORY);
}

// A byte, so many times.
fn filled<R: Abort>(rt: &R, alloc: Global, byte: u8, len: usize) -> Vec<u8> {
    (vec![in alloc; byte; len]).expect(rt, MEMORY)
}

// A plan of n blocks with bodies of so many bytes, block k with the byte k in all of them, and of so many nodes.
fn even_plan<R: Abort>(rt: &R, alloc: Global, blocks: u16, len: usize, nodes: u16) -> Plan {
    let mut plan = Plan {
        blocks: Vec::new(alloc),
        nodes: Vec::new(alloc),
    };
    for k in 1..=blocks {
        let body = filled(rt, alloc, (k % 256) as u8, len);
        add_block(rt, &mut plan, 4 * u64::from(k), body);
    }
    for k in 0..nodes {
        let bid_data = 4 * (u64::from(k) + 1);
        add_node(rt, &mut plan, 0x21 + 32 * u32::from(k), bid_data);
    }
    plan
}

// The image of such a plan, or why there is none.
fn even_image<R: Abort>(
    rt: &R,
    alloc: Global,
    blocks: u16,
    len: usize,
    nodes: u16,
) -> Result<Vec<u8>, MakeFault> {
    build(alloc, &even_plan(rt, alloc, blocks, len, nodes))
}

// Compares the digest of an image, and its length.
fn is_image<R: Abort + AllocGlobal>(rt: &R, image: &[u8], len: usize, want: &str) {
    let digest = digest_of(rt, rt.alloc(), image);
    is(rt, (image.len(), digest.as_str()), (len, want));
}

// Compares the digest of the image of an even plan.
fn is_even<R: Abort + AllocGlobal>(rt: &R, blocks: u16, len: usize, nodes: u16, want: &str) {
    let image = even_image(rt, rt.alloc(), blocks, len, nodes).expect(rt, "no image");
    is_image(rt, &image, image.len(), want);
}

#[test]
fn fixed_images(rt: HostRuntime) {
    let image = small(&rt, rt.alloc());
    is_image(
        &rt,
        &image,
        271_360,
        "fad9565623624ccd53baedac897c48ca75dbda38b419cb8b6967b97ea848d681",
    );
    let image = m1(rt.alloc()).expect(&rt, MEMORY);
    is_image(
        &rt,
        &image,
        271_360,
        "97e4432ce148bf8b44e190056902d6036bb123d87899223881ab8b30ab0595af",
    );
    let image = m2(rt.alloc()).expect(&rt, MEMORY);
    is_image(
        &rt,
        &image,
        271_360,
        "21249abfa0fbf1c0a546c5a978e8938491496fb77125ae5afb47596fdaa80c07",
    );
}

#[test]
fn empty_plan(rt: HostRuntime) {
    let want = "09f60880b1730a76c9ad1de34dc2765458f391a36e537727a45eaaf47ac06428";
    is_even(&rt, 0, 0, 0, want);
}

// A leaf more than one branch names: two levels of branches.
#[test]
fn empty_bodies(rt: HostRuntime) {
    let want = "8704d44a70cadad8af3a694a4874d297f8cba3bc4afb2bd83f8e3de2bc194fdb";
    is_even(&rt, 401, 0, 0, want);
}

// Eleven regions, with a second page map behind the ninth allocation map.
#[test]
fn several_regions(rt: HostRuntime) {
    let image = even_image(&rt, rt.alloc(), 300, 8176, 300).expect(&rt, "no image");
    is_image(
        &rt,
        &image,
        2_810_880,
        "acf795bb53500db6e0a383e81f16c682dbaf05a5d995f9f21aebcea841c71d88",
    );
}

// Blocks, how long their bodies are, and why there is no image of them.
const REFUSED: [(u16, usize, Option<MakeFault>); 6] = [
    (479, 8176, None),
    (480, 8176, Some(MakeFault::TooLarge)),
    (520, 8176, Some(MakeFault::TooLarge)),
    (1, 8176, None),
    (1, 8177, Some(MakeFault::Body)),
    (520, 8177, Some(MakeFault::Body)),
];

fn is_refused<R: Abort + AllocGlobal>(rt: &R, row: (u16, usize, Option<MakeFault>)) {
    let (blocks, len, want) = row;
    let image = even_image(rt, rt.alloc(), blocks, len, 0);
    is_at(rt, (blocks, len), image.err(), want);
}

#[test]
fn refused_plans(rt: HostRuntime) {
    for row in &REFUSED {
        is_refused(&rt, *row);
    }
}

// What is sealed, set to 0: check values and signatures.
const UNSEALED: [Change<'static>; 8] = [
    Change::Set(4, &[0; 4]),
    Change::Set(524, &[0; 4]),
    Change::Set(0x4400 + 498, &[0; 6]),
    Change::Set(0x4600 + 498, &[0; 6]),
    Change::Set(0x4800 + 498, &[0; 6]),
    Change::Set(0x4a00 + 498, &[0; 6]),
    Change::Set(0x4c32, &[0; 6]),
    Change::Set(0x4c72, &[0; 6]),
];

// Makes all seals of the small store right; false, and nothing is done, where the image is too short.
fn seal(image: &mut [u8]) -> bool {
    if image.len() < 271_360 {
        return false;
    }
    seal_block(image, 0x4c00, 44);
    seal_block(image, 0x4c40, 38);
    for at in [0x4400, 0x4600, 0x4800, 0x4a00] {
        seal_page(image, at);
    }
    seal_header(image);
    true
}

// The bytes of an image with the seals' fields set to 0 are sealed again: nothing else is to be changed.
#[test]
fn sealed_again(rt: HostRuntime) {
    let sealed = small(&rt, rt.alloc());
    let mut image = changed(&rt, rt.alloc(), &UNSEALED);
    holds(&rt, image.as_slice() != sealed.as_slice());
    holds(&rt, seal(&mut image));
    is(&rt, image.as_slice(), sealed.as_slice());
}

#[test]
fn refused_memory(rt: HostRuntime) {
    is(&rt, MakeFault::from(AllocError), MakeFault::Memory);
    is(
        &rt,
        MakeFault::from(AllocFailed { value: 8 }),
        MakeFault::Memory,
    );
}

// The check values are set to 0 and made right again, a bit is flipped to and fro, and bytes are added and cut off.
const UNDONE: [Change<'static>; 11] = [
    Change::Set(4, &[0; 4]),
    Change::Set(524, &[0; 4]),
    Change::Set(0x49f2, &[0; 6]),
    Change::Set(0x4c32, &[0; 6]),
    Change::Flip(0x4c00),
    Change::Flip(0x4c00),
    Change::Header,
    Change::Page(0x4800),
    Change::Block(0x4c00, 44),
    Change::Grow(64),
    Change::Cut(271_360),
];

#[test]
fn changes_that_undo_each_other(rt: HostRuntime) {
    let image = changed(&rt, rt.alloc(), &UNDONE);
    is_image(
        &rt,
        &image,
        271_360,
        "fad9565623624ccd53baedac897c48ca75dbda38b419cb8b6967b97ea848d681",
    );
}

// What goes past the end of 563 bytes.
const PAST: [Change<'static>; 7] = [
    Change::Set(560, &[1; 4]),
    Change::Set(usize::MAX, &[1; 2]),
    Change::Flip(563),
    Change::Header,
    Change::Page(52),
    Change::Page(u64::MAX),
    Change::Block(500, 1),
];

// Why an image is not changed.
fn refusal(image: &mut Vec<u8>, change: Change) -> Option<ChangeFault> {
    change.apply(image).err()
}

fn are_all<R: Abort>(rt: &R, bytes: &[u8], wanted: u8) {
    for byte in bytes {
        is(rt, *byte, wanted);
    }
}

// Changes the last two bytes of 563, and adds one.
fn change_the_end(image: &mut Vec<u8>) -> Result<(), ChangeFault> {
    set(image, 561, &[1, 2])?;
    flip(image, 562)?;
    change_all(image, &[Change::Grow(2), Change::Cut(564)])
}

#[test]
fn nothing_past_the_end_is_changed(rt: HostRuntime) {
    let mut image = filled(&rt, rt.alloc(), 7, 563);
    for change in &PAST {
        is(
            &rt,
            refusal(&mut image, *change),
            Some(ChangeFault::PastEnd),
        );
    }
    are_all(&rt, &image, 7);
    change_the_end(&mut image).expect(&rt, "past the end");
    is(&rt, image.get(561..), Some([1, 3, 0].as_slice()));
    let refused = refusal(&mut image, Change::Grow(usize::MAX));
    is(&rt, refused, Some(ChangeFault::Memory));
}
