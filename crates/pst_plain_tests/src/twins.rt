//! Plain twins of small stores, good and bad.

use crate::told::{MEMORY, holds, holds_at, is, is_at};
use pst_block::{BlockEntry, block_size};
use pst_make::*;
use pst_plain::{Codec, Decoding, Method, decode_data, plain};
use sha2::{Digest, Sha256};
use std::alloc::{AllocError, Global};
use std::process::Abort;

// The SHA-256 of an image, in hexadecimal. What the tests compare it with comes from another program's images.
fn digest_of<R: Abort>(rt: &R, alloc: Global, image: &[u8]) -> String {
    let digest: [u8; 32] = Sha256::digest(image);
    hex::encode(alloc, digest.as_slice()).expect(rt, MEMORY)
}

// A block of an image: its identifier, its place and the length of its body.
type Place = (u64, u64, u16);

// The blocks of the fixed images, as another program lists them.
const M0: [Place; 2] = [(4, 0x4c00, 44), (8, 0x4c40, 38)];

const M1: [Place; 3] = [(4, 0x4c00, 44), (8, 0x4c40, 38), (12, 0x4c80, 90)];

// Encodes the body of a block, and makes its check value anew.
fn encode_body<R: Abort>(rt: &R, image: &mut [u8], codec: &Codec, (bid, ib, cb): Place) {
    let (at, len) = (ib as usize, usize::from(cb));
    if at > image.len() || len > image.len() - at {
        rt.panic("no body");
    }
    codec.encode(bid, &mut image[at..at + len]);
}

// Encodes the bodies of blocks, and makes their check values anew.
fn encode_bodies<R: Abort>(
    rt: &R,
    alloc: Global,
    image: &mut Vec<u8>,
    method: Method,
    blocks: &[Place],
) {
    let codec = Codec::new(alloc, method, 0).expect(rt, MEMORY);
    for block in blocks {
        encode_body(rt, image, &codec, *block);
        Change::Block(block.1, block.2)
            .apply(image)
            .expect(rt, "past the end");
    }
}

// Decodes a block, if it is a data block; how many were decoded.
fn decode_body<R: Abort>(rt: &R, image: &mut [u8], codec: &Codec, (bid, ib, cb): Place) -> u64 {
    let len = image.len() as u64;
    let size = block_size(cb);
    if ib > len || size > len - ib {
        rt.panic("no block");
    }
    decode_data(codec, &[BlockEntry { bid, ib, cb }], image)
}

// Makes bCryptMethod another number, and the header's check values anew.
fn set_number<R: Abort>(rt: &R, image: &mut Vec<u8>, number: u8) {
    set(image, 513, &[number]).expect(rt, "past the end");
    Change::Header.apply(image).expect(rt, "past the end");
}

// Encodes the bodies of blocks, and says so in the header; all check values are made anew.
fn encode<R: Abort>(rt: &R, alloc: Global, image: &mut Vec<u8>, method: Method, blocks: &[Place]) {
    encode_bodies(rt, alloc, image, method, blocks);
    set_number(rt, image, method.number());
}

// A changed image, and whether its twin and what is told of it are what is wanted.
fn has_twin(
    alloc: Global,
    image: &Vec<u8>,
    wanted: &[u8],
    method: Option<Method>,
    blocks: u64,
) -> Result<bool, AllocError> {
    let mut twin = Vec::from_slice(alloc, image)?;
    let told = plain(alloc, &mut twin)?;
    Ok(told == Decoding { method, blocks } && twin.as_slice() == wanted)
}

#[test]
fn fixed_images(rt: HostRuntime) {
    let alloc = rt.alloc();
    for (method, want) in [
        (
            Method::Permute,
            "3feb3af28164db797b7f4f2c1ccf6eb3f6feeaa194e44a0576f2d4207eb54c70",
        ),
        (
            Method::Cyclic,
            "bdd32a764bcbf249444989938eac6d701a399daf1f24c127e1244640ff52b1d8",
        ),
    ] {
        let store = m0(alloc).expect(&rt, MEMORY);
        let mut image = m0(alloc).expect(&rt, MEMORY);
        encode(&rt, alloc, &mut image, method, &M0);
        is_at(&rt, method, digest_of(&rt, alloc, &image).as_str(), want);
        holds_at(
            &rt,
            method,
            has_twin(alloc, &image, &store, Some(method), 2).expect(&rt, MEMORY),
        );
    }
}

#[test]
fn three_blocks(rt: HostRuntime) {
    let alloc = rt.alloc();
    for (method, want) in [
        (
            Method::Permute,
            "9115834182a5c7eedb13d83d9cace5e92d785e7a1bf7b41ae14bf22a1e6722c2",
        ),
        (
            Method::Cyclic,
            "d1fcdd9a0d04f7f879739ee4382a557316537d4943a86fa2eb0a922ce13152ee",
        ),
    ] {
        let store = m1(alloc).expect(&rt, MEMORY);
        let mut image = m1(alloc).expect(&rt, MEMORY);
        encode(&rt, alloc, &mut image, method, &M1);
        is_at(&rt, method, digest_of(&rt, alloc, &image).as_str(), want);
        holds_at(
            &rt,
            method,
            has_twin(alloc, &image, &store, Some(method), 3).expect(&rt, MEMORY),
        );
    }
}

// Block by block, whatever the header says, with the check values; a block whose identifier is an internal one stays.
#[test]
fn blocks_one_by_one(rt: HostRuntime) {
    let alloc = rt.alloc();
    for method in [Method::Permute, Method::Cyclic] {
        let store = m1(alloc).expect(&rt, MEMORY);
        let mut image = m1(alloc).expect(&rt, MEMORY);
        encode_bodies(&rt, alloc, &mut image, method, &M1);
        let codec = Codec::new(alloc, method, image.len()).expect(&rt, MEMORY);
        let [_, (_, ib, cb), _] = M1;
        is_at(
            &rt,
            method,
            decode_body(&rt, &mut image, &codec, (10, ib, cb)),
            0,
        );
        holds_at(&rt, method, image.as_slice() != store.as_slice());
        for place in M1 {
            is_at(&rt, method, decode_body(&rt, &mut image, &codec, place), 1);
        }
        holds_at(&rt, method, image.as_slice() == store.as_slice());
    }
}

#[test]
fn a_file_that_is_its_own_twin(rt: HostRuntime) {
    let alloc = rt.alloc();
    let store = m0(alloc).expect(&rt, MEMORY);
    holds(
        &rt,
        has_twin(alloc, &store, &store, None, 0).expect(&rt, MEMORY),
    );
    for (at, byte) in [(0, 0x20), (8, 0x20), (10, 14), (513, 3), (513, 0xff)] {
        let mut image = m0(alloc).expect(&rt, MEMORY);
        encode(&rt, alloc, &mut image, Method::Permute, &M0);
        set(&mut image, at, &[byte]).expect(&rt, "past the end");
        holds_at(
            &rt,
            at,
            has_twin(alloc, &image, &image, None, 0).expect(&rt, MEMORY),
        );
    }
    let mut short = m0(alloc).expect(&rt, MEMORY);
    encode(&rt, alloc, &mut short, Method::Cyclic, &M0);
    short.truncate(563);
    holds(
        &rt,
        has_twin(alloc, &short, &short, None, 0).expect(&rt, MEMORY),
    );
    short.truncate(0);
    holds(
        &rt,
        has_twin(alloc, &short, &short, None, 0).expect(&rt, MEMORY),
    );
}

// The root page of the block B-tree, and a byte of it.
const BLOCK_PAGE: u64 = 0x4a00;

// Where the second entry of that page has its identifier and its place.
const SECOND: usize = 0x4a18;

// Nothing is decoded but the header where a tree or the header has a fault; what was wrong stays wrong.
#[test]
fn damaged_before_the_blocks(rt: HostRuntime) {
    let alloc = rt.alloc();
    for at in [0x4a10, 0x4810, 184, 4, 524] {
        let mut image = m1(alloc).expect(&rt, MEMORY);
        encode(&rt, alloc, &mut image, Method::Cyclic, &M1);
        let mut wanted = Vec::from_slice(alloc, &image).expect(&rt, MEMORY);
        set_number(&rt, &mut wanted, 0);
        flip(&mut image, at).expect(&rt, MEMORY);
        flip(&mut wanted, at).expect(&rt, MEMORY);
        holds_at(
            &rt,
            at,
            has_twin(alloc, &image, &wanted, Some(Method::Cyclic), 0).expect(&rt, MEMORY),
        );
    }
}

// A block with a wrong check value is decoded, and its check value stays wrong.
#[test]
fn a_damaged_block(rt: HostRuntime) {
    let alloc = rt.alloc();
    for method in [Method::Permute, Method::Cyclic] {
        let mut wanted = m1(alloc).expect(&rt, MEMORY);
        flip(&mut wanted, 0x4c34).expect(&rt, MEMORY);
        let mut image = m1(alloc).expect(&rt, MEMORY);
        encode(&rt, alloc, &mut image, method, &M1);
        flip(&mut image, 0x4c34).expect(&rt, MEMORY);
        holds_at(
            &rt,
            method,
            has_twin(alloc, &image, &wanted, Some(method), 3).expect(&rt, MEMORY),
        );
    }
}

// Decoding stops at the first block that lies on another, or where none may.
#[test]
fn blocks_out_of_place(rt: HostRuntime) {
    let alloc = rt.alloc();
    for place in [
        0x4c00u64,
        0x4a00,
        0x4800,
        0x4400,
        0x4c41,
        0x3fc0,
        0xffff_ffff_ffff_ffc0,
    ] {
        let mut wanted = m1(alloc).expect(&rt, MEMORY);
        set(&mut wanted, SECOND + 8, &place.to_le_bytes()).expect(&rt, "past the end");
        Change::Page(BLOCK_PAGE)
            .apply(&mut wanted)
            .expect(&rt, "past the end");
        encode_bodies(&rt, alloc, &mut wanted, Method::Permute, &M1[1..]);
        let mut image = Vec::from_slice(alloc, &wanted).expect(&rt, MEMORY);
        encode(&rt, alloc, &mut image, Method::Permute, &M1[..1]);
        holds_at(
            &rt,
            place,
            has_twin(alloc, &image, &wanted, Some(Method::Permute), 1).expect(&rt, MEMORY),
        );
    }
}

// A block whose identifier has its bit 1 set is no data block, and is left as it is; bit 0 says nothing.
#[test]
fn an_internal_block(rt: HostRuntime) {
    let alloc = rt.alloc();
    for (bid, blocks) in [(10u64, 2), (11, 2), (9, 3)] {
        let mut wanted = m1(alloc).expect(&rt, MEMORY);
        set(&mut wanted, SECOND, &bid.to_le_bytes()).expect(&rt, "past the end");
        Change::Page(BLOCK_PAGE)
            .apply(&mut wanted)
            .expect(&rt, "past the end");
        let mut image = Vec::from_slice(alloc, &wanted).expect(&rt, MEMORY);
        encode_bodies(&rt, alloc, &mut image, Method::Cyclic, &M1[..1]);
        if blocks == 3 {
            encode_bodies(&rt, alloc, &mut image, Method::Cyclic, &[(bid, 0x4c40, 38)]);
        }
        encode(&rt, alloc, &mut image, Method::Cyclic, &M1[2..]);
        holds_at(
            &rt,
            bid,
            has_twin(alloc, &image, &wanted, Some(Method::Cyclic), blocks).expect(&rt, MEMORY),
        );
    }
}

// A store with bodies of these lengths, the byte k in all of block k.
fn store_of<R: Abort>(rt: &R, alloc: Global, lengths: &[usize]) -> Vec<u8> {
    let mut plan = Plan {
        blocks: Vec::new(alloc),
        nodes: Vec::new(alloc),
    };
    let mut bid = 0u64;
    for len in lengths {
        bid = bid.saturating_add(4);
        let body = (vec![in alloc; 0x5a; *len]).expect(rt, MEMORY);
        plan.blocks.push(BlockPlan { bid, body }).expect(rt, MEMORY);
    }
    build(alloc, &plan).expect(rt, MEMORY)
}

// Bodies from no byte up to as many as a block can have, laid out one after another.
#[test]
fn bodies_of_all_lengths(rt: HostRuntime) {
    let alloc = rt.alloc();
    let blocks = [
        (4, 0x4c00, 0),
        (8, 0x4c40, 1),
        (12, 0x4c80, 48),
        (16, 0x4cc0, 49),
        (20, 0x4d40, 8176),
    ];
    let store = store_of(&rt, alloc, &[0, 1, 48, 49, 8176]);
    for method in [Method::Permute, Method::Cyclic] {
        let mut image = Vec::from_slice(alloc, &store).expect(&rt, MEMORY);
        encode(&rt, alloc, &mut image, method, &blocks);
        holds_at(&rt, method, image.as_slice() != store.as_slice());
        holds_at(
            &rt,
            method,
            has_twin(alloc, &image, &store, Some(method), 5).expect(&rt, MEMORY),
        );
    }
}
