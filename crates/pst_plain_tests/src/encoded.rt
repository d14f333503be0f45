//! Stores that pst_make encodes: what comes back, and bytes of another program.

use crate::bodies::rising;
use crate::told::{MEMORY, holds_at, is_at};
use pst_make::*;
use pst_plain::{Decoding, plain};
use sha2::{Digest, Sha256};
use std::alloc::Global;
use std::process::Abort;

// A plan of blocks with these identifiers, and bodies of these lengths.
fn plan_of<R: Abort>(rt: &R, alloc: Global, blocks: &[(u64, usize)]) -> Plan {
    let mut plan = Plan {
        blocks: Vec::new(alloc),
        nodes: Vec::new(alloc),
    };
    for (bid, len) in blocks {
        let body = rising(rt, alloc, *len);
        plan.blocks
            .push(BlockPlan { bid: *bid, body })
            .expect(rt, MEMORY);
    }
    plan
}

// The store of a plan, encoded.
fn encoded(alloc: Global, plan: &Plan, method: Method) -> Result<Vec<u8>, MakeFault> {
    let mut image = build(alloc, plan)?;
    encode(alloc, &mut image, plan, method)?;
    Ok(image)
}

// Whether the store of a plan comes back, byte for byte, where it is encoded and decoded; so many blocks are decoded then.
fn comes_back<R: Abort>(rt: &R, alloc: Global, plan: &Plan, method: Method, blocks: u64) -> bool {
    let store = build(alloc, plan).expect(rt, MEMORY);
    let mut image = encoded(alloc, plan, method).expect(rt, MEMORY);
    let differs = image.as_slice() != store.as_slice();
    let told = plain(alloc, &mut image).expect(rt, MEMORY);
    let wanted = Decoding {
        method: Some(method),
        blocks,
    };
    differs && told == wanted && image.as_slice() == store.as_slice()
}

// From no byte up to a full block, whose key goes through 32 of its high bytes.
#[test]
fn a_body_of_each_length(rt: HostRuntime) {
    let alloc = rt.alloc();
    for len in [0, 1, 2, 47, 48, 49, 255, 256, 257, 4096, 8175, 8176] {
        let plan = plan_of(&rt, alloc, &[(4, len)]);
        for method in [Method::Permute, Method::Cyclic] {
            holds_at(&rt, len, comes_back(&rt, alloc, &plan, method, 1));
        }
    }
}

// Block 0x0A is no data block, and is stored as it is; the key of 0xFFFC goes on from 0xFFFF with 0.
#[test]
fn blocks_of_many_identifiers(rt: HostRuntime) {
    let alloc = rt.alloc();
    let blocks = [
        (4, 0),
        (8, 1),
        (0x0a, 300),
        (0xfffc, 8176),
        (0x1234_5678, 511),
        (0x1_0000_0004, 8176),
    ];
    let plan = plan_of(&rt, alloc, &blocks);
    for method in [Method::Permute, Method::Cyclic] {
        holds_at(&rt, method, comes_back(&rt, alloc, &plan, method, 5));
    }
}

// The SHA-256 of images that another program encoded.
#[test]
fn images_of_another_program(rt: HostRuntime) {
    let alloc = rt.alloc();
    for (plan, method, want) in [
        (
            m0_plan(alloc).expect(&rt, MEMORY),
            Method::Permute,
            "3feb3af28164db797b7f4f2c1ccf6eb3f6feeaa194e44a0576f2d4207eb54c70",
        ),
        (
            m0_plan(alloc).expect(&rt, MEMORY),
            Method::Cyclic,
            "bdd32a764bcbf249444989938eac6d701a399daf1f24c127e1244640ff52b1d8",
        ),
        (
            m1_plan(alloc).expect(&rt, MEMORY),
            Method::Permute,
            "9115834182a5c7eedb13d83d9cace5e92d785e7a1bf7b41ae14bf22a1e6722c2",
        ),
        (
            m1_plan(alloc).expect(&rt, MEMORY),
            Method::Cyclic,
            "d1fcdd9a0d04f7f879739ee4382a557316537d4943a86fa2eb0a922ce13152ee",
        ),
    ] {
        let image = encoded(alloc, &plan, method).expect(&rt, MEMORY);
        let digest: [u8; 32] = Sha256::digest(&image);
        let told = hex::encode(alloc, digest.as_slice()).expect(&rt, MEMORY);
        is_at(&rt, method, told.as_str(), want);
    }
}

// A text in a block of its own, which begins at 0x4C00, as another program encodes it.
#[test]
fn a_text_in_a_store(rt: HostRuntime) {
    let alloc = rt.alloc();
    for (method, bid, want) in [
        (
            Method::Permute,
            0x1234_5678,
            *b"\x07\xea\xfd\xfd\x86\xd8\x4c\xc7\x86\x06\xfd\xfa",
        ),
        (
            Method::Cyclic,
            4,
            *b"\xf1\x2f\xab\x7e\xd5\xc7\xfd\xf2\xa7\x64\x7b\x76",
        ),
        (
            Method::Cyclic,
            0x1234_5678,
            *b"\xfb\xea\xdc\x70\x6b\xc5\x23\x89\xd1\x53\xf0\x68",
        ),
    ] {
        let mut plan = plan_of(&rt, alloc, &[]);
        let body = Vec::from_slice(alloc, b"Hello, world").expect(&rt, MEMORY);
        plan.blocks
            .push(BlockPlan { bid, body })
            .expect(&rt, MEMORY);
        let image = encoded(alloc, &plan, method).expect(&rt, MEMORY);
        holds_at(&rt, bid, image.get(0x4c00..0x4c0c) == Some(&want[..]));
    }
}
