//! Trees that are named more than once.

use super::*;
use crate::told::is;

// An XXBLOCK that names one XBLOCK 1,021 times, which names one body 1,021 times; and an XXBLOCK that names this one.
const ONE_BYTE: Bodies<'static> = &[(4, 0x63, 1)];

const SHARED: Lists<'static> = &[
    (0x0a, 1, 1021, &[(4, 1021)]),
    (0x0e, 2, 1_042_441, &[(0x0a, 1021)]),
    (0x12, 2, 1_042_441, &[(0x0e, 1)]),
];

// For 2,000 nodes, and with either bit 0.
#[test]
fn shared_trees_are_expanded_once(rt: HostRuntime) {
    let alloc = rt.alloc();
    let image = store(&rt, alloc, ONE_BYTE, SHARED);
    let mut known = Known::read(&rt, alloc, Image::new(&image));
    for nid in 0..2000u32 {
        let bid = 0x0e + u64::from(nid % 2);
        is(&rt, known.check(alloc, bid, nid), None);
    }
    is(&rt, known.expansions(), 2);

    // An XXBLOCK that an XXBLOCK names is none of its XBLOCKs, although it is known; the XBLOCK is, and is not counted again.
    let fault = fault_of(Kind::DataTree, place_of(&rt, alloc, &image, 0x0e), 0x0e);
    is(&rt, known.check(alloc, 0x12, NODE), fault);
    is(&rt, known.expansions(), 3);
    is(&rt, known.check(alloc, 0x0a, NODE), None);
    is(&rt, known.expansions(), 3);
    known.keys_rise();
}
