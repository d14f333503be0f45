//! Lines, against those that another program made of the same files.

use pst_damage::{BrokenNode, Damage, Whole};
use pst_damage_json::{damage_line, write_fault};
use pst_fault::{Fault, Kind};
use std::alloc::{AllocError, Global};
use std::process::Abort;
use std::test::Fail;

// What is broken, as a test writes it.
#[derive(Clone, Copy)]
struct Told<'a> {
    header: Option<Fault>,
    pages: &'a [Fault],
    blocks: &'a [Fault],
    maps: Option<Fault>,
    nodes: &'a [BrokenNode],
    whole: Whole,
}

// The same, as it is found.
fn damage_of(alloc: Global, told: &Told) -> Result<Damage, AllocError> {
    Ok(Damage {
        header: told.header,
        pages: Vec::from_slice(alloc, told.pages)?,
        blocks: Vec::from_slice(alloc, told.blocks)?,
        maps: told.maps,
        nodes: Vec::from_slice(alloc, told.nodes)?,
        whole: told.whole,
    })
}

// Nothing is broken, and nothing is whole.
const NOTHING: Told<'static> = Told {
    header: None,
    pages: &[],
    blocks: &[],
    maps: None,
    nodes: &[],
    whole: Whole {
        nodes: 0,
        folders: 0,
        messages: 0,
    },
};

fn whole(nodes: usize, folders: usize, messages: usize) -> Whole {
    Whole {
        nodes,
        folders,
        messages,
    }
}

// A node that names a block that is not there.
fn missing(nid: u32, bid: u64) -> BrokenNode {
    BrokenNode {
        nid,
        fault: Fault::within(Kind::BlockMissing, 0, bid).at_node(nid),
    }
}

// Whether the line is this one.
fn is_line<R: Abort>(
    rt: &R,
    alloc: Global,
    told: &Told,
    digest: Option<[u8; 32]>,
    wanted: &str,
) -> Result<(), Fail> {
    let line = damage_line(alloc, &damage_of(alloc, told)?, digest)?;
    let wanted = format!(in alloc; "{wanted}\n")?;
    assert_eq!(rt; line.as_slice(), wanted.as_bytes());
    Ok(())
}

const SOUND: &str =
    "{\"blocks\":[],\"header\":null,\"maps\":null,\"nodes\":[],\"pages\":[],\"whole\":{\"folders\":1,\"messages\":0,\"nodes\":2}}";

const BLOCKS: &str =
    "{\"blocks\":[{\"at\":20224,\"bid\":32,\"kind\":\"BlockPlace\",\"nid\":\"0x0\",\"number\":13},{\"at\":20288,\"bid\":36,\"kind\":\"BlockPlace\",\"nid\":\"0x0\",\"number\":13},{\"at\":20416,\"bid\":40,\"kind\":\"BlockPlace\",\"nid\":\"0x0\",\"number\":13},{\"at\":20480,\"bid\":44,\"kind\":\"BlockPlace\",\"nid\":\"0x0\",\"number\":13}],\"header\":{\"at\":184,\"bid\":0,\"kind\":\"Root\",\"nid\":\"0x0\",\"number\":6},\"maps\":null,\"nodes\":[{\"fault\":{\"at\":0,\"bid\":32,\"kind\":\"BlockMissing\",\"nid\":\"0x142\",\"number\":15},\"node\":\"0x142\"},{\"fault\":{\"at\":0,\"bid\":36,\"kind\":\"BlockMissing\",\"nid\":\"0x14e\",\"number\":15},\"node\":\"0x14e\"},{\"fault\":{\"at\":0,\"bid\":40,\"kind\":\"BlockMissing\",\"nid\":\"0x162\",\"number\":15},\"node\":\"0x162\"},{\"fault\":{\"at\":0,\"bid\":44,\"kind\":\"BlockMissing\",\"nid\":\"0x16e\",\"number\":15},\"node\":\"0x16e\"}],\"pages\":[],\"whole\":{\"folders\":1,\"messages\":5,\"nodes\":7}}";

const FAULT: &str =
    "{\"at\":23552,\"bid\":20,\"kind\":\"BlockTrailer\",\"nid\":\"0x0\",\"number\":14}";

const MAPS: &str =
    "{\"blocks\":[{\"at\":23552,\"bid\":20,\"kind\":\"BlockTrailer\",\"nid\":\"0x0\",\"number\":14}],\"header\":{\"at\":248,\"bid\":0,\"kind\":\"MapsInvalid\",\"nid\":\"0x0\",\"number\":7},\"maps\":{\"at\":17408,\"bid\":0,\"kind\":\"MapPage\",\"nid\":\"0x0\",\"number\":19},\"nodes\":[{\"fault\":{\"at\":0,\"bid\":20,\"kind\":\"BlockMissing\",\"nid\":\"0x400004\",\"number\":15},\"node\":\"0x400004\"}],\"pages\":[],\"whole\":{\"folders\":5,\"messages\":3,\"nodes\":25}}";

const TREE: &str =
    "{\"blocks\":[{\"at\":141733971008,\"bid\":292,\"kind\":\"BlockPlace\",\"nid\":\"0x0\",\"number\":13}],\"header\":null,\"maps\":null,\"nodes\":[{\"fault\":{\"at\":0,\"bid\":292,\"kind\":\"BlockMissing\",\"nid\":\"0x2006a1\",\"number\":15},\"node\":\"0x2006a1\"}],\"pages\":[{\"at\":32768,\"bid\":116,\"kind\":\"PageTrailer\",\"nid\":\"0x0\",\"number\":9}],\"whole\":{\"folders\":13,\"messages\":48,\"nodes\":321}}";

const PAGES: &str =
    "{\"blocks\":[],\"header\":null,\"maps\":null,\"nodes\":[],\"pages\":[{\"at\":20992,\"bid\":7,\"kind\":\"PageTrailer\",\"nid\":\"0x0\",\"number\":9},{\"at\":283872,\"bid\":28,\"kind\":\"PagePlace\",\"nid\":\"0x0\",\"number\":8}],\"whole\":{\"folders\":13,\"messages\":43,\"nodes\":292}}";

const DIGEST: &str =
    "{\"blocks\":[],\"header\":null,\"maps\":null,\"nodes\":[],\"pages\":[],\"sha256\":\"4dfe6741e1db253428d3de7e7c684177cdff002b9ea31145804d46c9bf7f4c91\",\"whole\":{\"folders\":5,\"messages\":4,\"nodes\":26}}";

const SHA_OF_DIGEST: [u8; 32] = [
    0x4d, 0xfe, 0x67, 0x41, 0xe1, 0xdb, 0x25, 0x34, 0x28, 0xd3, 0xde, 0x7e, 0x7c, 0x68, 0x41, 0x77,
    0xcd, 0xff, 0x00, 0x2b, 0x9e, 0xa3, 0x11, 0x45, 0x80, 0x4d, 0x46, 0xc9, 0xbf, 0x7f, 0x4c, 0x91,
];

const BROKEN: &str =
    "{\"blocks\":[{\"at\":23296,\"bid\":16,\"kind\":\"BlockTrailer\",\"nid\":\"0x0\",\"number\":14}],\"header\":null,\"maps\":null,\"nodes\":[{\"fault\":{\"at\":0,\"bid\":16,\"kind\":\"BlockMissing\",\"nid\":\"0x400004\",\"number\":15},\"node\":\"0x400004\"}],\"pages\":[],\"sha256\":\"d1ad5a81fa167a87df04927ba54c02da63310daf4bfbdd97ac1f874fc9477bd1\",\"whole\":{\"folders\":5,\"messages\":3,\"nodes\":25}}";

const SHA_OF_BROKEN: [u8; 32] = [
    0xd1, 0xad, 0x5a, 0x81, 0xfa, 0x16, 0x7a, 0x87, 0xdf, 0x04, 0x92, 0x7b, 0xa5, 0x4c, 0x02, 0xda,
    0x63, 0x31, 0x0d, 0xaf, 0x4b, 0xfb, 0xdd, 0x97, 0xac, 0x1f, 0x87, 0x4f, 0xc9, 0x47, 0x7b, 0xd1,
];

#[test]
fn a_sound_file_has_empty_lists(rt: HostRuntime) -> Result<(), Fail> {
    let told = Told {
        whole: whole(2, 1, 0),
        ..NOTHING
    };
    is_line(&rt, rt.alloc(), &told, None, SOUND)
}

#[test]
fn blocks_and_the_header_are_told(rt: HostRuntime) -> Result<(), Fail> {
    let told = Told {
        header: Some(Fault::at(Kind::Root, 184)),
        pages: &[],
        blocks: &[
            Fault::within(Kind::BlockPlace, 20224, 32),
            Fault::within(Kind::BlockPlace, 20288, 36),
            Fault::within(Kind::BlockPlace, 20416, 40),
            Fault::within(Kind::BlockPlace, 20480, 44),
        ],
        nodes: &[
            missing(0x142, 32),
            missing(0x14e, 36),
            missing(0x162, 40),
            missing(0x16e, 44),
        ],
        whole: whole(7, 1, 5),
        ..NOTHING
    };
    is_line(&rt, rt.alloc(), &told, None, BLOCKS)
}

#[test]
fn maps_are_told(rt: HostRuntime) -> Result<(), Fail> {
    let told = Told {
        header: Some(Fault::at(Kind::MapsInvalid, 248)),
        pages: &[],
        blocks: &[Fault::within(Kind::BlockTrailer, 23552, 20)],
        maps: Some(Fault::at(Kind::MapPage, 17408)),
        nodes: &[missing(0x400004, 20)],
        whole: whole(25, 5, 3),
        ..NOTHING
    };
    is_line(&rt, rt.alloc(), &told, None, MAPS)
}

#[test]
fn a_page_and_a_block_are_told(rt: HostRuntime) -> Result<(), Fail> {
    let told = Told {
        pages: &[Fault::within(Kind::PageTrailer, 32768, 116)],
        blocks: &[Fault::within(Kind::BlockPlace, 141733971008, 292)],
        nodes: &[missing(0x2006a1, 292)],
        whole: whole(321, 13, 48),
        ..NOTHING
    };
    is_line(&rt, rt.alloc(), &told, None, TREE)
}

#[test]
fn pages_are_told(rt: HostRuntime) -> Result<(), Fail> {
    let told = Told {
        pages: &[
            Fault::within(Kind::PageTrailer, 20992, 7),
            Fault::within(Kind::PagePlace, 283872, 28),
        ],
        whole: whole(292, 13, 43),
        ..NOTHING
    };
    is_line(&rt, rt.alloc(), &told, None, PAGES)
}

#[test]
fn a_digest_is_told(rt: HostRuntime) -> Result<(), Fail> {
    let told = Told {
        whole: whole(26, 5, 4),
        ..NOTHING
    };
    is_line(&rt, rt.alloc(), &told, Some(SHA_OF_DIGEST), DIGEST)
}

#[test]
fn a_digest_of_a_broken_file_is_told(rt: HostRuntime) -> Result<(), Fail> {
    let told = Told {
        pages: &[],
        blocks: &[Fault::within(Kind::BlockTrailer, 23296, 16)],
        nodes: &[missing(0x400004, 16)],
        whole: whole(25, 5, 3),
        ..NOTHING
    };
    is_line(&rt, rt.alloc(), &told, Some(SHA_OF_BROKEN), BROKEN)
}

#[test]
fn a_fault_is_an_object(rt: HostRuntime) -> Result<(), Fail> {
    let fault = Fault::within(Kind::BlockTrailer, 23552, 20);
    let mut text = Vec::new(rt.alloc());
    write_fault(rt.alloc(), &fault, &mut text)?;
    assert_eq!(rt; text.as_slice(), FAULT.as_bytes());
    Ok(())
}
