//! `value` and `props --places`: the bytes of one property's value, and where in the file the values lie.

use super::check_cases::Answer::{No, Yes};
use super::check_cases::{Asked, Body, LIST_OF_ONE, Store, are_asked, store_of};
use super::heaps::Held;
use super::messages::MESSAGES;
use super::writing::{Fault, Slow};
use super::{ran, run_of};
use crate::told::is;
use pst_make::Change::Flip;
use std::io::ErrorKind;
use std::test::Fail;

// Node 0x201 has a text in a subnode, whose data are two blocks: 4 bytes at 19648, and 2 at 19712; and an empty text.
const IN_PIECES: Store<'static> = Store::Wider(
    &[
        (
            12,
            Body::Properties(&[
                (0x1000, 0x001F, Held::Subnode(0x41)),
                (0x3001, 0x001F, Held::Item(&[])),
            ]),
        ),
        (16, Body::Bytes(b"M\0i\0")),
        (20, Body::Bytes(b"x\0")),
        (26, Body::Names([1, 1, 2, 0, 6, 0, 0, 0], &[16, 20])),
        (30, Body::Names(LIST_OF_ONE, &[0x41, 26, 0])),
    ],
    &[(0x201, 12, 30)],
);

const PIECES: &[Asked<'_>] = &[
    (&["value", "store.pst", "0x201", "1000"], Yes("M\0i\0x\0")),
    (
        &["value", "--text", "store.pst", "0x201", "1000"],
        Yes("Mix"),
    ),
    (&["value", "store.pst", "0x201", "3001"], Yes("")),
    (
        &["props", "--places", "store.pst", "0x201"],
        Yes(
            "{\"nid\":\"0x201\",\"props\":[{\"id\":\"1000\",\"places\":[[19648,4],[19712,2]],\"type\":\"001F\",\"value\":\"Mix\"},{\"id\":\"3001\",\"places\":[],\"type\":\"001F\",\"value\":\"\"}]}\n",
        ),
    ),
];

// Of the small store; what it says of each is that of another program.
const SMALL: &[Asked<'_>] = &[
    (&["value", "store.pst", "0x21", "3001"], Yes("M\x000\0")),
    (&["value", "--text", "store.pst", "0x21", "3001"], Yes("M0")),
    (
        &["value", "--text", "store.pst", "0x122", "3602"],
        Yes("\x05\0\0\0"),
    ),
    (
        &["value", "store.pst", "0x122", "36ab"],
        No("no property 36AB\n"),
    ),
    (
        &["value", "store.pst", "0x999", "36ab"],
        No("no node 0x999\n"),
    ),
    (
        &["value", "store.pst", "0x21/0x8025", "3001"],
        No("no node 0x21/0x8025\n"),
    ),
    (
        &["props", "--places", "store.pst", "0x21", "0x122"],
        Yes(
            "{\"nid\":\"0x21\",\"props\":[{\"id\":\"3001\",\"places\":[[19484,4]],\"type\":\"001F\",\"value\":\"M0\"}]}\n{\"nid\":\"0x122\",\"props\":[{\"id\":\"3602\",\"places\":[[19544,4]],\"type\":\"0003\",\"value\":5}]}\n",
        ),
    ),
];

// The place stands behind the name.
const NAMED: &[Asked<'_>] = &[(
    &["props", "--places", "store.pst", "0x122"],
    Yes(
        "{\"nid\":\"0x122\",\"props\":[{\"id\":\"8000\",\"name\":\"Hi\",\"places\":[[19544,4]],\"set\":\"33221100-5544-7766-8899-aabbccddeeff\",\"type\":\"0003\",\"value\":5}]}\n",
    ),
)];

// Of an attachment.
const INSIDE: &[Asked<'_>] = &[
    (
        &["value", "store.pst", "0x200044/0x8045", "3705"],
        Yes("\x01\0\0\0"),
    ),
    (
        &["value", "store.pst", "0x200044/0x8045", "3707"],
        No("no property 3707\n"),
    ),
    (
        &["value", "store.pst", "0x200044/0x8065", "3707"],
        No("no node 0x200044/0x8065\n"),
    ),
];

#[test]
fn a_value_is_written_as_it_lies_there(rt: HostRuntime) -> Result<(), Fail> {
    are_asked(&rt, Store::M0, &[], SMALL)?;
    are_asked(&rt, Store::M2, &[], NAMED)?;
    are_asked(&rt, IN_PIECES, &[], PIECES)?;
    are_asked(&rt, MESSAGES, &[], INSIDE)
}

#[test]
fn a_damaged_file_has_no_value(rt: HostRuntime) -> Result<(), Fail> {
    let rows: [Asked<'_>; 1] = [(
        &["value", "store.pst", "0x21", "36ab"],
        No("no: 14 BlockTrailer at 0x4c40 bid 0x8 nid 0x0\n"),
    )];
    are_asked(&rt, Store::M0, &[Flip(0x4c74)], &rows)
}

#[test]
fn a_front_of_its_pieces_is_left(rt: HostRuntime) -> Result<(), Fail> {
    let image = store_of(rt.alloc(), IN_PIECES)?;
    let words = ["value", "store.pst", "0x201", "1000"];
    for (good, front) in [(2, b"M\0".as_slice()), (4, b"M\0i\0"), (5, b"M\0i\0x")] {
        let mut out = Slow::new(rt.alloc(), good, 1, Fault::Fails(ErrorKind::StorageFull));
        let mut said = Vec::new(rt.alloc());
        let mut input = image.as_slice();
        let status = ran(rt.alloc(), &words, &mut input, &mut out, &mut said)?;
        is(&rt, status, 3);
        is(&rt, out.taken.as_slice(), front);
        is(&rt, said.as_slice(), b"cannot write\n".as_slice());
    }
    Ok(())
}

// What is said of the kind that the small store has in a_damaged_file_has_no_value.
const EXPLAINED: &str =
    "14 BlockTrailer: the last 16 bytes of a block do not fit the block and its entry: one of these is damaged or overwritten
  at: the block, where its entry says
  bid: that of its entry
  nid: 0x0, nothing
  to do: Take the file from a backup; damage lists the nodes that this breaks, and messages --whole and export --whole give what is whole
  [MS-PST]: 2.2.2.8.1
";

#[test]
fn a_kind_is_explained_without_a_file(rt: HostRuntime) -> Result<(), Fail> {
    for word in ["14", "BlockTrailer", "no: 14 blocktrailer"] {
        let mut none = b"".as_slice();
        run_of(&rt, &["explain", word], &mut none, 0, EXPLAINED, "")?;
    }
    for word in ["99", "blocktrailers"] {
        let mut none = b"".as_slice();
        run_of(&rt, &["explain", word], &mut none, 2, "", "bad kind\n")?;
    }
    Ok(())
}
