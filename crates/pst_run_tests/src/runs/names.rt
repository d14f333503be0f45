//! `props` of properties that the store's name map names. Those of messages and attachments stand in samples/, with another program's
//! answers.

use super::check_cases::Answer::Yes;
use super::check_cases::{Asked, Store, are_asked};
use pst_make::Change::{Block, Set};
use std::test::Fail;

// The root folder of M2 with another identifier in place of 8000: 8001 has a number for its name, 8002 no name.
const SECOND: [Asked<'static>; 1] = [(
    &["props", "store.pst", "0x122"],
    Yes(
        "{\"nid\":\"0x122\",\"props\":[{\"id\":\"8001\",\"name\":34049,\"set\":\"00020329-0000-0000-c000-000000000046\",\"type\":\"0003\",\"value\":5}]}\n",
    ),
)];

const THIRD: [Asked<'static>; 1] = [(
    &["props", "store.pst", "0x122"],
    Yes("{\"nid\":\"0x122\",\"props\":[{\"id\":\"8002\",\"type\":\"0003\",\"value\":5}]}\n"),
)];

// The first entry names 8001 as the second does, and counts.
const TWICE: [Asked<'static>; 1] = [(
    &["props", "store.pst", "0x122"],
    Yes(
        "{\"nid\":\"0x122\",\"props\":[{\"id\":\"8001\",\"name\":\"Hi\",\"set\":\"33221100-5544-7766-8899-aabbccddeeff\",\"type\":\"0003\",\"value\":5}]}\n",
    ),
)];

#[test]
fn names_are_shown(rt: HostRuntime) -> Result<(), Fail> {
    are_asked(
        &rt,
        Store::M2,
        &[Set(0x4c54, &[1]), Block(0x4c40, 38)],
        &SECOND,
    )?;
    are_asked(
        &rt,
        Store::M2,
        &[Set(0x4c54, &[2]), Block(0x4c40, 38)],
        &THIRD,
    )?;
    let changes = [
        Set(0x4c54, &[1]),
        Block(0x4c40, 38),
        Set(0x4cc2, &[1]),
        Block(0x4c80, 100),
    ];
    are_asked(&rt, Store::M2, &changes, &TWICE)
}
