//! `folders` and `contents` over a store of four folders and three messages.

use super::check_cases::Answer::{No, Yes};
use super::check_cases::{Asked, Body, Store, are_asked};
use super::heaps::Held;
use std::test::Fail;

// The root folder has folder 0x142 and search folder 0x183. The former has a name, folder 0x162, messages 0x204 and 0x224, and
// message 0x248, which belongs to the folder itself. The name of folder 0x162 is empty, and that of 0x183 is no PtypString;
// message 0x224 has an empty class, and a subject that is none.
const FOLDERS: Store<'static> = Store::Wider(
    &[
        (12, Body::Rows(&[0x142, 0x183])),
        (
            16,
            Body::Properties(&[(0x3001, 0x001F, Held::Item(b"I\0n\0b\0o\0x\0"))]),
        ),
        (20, Body::Rows(&[0x162])),
        (24, Body::Rows(&[0x204, 0x224])),
        (28, Body::Rows(&[0x248])),
        (
            32,
            Body::Properties(&[(0x3001, 0x001F, Held::Here([0, 0, 0, 0]))]),
        ),
        (
            36,
            Body::Properties(&[(0x3001, 0x001E, Held::Item(b"Found"))]),
        ),
        (
            40,
            Body::Properties(&[
                (0x001A, 0x001F, Held::Item(b"I\0P\0M\0.\0N\0o\0t\0e\0")),
                (0x0037, 0x001F, Held::Item(b"\x01\0\x01\0H\0i\0")),
                (0x0C1A, 0x001F, Held::Item(b"A\0n\0n\0")),
            ]),
        ),
        (
            44,
            Body::Properties(&[
                (0x001A, 0x001F, Held::Here([0, 0, 0, 0])),
                (0x0037, 0x001E, Held::Item(b"Hi")),
            ]),
        ),
    ],
    &[
        (0x12d, 12, 0),
        (0x142, 16, 0),
        (0x14d, 20, 0),
        (0x14e, 24, 0),
        (0x14f, 28, 0),
        (0x162, 32, 0),
        (0x183, 36, 0),
        (0x204, 40, 0),
        (0x224, 44, 0),
        (0x248, 8, 0),
    ],
);

const ROWS: [Asked<'static>; 9] = [
    (
        &["folders", "store.pst"],
        Yes(
            "{\"folders\":[{\"associated\":0,\"messages\":0,\"name\":null,\"nid\":\"0x122\",\"path\":[\"0x122\"],\"subfolders\":[\"0x142\",\"0x183\"]},{\"associated\":1,\"messages\":2,\"name\":\"Inbox\",\"nid\":\"0x142\",\"path\":[\"0x122\",\"0x142\"],\"subfolders\":[\"0x162\"]},{\"associated\":0,\"messages\":0,\"name\":\"\",\"nid\":\"0x162\",\"path\":[\"0x122\",\"0x142\",\"0x162\"],\"subfolders\":[]},{\"associated\":0,\"messages\":0,\"name\":null,\"nid\":\"0x183\",\"path\":[\"0x122\",\"0x183\"],\"subfolders\":[]}]}\n",
        ),
    ),
    (
        &["contents", "store.pst", "0x142"],
        Yes(
            "{\"folder\":\"0x142\",\"messages\":[{\"class\":\"IPM.Note\",\"nid\":\"0x204\",\"sender\":\"Ann\",\"subject\":\"\\u0001\\u0001Hi\"},{\"class\":\"\",\"nid\":\"0x224\",\"sender\":null,\"subject\":null}]}\n",
        ),
    ),
    (
        &["contents", "store.pst", "0x00000162"],
        Yes("{\"folder\":\"0x162\",\"messages\":[]}\n"),
    ),
    (&["contents", "store.pst", "0x0"], No("no folder 0x0\n")),
    (&["contents", "store.pst", "0x14E"], No("no folder 0x14e\n")),
    (&["contents", "store.pst", "0x182"], No("no folder 0x182\n")),
    (&["contents", "store.pst", "0x183"], No("no folder 0x183\n")),
    (&["contents", "store.pst", "0x204"], No("no folder 0x204\n")),
    (
        &["contents", "store.pst", "0xFFFFFFFF"],
        No("no folder 0xffffffff\n"),
    ),
];

#[test]
fn folders_and_their_messages_are_shown(rt: HostRuntime) -> Result<(), Fail> {
    are_asked(&rt, FOLDERS, &[], &ROWS)
}
