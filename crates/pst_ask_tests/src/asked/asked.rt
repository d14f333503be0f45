//! What accepted words ask for.

use super::{lacks, words_of};
use crate::told::{MEMORY, is};
use pst_ask::{Ask, Kind, Lack, Order, Path, Request, parse};
use std::process::Abort;

const CHECK: Ask = Ask::Check {
    strict: false,
    digest: false,
};

const STRICT: Ask = Ask::Check {
    strict: true,
    digest: false,
};

const DIGEST: Ask = Ask::Check {
    strict: false,
    digest: true,
};

const BOTH: Ask = Ask::Check {
    strict: true,
    digest: true,
};

const DAMAGE: Ask = Ask::Damage { digest: false };

const DAMAGE_DIGEST: Ask = Ask::Damage { digest: true };

// Compares what words ask for, of a file as it is, all of it.
fn is_asked<R: Abort + AllocGlobal>(rt: &R, words: &[&str], ask: Ask, file: &str) {
    let expected = Request {
        ask,
        decode: false,
        whole: false,
        file,
    };
    is_request(rt, words, expected);
}

// Compares what words ask for of a file.
fn is_request<R: Abort + AllocGlobal>(rt: &R, words: &[&str], expected: Request<'_>) {
    is_order(rt, words, Order::Show(expected));
}

// Compares what words ask for.
fn is_order<R: Abort + AllocGlobal>(rt: &R, words: &[&str], expected: Order<'_>) {
    let words = words_of(rt, rt.alloc(), words);
    let Ok(order) = parse(rt.alloc(), &words) else {
        rt.panic("refused");
    };
    is(rt, &order, &expected);
}

// Compares of which paths words ask for the properties, and whether with their places.
fn are_paths<R: Abort + AllocGlobal>(
    rt: &R,
    words: &[&str],
    (places, whole, decode): (bool, bool, bool),
    expected: &[&[u32]],
) {
    let mut paths = Vec::new(rt.alloc());
    for nids in expected {
        let nids = Vec::from_slice(rt.alloc(), nids).expect(rt, MEMORY);
        paths.push(Path { nids }).expect(rt, MEMORY);
    }
    let expected = Request {
        ask: Ask::Props { places, paths },
        decode,
        whole,
        file: "a.pst",
    };
    is_request(rt, words, expected);
}

// Compares of which property words ask for the value.
fn is_value<R: Abort + AllocGlobal>(
    rt: &R,
    words: &[&str],
    (text, whole, decode): (bool, bool, bool),
    nids: &[u32],
    id: u16,
) {
    let nids = Vec::from_slice(rt.alloc(), nids).expect(rt, MEMORY);
    let path = Path { nids };
    let expected = Request {
        ask: Ask::Value { text, path, id },
        decode,
        whole,
        file: "a.pst",
    };
    is_request(rt, words, expected);
}

#[test]
fn props_takes_paths_in_their_order(rt: HostRuntime) {
    for (words, flags, paths) in [
        (
            &["props", "a.pst", "0x12D"][..],
            (false, false, false),
            &[&[0x12d][..]][..],
        ),
        (
            &["props", "a.pst", "--decode", "0x21"],
            (false, false, true),
            &[&[0x21]],
        ),
        (
            &["props", "a.pst", "0x21", "--decode"],
            (false, false, true),
            &[&[0x21]],
        ),
        (
            &["props", "--places", "a.pst", "0x122", "0x21", "0x122"],
            (true, false, false),
            &[&[0x122], &[0x21], &[0x122]],
        ),
        (
            &["props", "a.pst", "0x21", "--decode", "0x61/0x0/0x021"],
            (false, false, true),
            &[&[0x21], &[0x61, 0, 0x21]],
        ),
        (
            &["props", "a.pst", "--places", "0x21", "--decode", "0x61"],
            (true, false, true),
            &[&[0x21], &[0x61]],
        ),
        (
            &["props", "a.pst", "0x200024/0x8025/0xffFFffFF"],
            (false, false, false),
            &[&[0x200024, 0x8025, u32::MAX]],
        ),
    ] {
        are_paths(&rt, words, flags, paths);
    }
}

#[test]
fn value_takes_a_path_and_a_property(rt: HostRuntime) {
    for (words, flags, nids, id) in [
        (
            &["value", "a.pst", "0x21", "0037"][..],
            (false, false, false),
            &[0x21][..],
            0x37,
        ),
        (
            &["value", "--text", "a.pst", "0x200024", "1000"],
            (true, false, false),
            &[0x200024],
            0x1000,
        ),
        (
            &["value", "a.pst", "0x21", "fFFf", "--decode"],
            (false, false, true),
            &[0x21],
            u16::MAX,
        ),
        (
            &[
                "value",
                "a.pst",
                "--text",
                "0x200024/0x8025",
                "--decode",
                "3701",
            ],
            (true, false, true),
            &[0x200024, 0x8025],
            0x3701,
        ),
    ] {
        is_value(&rt, words, flags, nids, id);
    }
}

// Words, and the kind that they name.
const EXPLAINED: [(&[&str], Option<Kind>); 9] = [
    (&["explain"], None),
    (&["explain", "14"], Some(Kind::BlockTrailer)),
    (&["explain", "BlockTrailer"], Some(Kind::BlockTrailer)),
    (&["explain", "--", "1"], Some(Kind::Short)),
    (&["explain", "Encoded"], Some(Kind::Encoded(0))),
    (&["explain", "28"], Some(Kind::NoMemory)),
    (&["explain", "blocktrailer"], Some(Kind::BlockTrailer)),
    (&["explain", "Encoded(1)"], Some(Kind::Encoded(0))),
    (
        &["explain", "no: 14 BlockTrailer"],
        Some(Kind::BlockTrailer),
    ),
];

// Words that name no kind.
const NO_KINDS: [&str; 7] = ["", "0", "29", "99", "014", "no: 99", "BlockTraile"];

#[test]
fn explain_takes_a_kind_or_none(rt: HostRuntime) {
    for (words, kind) in EXPLAINED {
        is_order(&rt, words, Order::Explain(kind));
    }
    for word in NO_KINDS {
        lacks(&rt, &["explain", word], Lack::Kind);
    }
}

#[test]
fn each_command_takes_a_file_that_is_decoded_first(rt: HostRuntime) {
    let (file, decode, whole) = ("a.pst", true, false);
    for (words, ask) in [
        (&["check", "--decode", "a.pst"][..], CHECK),
        (&["check", "a.pst", "--decode", "--strict"], STRICT),
        (&["check", "--strict", "--decode", "a.pst"], STRICT),
        (&["check", "--decode", "--digest", "a.pst"], DIGEST),
        (&["damage", "--decode", "a.pst"], DAMAGE),
        (&["damage", "a.pst", "--digest", "--decode"], DAMAGE_DIGEST),
        (&["damage", "--decode", "--digest", "a.pst"], DAMAGE_DIGEST),
        (&["head", "--decode", "a.pst"], Ask::Head),
        (&["nodes", "a.pst", "--decode"], Ask::Nodes),
        (&["folders", "--decode", "--", "a.pst"], Ask::Folders),
        (&["messages", "a.pst", "--decode"], Ask::Messages),
        (&["export", "--decode", "a.pst"], Ask::Export),
        (
            &["contents", "--decode", "a.pst", "0x8082"],
            Ask::Contents(0x8082),
        ),
    ] {
        let expected = Request {
            ask,
            decode,
            whole,
            file,
        };
        is_request(&rt, words, expected);
    }
}

#[test]
fn what_is_whole_is_asked_for(rt: HostRuntime) {
    let (file, whole) = ("a.pst", true);
    for (words, ask, decode) in [
        (&["folders", "--whole", "a.pst"][..], Ask::Folders, false),
        (
            &["folders", "--decode", "a.pst", "--whole"],
            Ask::Folders,
            true,
        ),
        (&["messages", "a.pst", "--whole"], Ask::Messages, false),
        (
            &["messages", "--whole", "--decode", "--", "a.pst"],
            Ask::Messages,
            true,
        ),
        (&["export", "--whole", "a.pst"], Ask::Export, false),
        (
            &["export", "a.pst", "--whole", "--decode"],
            Ask::Export,
            true,
        ),
        (
            &["contents", "--whole", "a.pst", "0x8082"],
            Ask::Contents(0x8082),
            false,
        ),
        (
            &["contents", "a.pst", "0x8082", "--whole", "--decode"],
            Ask::Contents(0x8082),
            true,
        ),
    ] {
        let expected = Request {
            ask,
            decode,
            whole,
            file,
        };
        is_request(&rt, words, expected);
    }
    are_paths(
        &rt,
        &["props", "--whole", "a.pst", "0x21", "--places", "0x122"],
        (true, true, false),
        &[&[0x21], &[0x122]],
    );
    are_paths(
        &rt,
        &["props", "a.pst", "--decode", "0x21", "--whole"],
        (false, true, true),
        &[&[0x21]],
    );
    is_value(
        &rt,
        &["value", "--whole", "--text", "a.pst", "0x21", "3001"],
        (true, true, false),
        &[0x21],
        0x3001,
    );
    is_value(
        &rt,
        &["value", "a.pst", "0x21", "3001", "--whole", "--decode"],
        (false, true, true),
        &[0x21],
        0x3001,
    );
}

#[test]
fn each_command_is_asked_for(rt: HostRuntime) {
    is_asked(&rt, &["check", "a.pst"], CHECK, "a.pst");
    is_asked(&rt, &["check", "a.pst", "--digest"], DIGEST, "a.pst");
    is_asked(
        &rt,
        &["check", "--digest", "--strict", "a.pst"],
        BOTH,
        "a.pst",
    );
    for words in [
        &["check", "--strict", "a.pst"][..],
        &["check", "a.pst", "--strict"],
        &["check", "--strict", "--", "a.pst"],
    ] {
        is_asked(&rt, words, STRICT, "a.pst");
    }
    is_asked(&rt, &["damage", "a.pst"], DAMAGE, "a.pst");
    is_asked(&rt, &["damage", "--digest", "-"], DAMAGE_DIGEST, "-");
    is_asked(
        &rt,
        &["damage", "a.pst", "--digest"],
        DAMAGE_DIGEST,
        "a.pst",
    );
    is_asked(&rt, &["head", "-"], Ask::Head, "-");
    is_asked(&rt, &["nodes", ""], Ask::Nodes, "");
    is_asked(&rt, &["folders", "--", "-h"], Ask::Folders, "-h");
    is_asked(&rt, &["messages", "a.pst"], Ask::Messages, "a.pst");
    is_asked(&rt, &["export", "-"], Ask::Export, "-");
    let contents = Ask::Contents(0x8082);
    is_asked(&rt, &["contents", "a b", "0x8082"], contents, "a b");
}
