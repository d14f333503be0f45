//! `head` over small images, good and bad, from the words to the status.

use super::{SMALL_LINE, head_of};
use pst_make::{Change, m0, set};
use std::process::Abort;
use std::test::Fail;

// The header of samples/mail.pst, a store of five folders and four messages: its bytes and their places, in the order of
// [MS-PST] 2.2.2.6. All others are 0.
const MAIL: [(usize, &[u8]); 14] = [
    (0, b"!BDN"), // dwMagic
    (4, &[0x9a, 0x4c, 0xd4, 0x24]), // dwCRCPartial
    (8, b"SM"), // wMagicClient
    (10, &[23]), // wVer
    (32, &[32]), // bidNextP
    (184, &[0x00, 0x24, 0x04]), // ibFileEof
    (192, &[0x00, 0x44]), // ibAMapLast
    (200, &[0xc0, 0xa1, 0x03]), // cbAMapFree
    (216, &[12, 0, 0, 0, 0, 0, 0, 0, 0x00, 0x4c]), // BREFNBT
    (232, &[28, 0, 0, 0, 0, 0, 0, 0, 0x00, 0x54]), // BREFBBT
    (248, &[2]), // fAMapValid
    (512, &[0x80]), // bSentinel
    (516, &[180]), // bidNextB
    (524, &[0x3b, 0x58, 0x7c, 0x01]), // dwCRCFull
];

const MAIL_LINE: &str =
    "{\"bbt\":{\"bid\":28,\"ib\":21504},\"eof\":271360,\"free\":238016,\"last_amap\":17408,\"maps_valid\":2,\"nbt\":{\"bid\":12,\"ib\":19456},\"next_block\":180,\"next_page\":32,\"version\":23}\n";

// Runs `head` over an image that is refused, and compares the line.
fn refused<R: Abort + AllocGlobal>(rt: &R, image: &[u8], line: &str) -> Result<(), Fail> {
    let mut input = image;
    head_of(rt, &mut input, 1, "", line)
}

#[test]
fn head_shows_the_fields(rt: HostRuntime) -> Result<(), Fail> {
    let mut image = m0(rt.alloc())?;
    head_of(&rt, &mut image.as_slice(), 0, SMALL_LINE, "")?;
    Change::Grow(64).apply(&mut image)?;
    head_of(&rt, &mut image.as_slice(), 0, SMALL_LINE, "")?;
    let mut image = vec![in rt.alloc(); 0u8; 271_360]?;
    for (at, bytes) in MAIL {
        set(&mut image, at, bytes)?;
    }
    head_of(&rt, &mut image.as_slice(), 0, MAIL_LINE, "")
}

#[test]
fn a_file_without_a_whole_header_is_short(rt: HostRuntime) -> Result<(), Fail> {
    let line = "no: 1 Short at 0x0 bid 0x0 nid 0x0\n";
    let image = m0(rt.alloc())?;
    refused(&rt, &[], line)?;
    refused(&rt, image.get(..563).expect(&rt, "too short"), line)
}

// One byte is changed, and the check values are made right again.
#[test]
fn a_changed_field_is_refused(rt: HostRuntime) -> Result<(), Fail> {
    let rows: [(usize, u8, &str); 5] = [
        (0, 0, "no: 2 Magic at 0x0 bid 0x0 nid 0x0\n"),
        (8, 0, "no: 2 Magic at 0x8 bid 0x0 nid 0x0\n"),
        (10, 15, "no: 3 Version(15) at 0xa bid 0x0 nid 0x0\n"),
        (513, 1, "no: 4 Encoded(1) at 0x201 bid 0x0 nid 0x0\n"),
        (248, 0, "no: 7 MapsInvalid at 0xf8 bid 0x0 nid 0x0\n"),
    ];
    for (at, byte, line) in rows {
        let mut image = m0(rt.alloc())?;
        set(&mut image, at, &[byte])?;
        Change::Header.apply(&mut image)?;
        refused(&rt, &image, line)?;
    }
    Ok(())
}

#[test]
fn a_flipped_bit_is_refused(rt: HostRuntime) -> Result<(), Fail> {
    let rows = [
        (300, "no: 5 HeaderCheck at 0x4 bid 0x0 nid 0x0\n"),
        (520, "no: 5 HeaderCheck at 0x20c bid 0x0 nid 0x0\n"),
    ];
    for (at, line) in rows {
        let mut image = m0(rt.alloc())?;
        set(&mut image, at, &[1])?;
        refused(&rt, &image, line)?;
    }
    Ok(())
}

#[test]
fn a_file_that_is_cut_is_refused(rt: HostRuntime) -> Result<(), Fail> {
    let mut image = m0(rt.alloc())?;
    Change::Cut(271_359).apply(&mut image)?;
    refused(&rt, &image, "no: 6 Root at 0xb8 bid 0x0 nid 0x0\n")
}
