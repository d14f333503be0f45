//! The fault with which a run ends, and the line more that is said on a terminal.

use super::words_of;
use crate::told::{is, is_at};
use pst_ask::{Lack, Order, parse};
use pst_fault::Kind;
use pst_make::{Change, m0};
use pst_run::{carry_out, say_what_helps, say_word};
use std::process::Abort;
use std::test::Fail;

// Runs a command over an image, and compares the status and the kind of the fault.
fn ends<R: Abort + AllocGlobal>(
    rt: &R,
    image: &[u8],
    words: &[&str],
    status: u8,
    kind: Option<Kind>,
) -> Result<(), Fail> {
    let alloc = rt.alloc();
    let all = words_of(alloc, words)?;
    let Ok(Order::Show(request)) = parse(alloc, &all) else {
        return Err(Fail::from("the words are refused"));
    };
    let (mut out, mut err) = (Vec::new(alloc), Vec::new(alloc));
    let mut input = image;
    let ending = carry_out(alloc, &request, &mut input, 0, &mut out, &mut err);
    is_at(rt, words, ending.status, status);
    is_at(rt, words, ending.fault.map(|fault| fault.kind), kind);
    Ok(())
}

#[test]
fn a_run_tells_the_fault_of_the_file(rt: HostRuntime) -> Result<(), Fail> {
    let mut image = m0(rt.alloc())?;
    ends(&rt, &image, &["check", "a.pst"], 0, None)?;
    ends(&rt, &image, &["check", "--strict", "a.pst"], 0, None)?;
    ends(&rt, &image, &["contents", "a.pst", "0x21"], 1, None)?;
    ends(&rt, &image, &["value", "a.pst", "0x21", "0000"], 1, None)?;
    ends(&rt, &[], &["head", "a.pst"], 1, Some(Kind::Short))?;
    Change::Flip(0x4c74).apply(&mut image)?;
    let kind = Some(Kind::BlockTrailer);
    ends(&rt, &image, &["check", "a.pst"], 1, kind)?;
    ends(&rt, &image, &["props", "a.pst", "0x21"], 1, kind)
}

#[test]
fn what_helps_is_said(rt: HostRuntime) {
    let decode = "  encoded: give the command --decode\n";
    let four = "  what that says and what to do: pst_show explain 4\n";
    for (kind, is_decoded, line) in [
        (Kind::Encoded(1), false, decode),
        (Kind::Encoded(2), false, decode),
        (Kind::Encoded(1), true, four),
        (Kind::Encoded(3), false, four),
        (
            Kind::BlockTrailer,
            false,
            "  what that says and what to do: pst_show explain 14; all that is broken: pst_show damage\n",
        ),
        (
            Kind::MapsInvalid,
            true,
            "  what that says and what to do: pst_show explain 7; all that is broken: pst_show damage --decode\n",
        ),
        (
            Kind::Version(15),
            false,
            "  what that says and what to do: pst_show explain 3\n",
        ),
    ] {
        let mut said = Vec::new(rt.alloc());
        say_what_helps(kind, is_decoded, &mut said);
        is_at(&rt, kind, said.as_slice(), line.as_bytes());
    }
}

#[test]
fn the_word_is_said_and_what_one_looks_like(rt: HostRuntime) {
    for (lack, line) in [
        (
            Lack::Nid,
            "  Inbox: a node is 0x and 1 to 8 hexadecimal digits, as folders prints them\n",
        ),
        (
            Lack::Property,
            "  Inbox: a property is 4 hexadecimal digits, as props prints them\n",
        ),
        (
            Lack::Kind,
            "  Inbox: a kind is its number or its name, as explain prints them\n",
        ),
    ] {
        let mut said = Vec::new(rt.alloc());
        say_word(lack, "Inbox", &mut said);
        is(&rt, said.as_slice(), line.as_bytes());
    }
}
