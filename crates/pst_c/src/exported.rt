//! The calls of C.

ghost use Rattle.std.specs.Prelude.{◌≡◌, ◌≢◌};
ghost use Rattle.pst_c.specs.Handed.{Hands, IsHanded};
ghost use Rattle.pst_plain.specs.Twin.{twin_of};

use pst_answer::{Answer, answer_text};
use pst_plain::plain;
use std::alloc::Global;

/// A text that C has from here on, and frees with `free`.
#[repr(C)]
#[derive(Drop)]
pub struct PstText {
    /// Where its bytes lie: at the block that is to be freed, also where there are none.
    pub at: *const u8,
    /// How many they are.
    pub length: usize,
    /// How many bytes the block has: 0 where there is none, and nothing is to be freed.
    pub room: usize,
}

/// What is answered.
#[repr(C)]
#[derive(Drop)]
pub struct PstAnswer {
    /// What the program writes.
    pub text: PstText,
    /// What it says on the error output.
    pub line: PstText,
}

// Hands a text over: its block is C's.
fn hand(text: Vec<u8>, out: &mut PstText)
    ensures { IsHanded text out.new }
{
    out.at = text.as_ptr();
    out.length = text.len();
    out.room = text.capacity();
    let _lent: &'static mut [u8] = text.leak();
}

/// Answers words, each ended by a zero byte, over the bytes of a file, as `answer_text` does, and gives the status.
#[unsafe(no_mangle)]
pub extern "C" fn pst_c_answer(
    alloc: Global,
    words: &[u8],
    bytes: &[u8],
    answer: &mut PstAnswer,
) -> u8
    ensures { Hands words.now bytes.now result answer.new }
{
    let Answer { status, text, line } = answer_text(alloc, words, bytes);
    hand(text, &mut answer.text);
    hand(line, &mut answer.line);
    status
}

/// Makes the plain twin of an encoded file in the caller's memory, as `plain` does, and gives the status: 0, or 4 where memory
/// is refused, and then the bytes are as they were.
#[unsafe(no_mangle)]
pub extern "C" fn pst_c_decode(alloc: Global, bytes: &mut [u8]) -> u8
    ensures twin { result ≡ 0 → bytes.new ≡ twin_of bytes.old }
    ensures same { result ≢ 0 → (result ≡ 4) × (bytes.new ≡ bytes.old) }
{
    match plain(alloc, bytes) {
        Ok(_) => 0,
        Err(_) => 4,
    }
}
