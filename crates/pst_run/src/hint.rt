//! What is said on a terminal, in one line more, below the line of a no and of a word that names nothing.

ghost use Rattle.std.specs.Prelude.{◌≡◌, true, Some};
ghost use Rattle.std.specs.Io.KnownBytes.{Appends};
ghost use Rattle.pst_json.specs.Output.{AppendsFront};
ghost use Rattle.pst_run.specs.Hint.{damage_text as text_of_damage, form_text, help_text, is_to_decode, word_text};
ghost use Rattle.pst_run.specs.Run.{SaysLine};

use crate::outside::is_outside;
use crate::said::say;
use pst_ask::Lack;
use pst_fault::Kind;
use pst_json::emit;
use std::fmt;
use std::io::Write;

// Whether it helps to decode the file: it is encoded by one of the two methods, and was not decoded.
fn is_decoding_needed(kind: Kind, is_decoded: bool) -> bool
    ensures { result ≡ is_to_decode is_decoded kind }
{
    match kind {
        Kind::Encoded(method) => !is_decoded && (method == 1 || method == 2),
        _ => false,
    }
}

// The words that list all that is broken of a file with this fault; none, where it is outside of what they list.
fn damage_text(kind: Kind, is_decoded: bool) -> &'static str
    ensures { result.now ≡ text_of_damage is_decoded kind }
{
    if is_outside(kind) {
        ""
    } else if is_decoded {
        "; all that is broken: pst_show damage --decode"
    } else {
        "; all that is broken: pst_show damage"
    }
}

// What helps behind a no.
#[derive(Clone, Copy)]
struct Help {
    kind: Kind,
    is_decoded: bool,
}

impl fmt::Display for Help {
    ghost output = { λ h. Some (help_text h.is_decoded h.kind) };

    fn fmt<W: fmt::Write>(&self, f: &mut fmt::Formatter<W>) -> fmt::Result {
        if is_decoding_needed(self.kind, self.is_decoded) {
            return write!(f, "  encoded: give the command --decode");
        }
        let number = self.kind.number();
        let behind = damage_text(self.kind, self.is_decoded);
        write!(
            f,
            "  what that says and what to do: pst_show explain {number}{behind}"
        )
    }
}

/// Says below the line of a no what helps: to decode an encoded file, where that was not asked for, and else the words that
/// explain the kind, and those that list all that is broken, where the file is one that they list. A line that cannot be written changes nothing.
pub fn say_what_helps<E: Write>(kind: Kind, is_decoded: bool, err: &mut E)
    ensures { SaysLine (help_text is_decoded kind) (E.contents err.old) (E.contents err.new) }
{
    say(Help { kind, is_decoded }, err);
}

// What a word that names something looks like.
fn form_of(lack: Lack) -> &'static str
    ensures { result.now ≡ form_text lack }
{
    match lack {
        Lack::Nid => ": a node is 0x and 1 to 8 hexadecimal digits, as folders prints them",
        Lack::Property => ": a property is 4 hexadecimal digits, as props prints them",
        Lack::Kind => ": a kind is its number or its name, as explain prints them",
        Lack::Nothing => ": it is not known",
    }
}

// Writes a text, and tells whether all of it was written.
fn put_text<E: Write>(text: &str, err: &mut E) -> bool
    ensures all { result ≡ true → Appends (E.contents err.old) (E.contents err.new) text.now }
    ensures front { AppendsFront (E.contents err.old) (E.contents err.new) text.now }
{
    emit(text.as_bytes(), err).is_ok()
}

/// Says below the line of what words lack which word it was, and what one looks like. A line that cannot be written changes
/// nothing.
pub fn say_word<E: Write>(lack: Lack, word: &str, err: &mut E)
    ensures { SaysLine (word_text lack word.now) (E.contents err.old) (E.contents err.new) }
{
    if !put_text("  ", err) {
        return;
    }
    if !put_text(word, err) {
        return;
    }
    if !put_text(form_of(lack), err) {
        return;
    }
    put_text("\n", err);
}
