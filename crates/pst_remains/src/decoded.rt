//! What remains of a damaged file that is encoded, its blocks decoded.

ghost use Rattle.std.specs.Prelude.{◌≡◌, ◌≤◌, length, Some, IfOk, IfErr, OnOk, OnErr};
ghost use Rattle.std.specs.List.{All};
ghost use Rattle.pst_encoding.specs.Tables.{IsByte};
ghost use Rattle.pst_fault.specs.Fault.{no_memory};
ghost use Rattle.pst_plain.specs.Twin.{method_of as method_in, with_method};
ghost use Rattle.pst_remains.specs.Decoded.{decoded_remains_of};
ghost use Rattle.pst_remains.specs.View.{parts_in, parts_over, IsAllFound, IsOver};

use crate::find::find_remains;
use crate::found::Found;
use crate::remains::Remains;
use pst_bytes::Image;
use pst_fault::Fault;
use pst_plain::{Codec, Method, decode_data, set_method};
use std::alloc::Global;

// That the bytes of a file are bytes.
fn are_bytes(file: &[u8])
    ensures { All IsByte file.now }
{}

// What is found of a file.
fn look(alloc: Global, file: &[u8]) -> Result<Found, Fault>
    requires { 564 ≤ length file.now }
    ensures exact { IfOk result (IsAllFound file.now) }
    ensures err { IfErr result (λ f. f ≡ no_memory) }
{
    let remains = find_remains(alloc, Image::new(file))?;
    Ok(Found::of(remains))
}

// What is found of an encoded file with bCryptMethod 0, which it has then.
fn look_plain(alloc: Global, method: Method, file: &mut [u8]) -> Result<Found, Fault>
    requires method { method_in file.old ≡ Some method }
    ensures exact { IfOk result (IsAllFound (with_method 0 file.old)) }
    ensures plain { OnOk result (file.new ≡ with_method 0 file.old) }
    ensures err { IfErr result (λ f. f ≡ no_memory) }
    ensures same { OnErr result (file.new ≡ file.old) }
{
    are_bytes(file);
    set_method(0, file);
    match look(alloc, file) {
        Ok(found) => Ok(found),
        Err(fault) => {
            set_method(method.number(), file);
            Err(fault)
        }
    }
}

/// What is found of a damaged file that is encoded by a method, its blocks decoded in the file's own memory. The file is judged
/// as it is stored, but for bCryptMethod, which becomes 0 ([MS-PST] 2.2.2.6): all that is told, the blocks and the nodes that are
/// left are those that `find_remains` finds of it then. Each data block without fault is decoded after that (5.1, 5.2), and its
/// check value carried over; a block with a fault stays as it is. No length and no place changes. NoMemory where memory is
/// refused: then the bytes are as they were.
pub fn find_decoded(alloc: Global, method: Method, file: &mut [u8]) -> Result<Found, Fault>
    requires method { method_in file.old ≡ Some method }

    // What is told and what is left, over the bytes as they are then.
    ensures exact { IfOk result (λ f. parts_over file.new f ≡ decoded_remains_of method file.old) }
    ensures over { IfOk result (IsOver file.new) }

    // Only memory refuses.
    ensures err { IfErr result (λ f. f ≡ no_memory) }
    ensures same { OnErr result (file.new ≡ file.old) }
{
    are_bytes(file);
    let codec = Codec::new(alloc, method, file.len())?;
    let found = look_plain(alloc, method, file)?;
    decode_data(&codec, &found.good, file);
    Ok(found)
}

/// What remains of a damaged file that is encoded by a method, its blocks decoded, as `find_decoded` finds it. NoMemory where
/// memory is refused.
pub fn find_decoded_remains<'a>(
    alloc: Global,
    method: Method,
    file: &'a mut [u8],
) -> Result<Remains<'a>, Fault>
    requires method { method_in file.old ≡ Some method }
    ensures exact { IfOk result (λ r. parts_in r ≡ decoded_remains_of method file.old) }
    ensures err { IfErr result (λ f. f ≡ no_memory) }
{
    let found = find_decoded(alloc, method, file)?;
    Ok(found.over(Image::new(file)))
}
