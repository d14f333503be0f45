//! The bytes of a reader, all of them, within limits.

ghost use Rattle.std.specs.Prelude.{◌≡◌, ◌≤◌, ◌<◌, ◌+◌, ◌⊎◌, IfOk, IfSome, IsErrOf, length, vec_len};
ghost use Rattle.std.specs.Io.{ReadsAtMost};
ghost use Rattle.std.specs.Io.KnownBytes.{ReadConsumes};
ghost use Rattle.pst_run.specs.Loading.{AddsRead};

use std::alloc::{AllocError, Global};
use std::io;
use std::io::{ErrorKind, Read};
use thiserror::Error;

/// The most bytes that a file may have.
pub const MOST_BYTES: usize = 17_179_869_184;

/// The most reads that are asked of a reader.
pub const MOST_READS: u32 = 16_777_216;

// How many bytes are asked for at a time.
const PIECE: usize = 65_536;

/// Why the bytes of a reader were not taken.
#[derive(Clone, Copy, Debug, PartialEq, Eq, Error)]
pub enum LoadFault {
    /// A read failed.
    #[error("the file cannot be read")]
    Read,
    /// There are more than 17,179,869,184 bytes, or 16,777,216 reads did not show the end.
    #[error("the file is too long")]
    TooLong,
    /// Memory was refused.
    #[error("out of memory")]
    Memory,
}

/// How much was read of a reader.
#[derive(Clone, Copy, Debug, PartialEq, Eq)]
pub struct Reads {
    /// How many reads were made, those that failed too.
    pub count: u32,
    /// How many bytes they gave.
    pub bytes: u64,
}

// Why no more is read.
#[derive(Clone, Copy, Debug, PartialEq, Eq)]
enum Stop {
    Read,
    Bytes,
    Reads,
    Memory,
}

// A buffer of this length.
fn zeros(alloc: Global, len: usize) -> Result<Vec<u8>, AllocError>
    ensures { IfOk result (λ v. vec_len v ≡ len) }
{
    vec![in alloc; 0u8; len]
}

// One read, and the counts with it. This is the one place that reads.
fn read_once<R: Read>(input: &mut R, piece: &mut [u8], reads: &mut Reads) -> io::Result<usize>
    requires once { reads.old.count < 16777216 }
    requires room { reads.old.bytes ≤ 17179869184 }
    requires small { length piece.old ≤ 65536 }
    ensures counted { AddsRead reads.old result reads.new }
    ensures bound { ReadsAtMost result piece.new }
    ensures bytes { ReadConsumes (R.remaining input.old) (R.remaining input.new) result piece.new }
{
    reads.count += 1;
    let got = input.read(piece);
    if let Ok(n) = got {
        reads.bytes += n as u64;
    }
    got
}

// All bytes that the reader gives, or why they were not taken; and how much was read.
#[tactic(auto, using(crate::proofs::Loading::loading))]
fn fill<R: Read>(
    alloc: Global,
    input: &mut R,
    expected: usize,
    reads: &mut Reads,
) -> Result<Vec<u8>, Stop>
    requires count { reads.old.count ≡ 0 }
    requires bytes { reads.old.bytes ≡ 0 }
    ensures whole { IfOk result (λ bytes.
        IfSome (R.remaining input.old) (λ known. bytes.items ≡ known)) }
    ensures fits { IfOk result (λ bytes. vec_len bytes ≤ 17179869184) }
    ensures too_long { IsErrOf result Stop.Bytes → IfSome (R.remaining input.old) (λ known.
        17179869184 < length known) }
    ensures past { IsErrOf result Stop.Bytes → 17179869184 < reads.new.bytes }
    ensures too_many { IsErrOf result Stop.Reads → reads.new.count ≡ 16777216 }
    ensures ends { reads.new.count ≤ 16777216 }
{
    let mut bytes = Vec::new(alloc);
    // Where there is no room for all at once, it is asked for as the bytes come.
    let _ = bytes.reserve_exact(expected);
    let mut piece = zeros(alloc, PIECE).map_err(|_| Stop::Memory)?;
    while reads.count < MOST_READS {
        match read_once(input, &mut piece, reads) {
            Ok(0) => return Ok(bytes),
            Ok(n) => {
                if n > MOST_BYTES - bytes.len() {
                    return Err(Stop::Bytes);
                }
                let new = &piece[..n];
                bytes.extend_from_slice(new).map_err(|_| Stop::Memory)?;
            }
            Err(error) => {
                if error.kind() != ErrorKind::Interrupted {
                    return Err(Stop::Read);
                }
            }
        }
    }
    Err(Stop::Reads)
}

/// All bytes that a reader gives, or why they were not taken, as `load` says; and how much was read.
pub fn load_counted<R: Read>(
    alloc: Global,
    input: &mut R,
    expected: usize,
) -> (Result<Vec<u8>, LoadFault>, Reads)
    // What is given is all that the reader had, within the limit.
    ensures whole { IfOk result.0 (λ bytes.
        IfSome (R.remaining input.old) (λ known. bytes.items ≡ known)) }
    ensures fits { IfOk result.0 (λ bytes. vec_len bytes ≤ 17179869184) }

    // A file is too long where more bytes came, which the reader then had, or where the most reads were made.
    ensures too_long { IsErrOf result.0 LoadFault.TooLong → (17179869184 < result.1.bytes)
        ⊎ (result.1.count ≡ 16777216) }
    ensures longer { IsErrOf result.0 LoadFault.TooLong → IfSome (R.remaining input.old) (λ known.
        17179869184 < length known) ⊎ (result.1.count ≡ 16777216) }

    // No more reads are made, whatever the answer.
    ensures ends { result.1.count ≤ 16777216 }
{
    let mut reads = Reads { count: 0, bytes: 0 };
    let filled = fill(alloc, input, expected, &mut reads);
    let loaded = filled.map_err(|stop| match stop {
        Stop::Read => LoadFault::Read,
        Stop::Bytes | Stop::Reads => LoadFault::TooLong,
        Stop::Memory => LoadFault::Memory,
    });
    (loaded, reads)
}

/// All bytes that a reader gives, in at most 16,777,216 reads of up to 65,536 bytes each. A read that is interrupted
/// is made again, and counts. `TooLong` comes where more than 17,179,869,184 bytes came, or where the most reads
/// have not shown the end; `Memory` where the buffer could not grow; `Read` where a read failed. After an error
/// nothing is given, and what was read is lost. Room for `expected` bytes is taken at once, where it can be had; the answer
/// is the same for any number. `load_counted` says how much was read, too.
pub fn load<R: Read>(alloc: Global, input: &mut R, expected: usize) -> Result<Vec<u8>, LoadFault>
    // What is given is all that the reader had.
    ensures whole { IfOk result (λ bytes.
        IfSome (R.remaining input.old) (λ known. bytes.items ≡ known)) }

    // It is within the limit.
    ensures fits { IfOk result (λ bytes. vec_len bytes ≤ 17179869184) }
{
    load_counted(alloc, input, expected).0
}
