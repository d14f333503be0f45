//! Encoding and decoding by a method.

ghost use Rattle.std.specs.Prelude.{◌≡◌};
ghost use Rattle.pst_encoding.specs.Cyclic.{turns_of};

use crate::cyclic::{all_turns, cycle, cyclic_key};
use crate::method::Method;
use crate::pairs::Pairs;
use crate::permute::{permute, unpermute};
use std::alloc::{AllocError, Global};

/// What the cyclic algorithm makes of each byte, put together once: 65,536 bytes.
#[derive(Drop)]
pub struct Turns {
    table: Vec<u8>,
    ghost made: { table.items ≡ turns_of 65536 },
}

// From how many bytes on what all pairs of bytes become is put together. That pays from about a megabyte on; of so many bytes it
// takes less than a hundredth of the time, also where they turn out not to be decoded.
const MANY: usize = 16_777_216;

// All pairs of bytes, where there are many bytes to decode, and memory is given for that.
fn pairs_for(alloc: Global, len: usize) -> Option<Pairs> {
    if len < MANY {
        return None;
    }
    match Pairs::new(alloc) {
        Ok(pairs) => Some(pairs),
        Err(_) => None,
    }
}

/// A method, ready to encode and decode the bodies of data blocks.
#[derive(Drop)]
pub enum Codec {
    /// Permutation ([MS-PST] 5.1); where there are many bytes to decode, two at a time.
    Permute(Option<Pairs>),
    /// The cyclic algorithm ([MS-PST] 5.2).
    Cyclic(Turns),
}

impl Codec {
    ghost use Rattle.std.specs.Prelude.{◌≡◌, IfOk, IsOk};
    ghost use Rattle.pst_encoding.specs.declared.method.Method.TheVariants.{Permute};
    ghost use Rattle.pst_encoding.specs.Method.{encoded, decoded};
    ghost use Rattle.pst_encoding.specs.Codec.{codec_method};

    /// Makes a method ready, to decode about so many bytes. For the cyclic algorithm 65,536 bytes of memory are taken, and
    /// AllocError comes where they are refused. For permutation 131,072 are taken for 16 MiB and more, and else none; where they
    /// are refused it is done without them, so no error comes.
    pub fn new(alloc: Global, method: Method, len: usize) -> Result<Codec, AllocError>
        ensures method { IfOk result (λ c. codec_method c ≡ method) }
        ensures always { method ≡ Permute → IsOk result }
    {
        match method {
            Method::Permute => Ok(Codec::Permute(pairs_for(alloc, len))),
            Method::Cyclic => {
                let table = all_turns(alloc)?;
                Ok(Codec::Cyclic(Turns { table }))
            }
        }
    }

    /// Encodes the body of the block with an identifier.
    #[tactic(auto, unfolding(crate::specs::Method::encoded))]
    pub fn encode(&self, bid: u64, body: &mut [u8])
        ensures { body.new ≡ encoded (codec_method self.now) bid body.old }
    {
        match self {
            Codec::Permute(_) => permute(body),
            Codec::Cyclic(turns) => cycle(&turns.table, cyclic_key(bid), body),
        }
    }

    /// Decodes the body of the block with an identifier.
    #[tactic(auto, unfolding(crate::specs::Method::decoded))]
    pub fn decode(&self, bid: u64, body: &mut [u8])
        ensures { body.new ≡ decoded (codec_method self.now) bid body.old }
    {
        match self {
            Codec::Permute(Some(pairs)) => pairs.decode(body),
            Codec::Permute(None) => unpermute(body),
            Codec::Cyclic(turns) => cycle(&turns.table, cyclic_key(bid), body),
        }
    }
}
