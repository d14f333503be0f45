//! The word that names a node.

ghost use Rattle.std.specs.Prelude.{◌≡◌, ◌≤◌, ◌<◌, ◌*◌, ◌^◌, IfSome, length};
ghost use Rattle.pst_ask.specs.Nid.{hex_number_in, nid_of_word};

/// The number that up to eight hexadecimal digits write; None where one is none.
#[tactic(auto, using(crate::proofs::NidLemmas::digits_fit, crate::proofs::NidLemmas::digits_grow, crate::proofs::NidLemmas::number_next, crate::proofs::NidLemmas::good_next))]
pub(crate) fn number_of(digits: &[u8]) -> Option<u32>
    requires { length digits.now ≤ 8 }
    ensures is { result ≡ hex_number_in digits.now }
    ensures fits { IfSome result (λ n. n < 2 ^ (4 * length digits.now)) }
{
    let mut number: u64 = 0;
    for digit in digits {
        let value = char::from(*digit).to_digit(16)?;
        number = number * 16 + u64::from(value);
    }
    Some(number as u32)
}

/// The identifier of a node that a word writes: `0x`, and one to eight hexadecimal digits of either case. None for any other
/// word.
#[tactic(auto, unfolding(crate::specs::Nid::nid_of_word))]
pub fn read_nid(word: &str) -> Option<u32>
    ensures { result ≡ nid_of_word word.now }
{
    let bytes = word.as_bytes();
    if bytes.len() < 3 || bytes.len() > 10 || bytes[0] != b'0' || bytes[1] != b'x' {
        return None;
    }
    number_of(&bytes[2..])
}
