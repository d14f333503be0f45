//! Flags as the bits of words of 64.

ghost use Rattle.std.specs.Prelude.{◌≡◌, ℕ, ◌+◌, ◌-◌, ◌*◌, ◌/◌, ◌%◌, ◌^◌, ◌<◌, ◌≤◌, length, nat_eq};
ghost use Rattle.std.specs.Int.{bit_at};
ghost use Rattle.pst_space.specs.Flags.{flag_in, clear_in, with_flags};

/// The flag of a unit.
#[tactic(auto, unfolding(crate::specs::Flags::flag_in))]
pub fn is_set(words: &[u64], unit: usize) -> bool
    requires { unit / 64 < length words.now }
    ensures { result ≡ flag_in words.now unit }
{
    (words[unit / 64] >> (unit % 64)) % 2 == 1
}

/// The flags of eight units from a multiple of 8 on, that of the first as the least significant bit.
#[tactic(auto, using(crate::proofs::FlagLemmas::flag_of_eight))]
pub fn eight(words: &[u64], unit: usize) -> u8
    requires whole { unit % 8 ≡ 0 }
    requires inside { unit / 64 < length words.now }
    ensures { (i : ℕ) → i < 8 → nat_eq (bit_at result i) 1 ≡ flag_in words.now (unit + i) }
{
    ((words[unit / 64] >> (unit % 64)) % 256) as u8
}

// How many of so many units from one on lie in its word.
fn in_word(unit: usize, left: usize) -> usize
    requires { 0 < left }
    ensures some { (0 < result) × (result ≤ left) }
    ensures word { unit % 64 + result ≤ 64 }
{
    left.min(64 - unit % 64)
}

// So many bits of a word from one on.
#[tactic(auto, using(crate::proofs::WordLemmas::mask_is))]
fn mask(first: usize, count: usize) -> u64
    requires { (0 < count) × (first + count ≤ 64) }
    ensures { result ≡ 2 ^ (first + count) - 2 ^ first }
{
    (u64::MAX >> (64 - count)) << first
}

// Whether no flag is set of so many units of one word.
#[tactic(auto, using(crate::proofs::WordLemmas::clear_in_word))]
fn is_clear_in_word(words: &[u64], unit: usize, count: usize) -> bool
    requires inside { unit / 64 < length words.now }
    requires word { (0 < count) × (unit % 64 + count ≤ 64) }
    ensures { result ≡ clear_in words.now unit count }
{
    words[unit / 64] & mask(unit % 64, count) == 0
}

// Sets the flags of so many units of one word.
#[tactic(auto, using(crate::proofs::WordLemmas::with_flags_word))]
fn fill_in_word(words: &mut [u64], unit: usize, count: usize)
    requires inside { unit / 64 < length words.old }
    requires word { (0 < count) × (unit % 64 + count ≤ 64) }
    ensures { words.new ≡ with_flags words.old unit count }
{
    words[unit / 64] |= mask(unit % 64, count);
}

/// Whether no flag is set of so many units from one on.
#[tactic(auto, using(crate::proofs::WordLemmas::clear_in_more, crate::proofs::WordLemmas::clear_in_less, crate::proofs::FlagLemmas::clear_in_end))]
pub fn is_clear(words: &[u64], first: usize, count: usize) -> bool
    requires room { first + count ≤ 64 * length words.now }
    requires fits { first + count < 2 ^ 64 }
    ensures { result ≡ clear_in words.now first count }
{
    let mut done = 0;
    while done < count {
        let next = in_word(first + done, count - done);
        if !is_clear_in_word(words, first + done, next) {
            return false;
        }
        done += next;
    }
    true
}

/// Sets the flags of so many units from one on.
#[tactic(auto, using(crate::proofs::WordLemmas::with_flags_more, crate::proofs::FlagLemmas::with_flags_end))]
pub fn fill(words: &mut [u64], first: usize, count: usize)
    requires room { first + count ≤ 64 * length words.old }
    requires fits { first + count < 2 ^ 64 }
    ensures { words.new ≡ with_flags words.old first count }
{
    let mut done = 0;
    while done < count {
        let next = in_word(first + done, count - done);
        fill_in_word(words, first + done, next);
        done += next;
    }
}
