//! A digest of what was answered.

/// FNV-1a of 64 bits, by Fowler, Noll and Vo, over these bytes.
pub(crate) fn digest(bytes: &[u8]) -> u64 {
    let mut sum = 0xcbf2_9ce4_8422_2325_u64;
    for byte in bytes {
        sum = (sum ^ u64::from(*byte)).wrapping_mul(0x0000_0100_0000_01b3);
    }
    sum
}

// One step of `digest_of_long`.
fn past(sum: u64, word: u64) -> u64 {
    (sum.rotate_left(5) ^ word).wrapping_mul(0x517c_c1b7_2722_0a95)
}

/// FxHash, of Firefox and rustc, over these bytes: eight at a time, and what is left behind them one by one. It takes a tenth
/// of the time of `digest`.
pub(crate) fn digest_of_long(bytes: &[u8]) -> u64 {
    let (words, rest) = bytes.as_chunks::<8>();
    let mut sum = 0_u64;
    for word in words {
        sum = past(sum, u64::from_le_bytes(*word));
    }
    for byte in rest {
        sum = past(sum, u64::from(*byte));
    }
    sum
}
