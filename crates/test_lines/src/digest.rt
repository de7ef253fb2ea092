// A digest of every word of a run.
use base::floats::to_pattern;

// One more word of a digest.
fn mixed(sum: u64, word: u64) -> u64 {
    (sum.rotate_left(27) ^ word).wrapping_add(0x9e37_79b9_7f4a_7c15)
}

pub fn digest_floats(floats: &[f64]) -> u64 {
    let mut sum: u64 = 0;
    for x in floats {
        sum = mixed(sum, to_pattern(*x));
    }
    sum
}

pub fn digest_words(words: &[u32]) -> u64 {
    let mut sum: u64 = 0;
    for word in words {
        sum = mixed(sum, *word as u64);
    }
    sum
}

// One more byte.
fn mixed_byte(sum: u64, b: u8) -> u64 {
    mixed(sum, b as u64)
}

pub fn digest_bytes(b: &[u8]) -> u64 {
    let mut sum: u64 = 0;
    for b in b {
        sum = mixed_byte(sum, *b);
    }
    sum
}
