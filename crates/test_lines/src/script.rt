// The words of a script's line, read as numbers and as floats. The first word is the call's name; a word that is no
// number gives one that nobody asks for.
// Internal: a function with a `requires` is called by proved code alone.
ghost use Rattle.std.specs.Prelude.{◌≤◌, length};

use base::floats::from_pattern;
use density::convention::Convention;

// How many values a word of 32 bits has.
pub const WORD: u64 = 4_294_967_296;

// In place of a number that a line does not have.
pub const NO_WORD: u64 = u64::MAX;

// The value of a digit, 10 to 15 for a letter.
fn digit(b: u8) -> u64 {
    let c = b as u64;
    c % 16 + c / 64 * 9
}

// A number with one more decimal digit.
fn longer(n: u64, b: u8) -> u64 {
    n.wrapping_mul(10).wrapping_add(digit(b))
}

// A call as its line has it: the first and the third letter of its name; its words by their places, n1 the number that
// word 1 is and x2 the float that word 2 is; the layer of a put and the set of layers of a reading.
#[derive(Clone, Copy)]
pub struct Line {
    pub first: u8,
    pub third: u8,
    pub n1: u64,
    pub n2: u64,
    pub n3: u64,
    pub n4: u64,
    pub n5: u64,
    pub x2: f64,
    pub x3: f64,
    pub x4: f64,
    pub x5: f64,
    pub layer: u32,
    pub layers: u32,
}

// Where a byte stands next from a position on; the end where it does not.
pub fn next(s: &[u8], at: usize, b: u8) -> usize
    requires { at ≤ length s.now }
    ensures { (at ≤ result) × (result ≤ length s.now) }
{
    for i in at..s.len() {
        if s[i] == b {
            return i;
        }
    }
    s.len()
}

// Word k of a text, whose first is word 0, as a decimal number.
fn number(s: &[u8], k: u64) -> u64 {
    let mut n = NO_WORD;
    let mut before = k;
    for b in s {
        let b = *b;
        if b == b' ' {
            if before == 0 {
                return n;
            }
            before -= 1;
            n = 0;
        } else if before == 0 {
            n = longer(n, b);
        }
    }
    if before == 0 { n } else { NO_WORD }
}

// Word k of a text as a float by its bits; a colon is no part of a word.
fn value(s: &[u8], k: u64) -> f64 {
    let mut bits: u64 = 0;
    let mut before = k;
    for b in s {
        let b = *b;
        if b == b' ' {
            if before == 0 {
                return from_pattern(bits);
            }
            before -= 1;
        } else if before == 0 && b != b':' {
            bits = bits << 4 | digit(b);
        }
    }
    from_pattern(bits)
}

// The call of a line, with a layer and a set of layers.
fn call_of(s: &[u8], first: u8, third: u8, layer: u32, layers: u32) -> Line {
    let colon = next(s, 0, b':');
    let shown = &s[0..colon];
    Line {
        first,
        third,
        n1: number(shown, 1),
        n2: number(shown, 2),
        n3: number(shown, 3),
        n4: number(shown, 4),
        n5: number(shown, 5),
        x2: value(s, 2),
        x3: value(s, 3),
        x4: value(s, 4),
        x5: value(s, 5),
        layer,
        layers,
    }
}

// The call of a line. A put is into layer 0 and a reading of all sixteen layers, unless the word `in` and a number
// stand before the call.
pub fn line_of(s: &[u8]) -> Line
    requires { 3 ≤ length s.now }
{
    if s[0] == b'i' {
        let at = next(s, 3, b' ');
        if at + 3 < s.len() {
            let layers = (number(s, 1) % WORD) as u32;
            return call_of(&s[at + 1..s.len()], s[at + 1], s[at + 3], layers, layers);
        }
    }
    call_of(s, s[0], s[2], 0, 65535)
}

// A convention by the words that follow its name, of which it has none, one or two.
pub fn convention(first: u64, second: u64, a: f64, b: f64) -> Convention {
    if first == NO_WORD {
        return Convention::Raw;
    }
    if second == NO_WORD {
        return Convention::Rho0(a);
    }
    Convention::Mass(a, b)
}
