// Tokens at a position of a slice. Where one does not stand the position answered is one past the end, at which no
// token stands: so a line's tokens are read one after the other, and its end alone is looked at. (No `Option`: the
// definitions read on in a text that is lost, and so does the code. With one each token would have its `?`, and a
// choice of two forms a closure, for the same clauses.)
ghost use Rattle.std.specs.Prelude.{◌≡◌, true, ◌+◌, ◌-◌, ◌^◌, ◌/◌, ◌*◌, ◌<◌, ◌≤◌, ltb, leb, length, drop};
ghost use Rattle.text.specs.Text.{rest, got, lost, literal, digit, pattern, float, decimal_from, decimal};
ghost use Rattle.text.specs.Form.{or, followed_by};
ghost use Rattle.text.specs.TextLaws.{hexes};

// A value that was read, and the position after it.
#[derive(Clone, Copy)]
pub struct Read<T> {
    pub value: T,
    pub at: usize,
}

impl<T: Drop> Read<T> {
    // The first of two where it stands, else the second.
    #[tactic(auto, using(crate::specs::FormLaws::first_is, crate::specs::FormLaws::second_is))]
    pub fn or(self, other: Read<T>, s: &[u8]) -> Read<T>
        ensures { got s.now result.value result.at
            ≡ or (got s.now self.value self.at) (got s.now other.value other.at) }
    {
        if self.at <= s.len() { self } else { other }
    }

    // The value, and the position after the bytes `p`, which are to follow it.
    pub fn then(self, s: &[u8], p: &[u8]) -> Read<T>
        ensures { got s.now result.value result.at
            ≡ followed_by p.now (got s.now self.value self.at) }
    {
        Read {
            value: self.value,
            at: read_bytes(s, self.at, p),
        }
    }
}

// What is answered where a token does not stand: a value of no meaning, and one past the end.
fn nowhere<T>(s: &[u8], value: T) -> Read<T>
    ensures value { result.value ≡ value }
    ensures at_value { rest s.now result.at ≡ lost }
{
    Read {
        value,
        at: s.len() + 1,
    }
}

// The position after the bytes `p`, which are to stand at `at`.
pub fn read_bytes(s: &[u8], at: usize, p: &[u8]) -> usize
    ensures { rest s.now result ≡ literal p.now (rest s.now at) }
{
    if at <= s.len() && s[at..].starts_with(p) {
        at + p.len()
    } else {
        s.len() + 1
    }
}

// Whether a byte is a digit, of which those from 10 on are upper-case letters.
fn is_digit(b: u8) -> bool
    ensures { result ≡ ltb (digit b) 16 }
{
    ((b >= b'0') & (b <= b'9')) | ((b >= b'A') & (b <= b'F'))
}

// The value of a digit: its low four bits, and 9 more for a letter.
fn digit_of(b: u8) -> u64
    requires { digit b < 16 }
    ensures { result ≡ digit b }
{
    let n = b as u64;
    n % 16 + 9 * (n / 64)
}

// Whether sixteen upper-case hexadecimal digits stand at `at`. All are looked at before any is refused: a branch
// on each byte takes three times as long.
fn has_pattern(s: &[u8], at: usize) -> bool
    ensures { result ≡ hexes 16 (rest s.now at) }
{
    if at > s.len() || s.len() - at < 16 {
        return false;
    }
    let mut all = true;
    for b in &s[at..at + 16] {
        all &= is_digit(*b);
    }
    all
}

// The number that the sixteen digits at `at` make.
fn pattern_at(s: &[u8], at: usize) -> u64
    requires { (at + 16 ≤ length s.now) × (hexes 16 (rest s.now at) ≡ true) }
    ensures { got s.now result (at + 16) ≡ pattern (rest s.now at) }
{
    let mut v: u64 = 0;
    for b in &s[at..at + 16] {
        v = v * 16 + digit_of(*b);
    }
    v
}

// A float by its bits: sixteen upper-case hexadecimal digits.
pub fn read_float(s: &[u8], at: usize) -> Read<f64>
    ensures { got s.now result.value result.at ≡ float (rest s.now at) }
{
    if has_pattern(s, at) {
        Read {
            value: base::floats::from_pattern(pattern_at(s, at)),
            at: at + 16,
        }
    } else {
        nowhere(s, 0.0)
    }
}

// The position after a float, which is not worked out.
pub fn skip_float(s: &[u8], at: usize) -> usize
    ensures { rest s.now result ≡ (float (rest s.now at)).text }
{
    if has_pattern(s, at) {
        at + 16
    } else {
        s.len() + 1
    }
}

// Whether one digit more leaves a number within `most`. Below a tenth of `most`, which is worked out once for a
// number, any digit does: the division is for what is left.
fn has_room(v: u64, d: u64, most: u64, tenth: u64) -> bool
    requires { (d < 10) × (9 ≤ most) × (tenth ≡ most / 10) }
    ensures { result ≡ leb (v * 10 + d) most }
{
    v < tenth || v <= (most - d) / 10
}

// The value of a decimal digit.
fn decimal_of(b: u8) -> u64
    requires { digit b < 10 }
    ensures { result ≡ digit b }
{
    (b - b'0') as u64
}

// Whether a byte is a decimal digit.
fn is_decimal(b: u8) -> bool
    ensures { result ≡ ltb (digit b) 10 }
{
    b.is_ascii_digit()
}

// The decimal digits after those that make `first`. (By index: the position of the byte after them is answered.)
fn read_digits(s: &[u8], at: usize, first: u64, most: u64) -> Read<u64>
    requires { (at ≤ length s.now) × (9 ≤ most) × (first ≤ most) }
    ensures at_value { got s.now result.value result.at ≡ decimal_from most first (drop at s.now) }
    ensures value_le_most { result.value ≤ most }
{
    let tenth = most / 10;
    let mut value = first;
    for k in at..s.len() {
        if !is_decimal(s[k]) {
            return Read { value, at: k };
        }
        let d = decimal_of(s[k]);
        if !has_room(value, d, most, tenth) {
            return nowhere(s, 0);
        }
        value = value * 10 + d;
    }
    Read { value, at: s.len() }
}

// A decimal number up to `most`, without leading zeros.
fn read_decimal(s: &[u8], at: usize, most: u64) -> Read<u64>
    requires { 9 ≤ most }
    ensures at_value { got s.now result.value result.at ≡ decimal most (rest s.now at) }
    ensures value_le_most { result.value ≤ most }
{
    if at >= s.len() || !is_decimal(s[at]) {
        return nowhere(s, 0);
    }
    let d = decimal_of(s[at]);
    if d == 0 {
        return Read {
            value: 0,
            at: at + 1,
        };
    }
    read_digits(s, at + 1, d, most)
}

// A decimal number of 64 bits.
pub fn read_u64(s: &[u8], at: usize) -> Read<u64>
    ensures { got s.now result.value result.at ≡ decimal (2 ^ 64 - 1) (rest s.now at) }
{
    read_decimal(s, at, u64::MAX)
}

// A decimal number of 32 bits.
pub fn read_u32(s: &[u8], at: usize) -> Read<u32>
    ensures { got s.now result.value result.at ≡ decimal (2 ^ 32 - 1) (rest s.now at) }
{
    let n = read_decimal(s, at, u32::MAX as u64);
    Read {
        value: n.value as u32,
        at: n.at,
    }
}
