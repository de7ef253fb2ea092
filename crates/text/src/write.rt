// Tokens written at a position of a run; each answers the position after it, and leaves all other words as they were.
// Internal: a function with a `requires` is called by proved code alone.
// The run and the position are two arguments and no struct: what is proved speaks of both, as `Wrote` does.
ghost use Rattle.std.specs.Prelude.{◌≡◌, ◌++◌, ◌+◌, ◌^◌, ◌<◌, ◌≤◌, length};
ghost use Rattle.text.specs.Print.{Wrote, digits, decimal_length, decimal_text, pattern_text, float_text};
ghost use Rattle.text.specs.Print.{glyph as Print·glyph};

// Writes the bytes `p`.
pub fn write_bytes(out: &mut [u8], at: usize, p: &[u8]) -> usize
    requires { at + length p.now ≤ length out.old }
    ensures { Wrote out.old at p.now result out.new }
{
    out[at..at + p.len()].copy_from_slice(p);
    at + p.len()
}

// The byte of a digit.
fn glyph(d: u64) -> u8
    requires { d < 16 }
    ensures { result ≡ Print·glyph d }
{
    if d < 10 {
        b'0' + d as u8
    } else {
        b'A' - 10 + d as u8
    }
}

// Writes 16 hexadecimal digits, from the last. (Not one with `write_digits` by a const base: a decimal digit needs no
// test for a letter.)
fn write_pattern(out: &mut [u8], at: usize, n: u64)
    requires { at + 16 ≤ length out.old }
    ensures { Wrote out.old at (pattern_text n) (at + 16) out.new }
{
    let mut m = n;
    for i in (0..16).rev() {
        out[at + i] = glyph(m % 16);
        m /= 16;
    }
}

// Writes the last `k` decimal digits of `n`, from the last. The base stands in the code: a division by a number that
// is not known takes several times as long.
pub fn write_digits(out: &mut [u8], at: usize, k: usize, n: u64) -> usize
    requires { at + k ≤ length out.old }
    ensures value { result ≡ at + k }
    ensures wrote { Wrote out.old at (digits 10 k n) result out.new }
{
    let mut m = n;
    for i in (0..k).rev() {
        out[at + i] = b'0' + (m % 10) as u8;
        m /= 10;
    }
    at + k
}

// How many decimal digits a number below 10^10 takes.
fn short_length(n: u64) -> usize
    requires { n < 10 ^ 10 }
    ensures { (result ≡ decimal_length n) × (result ≤ 10) }
{
    if n < 10 {
        1
    } else if n < 100 {
        2
    } else if n < 1_000 {
        3
    } else if n < 10_000 {
        4
    } else if n < 100_000 {
        5
    } else if n < 1_000_000 {
        6
    } else if n < 10_000_000 {
        7
    } else if n < 100_000_000 {
        8
    } else if n < 1_000_000_000 {
        9
    } else {
        10
    }
}

// How many decimal digits `n` takes.
pub fn decimal_length(n: u64) -> usize
    ensures { (result ≡ decimal_length n) × (result ≤ 20) }
{
    if n < 10_000_000_000 {
        short_length(n)
    } else {
        10 + short_length(n / 10_000_000_000)
    }
}

// Writes a decimal number, in no more room than it takes.
pub fn write_decimal(out: &mut [u8], at: usize, n: u64) -> usize
    requires { at + decimal_length n ≤ length out.old }
    ensures value { result ≡ at + decimal_length n }
    ensures wrote { Wrote out.old at (decimal_text n) result out.new }
{
    write_digits(out, at, decimal_length(n), n)
}

// Writes the 16 digits of a float's bits.
pub fn write_float(out: &mut [u8], at: usize, x: f64) -> usize
    requires { at + 16 ≤ length out.old }
    ensures value { result ≡ at + 16 }
    ensures wrote { Wrote out.old at (float_text x) result out.new }
{
    write_pattern(out, at, base::floats::to_pattern(x));
    at + 16
}

// The bytes `p`, and a decimal number.
pub fn write_number(out: &mut [u8], at: usize, p: &[u8], n: u64) -> usize
    requires { at + length p.now + decimal_length n ≤ length out.old }
    ensures value { result ≡ at + length p.now + decimal_length n }
    ensures wrote { Wrote out.old at (p.now ++ decimal_text n) result out.new }
{
    let a = write_bytes(out, at, p);
    write_decimal(out, a, n)
}

// The bytes `p`, and a float. (Not one with `write_number`: a trait of the two types would have to say the text of a
// value and its length, and be no shorter.)
pub fn write_real(out: &mut [u8], at: usize, p: &[u8], x: f64) -> usize
    requires { at + length p.now + 16 ≤ length out.old }
    ensures value { result ≡ at + length p.now + 16 }
    ensures wrote { Wrote out.old at (p.now ++ float_text x) result out.new }
{
    let a = write_bytes(out, at, p);
    write_float(out, a, x)
}
