// Choices without a jump, tests on floats, floats as their bits, and numbers out of bytes. Every function answers on every input.
#![tactic(auto)]

ghost use Rattle.std.specs.Prelude.{◌≡◌, cond, ◌<◌, get_or};
ghost use Rattle.std.specs.Float.Ieee.{lt, of_bits, to_bits};
ghost use Rattle.std.specs.Float.{binary64};
ghost use Rattle.laws.specs.Floats.{abs_of, unsigned_of, finite, positive, min_of, max_of};
ghost use Rattle.bits.specs.Bytes.{u32_at, u64_at};

// a where c holds, else b. Both are worked out, so that no jump is needed.
pub fn pick<T: Copy>(c: bool, a: T, b: T) -> T
    ensures { result ≡ cond c a b }
{
    if c { a } else { b }
}

// |x|, but for -0, which stays.
pub fn unsigned(x: f64) -> f64
    ensures { result ≡ unsigned_of x }
{
    if x < 0.0 { -x } else { x }
}

// |x|: two tests one after the other, so that each compiles to a choice and not to a jump.
pub fn magnitude(x: f64) -> f64
    ensures { result ≡ abs_of x }
{
    let y = unsigned(x);
    if y == 0.0 { 0.0 } else { y }
}

// Whether x is neither NaN nor an infinity.
pub fn is_finite(x: f64) -> bool
    ensures { result ≡ finite x }
{
    (x < f64::INFINITY) & (f64::NEG_INFINITY < x)
}

// Finite and above zero.
pub fn is_positive(x: f64) -> bool
    ensures { result ≡ positive x }
{
    is_finite(x) & (0.0 < x)
}

// Rust's f64::min: a NaN is passed over.
pub fn min(a: f64, b: f64) -> f64
    ensures { result ≡ min_of a b }
{
    pick((b < a) | (a != a), b, a)
}

// Rust's f64::max: a NaN is passed over.
pub fn max(a: f64, b: f64) -> f64
    ensures { result ≡ max_of a b }
{
    pick((a < b) | (a != a), b, a)
}

// Rust's max where a is no NaN: one test less.
pub fn larger(a: f64, b: f64) -> f64
    ensures { result ≡ cond (lt a b) b a }
{
    pick(a < b, b, a)
}

// The bits of a float; every NaN gives 7ff8000000000000.
pub fn bits_of(x: f64) -> u64
    ensures { result ≡ to_bits binary64 x }
{
    if x != x {
        return 0x7ff8_0000_0000_0000;
    }
    f64::to_bits(x)
}

// The float whose bits these are; every NaN pattern gives NaN.
pub fn f64_of(bits: u64) -> f64
    ensures { result ≡ of_bits binary64 bits }
{
    if 0x7ff0_0000_0000_0000 < bits % 0x8000_0000_0000_0000 {
        return f64::NAN;
    }
    f64::from_bits(bits)
}

// The byte at an index, or 0 past the end.
fn byte_at(s: &[u8], at: usize) -> u64
    ensures value { result ≡ get_or s.now at 0 }
    ensures upper_bound { result < 256 }
{
    s.get(at).copied().unwrap_or(0) as u64
}

// The four bytes from an index, the low byte first.
pub fn u32_at(s: &[u8], at: usize) -> u64
    ensures value { result ≡ u32_at s.now at }
    ensures upper_bound { result < 4294967296 }
{
    if s.len() <= at {
        return 0;
    }
    byte_at(s, at)
        + 256 * byte_at(s, at + 1)
        + 65536 * byte_at(s, at + 2)
        + 16777216 * byte_at(s, at + 3)
}

// The eight bytes from an index, the low byte first.
pub fn u64_at(s: &[u8], at: usize) -> u64
    ensures { result ≡ u64_at s.now at }
{
    if s.len() <= at {
        return 0;
    }
    u32_at(s, at) + 4294967296 * u32_at(s, at + 4)
}
