// exp and ln of binary64 by fixed rounded steps (docs/ELEMENTARY.md).
#![tactic(auto)]

ghost use Rattle.std.specs.Prelude.{◌≡◌, ◌<◌, ◌≤◌, not, T, is_nan};
ghost use Rattle.std.specs.Float.Ieee.{lt};
ghost use Rattle.exponent.specs.Steps.{c746, corrected_of};
ghost use Rattle.exponent.specs.Exp.{edge, horner_of, fourth_of, lack_of, kernel_of, turns_of, rest_of, rest_low_of, pow2_of, grown_of, shrunk_of, exp_of};
ghost use Rattle.exponent.specs.Ln.{tail_of, fifth_of, ln_from, joined_of, mantissa_of, normal_of, ln_of};

// ln 2 in two parts: the product of the first with a whole number up to 2 ^ 21 is exact.
const LN2_HIGH: f64 = 0.6931471803691238;

const LN2_LOW: f64 = 1.9082149292705877e-10;

// 1.5 * 2 ^ 34: a small number added to it and less it is rounded to whole multiples of 2 ^ -18.
const GRID: f64 = 25769803776.0;

// What 1 in the exponent's field of a bit pattern counts.
const FIELD: u64 = 1 << 52;

// h with its correction c, where that is no larger than g.
fn corrected(h: f64, c: f64, g: f64) -> f64
    ensures { result ≡ corrected_of h c g }
{
    if c <= g {
        if -g <= c {
            return h + c;
        }
    }
    h
}

// e becomes 1 + x / k * e, n times, with k = from, from - 1, ..
fn horner(x: f64, start: f64, from: u32, n: u32) -> f64
    requires { n ≤ from }
    ensures { result ≡ horner_of x from n start }
{
    let mut e = start;
    for j in 0..n {
        e = 1.0 + x / ((from - j) as f64) * e;
    }
    e
}

// The series from x^4/24 on, and what x - t adds to the terms before.
fn fourth(x: f64, t: f64, q: f64) -> f64
    ensures { result ≡ fourth_of x t q }
{
    (x - t) * (1.0 + ((x + t) / 2.0 + (x * x + x * t + t * t) / 6.0)) + x * x * (x * x) * q / 24.0
}

// What h lacks of e ^ (x + y).
fn lack(x: f64, y: f64, q: f64, h: f64) -> f64
    ensures { result ≡ lack_of x y q h }
{
    let t = GRID + x - GRID;
    1.0 + (t + 0.5 * t * t) - h + t * t * t / 6.0 + (fourth(x, t, q) + y * h)
}

// e ^ (x + y), for an x of size 0.3467 at most and a y of half a last digit of x.
fn kernel(x: f64, y: f64) -> f64
    ensures { result ≡ kernel_of x y }
{
    let q = horner(x, 1.0, 18, 14);
    let h = horner(x, q, 4, 4);
    corrected(h, lack(x, y, q, h), h * 2.220446049250313e-16)
}

// 2 ^ (b - 1023).
fn pow2(b: u64) -> f64
    requires { b < 2047 }
    ensures { result ≡ pow2_of b }
{
    f64::from_bits(b * FIELD)
}

// A number from 0.3466 to 746.
#[derive(Clone, Copy)]
struct Large {
    size: f64,
    ghost above_edge: { T (lt edge size) },
    ghost at_most_746: { T (not (lt c746 size)) },
}

// A number with so many times ln 2 taken off, and what the last rounding there took away.
#[derive(Clone, Copy)]
struct Reduced {
    turns: u64,
    rest: f64,
    low: f64,
    ghost few: { turns ≤ 1100 },
}

impl Large {
    // How many times ln 2 goes into it.
    fn turns(self) -> u64
        ensures { result ≡ turns_of self.size }
    {
        std::num::truncating_f64_to_u64(self.size * 1.4426950408889634 + 0.5)
    }

    fn reduced(self) -> Reduced
        ensures turns { result.turns ≡ turns_of self.size }
        ensures rest { result.rest ≡ rest_of self.size (turns_of self.size) }
        ensures low { result.low ≡ rest_low_of self.size (turns_of self.size) }
    {
        let turns = self.turns();
        let h = std::num::nearest_u64_to_f64(turns);
        let high = self.size - h * LN2_HIGH;
        let rest = high - h * LN2_LOW;
        Reduced {
            turns,
            rest,
            low: high - rest - h * LN2_LOW,
        }
    }

    // e ^ size.
    fn grown(self) -> f64
        ensures { result ≡ grown_of self.size }
    {
        let r = self.reduced();
        let n = r.turns;
        let h = n / 2;
        let e = kernel(r.rest, r.low);
        e * pow2(1023 + h) * pow2(1023 + (n - h))
    }

    // e ^ -size.
    // Stays: for one function of both, a sign would be tested at each of its four places.
    fn shrunk(self) -> f64
        ensures { result ≡ shrunk_of self.size }
    {
        let r = self.reduced();
        let n = r.turns;
        let h = n / 2;
        let e = kernel(-r.rest, -r.low);
        e * pow2(1023 - h) * pow2(1023 - (n - h))
    }
}

// e ^ x.
pub fn exp(x: f64) -> f64
    ensures { result ≡ exp_of x }
{
    if x != x {
        return x;
    }
    if x > 710.0 {
        return f64::INFINITY;
    }
    if x < -746.0 {
        return 0.0;
    }
    if x > 0.3466 {
        return Large { size: x }.grown();
    }
    if x < -0.3466 {
        return Large { size: -x }.shrunk();
    }
    kernel(x, 0.0)
}

// 2/5 z + 2/7 z^2 + .. + 2/25 z^11.
fn tail(z: f64) -> f64
    ensures { result ≡ tail_of z }
{
    let mut p = 0.0;
    for j in 0..11u32 {
        p = (p + 2.0 / ((25 - 2 * j) as f64)) * z;
    }
    p
}

// 2/5 s^5 + 2/7 s^7 + .., and what b adds to 2/3 t^3, for s = t + b.
fn fifth(s: f64, t: f64, b: f64, p: f64) -> f64
    ensures { result ≡ fifth_of s t b p }
{
    b * (s * s + s * t + t * t) * 2.0 / 3.0 + s * (s * s) * p
}

// high + head + cube + low, with what the roundings of the first two sums take away.
fn total(high: f64, head: f64, cube: f64, low: f64) -> f64
    ensures { result ≡ ln_from high head cube low }
{
    let sum = high + head;
    let all = sum + cube;
    all + (sum - all + cube + (high - sum + head + low))
}

// k ln 2 + ln m.
fn joined(k: f64, m: f64) -> f64
    ensures { result ≡ joined_of k m }
{
    let f = m - 1.0;
    let s = f / (2.0 + f);
    let p = tail(s * s);
    let t = GRID + s - GRID;
    let g = 196608.0 + f - 196608.0;
    let w = t * (f - g);
    let b = (f - (t + t) - t * g - w) / (2.0 + f);
    let low = k * LN2_LOW + (fifth(s, t, b, p) - (w + b * f));
    total(k * LN2_HIGH, f - t * g, 2.0 * (t * t * t) / 3.0, low)
}

// The digits of a bit pattern, as a number from 1 to 2.
fn digits(b: u64) -> f64
    ensures { result ≡ mantissa_of b }
{
    f64::from_bits(1023 * FIELD + b % FIELD)
}

// ln (y * 2 ^ (1023 - down)), for a y that is no NaN.
fn normal(y: f64, down: f64) -> f64
    requires { T (not (is_nan y)) }
    ensures { result ≡ normal_of y down }
{
    let b = f64::to_bits(y);
    let e = b / FIELD;
    let m = digits(b);
    if m > 1.4142135623730951 {
        return joined(std::num::nearest_u64_to_f64(e + 1) - down, m * 0.5);
    }
    joined(std::num::nearest_u64_to_f64(e) - down, m)
}

// The natural logarithm.
pub fn ln(x: f64) -> f64
    ensures { result ≡ ln_of x }
{
    if x != x {
        return x;
    }
    if x < 0.0 {
        return f64::NAN;
    }
    if x == 0.0 {
        return f64::NEG_INFINITY;
    }
    if x == f64::INFINITY {
        return x;
    }
    if x < 2.2250738585072014e-308 {
        return normal(x * 18014398509481984.0, 1077.0);
    }
    normal(x, 1023.0)
}
