// The hypotenuses of many numbers with 1: floats near them first, which the machine works out side by side, then the test of each.
ghost use Rattle.std.specs.Prelude.{◌≡◌, not, T, ℕ, ◌+◌, ◌*◌, ◌^◌, ◌≤◌, ◌<◌, Float};
ghost use Rattle.std.specs.Float.Ieee.{is_nan};
ghost use Rattle.laws.specs.Floats.{one, at};
ghost use Rattle.laws.specs.Room.{filled_on};
ghost use Rattle.laws.proofs.Patterns.{amount};
ghost use Rattle.roots.specs.Root.{sq};
ghost use Rattle.roots.specs.Inner.{IsRootPattern};
ghost use Rattle.roots.specs.Hypot.{hypot_of, with_one_of};

use crate::near::{inverse, nearest_by, refined};
use crate::pattern::{INFINITY, ONE, SIGN, parts_of};
use crate::wide::joined;

// 2 ^ 27 + 1: c = SPLIT * y gives in c - (c - y) the upper half of the digits of y.
const SPLIT: f64 = 134217729.0;

// A number that is none becomes 1, so that its bits may be asked for.
fn numbered(x: f64) -> f64
    ensures { T (not (is_nan result)) }
{
    if x != x {
        return 1.0;
    }
    x
}

// About √(y² + 1), most likely the nearest: y² and the sum with what their roundings lost. Nothing is said of it.
fn guess(y: f64) -> f64 {
    let p = y * y;
    let c = SPLIT * y;
    let top = c - (c - y);
    let low = y - top;
    let lost = top * top - p + (top + top) * low + low * low;
    let x = numbered(p + 1.0);
    let t = x - p;
    let r = inverse(x, f64::to_bits(x) % SIGN);
    let s = x * r;
    let k = SPLIT * s;
    refined(x, p - (x - t) + (1.0 - t) + lost, r, k - (k - s))
}

fn guesses(ys: &[f64; 256], n: usize, hs: &mut [f64; 256])
    requires { n ≤ 256 }
    ensures { (v : ℕ → Float) → filled_on n v hs.new ≡ filled_on n v hs.old }
{
    // Stays: after iter_mut().zip(ys), over hs[..n] or with take(n), the proof has no name for the list that `returns` speaks of.
    for i in 0..n {
        hs[i] = guess(ys[i]);
    }
}

// The pattern of the length of two numbers by their patterns, the larger first: c where it is that, else worked out.
// Inlined, so that what is known of 1 is worked out at compile time: a row of lengths takes 40 instructions a number more without.
#[inline(always)]
fn from_pattern(a: u64, b: u64, c: u64) -> u64
    requires { (b ≤ a) × (a < 2047 * 2 ^ 52) × (1023 * 2 ^ 52 ≤ a) × (b ≤ 1023 * 2 ^ 52) }
    ensures { IsRootPattern (sq (amount a) + sq (amount b)) result }
{
    let x = parts_of(a);
    let y = parts_of(b);
    let d = x.e - y.e;
    if 27 <= d {
        return a;
    }
    let t = joined(x.m, y.m, d);
    if nearest_by(1, c, x.e, t.kept) || nearest_by(2, c, x.e, t.kept) {
        return c;
    }
    crate::hypot_bits(a, b)
}

// The hypotenuse of y with 1: the guess where it is that, else worked out.
fn from_guess(y: f64, guess: f64) -> f64
    ensures { result ≡ hypot_of y one }
{
    if y != y {
        return crate::hypot(y, 1.0);
    }
    if guess != guess {
        return crate::hypot(y, 1.0);
    }
    let a = f64::to_bits(y) % SIGN;
    if INFINITY <= a {
        return crate::hypot(y, 1.0);
    }
    let c = f64::to_bits(guess);
    if a < ONE {
        return f64::from_bits(from_pattern(ONE, a, c));
    }
    f64::from_bits(from_pattern(a, ONE, c))
}

fn from_guesses(ys: &[f64; 256], n: usize, hs: &mut [f64; 256])
    requires { n ≤ 256 }
    ensures { hs.new ≡ filled_on n (λ i. hypot_of (at ys.now i) one) hs.old }
{
    // Stays: as in `guesses`.
    for i in 0..n {
        hs[i] = from_guess(ys[i], hs[i]);
    }
}

// The hypotenuses with 1 of the first n numbers, each in its place; over 256 nothing is written.
pub fn with_one(ys: &[f64; 256], n: usize, hs: &mut [f64; 256])
    ensures { hs.new ≡ with_one_of ys.now n hs.old }
{
    if n <= 256 {
        guesses(ys, n, hs);
        from_guesses(ys, n, hs);
    }
}
