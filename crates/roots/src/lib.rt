// The square root of an f64 and the length of two, worked out from their bits and rounded once, to the nearest, ties to even.
#![tactic(auto)]

pub mod lengths; // lengths.rt: the hypotenuses of many numbers with 1
mod near; // near.rt: a float near a root, and the test that it is the nearest
mod pattern; // pattern.rt: a bit pattern's parts, and a root rounded into a pattern
mod whole; // whole.rt: whole roots
mod wide; // wide.rt: numbers of two limbs

ghost use Rattle.std.specs.Prelude.{◌≡◌, ◌+◌, ◌*◌, ◌^◌, ◌≤◌, ◌<◌};
ghost use Rattle.std.specs.Float.{nan};
ghost use Rattle.laws.proofs.Patterns.{amount};
ghost use Rattle.roots.specs.Root.{root_of, sq};
ghost use Rattle.roots.specs.Inner.{IsFull, IsRootPattern};
ghost use Rattle.roots.specs.Hypot.{hypot_of};

use near::{near_digits, within};
use pattern::{FIELD, INFINITY, SIGN, parts_of, place, short_by};
use whole::{near_root, wide_root};
use wide::Wide;

// The bit pattern of the root of m * 2 ^ (s + 52), in units of the smallest value, rounded: from the whole root.
fn from_whole(m: u64, s: u64) -> u64
    requires { IsFull m × (s ≤ 4000) }
    ensures { IsRootPattern (m * 2 ^ (s + 52)) result }
{
    let r = wide_root(Wide {
        hi: m * (s % 2 + 1),
        lo: 0,
    });
    place(r.root, 0 < r.rem, s / 2)
}

// The same: a float near the root where it is the nearest.
fn scaled(m: u64, s: u64) -> u64
    requires { IsFull m × (s ≤ 4000) }
    ensures { IsRootPattern (m * 2 ^ (s + 52)) result }
{
    let odd = s % 2;
    let wide = Wide {
        hi: m * (odd + 1),
        lo: 0,
    };
    if let Some(f) = near_digits(m, odd) {
        let q = 2 * f + 2 * FIELD;
        if within(q, 2 * q - 1, wide) {
            return (s / 2 + 1) * FIELD + f;
        }
    }
    from_whole(m, s)
}

// The square root, rounded to the nearest value, ties to even.
// Stays: in place of f64::sqrt, since docs/PROMISES.md says that a root is worked out from bits.
pub fn sqrt(x: f64) -> f64
    ensures { result ≡ root_of x }
{
    if x != x {
        return x;
    }
    let b = f64::to_bits(x);
    if b % SIGN == 0 {
        return x;
    }
    if SIGN <= b {
        return f64::NAN;
    }
    if INFINITY <= b {
        return x;
    }
    let p = parts_of(b);
    if p.m < FIELD {
        let by = short_by(p.m);
        return f64::from_bits(from_whole(p.m << by, 1022 - by));
    }
    f64::from_bits(scaled(p.m, p.e + 1022))
}

// The pattern of the root of the sum of two squares, by the patterns of the numbers, the larger first.
pub(crate) fn hypot_bits(a: u64, b: u64) -> u64
    requires { (b ≤ a) × (a < 2047 * 2 ^ 52) }
    ensures { IsRootPattern (sq (amount a) + sq (amount b)) result }
{
    let x = parts_of(a);
    let y = parts_of(b);
    let d = x.e - y.e;
    if 27 <= d {
        return a;
    }
    let n = near_root(2 * x.m, 2 * y.m, d);
    place(n.root, n.more, x.e)
}

// What the length is where the other side is a NaN.
fn beside_nan(y: f64) -> f64
    ensures { result ≡ hypot_of nan y }
{
    if y != y {
        return y;
    }
    if INFINITY <= f64::to_bits(y) % SIGN {
        return f64::INFINITY;
    }
    f64::NAN
}

// The root of the sum of the squares, rounded once.
pub fn hypot(x: f64, y: f64) -> f64
    ensures { result ≡ hypot_of x y }
{
    if x != x {
        return beside_nan(y);
    }
    if y != y {
        return beside_nan(x);
    }
    let a = f64::to_bits(x) % SIGN;
    let b = f64::to_bits(y) % SIGN;
    if INFINITY <= a {
        return f64::INFINITY;
    }
    if INFINITY <= b {
        return f64::INFINITY;
    }
    f64::from_bits(hypot_bits(a.max(b), a.min(b)))
}
