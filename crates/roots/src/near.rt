// A float that is most likely the nearest to a root, and the test in whole numbers that it is: a wrong guess costs time, never an answer.
ghost use Rattle.std.specs.Prelude.{◌≡◌, true, IfSome, ℕ, ◌+◌, ◌*◌, ◌^◌, ◌≤◌, ◌<◌};
ghost use Rattle.std.specs.Float.{binary64};
ghost use Rattle.std.specs.Float.Ieee.{of_bits, is_nan};
ghost use Rattle.roots.specs.Root.{root_units, sq};
ghost use Rattle.roots.specs.Inner.{Floor, IsFull, limbs};

use crate::pattern::FIELD;
use crate::wide::{LIMB, Wide, square};

// About 1 / √x for the positive float x of pattern b: half the pattern taken from a constant, and two of Newton's steps, the constants such that the error is least.
pub(crate) fn inverse(x: f64, b: u64) -> f64
    requires { b < 2 ^ 63 }
{
    let r0 = f64::from_bits(6909684111039758336 - b / 2);
    let r1 = 1.68191391 * r0 - 0.703952009 * x * r0 * (r0 * r0);
    1.5000002 * r1 - 0.5 * x * r1 * (r1 * r1)
}

// About √(x + more), from r, about 1 / √x, and the root s in so few digits that its square is exact.
pub(crate) fn refined(x: f64, more: f64, r: f64, s: f64) -> f64 {
    let half = 0.75 * r - 0.25 * x * r * (r * r);
    let v = (x - s * s + more) * half;
    s + (v + v * v * half)
}

// The 52 digits after the first of a float near the root of m or 2 m, and nothing is said of them but how many they are.
// None where all are 0: a power of two has neighbours at two distances.
pub(crate) fn near_digits(m: u64, odd: u64) -> Option<u64>
    requires { IsFull m × (odd ≤ 1) }
    ensures { IfSome result (λ f. (0 < f) × (f < 2 ^ 52)) }
{
    let b = m + (1022 + odd) * FIELD;
    let x = f64::from_bits(b);
    let r = inverse(x, b);
    let h = refined(x, 0.0, r, x * r + 201326592.0 - 201326592.0);
    if h != h {
        return None;
    }
    let f = f64::to_bits(h) % FIELD;
    if f == 0 { None } else { Some(f) }
}

// Whether the square of q is less than g away from n.
pub(crate) fn within(q: u64, g: u64, n: Wide) -> bool
    requires { (q < 2 ^ 55) × (g < 2 ^ 57) }
    ensures { result ≡ true → (sq q < limbs n.hi n.lo + g) × (limbs n.hi n.lo < sq q + g) }
{
    let s = square(q);
    if n.hi + 7 < s.hi {
        return false;
    }
    let d = n.hi + 7 - s.hi;
    if 14 < d {
        return false;
    }
    let over = d * LIMB + n.lo;
    let under = 7 * LIMB + s.lo;
    (under < over + g) & (over < under + g)
}

// Whether c is the pattern of the value nearest to the root of a number that is n times (2 ^ e) ^ 2, or less than one (2 ^ e) ^ 2 more.
// Past `first`, the pattern of 2 ^ 52 * by * 2 ^ e, patterns count by that `by`, 1 or 2, times 2 ^ e up to twice that value. `first` itself has neighbours at two distances: no.
#[inline(always)]
pub(crate) fn nearest_by(by: u64, c: u64, e: u64, n: Wide) -> bool
    requires { (1 ≤ by) × (by ≤ 2) × (e ≤ 2000) × (n.hi < 2 ^ 55) }
    ensures { result ≡ true → (c < (e + 3) * 2 ^ 52) × ((k : ℕ) → Floor k (sq (2 ^ e)) (limbs n.hi n.lo) → of_bits binary64 c ≡ root_units k) }
{
    let first = (e + by) * FIELD;
    if c <= first {
        return false;
    }
    let v = c - first + FIELD;
    if 2 * FIELD <= v {
        return false;
    }
    within(by * v, by * by * v - 1, n)
}
