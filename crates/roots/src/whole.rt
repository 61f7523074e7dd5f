// Whole roots: of one limb digit by digit, and of two limbs from a guess by floats that is checked exactly.
ghost use Rattle.std.specs.Prelude.{◌+◌, ◌*◌, ◌^◌, ◌≤◌, ◌<◌, suc};
ghost use Rattle.roots.specs.Root.{sq};
ghost use Rattle.roots.specs.Inner.{RootPair, Between, limbs};

use crate::pattern::{FIELD, SIGN};
use crate::wide::{Wide, excess, joined, square};

// A whole root and what is left: n = root * root + rem.
#[derive(Clone, Copy)]
pub(crate) struct Root {
    pub(crate) root: u64,
    pub(crate) rem: u64,
}

// The root of a number that has the base-4 digits of `s`'s number and then the `pairs` digits of `word`, highest first.
fn digits(s: Root, word: u64, pairs: u64) -> Root
    requires { (s.rem ≤ 2 * s.root) × (suc s.root * 2 ^ pairs ≤ 2 ^ 60) × (word < 2 ^ (pairs * 2)) × (pairs ≤ 32) }
    ensures { RootPair ((sq s.root + s.rem) * 2 ^ (pairs * 2) + word) result.root result.rem }
{
    let mut root = s.root;
    let mut rem = s.rem;
    for left in (0..pairs).rev() {
        let next = rem * 4 + (word >> (left * 2)) % 4;
        let trial = root * 4 + 1;
        if next < trial {
            root = root * 2;
            rem = next;
        } else {
            root = root * 2 + 1;
            rem = next - trial;
        }
    }
    Root { root, rem }
}

// A guess at the root of hi * 2 ^ 54, some 16 too small: by floats, from a first guess at 1 / √x that halves the exponent, and nothing is said of it but its size.
// The last sum brings it to the numbers from 2 ^ 55 on, whose patterns count by 8; so the digits of the pattern are the guess, and no test is needed.
fn guess(hi: u64) -> u64
    requires { hi < 2 ^ 56 }
    ensures { result < 2 ^ 55 }
{
    let x = (hi / 8) as f64;
    let half = 0.5 * x;
    let r0 = f64::from_bits(6910469410427058089 - f64::to_bits(x) % SIGN / 2);
    let r1 = 1.5 * r0 - half * r0 * (r0 * r0);
    let r2 = 1.5 * r1 - half * r1 * (r1 * r1);
    let r3 = 1.5 * r2 - half * r2 * (r2 * r2);
    let s = x * r3;
    let y = (s * 379625062.497006236 + 36028797018963952.0)
        + r3 * 189812531.248503118 * (x - s * s);
    if y != y {
        return 0;
    }
    f64::to_bits(y) % FIELD * 8
}

// From a number g and what is left of n = g * g + r, up to the whole root of n.
fn climb(g: u64, r: u64) -> Root
    requires { (g < 2 ^ 56) × (r < 2 ^ 62) }
    ensures { RootPair (sq g + r) result.root result.rem }
{
    let mut root = g;
    let mut rem = r;
    while 2 * root < rem {
        rem -= 2 * root + 1;
        root += 1;
    }
    Root { root, rem }
}

// The whole root, digit by digit.
fn slow_wide_root(n: Wide) -> Root
    ensures { RootPair (limbs n.hi n.lo) result.root result.rem }
{
    let high = digits(Root { root: 0, rem: 0 }, n.hi, 28);
    digits(high, n.lo, 27)
}

// The whole root: from a guess that is not too large, almost there at once by a short division, and upward; else digit by digit.
pub(crate) fn wide_root(n: Wide) -> Root
    ensures { RootPair (limbs n.hi n.lo) result.root result.rem }
{
    let g = guess(n.hi);
    if let Some(rem) = excess(n, square(g)) {
        let c = (rem >> 40) / ((g >> 39) + 2);
        if c <= 64 {
            return climb(g + c, rem - c * (2 * g + c));
        }
    }
    slow_wide_root(n)
}

// A whole root, and whether the number is above its square.
#[derive(Clone, Copy)]
pub(crate) struct Near {
    pub(crate) root: u64,
    pub(crate) more: bool,
}

// The whole root of (a * 2 ^ d) ^ 2 + b ^ 2, less its last d digits.
pub(crate) fn near_root(a: u64, b: u64, d: u64) -> Near
    requires { (a < 2 ^ 54) × (b < 2 ^ 54) × (d ≤ 26) }
    ensures { (result.root < 2 ^ 55) × Between (sq a * 2 ^ (d * 2) + sq b) (2 ^ (d * 2)) result.root result.more }
{
    let t = joined(a, b, d);
    let r = wide_root(t.kept);
    Near {
        root: r.root,
        more: 0 < r.rem + t.off,
    }
}
