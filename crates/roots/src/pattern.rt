// Bit patterns with the sign clear: taken apart into a significand and an exponent, and a root rounded into one.
ghost use Rattle.std.specs.Prelude.{◌≡◌, ◌⊎◌, ℕ, ◌+◌, ◌*◌, ◌^◌, ◌≤◌, ◌<◌};
ghost use Rattle.std.specs.Float.{binary64};
ghost use Rattle.std.specs.Float.Ieee.{of_bits};
ghost use Rattle.laws.proofs.Patterns.{mant_of, expo_of};
ghost use Rattle.roots.specs.Root.{root_units, sq};
ghost use Rattle.roots.specs.Inner.{Between, IsFull};

use crate::wide::LIMB;

// What 1 in the exponent's field counts, and the first digit of a significand, which the pattern leaves out; the sign; and the patterns of 1 and of infinity.
pub(crate) const FIELD: u64 = 1 << 52;

pub(crate) const SIGN: u64 = 1 << 63;

pub(crate) const ONE: u64 = 1023 * FIELD;

pub(crate) const INFINITY: u64 = 2047 * FIELD;

// The significand of a pattern with the sign clear, and its exponent from the smallest value's.
#[derive(Clone, Copy)]
pub(crate) struct Parts {
    pub(crate) m: u64,
    pub(crate) e: u64,
}

pub(crate) fn parts_of(b: u64) -> Parts
    requires { b < 2047 * 2 ^ 52 }
    ensures { (result.m ≡ mant_of b) × (result.e ≡ expo_of b) }
{
    if b < FIELD {
        return Parts { m: b, e: 0 };
    }
    Parts {
        m: b % FIELD + FIELD,
        e: b / FIELD - 1,
    }
}

// How many digits a number has fewer than 53.
pub(crate) fn short_by(t: u64) -> u64
    requires { (0 < t) × (t < 2 ^ 52) }
    ensures { IsFull (t * 2 ^ result) × (result ≤ 52) }
{
    t.leading_zeros() as u64 - 11
}

// The bit pattern of a root q * 2 ^ (e - 1), rounded. `more` says whether the root is above that. No jump is needed.
// Of 54 digits one is dropped, of 55 two: u = 1, 2 is half the weight of what is dropped. It goes up from the middle on, but in the middle only where there is more or what is kept is odd.
// Past the largest finite number the sum reaches infinity's pattern or passes it, and is cut to that.
pub(crate) fn place(q: u64, more: bool, e: u64) -> u64
    requires { (q < 2 ^ 55) × (e ≤ 2045) × (2 ^ 53 ≤ q ⊎ e ≡ 0) }
    ensures { (result ≤ 2047 * 2 ^ 52) × ((n : ℕ) → Between (4 * n) (sq (2 ^ e)) q more → of_bits binary64 result ≡ root_units n) }
{
    let u = (LIMB <= q) as u64 + 1;
    let w = q >> u;
    let rest = q - w * (2 * u);
    let up = (2 * u < 2 * rest + more as u64 + w % 2) as u64;
    ((e + u - 1) * FIELD + w + up).min(INFINITY)
}
