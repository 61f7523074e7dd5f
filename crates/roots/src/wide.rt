// Numbers of two limbs, hi * 2 ^ 54 + lo: a limb has 27 digits to the base 4, and no sum of two products wraps.
ghost use Rattle.std.specs.Prelude.{◌≡◌, ◌+◌, ◌*◌, ◌^◌, ◌≤◌, ◌<◌, IfSome};
ghost use Rattle.roots.specs.Root.{sq};
ghost use Rattle.roots.specs.Inner.{limbs};

// What 1 in the upper limb counts.
pub(crate) const LIMB: u64 = 1 << 54;

// The same of a limb's upper half.
const HALF: u64 = 1 << 27;

// hi * 2 ^ 54 + lo
#[derive(Clone, Copy)]
pub(crate) struct Wide {
    pub(crate) hi: u64,
    pub(crate) lo: u64,
    ghost high: { hi < 2 ^ 56 },
    ghost low: { lo < 2 ^ 54 },
}

// The whole square.
pub(crate) fn square(q: u64) -> Wide
    requires { q < 2 ^ 55 }
    ensures { limbs result.hi result.lo ≡ sq q }
{
    let h = q / HALF;
    let l = q % HALF;
    let m = h * l;
    let low = m % 67108864 * 268435456 + l * l;
    Wide {
        hi: h * h + m / 67108864 + low / LIMB,
        lo: low % LIMB,
    }
}

// What n is above s, where it is no less and that is below 2 ^ 62.
pub(crate) fn excess(n: Wide, s: Wide) -> Option<u64>
    ensures { IfSome result (λ r. (limbs s.hi s.lo + r ≡ limbs n.hi n.lo) × (r < 2 ^ 62)) }
{
    if n.hi < s.hi {
        return None;
    }
    let d = n.hi - s.hi;
    if 255 < d {
        return None;
    }
    let over = d * LIMB + n.lo;
    if over < s.lo {
        return None;
    }
    Some(over - s.lo)
}

// A wide number and the digits that were cut off below it.
#[derive(Clone, Copy)]
pub(crate) struct Cut {
    pub(crate) kept: Wide,
    pub(crate) off: u64,
}

// A wide number over 2 ^ s.
pub(crate) fn cut_off(n: Wide, s: u64) -> Cut
    requires { (n.hi < 2 ^ 54) × (s ≤ 52) }
    ensures { (limbs result.kept.hi result.kept.lo * 2 ^ s + result.off ≡ limbs n.hi n.lo) × (result.kept.hi < 2 ^ 54) × (result.off < 2 ^ s) }
{
    let top = n.hi >> s;
    let mid = n.hi - (top << s);
    let low = n.lo >> s;
    Cut {
        kept: Wide {
            hi: top,
            lo: (mid << (54 - s)) + low,
        },
        off: n.lo - (low << s),
    }
}

// The sum of the squares of a * 2 ^ d and b, less its last 2 d digits, which are cut off.
pub(crate) fn joined(a: u64, b: u64, d: u64) -> Cut
    requires { (a < 2 ^ 54) × (b < 2 ^ 54) × (d ≤ 26) }
    ensures { (limbs result.kept.hi result.kept.lo * 2 ^ (d * 2) + result.off ≡ sq a * 2 ^ (d * 2) + sq b) × (result.kept.hi < 2 ^ 55) × (result.off < 2 ^ (d * 2)) }
{
    let x = square(a);
    let z = cut_off(square(b), d * 2);
    let low = x.lo + z.kept.lo;
    Cut {
        kept: Wide {
            hi: x.hi + z.kept.hi + low / LIMB,
            lo: low % LIMB,
        },
        off: z.off,
    }
}
