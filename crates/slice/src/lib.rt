// Raw SVI slices by value: the five numbers of a slice travel with tau and its k range.
#![tactic(auto)]

ghost use Rattle.std.specs.Prelude.{◌≡◌};
ghost use Rattle.refusals.specs.Numbers.{numbered, number_in};
ghost use Rattle.slice.specs.Slice.{holds_k, range_number, ranged_of, lowest_of, lee_of, domain_number, number_of, made_of, wing_of, across_of, along_of, values_of, judged_of, eval_raw, minimum_of, lee_slope_of, eval_of, three_finite};

use refusals::Refusal;

#[repr(C)]
#[derive(Clone, Copy, Default)]
pub struct KRange {
    pub lo: f64,
    pub hi: f64,
}

#[repr(C)]
#[derive(Clone, Copy, Default)]
pub struct SviSlice {
    pub tau: f64,
    pub a: f64,
    pub b: f64,
    pub rho: f64,
    pub m: f64,
    pub sigma: f64,
    pub k_range: KRange,
}

// w, dw/dk and d2w/dk2 at a point.
#[derive(Clone, Copy, Default)]
pub struct Values {
    pub w: f64,
    pub w_k: f64,
    pub w_kk: f64,
}

// The two factors of a slice's formula: the level over b, and the slope over b.
#[derive(Clone, Copy)]
struct Wing {
    level: f64,
    slope: f64,
}

// 21 unless the range is finite with lo <= hi.
fn check_range(r: KRange) -> Result<(), Refusal>
    ensures { number_in result ≡ range_number r }
{
    if bits::is_finite(r.lo) & bits::is_finite(r.hi) & (r.lo <= r.hi) {
        return Ok(());
    }
    Err(Refusal::KRange)
}

impl KRange {
    pub fn new(lo: f64, hi: f64) -> Result<KRange, Refusal>
        ensures { numbered result ≡ ranged_of lo hi }
    {
        let range = KRange { lo, hi };
        check_range(range)?;
        Ok(range)
    }

    // Whether k is inside the range, ends included.
    pub fn contains(self, k: f64) -> bool
        ensures { result ≡ holds_k self k }
    {
        (self.lo <= k) & (k <= self.hi)
    }
}

fn three_finite(x: f64, y: f64, z: f64) -> bool
    ensures { result ≡ three_finite x y z }
{
    bits::is_finite(x) & bits::is_finite(y) & bits::is_finite(z)
}

// The smallest total variance of a slice.
pub fn lowest(s: SviSlice) -> f64
    ensures { result ≡ lowest_of s }
{
    let root = roots::sqrt(bits::max(1.0 - s.rho * s.rho, 0.0));
    s.a + s.b * s.sigma * root
}

// The slope of the steeper wing.
pub fn lee(s: SviSlice) -> f64
    ensures { result ≡ lee_of s }
{
    s.b * (1.0 + bits::magnitude(s.rho))
}

// The tests of `SviSlice::new` from the second on, 23 to 28: the first that fails.
fn check_domain(s: SviSlice) -> Result<(), Refusal>
    ensures { number_in result ≡ domain_number s }
{
    if s.tau <= 0.0 {
        return Err(Refusal::SliceTau);
    }
    if s.b < 0.0 {
        return Err(Refusal::B);
    }
    let rho = bits::magnitude(s.rho);
    if 1.0 < rho {
        return Err(Refusal::Rho);
    }
    if s.sigma <= 0.0 {
        return Err(Refusal::Sigma);
    }
    let slope = lee(s);
    if SviSlice::LEE_SLOPE_BOUND < slope {
        return Err(Refusal::Lee);
    }
    let low = lowest(s);
    // Stays, and no is_positive: the edit zero_minimum is of this line.
    if bits::is_finite(low) & (0.0 < low) {
        return Ok(());
    }
    Err(Refusal::Minimum)
}

// The first test that a slice fails: 21, then 22 to 28.
pub fn check(s: SviSlice) -> Result<(), Refusal>
    ensures { number_in result ≡ number_of s }
{
    check_range(s.k_range)?;
    let first = three_finite(s.tau, s.a, s.b);
    let last = three_finite(s.rho, s.m, s.sigma);
    if first & last {
        return check_domain(s);
    }
    Err(Refusal::NotFinite)
}

// Where rho and x have opposite signs: the sums are rationalised, so that no digits are lost.
fn across(rho: f64, sigma: f64, x: f64, u: f64, v: f64) -> Wing
    ensures { result ≡ across_of rho sigma x u v }
{
    let rest = (1.0 - rho) * (1.0 + rho);
    Wing {
        level: (x * u * rest + sigma * v) / (1.0 - rho * u),
        slope: (v * v - rest) / (rho - u),
    }
}

fn along(rho: f64, x: f64, r: f64, u: f64) -> Wing
    ensures { result ≡ along_of rho x r u }
{
    Wing {
        level: rho * x + r,
        slope: rho + u,
    }
}

fn wing_of(s: SviSlice, x: f64, r: f64) -> Wing
    ensures { result ≡ wing_of s x r }
{
    let u = x / r;
    let v = s.sigma / r;
    if s.rho * x < 0.0 {
        return across(s.rho, s.sigma, x, u, v);
    }
    along(s.rho, x, r, u)
}

fn values_at(s: SviSlice, k: f64) -> Values
    ensures { result ≡ values_of s k }
{
    let x = k - s.m;
    let r = roots::hypot(x, s.sigma);
    let g = wing_of(s, x, r);
    let v = s.sigma / r;
    Values {
        w: s.a + s.b * g.level,
        w_k: s.b * g.slope,
        w_kk: (s.b / r) * v * v,
    }
}

// Refuses what is not finite, then a curvature that fell to zero.
fn judged(b: f64, v: Values) -> Result<Values, Refusal>
    ensures { numbered result ≡ judged_of b v }
{
    let good = three_finite(v.w, v.w_k, v.w_kk);
    if !good {
        return Err(Refusal::Eval);
    }
    let flat = (0.0 < b) & (v.w_kk <= 0.0);
    if flat {
        return Err(Refusal::Curvature);
    }
    Ok(v)
}

// w and its derivatives of a slice that has passed its tests.
pub fn eval_tested(s: SviSlice, k: f64) -> Result<Values, Refusal>
    ensures { numbered result ≡ eval_raw s k }
{
    if bits::is_finite(k) {
        return judged(s.b, values_at(s, k));
    }
    Err(Refusal::EvalK)
}

impl SviSlice {
    // Lee's bound on the slope of w.
    pub const LEE_SLOPE_BOUND: f64 = 2.0;

    pub fn new(
        tau: f64,
        a: f64,
        b: f64,
        rho: f64,
        m: f64,
        sigma: f64,
        k_range: KRange,
    ) -> Result<SviSlice, Refusal>
        ensures { numbered result ≡ made_of tau a b rho m sigma k_range }
    {
        let s = SviSlice {
            tau,
            a,
            b,
            rho,
            m,
            sigma,
            k_range,
        };
        check(s)?;
        Ok(s)
    }

    pub fn minimum(self) -> Result<f64, Refusal>
        ensures { numbered result ≡ minimum_of self }
    {
        check(self)?;
        Ok(lowest(self))
    }

    pub fn lee_slope(self) -> Result<f64, Refusal>
        ensures { numbered result ≡ lee_slope_of self }
    {
        check(self)?;
        Ok(lee(self))
    }

    pub fn eval(self, k: f64) -> Result<Values, Refusal>
        ensures { numbered result ≡ eval_of self k }
    {
        check(self)?;
        eval_tested(self, k)
    }
}
