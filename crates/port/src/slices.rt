// One slice, for callers outside. A slice is a row of eight numbers: tau, a, b, rho, m, sigma, k_range.lo, k_range.hi; a range is two, lo and hi.
ghost use Rattle.std.specs.Prelude.{◌≡◌, [], ◌∷◌};
ghost use Rattle.slice.specs.Slice.{holds_k, ranged_of, made_of, minimum_of, lee_slope_of, eval_of};
ghost use Rattle.rows.specs.Flag.{flag};
ghost use Rattle.rows.specs.Slices.{range_answer, slice_answer, level_answer, values_answer};
ghost use Rattle.rows.specs.Rows.{read_range, read_slice, range_row, slice_row, values_row};

use slice::{KRange, SviSlice, Values};

// range: lo, hi.
pub fn port_raw_k_range(lo: f64, hi: f64, range: &mut [f64; 2]) -> u32
    ensures value { result ≡ (range_answer (ranged_of lo hi)).number }
    ensures range_after { range.new ≡ range_row (range_answer (ranged_of lo hi)).value }
{
    let a = rows::told(KRange::new(lo, hi), KRange::default());
    *range = [a.value.lo, a.value.hi];
    a.number
}

// range: lo, hi. 1 where k is inside, ends included, else 0.
pub fn port_raw_contains(range: &[f64; 2], k: f64) -> u32
    ensures { result ≡ flag (holds_k (read_range range.now) k) }
{
    u32::from(rows::slices::read_range(range).contains(k))
}

// range: lo, hi. slice: tau, a, b, rho, m, sigma, k_range.lo, k_range.hi.
pub fn port_raw_slice(
    tau: f64,
    a: f64,
    b: f64,
    rho: f64,
    m: f64,
    sigma: f64,
    range: &[f64; 2],
    slice: &mut [f64; 8],
) -> u32
    ensures value { result ≡ (slice_answer (made_of tau a b rho m sigma (read_range range.now))).number }
    ensures slice_after { slice.new ≡ slice_row (slice_answer (made_of tau a b rho m sigma (read_range range.now))).value }
{
    let range = rows::slices::read_range(range);
    let x = rows::told(
        SviSlice::new(tau, a, b, rho, m, sigma, range),
        SviSlice::default(),
    );
    let s = x.value;
    *slice = [
        s.tau,
        s.a,
        s.b,
        s.rho,
        s.m,
        s.sigma,
        s.k_range.lo,
        s.k_range.hi,
    ];
    x.number
}

// slice as port_raw_slice writes it. value: the smallest total variance.
pub fn port_raw_minimum(slice: &[f64; 8], value: &mut [f64; 1]) -> u32
    ensures value { result ≡ (level_answer (minimum_of (read_slice slice.now))).number }
    ensures value_after { value.new ≡ (level_answer (minimum_of (read_slice slice.now))).value ∷ [] }
{
    let a = rows::told(rows::slices::read_slice(slice).minimum(), 0.0);
    *value = [a.value];
    a.number
}

// slice as port_raw_slice writes it. value: the slope of the steeper wing.
pub fn port_raw_lee_slope(slice: &[f64; 8], value: &mut [f64; 1]) -> u32
    ensures value { result ≡ (level_answer (lee_slope_of (read_slice slice.now))).number }
    ensures value_after { value.new ≡ (level_answer (lee_slope_of (read_slice slice.now))).value ∷ [] }
{
    let a = rows::told(rows::slices::read_slice(slice).lee_slope(), 0.0);
    *value = [a.value];
    a.number
}

// slice as port_raw_slice writes it. values: w, w_k, w_kk.
pub fn port_raw_eval(slice: &[f64; 8], k: f64, values: &mut [f64; 3]) -> u32
    ensures value { result ≡ (values_answer (eval_of (read_slice slice.now) k)).number }
    ensures values_after { values.new ≡ values_row (values_answer (eval_of (read_slice slice.now) k)).value }
{
    let a = rows::told(rows::slices::read_slice(slice).eval(k), Values::default());
    *values = [a.value.w, a.value.w_k, a.value.w_kk];
    a.number
}
