// One slice, for callers outside. A slice is a row of eight numbers: tau, a, b, rho, m, sigma, k_range.lo, k_range.hi; a range is two, lo and hi.
ghost use Rattle.std.specs.Prelude.{◌≡◌, [], ◌∷◌};
ghost use Rattle.slice.specs.Slice.{holds_k, ranged_of, made_of, minimum_of, lee_slope_of, eval_of};
ghost use Rattle.rows.specs.Flag.{flag};
ghost use Rattle.rows.specs.Slices.{range_answer, slice_answer, level_answer, values_answer};
ghost use Rattle.rows.specs.Rows.{read_range, read_slice, range_row, slice_row, values_row};

#[unsafe(no_mangle)]
pub extern "C" fn port_raw_k_range(lo: f64, hi: f64, range: &mut [f64; 2]) -> u32
    ensures value { result ≡ (range_answer (ranged_of lo hi)).number }
    ensures range_after { range.new ≡ range_row (range_answer (ranged_of lo hi)).value }
{
    port::slices::port_raw_k_range(lo, hi, range)
}

#[unsafe(no_mangle)]
pub extern "C" fn port_raw_contains(range: &[f64; 2], k: f64) -> u32
    ensures { result ≡ flag (holds_k (read_range range.now) k) }
{
    port::slices::port_raw_contains(range, k)
}

#[unsafe(no_mangle)]
pub extern "C" fn port_raw_slice(
    tau: f64,
    a: f64,
    b: f64,
    rho: f64,
    m: f64,
    sigma: f64,
    range: &[f64; 2],
    slice: &mut [f64; 8],
) -> u32
    ensures value { result ≡ (slice_answer (made_of tau a b rho m sigma (read_range range.now))).number }
    ensures slice_after { slice.new ≡ slice_row (slice_answer (made_of tau a b rho m sigma (read_range range.now))).value }
{
    port::slices::port_raw_slice(tau, a, b, rho, m, sigma, range, slice)
}

#[unsafe(no_mangle)]
pub extern "C" fn port_raw_minimum(slice: &[f64; 8], value: &mut [f64; 1]) -> u32
    ensures value { result ≡ (level_answer (minimum_of (read_slice slice.now))).number }
    ensures value_after { value.new ≡ (level_answer (minimum_of (read_slice slice.now))).value ∷ [] }
{
    port::slices::port_raw_minimum(slice, value)
}

#[unsafe(no_mangle)]
pub extern "C" fn port_raw_lee_slope(slice: &[f64; 8], value: &mut [f64; 1]) -> u32
    ensures value { result ≡ (level_answer (lee_slope_of (read_slice slice.now))).number }
    ensures value_after { value.new ≡ (level_answer (lee_slope_of (read_slice slice.now))).value ∷ [] }
{
    port::slices::port_raw_lee_slope(slice, value)
}

#[unsafe(no_mangle)]
pub extern "C" fn port_raw_eval(slice: &[f64; 8], k: f64, values: &mut [f64; 3]) -> u32
    ensures value { result ≡ (values_answer (eval_of (read_slice slice.now) k)).number }
    ensures values_after { values.new ≡ values_row (values_answer (eval_of (read_slice slice.now) k)).value }
{
    port::slices::port_raw_eval(slice, k, values)
}
