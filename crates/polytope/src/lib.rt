// The seven constraints g x <= h on x = (a, d, c), in the order of calibrate.rs: c >= 0, d <= c, -d <= c, d + c <= 2 sigma, c - d <= 2 sigma, a >= a_min, a <= a_max.
#![tactic(auto)]

ghost use Rattle.std.specs.Prelude.{◌≡◌};
ghost use Rattle.polytope.specs.Polytope.{rows_of, bounds_of, spread_of, dot_of, feasible_of};

// The seven rows g, three numbers each.
pub fn rows() -> [f64; 21]
    ensures { result ≡ rows_of }
{
    [
        0.0, 0.0, -1.0, 0.0, 1.0, -1.0, 0.0, -1.0, -1.0, 0.0, 1.0, 1.0, 0.0, -1.0, 1.0, -1.0, 0.0,
        0.0, 1.0, 0.0, 0.0,
    ]
}

// The seven bounds h.
pub fn bounds(sigma: f64, a_min: f64, a_max: f64) -> [f64; 7]
    ensures { result ≡ bounds_of sigma a_min a_max }
{
    [0.0, 0.0, 0.0, 2.0 * sigma, 2.0 * sigma, -a_min, a_max]
}

// h_scale: the largest magnitude of a bound, and at least 1.
pub fn spread(h: &[f64; 7]) -> f64
    ensures { result ≡ spread_of h.now }
{
    let mut acc = 1.0;
    for bound in h {
        acc = bits::max(acc, bits::magnitude(*bound));
    }
    acc
}

// Row c of g times x; NaN where there is no such row.
#[tactic(auto, unfolding(crate::specs::Polytope::dot_of))]
pub fn dot(g: &[f64; 21], x: &[f64; 3], c: usize) -> f64
    ensures { result ≡ dot_of g.now x.now c }
{
    if c < 7 {
        let k = c * 3;
        return 0.0 + g[k] * x[0] + g[k + 1] * x[1] + g[k + 2] * x[2];
    }
    f64::NAN
}

// Whether x meets each constraint within the slack. The rows are known here, so that the compiler has no product with 1 to work out.
pub fn feasible(h: &[f64; 7], x: &[f64; 3], slack: f64) -> bool
    ensures { result ≡ feasible_of rows_of h.now 7 slack x.now }
{
    let g = rows();
    for (c, bound) in h.iter().enumerate() {
        if !(dot(&g, x, c) - *bound <= slack) {
            return false;
        }
    }
    true
}
