// The active set at the best cell, and the parameters: at an active bound from the constraint itself.
ghost use Rattle.std.specs.Prelude.{◌≡◌};
ghost use Rattle.calibrate.specs.End.{active_of, marks_at, rho_of, slope_of, level_of, slice_of};

use cell::Cell;
use records::FitConfig;
use slice::{KRange, SviSlice};

fn active_set(face: [bool; 7], g: &[f64; 21], h: &[f64; 7], x: &[f64; 3], slack: f64) -> [bool; 7]
    ensures { result ≡ active_of face g.now h.now x.now slack }
{
    let mut t = face;
    for (i, h) in h.iter().enumerate() {
        t[i] = t[i] | (slack <= polytope::dot(g, x, i) - *h);
    }
    t
}

// The face's constraints, and any other at its bound within the tolerance.
pub(crate) fn marks_at(config: FitConfig, a_max: f64, sigma: f64, best: Cell) -> [bool; 7]
    ensures { result ≡ marks_at config a_max sigma best }
{
    let g = polytope::rows();
    let h = polytope::bounds(sigma, config.a_min, a_max);
    let x = best.x;
    let slack = -config.feasibility_tolerance * polytope::spread(&h);
    let face = best.active;
    active_set(face, &g, &h, &x, slack)
}

fn rho_of(active: [bool; 7], x: [f64; 3]) -> f64
    ensures { result ≡ rho_of active x }
{
    let c = x[2];
    let free = bits::pick(0.0 < c, x[1] / c, 0.0);
    bits::pick(active[1], 1.0, bits::pick(active[2], -1.0, free))
}

fn slope_of(active: [bool; 7], x: [f64; 3], rho: f64, sigma: f64) -> f64
    ensures { result ≡ slope_of active x rho sigma }
{
    let c = x[2];
    let lee = SviSlice::LEE_SLOPE_BOUND / (1.0 + bits::magnitude(rho));
    let steep = bits::pick(active[3] | active[4], lee, c / sigma);
    bits::pick(active[0] | (c <= 0.0), 0.0, steep)
}

fn level_of(active: [bool; 7], x: [f64; 3], a_min: f64, a_max: f64) -> f64
    ensures { result ≡ level_of active x a_min a_max }
{
    bits::pick(active[5], a_min, bits::pick(active[6], a_max, x[0]))
}

pub(crate) fn slice_of(
    tau: f64,
    range: KRange,
    active: [bool; 7],
    x: [f64; 3],
    m: f64,
    sigma: f64,
    a_min: f64,
    a_max: f64,
) -> SviSlice
    ensures { result ≡ slice_of tau range active x m sigma a_min a_max }
{
    let rho = rho_of(active, x);
    let b = slope_of(active, x, rho, sigma);
    let a = level_of(active, x, a_min, a_max);
    SviSlice {
        tau,
        a,
        b,
        rho,
        m,
        sigma,
        k_range: range,
    }
}
