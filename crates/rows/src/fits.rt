// The settings and the answer of a fit, and the limits of a cell, as rows of numbers.
ghost use Rattle.std.specs.Prelude.{◌≡◌};
ghost use Rattle.rows.specs.Rows.{read_config, read_limits, fit_counts, fit_values};

use cell::Limits;
use records::{FitAnswer, FitConfig};

pub fn read_config(sizes: &[usize; 4], reals: &[f64; 7]) -> FitConfig
    ensures { result ≡ read_config sizes.now reals.now }
{
    FitConfig {
        grid: sizes[0],
        refinements: sizes[1],
        max_recentres: sizes[2],
        sigma_lo: reals[0],
        sigma_hi: reals[1],
        a_min: reals[2],
        min_observations: sizes[3],
        max_rmse_vol: reals[3],
        pivot_tolerance: reals[4],
        feasibility_tolerance: reals[5],
        max_weight_ratio: reals[6],
    }
}

pub fn read_limits(row: &[f64; 4]) -> Limits
    ensures { result ≡ read_limits row.now }
{
    Limits {
        a_min: row[0],
        a_max: row[1],
        pivot_tolerance: row[2],
        feasibility_tolerance: row[3],
    }
}

pub fn fit_counts(a: FitAnswer) -> [usize; 9]
    ensures { result ≡ fit_counts a }
{
    let n = a.counts;
    [
        a.observed,
        a.required,
        n.passes,
        n.recentres,
        n.shrinks,
        n.cells,
        n.faces,
        n.updates,
        a.capped,
    ]
}

pub fn fit_values(a: FitAnswer) -> [f64; 14]
    ensures { result ≡ fit_values a }
{
    let s = a.slice;
    [
        a.rmse_vol,
        a.max_rmse_vol,
        s.tau,
        s.a,
        s.b,
        s.rho,
        s.m,
        s.sigma,
        s.k_range.lo,
        s.k_range.hi,
        a.objective,
        a.objective_params,
        a.lee_margin,
        a.a_margin,
    ]
}
