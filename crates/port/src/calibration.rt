// The fit of one slice, from columns or from quotes as they came in, for callers outside. Settings are two rows: sizes and reals.
ghost use Rattle.std.specs.Prelude.{◌≡◌};
ghost use Rattle.records.specs.Settings.{defaults_of};
ghost use Rattle.rows.specs.Rows.{sizes_row, reals_row};
ghost use Rattle.outcome.specs.Outcome.{outcome_with};
ghost use Rattle.port.specs.FitRows.{outcome_counts, FittedRows, QuotesRows};

use records::{FitAnswer, FitConfig};

fn outcome_counts(read: usize, kept: usize, a: FitAnswer) -> [usize; 11]
    ensures { result ≡ outcome_counts (outcome_with read kept a) }
{
    let n = rows::fits::fit_counts(a);
    [
        read, kept, n[0], n[1], n[2], n[3], n[4], n[5], n[6], n[7], n[8],
    ]
}

// The default settings. sizes: grid, refinements, max_recentres, min_observations; reals: sigma_lo, sigma_hi, a_min, max_rmse_vol, pivot_tolerance, feasibility_tolerance, max_weight_ratio.
pub fn port_raw_default_config(sizes: &mut [usize; 4], reals: &mut [f64; 7])
    ensures sizes_after { sizes.new ≡ sizes_row defaults_of }
    ensures reals_after { reals.new ≡ reals_row defaults_of }
{
    let c = FitConfig::defaults();
    *sizes = [c.grid, c.refinements, c.max_recentres, c.min_observations];
    *reals = [
        c.sigma_lo,
        c.sigma_hi,
        c.a_min,
        c.max_rmse_vol,
        c.pivot_tolerance,
        c.feasibility_tolerance,
        c.max_weight_ratio,
    ];
}

// The fit: room for four residual numbers and one capped position an observation is lent, and written only by an accepted answer.
// counts: observed, required, passes, recentres, shrinks, cells, faces, updates, capped; values: rmse_vol, max_rmse_vol, the slice's eight, objective, objective_params, lee_margin, a_margin.
pub fn port_raw_fit_slice(
    tau: f64,
    sizes: &[usize; 4],
    reals: &[f64; 7],
    k: &[f64],
    w: &[f64],
    weight: &[f64],
    residuals: &mut [f64],
    capped: &mut [usize],
    counts: &mut [usize; 9],
    values: &mut [f64; 14],
    active: &mut [bool; 7],
) -> u32
    ensures { FittedRows tau sizes.now reals.now k.now w.now weight.now residuals.old capped.old result residuals.new capped.new counts.new values.new active.new }
{
    let config = rows::fits::read_config(sizes, reals);
    let fit = calibrate::fit_slice(tau, config, k, w, weight, residuals, capped);
    let a = records::told(fit);
    *counts = rows::fits::fit_counts(a);
    *values = rows::fits::fit_values(a);
    let marks = a.active;
    *active = marks;
    a.number
}

// The fit of quotes of 32 bytes each, as in a house file: repeats are dropped, and room is lent for every quote that comes in.
// counts: read, kept, then the nine of port_raw_fit_slice; values and active as there.
pub fn port_raw_fit_quotes(
    tau: f64,
    sizes: &[usize; 4],
    reals: &[f64; 7],
    quotes: &[u8],
    residuals: &mut [f64],
    capped: &mut [usize],
    counts: &mut [usize; 11],
    values: &mut [f64; 14],
    active: &mut [bool; 7],
) -> u32
    ensures { QuotesRows tau sizes.now reals.now quotes.now residuals.old capped.old result residuals.new capped.new counts.new values.new active.new }
{
    let config = rows::fits::read_config(sizes, reals);
    let o = outcome::of_quotes(tau, config, quotes, residuals, capped);
    let a = records::told(o.fit);
    *counts = outcome_counts(o.read, o.kept, a);
    *values = rows::fits::fit_values(a);
    let marks = a.active;
    *active = marks;
    a.number
}
