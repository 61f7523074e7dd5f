// Calibration of one slice: the entry checks, the plan of the search, the search, the end of the fit, and the two lent buffers.
#![tactic(auto)]

mod ending;
mod params;
mod writing;

ghost use Rattle.std.specs.Prelude.{◌≡◌};
ghost use Rattle.calibrate.specs.Fit.{half_of, plan_of, limits_of, decided_of, refused_early, Fitted};
ghost use Rattle.entry.specs.Sized.{Sized};
ghost use Rattle.records.specs.Answer.{failure_answer, answer_in};
ghost use Rattle.refusals.specs.Numbers.{refusal_number};

use cell::Limits;
use ending::Fitting;
use moves::{Axis, Plan, Window};
use records::{Counts, FitConfig, FitFailure, SliceFit};
use refusals::Refusal;
use slice::KRange;

// ---- the search

fn half_of(a: Axis) -> f64
    ensures { result ≡ half_of a }
{
    0.5 * (a.hi - a.lo)
}

// The domain of the search, and its settings.
fn plan_of(config: FitConfig, range: KRange) -> Plan
    ensures { result ≡ plan_of config range }
{
    let span = range.hi - range.lo;
    let m = Axis {
        lo: range.lo - span,
        hi: range.hi + span,
    };
    let s = Axis {
        lo: exponent::ln(config.sigma_lo * span),
        hi: exponent::ln(config.sigma_hi * span),
    };
    Plan {
        n: config.grid,
        refinements: config.refinements,
        max_recentres: config.max_recentres,
        domain: Window { m, s },
        hm_max: half_of(m),
        hs_max: half_of(s),
    }
}

fn limits_of(config: FitConfig, a_max: f64) -> Limits
    ensures { result ≡ limits_of config a_max }
{
    Limits {
        a_min: config.a_min,
        a_max,
        pivot_tolerance: config.pivot_tolerance,
        feasibility_tolerance: config.feasibility_tolerance,
    }
}

// The whole answer of a fit that passed the entry checks, but for its capped positions. Nothing is written here.
fn decided(
    tau: f64,
    config: FitConfig,
    k: &[f64],
    w: &[f64],
    weights: &[f64],
) -> Result<SliceFit, FitFailure>
    requires { Sized config k.now w.now weights.now }
    ensures { answer_in result ≡ decided_of tau config k.now w.now weights.now }
{
    let range = entry::range_of(k);
    let a_max = judge::highest(w, config.a_min);
    let plan = plan_of(config, range);
    let limits = limits_of(config, a_max);
    let s = search::run(k, w, weights, limits, plan);
    let fitting = Fitting {
        tau,
        config,
        range,
        a_max,
        k,
        w,
        weights,
    };
    fitting.search_end(s)
}

// ---- the entry

// A refusal by the entry checks; few observations are told with how many there are, and how many are wanted.
fn refused_early(why: Refusal, given: usize, wanted: usize) -> FitFailure
    ensures { failure_answer result ≡ refused_early (refusal_number why) given wanted }
{
    let few = why == Refusal::TooFew;
    FitFailure {
        why,
        observed: bits::pick(few, given, 0),
        required: bits::pick(few, wanted, 0),
        rmse_vol: 0.0,
        max_rmse_vol: 0.0,
        counts: Counts::default(),
    }
}

// Fits one slice at expiry tau (years). The answer is worked out first; only an accepted one is written.
pub fn fit_slice(
    tau: f64,
    config: FitConfig,
    k: &[f64],
    w: &[f64],
    weight: &[f64],
    residuals: &mut [f64],
    capped: &mut [usize],
) -> Result<SliceFit, FitFailure>
    ensures { Fitted tau config k.now w.now weight.now residuals.old capped.old (answer_in result) residuals.new capped.new }
{
    if let Err(why) = entry::checks(tau, config, k, w, weight, residuals.len(), capped.len()) {
        return Err(refused_early(why, k.len(), config.min_observations));
    }
    let mut room = [0.0; 256];
    let scaled = weights::weights_of(weight, config.max_weight_ratio, &mut room);
    if !scaled.ok {
        return Err(FitFailure::after(Refusal::Weights, Counts::default()));
    }
    let fit = decided(tau, config, k, w, &room[..weight.len()])?;
    writing::write_residuals(fit.slice, k, w, residuals);
    let m = writing::list_capped(weight, scaled.cap, capped);
    Ok(SliceFit { capped: m, ..fit })
}
