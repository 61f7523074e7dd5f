// The records of the fit, and what is asked of one alone: settings, observations, counts, answers. Nothing is fitted here.
#![tactic(auto)]

ghost use Rattle.std.specs.Prelude.{◌≡◌};
ghost use Rattle.refusals.specs.Numbers.{refusal_number, numbered};
ghost use Rattle.records.specs.Settings.{defaults_of, settings_hold, sizes_hold};
ghost use Rattle.records.specs.Observation.{passes as passesOf, observed_of};
ghost use Rattle.records.specs.Answer.{refused_with, refused_after, accepted_answer, failure_answer, answer_in};

use refusals::Refusal;
use slice::{KRange, SviSlice};

// Settings of the slice fit.
#[repr(C)]
#[derive(Clone, Copy)]
pub struct FitConfig {
    pub grid: usize,
    pub refinements: usize,
    pub max_recentres: usize,
    pub sigma_lo: f64,
    pub sigma_hi: f64,
    pub a_min: f64,
    pub min_observations: usize,
    pub max_rmse_vol: f64,
    pub pivot_tolerance: f64,
    pub feasibility_tolerance: f64,
    pub max_weight_ratio: f64,
}

// One observed point of a slice.
#[repr(C)]
#[derive(Clone, Copy)]
pub struct SliceObservation {
    pub k: f64,
    pub w: f64,
    pub weight: f64,
}

// What the search did; `updates` are the entries that the eliminations of its faces' systems update.
#[repr(C)]
#[derive(Clone, Copy, Default)]
pub struct Counts {
    pub passes: usize,
    pub recentres: usize,
    pub shrinks: usize,
    pub cells: usize,
    pub faces: usize,
    pub updates: usize,
}

// An accepted fit: the slice, and how it was found.
#[derive(Clone, Copy)]
pub struct SliceFit {
    pub slice: SviSlice,
    pub rmse_vol: f64,
    pub objective: f64,
    pub objective_params: f64,
    pub lee_margin: f64,
    pub a_margin: f64,
    // The constraints active at the fit, in their order.
    pub active: [bool; 7],
    pub counts: Counts,
    // How many weights were capped.
    pub capped: usize,
}

// Why a fit is refused, with the values that belong to the refusal, and the counts of the passes before it.
#[derive(Clone, Copy)]
pub struct FitFailure {
    pub why: Refusal,
    // The values of TooFew.
    pub observed: usize,
    pub required: usize,
    // The values of Rmse.
    pub rmse_vol: f64,
    pub max_rmse_vol: f64,
    pub counts: Counts,
}

// What is told of a fit outside, in text and in rows: the number of its refusal, or 0, and zeros where it has no value.
#[repr(C)]
#[derive(Clone, Copy)]
pub struct FitAnswer {
    // 0 for an accepted fit, else the refusal.
    pub number: u32,
    // The values of refusal 3.
    pub observed: usize,
    pub required: usize,
    // Of an accepted fit; and, with the largest that is accepted, the values of refusal 9.
    pub rmse_vol: f64,
    pub max_rmse_vol: f64,
    pub slice: SviSlice,
    pub objective: f64,
    pub objective_params: f64,
    pub lee_margin: f64,
    pub a_margin: f64,
    // The constraints active at the fit, in their order.
    pub active: [bool; 7],
    pub counts: Counts,
    // How many weights were capped.
    pub capped: usize,
}

// k finite, w finite and not negative, the weight finite and positive.
pub fn passes(k: f64, w: f64, weight: f64) -> bool
    ensures { result ≡ passesOf k w weight }
{
    bits::is_finite(k) & bits::is_finite(w) & (0.0 <= w) & bits::is_positive(weight)
}

impl SliceObservation {
    pub fn new(k: f64, w: f64, weight: f64) -> Result<SliceObservation, Refusal>
        ensures { numbered result ≡ observed_of k w weight }
    {
        if passes(k, w, weight) {
            return Ok(SliceObservation { k, w, weight });
        }
        Err(Refusal::BadObservation)
    }
}

impl FitConfig {
    // Stays: docs/PROMISES.md names it; a derived default would be zeros.
    pub fn defaults() -> FitConfig
        ensures { result ≡ defaults_of }
    {
        FitConfig {
            grid: 21,
            refinements: 12,
            max_recentres: 40,
            sigma_lo: 0.005,
            sigma_hi: 10.0,
            a_min: 1e-8,
            min_observations: 5,
            max_rmse_vol: 0.02,
            pivot_tolerance: 1e-12,
            feasibility_tolerance: 1e-12,
            max_weight_ratio: 10.0,
        }
    }

    // Whether every setting is in its range.
    pub fn validate(self) -> bool
        ensures { result ≡ settings_hold self }
    {
        let ends = bits::is_positive(self.sigma_lo) & bits::is_positive(self.sigma_hi);
        let fits = bits::is_positive(self.a_min) & bits::is_positive(self.max_rmse_vol);
        let steps = bits::is_positive(self.pivot_tolerance)
            & bits::is_positive(self.feasibility_tolerance)
            & bits::is_positive(self.max_weight_ratio);
        (5 <= self.grid)
            & (5 <= self.min_observations)
            & ends
            & fits
            & steps
            & (self.sigma_lo < self.sigma_hi)
    }
}

// Whether n observations and the settings are in the sizes that a fit takes.
pub fn sizes_hold(n: usize, config: FitConfig) -> bool
    ensures { result ≡ sizes_hold n config }
{
    (n <= 256)
        & (config.grid <= 255)
        & (config.refinements <= 1000)
        & (config.max_recentres <= 1000)
}

impl FitFailure {
    // Zeros but for the reason and the counts.
    pub fn after(why: Refusal, counts: Counts) -> FitFailure
        ensures { failure_answer result ≡ refused_after (refusal_number why) counts }
    {
        FitFailure {
            why,
            observed: 0,
            required: 0,
            rmse_vol: 0.0,
            max_rmse_vol: 0.0,
            counts,
        }
    }
}

fn accepted(f: SliceFit) -> FitAnswer
    ensures { result ≡ accepted_answer f }
{
    let active = f.active;
    FitAnswer {
        number: 0,
        observed: 0,
        required: 0,
        rmse_vol: f.rmse_vol,
        max_rmse_vol: 0.0,
        slice: f.slice,
        objective: f.objective,
        objective_params: f.objective_params,
        lee_margin: f.lee_margin,
        a_margin: f.a_margin,
        active,
        counts: f.counts,
        capped: f.capped,
    }
}

// The answer of a refused fit: zeros but for what is handed in. It is told of any number.
pub fn refusal(
    number: u32,
    observed: usize,
    required: usize,
    rmse: f64,
    max: f64,
    counts: Counts,
) -> FitAnswer
    ensures { result ≡ refused_with number observed required rmse max counts }
{
    FitAnswer {
        number,
        observed,
        required,
        rmse_vol: rmse,
        max_rmse_vol: max,
        slice: SviSlice {
            tau: 0.0,
            a: 0.0,
            b: 0.0,
            rho: 0.0,
            m: 0.0,
            sigma: 0.0,
            k_range: KRange { lo: 0.0, hi: 0.0 },
        },
        objective: 0.0,
        objective_params: 0.0,
        lee_margin: 0.0,
        a_margin: 0.0,
        active: [false; 7],
        counts,
        capped: 0,
    }
}

// A fit as it is told.
// Stays flat: the rows of the C interface and the printed answer have its fields, and text's promises are of any number.
pub fn told(fit: Result<SliceFit, FitFailure>) -> FitAnswer
    ensures { result ≡ answer_in fit }
{
    match fit {
        Ok(f) => accepted(f),
        Err(e) => refusal(
            e.why.number(),
            e.observed,
            e.required,
            e.rmse_vol,
            e.max_rmse_vol,
            e.counts,
        ),
    }
}
