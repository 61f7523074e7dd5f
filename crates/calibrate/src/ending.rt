// The end of the fit: the best cell's slice judged, and the answer.
ghost use Rattle.std.specs.Prelude.{◌≡◌, length};
ghost use Rattle.calibrate.specs.End.{accepted_of, end_of};
ghost use Rattle.calibrate.specs.Fit.{best_end, search_end};
ghost use Rattle.records.specs.Answer.{accepted_answer, answer_in};

use crate::params;
use moves::{Found, Search};
use records::{Counts, FitConfig, FitFailure, SliceFit};
use refusals::Refusal;
use slice::{KRange, SviSlice};

// ---- the answer

fn accepted(
    config: FitConfig,
    counts: Counts,
    objective: f64,
    active: [bool; 7],
    s: SviSlice,
    params: f64,
    rmse: f64,
) -> SliceFit
    ensures { accepted_answer result ≡ accepted_of config counts objective active s params rmse }
{
    let steep = slice::lee(s);
    SliceFit {
        slice: s,
        rmse_vol: rmse,
        objective,
        objective_params: params,
        lee_margin: SviSlice::LEE_SLOPE_BOUND - steep,
        a_margin: s.a - config.a_min,
        active,
        counts,
        capped: 0,
    }
}

// What a fit decides on, once its search is over; each observation has its w and its weight.
#[derive(Clone, Copy)]
pub(crate) struct Fitting<'a> {
    pub(crate) tau: f64,
    pub(crate) config: FitConfig,
    pub(crate) range: KRange,
    pub(crate) a_max: f64,
    pub(crate) k: &'a [f64],
    pub(crate) w: &'a [f64],
    pub(crate) weights: &'a [f64],
    ghost matched: { (length w.now ≡ length k.now) × (length weights.now ≡ length k.now) },
}

impl<'a> Fitting<'a> {
    // 8, 9, or an accepted fit.
    fn end(
        self,
        counts: Counts,
        objective: f64,
        active: [bool; 7],
        s: SviSlice,
    ) -> Result<SliceFit, FitFailure>
        ensures { answer_in result ≡ end_of self.entry.config counts self.entry.a_max objective active s self.entry.k.now self.entry.w.now self.entry.weights.now }
    {
        if slice::check(s).is_err() {
            return Err(FitFailure::after(Refusal::OutOfDomain, counts));
        }
        let t = judge::sums_of(s, self.k, self.w, self.weights);
        if !judge::params_hold(self.config, self.a_max, objective, t) {
            return Err(FitFailure::after(Refusal::OutOfDomain, counts));
        }
        let rmse = judge::rmse_of(t, self.k.len());
        if !judge::rmse_holds(self.config, rmse) {
            return Err(FitFailure {
                why: Refusal::Rmse,
                observed: 0,
                required: 0,
                rmse_vol: rmse,
                max_rmse_vol: self.config.max_rmse_vol,
                counts,
            });
        }
        Ok(accepted(self.config, counts, objective, active, s, t.params, rmse))
    }

    fn best_end(self, best: Found, counts: Counts) -> Result<SliceFit, FitFailure>
        ensures { answer_in result ≡ best_end self.entry.tau self.entry.config self.entry.range self.entry.a_max best counts self.entry.k.now self.entry.w.now self.entry.weights.now }
    {
        let cell = best.cell;
        let sigma = exponent::exp(best.ls);
        let active = params::marks_at(self.config, self.a_max, sigma, cell);
        let s = params::slice_of(
            self.tau,
            self.range,
            active,
            cell.x,
            best.m,
            sigma,
            self.config.a_min,
            self.a_max,
        );
        self.end(counts, cell.objective, active, s)
    }

    // 6, 7, or the end at the best cell.
    pub(crate) fn search_end(self, s: Search) -> Result<SliceFit, FitFailure>
        ensures { answer_in result ≡ search_end self.entry.tau self.entry.config self.entry.range self.entry.a_max s self.entry.k.now self.entry.w.now self.entry.weights.now }
    {
        if s.stage.was_refused() {
            return Err(FitFailure::after(Refusal::NoFace, s.counts));
        }
        if s.found.on_edge {
            return Err(FitFailure::after(Refusal::GridEdge, s.counts));
        }
        self.best_end(s.found, s.counts)
    }
}
