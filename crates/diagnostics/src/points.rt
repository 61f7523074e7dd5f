// What a grid point yields: the butterfly value, w and dw/dtau; or why it failed.
ghost use Rattle.std.specs.Prelude.{◌≡◌, Ok};
ghost use Rattle.refusals.specs.Numbers.{numbered};
ghost use Rattle.diagnostics.specs.Walk.{butterfly_of, seen_of, seen_on};

use point::TotalVariance;
use refusals::Refusal;
use surface::types::{Nodes, Run, ShortExpiryPolicy};

// What is read at a point that did not fail: g is the butterfly value.
#[derive(Clone, Copy)]
pub struct Reading {
    pub g: f64,
    pub w: f64,
    pub w_tau: f64,
}

// Gatheral and Jacquier's g(k).
pub fn butterfly_g(k: f64, w: f64, w_k: f64, w_kk: f64) -> f64
    ensures { result ≡ butterfly_of k w w_k w_kk }
{
    let first = 1.0 - k * w_k / (2.0 * w);
    first * first - (w_k * w_k / 4.0) * (1.0 / w + 0.25) + w_kk / 2.0
}

fn reading_of(v: TotalVariance, k: f64) -> Result<Reading, Refusal>
    ensures { numbered result ≡ seen_of (Ok v) k }
{
    let g = butterfly_g(k, v.w, v.w_k, v.w_kk);
    if bits::is_finite(g) {
        return Ok(Reading {
            g,
            w: v.w,
            w_tau: v.w_tau,
        });
    }
    Err(Refusal::Eval)
}

// At a point of tested slices, whose nodes these are.
pub fn seen_at(
    run: &Run,
    nodes: &Nodes,
    policy: ShortExpiryPolicy,
    k: f64,
    tau: f64,
) -> Result<Reading, Refusal>
    ensures { numbered result ≡ seen_on run.now.recs nodes.now.taus nodes.now.tols nodes.now.count policy k tau }
{
    reading_of(run.total_variance(nodes, policy, k, tau)?, k)
}
