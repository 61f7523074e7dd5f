// What a tested run of slices answers: the region and the total variance of a point, and whether a grid holds every node.
ghost use Rattle.std.specs.Prelude.{◌≡◌, ◌≤◌};
ghost use Rattle.refusals.specs.Numbers.{numbered, number_in};
ghost use Rattle.surface.specs.Surface.{both_hold, region_by, region_in, mixed_of, short_scaled, segment_of, short_from, variance_at, bracket_run, region_run, total_run, all_held, surface_grid_number, covers_run};
ghost use Rattle.surface.specs.Lookup.{bracket_of};

use crate::types::{Bracket, Nodes, Region, Run, ShortExpiryPolicy};
use point::TotalVariance;
use refusals::Refusal;
use slice::{SviSlice, Values};

fn both_hold(lo: SviSlice, hi: SviSlice, k: f64) -> bool
    ensures { result ≡ both_hold lo hi k }
{
    lo.k_range.contains(k) & hi.k_range.contains(k)
}

fn region_by(yes: bool) -> Region
    ensures { result ≡ region_by yes }
{
    if yes {
        Region::Calibrated
    } else {
        Region::Extrapolated
    }
}

fn mixed(a: Values, b: Values, x: f64, gap: f64) -> Result<TotalVariance, Refusal>
    ensures { numbered result ≡ mixed_of a b x gap }
{
    let y = 1.0 - x;
    TotalVariance::new(
        y * a.w + x * b.w,
        y * a.w_k + x * b.w_k,
        y * a.w_kk + x * b.w_kk,
        (b.w - a.w) / gap,
    )
}

fn grown(v: Values, tau: f64, first: f64) -> Result<TotalVariance, Refusal>
    ensures { numbered result ≡ short_scaled v tau first }
{
    let scale = tau / first;
    TotalVariance::new(v.w * scale, v.w_k * scale, v.w_kk * scale, v.w / first)
}

fn segment_at(lo: SviSlice, hi: SviSlice, x: f64, k: f64) -> Result<TotalVariance, Refusal>
    ensures { numbered result ≡ segment_of lo hi x k }
{
    let l = slice::eval_tested(lo, k)?;
    let h = slice::eval_tested(hi, k)?;
    mixed(l, h, x, hi.tau - lo.tau)
}

fn short_at(first: SviSlice, k: f64, tau: f64) -> Result<TotalVariance, Refusal>
    ensures { numbered result ≡ short_from first k tau }
{
    let v = slice::eval_tested(first, k)?;
    grown(v, tau, first.tau)
}

impl Run {
    fn region(
        &self,
        nodes: &Nodes,
        policy: ShortExpiryPolicy,
        k: f64,
        tau: f64,
    ) -> Result<Region, Refusal>
        ensures { numbered result ≡ region_in self.now.recs (bracket_of nodes.now.taus nodes.now.tols nodes.now.count policy k tau) k }
    {
        match nodes.bracket(policy, k, tau)? {
            Bracket::Short => Ok(Region::Extrapolated),
            Bracket::Segment { lo, hi, x: _ } => {
                Ok(region_by(both_hold(self.recs[lo], self.recs[hi], k)))
            }
        }
    }

    // The total variance at a point of tested slices, whose nodes these are.
    pub fn total_variance(
        &self,
        nodes: &Nodes,
        policy: ShortExpiryPolicy,
        k: f64,
        tau: f64,
    ) -> Result<TotalVariance, Refusal>
        ensures { numbered result ≡ variance_at self.now.recs nodes.now.taus nodes.now.tols nodes.now.count policy k tau }
    {
        match nodes.bracket(policy, k, tau)? {
            Bracket::Short => short_at(self.recs[0], k, tau),
            Bracket::Segment { lo, hi, x } => segment_at(self.recs[lo], self.recs[hi], x, k),
        }
    }
}

pub fn bracket_run(
    run: Run,
    policy: ShortExpiryPolicy,
    k: f64,
    tau: f64,
) -> Result<Bracket, Refusal>
    ensures { numbered result ≡ bracket_run run policy k tau }
{
    crate::run::check_run(run)?;
    Nodes::of(&run).bracket(policy, k, tau)
}

pub fn region_run(run: Run, policy: ShortExpiryPolicy, k: f64, tau: f64) -> Result<Region, Refusal>
    ensures { numbered result ≡ region_run run policy k tau }
{
    crate::run::check_run(run)?;
    run.region(&Nodes::of(&run), policy, k, tau)
}

pub fn total_variance_run(
    run: Run,
    policy: ShortExpiryPolicy,
    k: f64,
    tau: f64,
) -> Result<TotalVariance, Refusal>
    ensures { numbered result ≡ total_run run policy k tau }
{
    crate::run::check_run(run)?;
    run.total_variance(&Nodes::of(&run), policy, k, tau)
}

fn all_held(recs: &[SviSlice; 32], n: usize, tau: &[f64]) -> bool
    requires { (2 ≤ n) × (n ≤ 32) }
    ensures { result ≡ all_held recs.now n tau.now }
{
    // The 0 is written out, since the edit first_node_not_held is of it.
    recs[0..n].iter().all(|s| crate::axis::holds(tau, s.tau))
}

// 11, the surface's numbers, then 40 and 41.
pub fn check_entry(run: Run, k: &[f64], tau: &[f64]) -> Result<(), Refusal>
    ensures { number_in result ≡ surface_grid_number run k.now tau.now }
{
    let over = (64 < k.len()) | (64 < tau.len());
    if over {
        return Err(Refusal::Size);
    }
    crate::run::check_run(run)?;
    crate::axis::check_axes(k, tau)
}

// Whether the tau axis holds the bits of every node.
pub fn covers_run(run: Run, k: &[f64], tau: &[f64]) -> Result<bool, Refusal>
    ensures { numbered result ≡ covers_run run k.now tau.now }
{
    check_entry(run, k, tau)?;
    Ok(all_held(&run.recs, run.count, tau))
}
