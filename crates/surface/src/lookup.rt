// The nodes of a surface, and the lookup of a tau among them and their tolerances.
ghost use Rattle.std.specs.Prelude.{◌≡◌, ◌<◌, ◌≤◌, length, drop, zip, position};
ghost use Rattle.std.specs.Float.Ieee.{lt};
ghost use Rattle.laws.specs.Floats.{◌-f◌, ◌*f◌, quarter, min_of};
ghost use Rattle.refusals.specs.Numbers.{numbered};
ghost use Rattle.surface.specs.Lookup.{tolerance_of, tolerances_of, near_of, on_node, short_of, beyond_of, inside_of, bracket_of};
ghost use Rattle.surface.specs.Surface.{nodes_of};

use crate::types::{Bracket, Nodes, Run, ShortExpiryPolicy};
use refusals::Refusal;

// At most a quarter of a gap.
fn capped(tol: f64, lo: f64, hi: f64) -> f64
    ensures { result ≡ min_of tol (quarter *f (hi -f lo)) }
{
    bits::min(tol, 0.25 * (hi - lo))
}

fn tolerance_at(taus: &[f64], i: usize) -> f64
    requires { i < length taus.now }
    ensures { result ≡ tolerance_of taus.now (length taus.now) i }
{
    let tau = taus[i];
    let mut tol = 1e-12 * tau;
    if i != 0 {
        tol = capped(tol, taus[i - 1], tau);
    }
    if i + 1 < taus.len() {
        return capped(tol, tau, taus[i + 1]);
    }
    tol
}

// The tolerance of each node, zeros behind them.
fn tolerances(taus: &[f64]) -> [f64; 32]
    requires { length taus.now ≤ 32 }
    ensures { result ≡ tolerances_of taus.now (length taus.now) }
{
    let mut tols = [0.0; 32];
    // Stays: by index, since the tolerance of a node reads both its neighbours.
    for i in 0..taus.len() {
        tols[i] = tolerance_at(taus, i);
    }
    tols
}

fn near(node: f64, tau: f64, tol: f64) -> bool
    ensures { result ≡ near_of node tau tol }
{
    bits::magnitude(node - tau) <= tol
}

// The first node within its tolerance of tau.
fn node(taus: &[f64], tols: &[f64], tau: f64) -> Option<usize>
    ensures { result ≡ position (λ n. near_of n.0 tau n.1) (zip taus.now tols.now) }
{
    taus.iter()
        .zip(tols)
        .position(|(node, tol)| near(*node, tau, *tol))
}

// The node before the first one beyond tau, where the first of all counts as none.
fn node_below(taus: &[f64], tau: f64) -> Option<usize>
    ensures { result ≡ position (λ t. lt tau t) (drop 1 taus.now) }
{
    taus.iter().skip(1).position(|t| tau < *t)
}

fn on_node(j: usize) -> Bracket
    ensures { result ≡ on_node j }
{
    if j == 0 {
        return Bracket::Segment {
            lo: 0,
            hi: 1,
            x: 0.0,
        };
    }
    Bracket::Segment {
        lo: j - 1,
        hi: j,
        x: 1.0,
    }
}

fn short_of(policy: ShortExpiryPolicy) -> Result<Bracket, Refusal>
    ensures { numbered result ≡ short_of policy }
{
    match policy {
        ShortExpiryPolicy::Reject => Err(Refusal::BeforeFirst),
        ShortExpiryPolicy::ConstantVol => Ok(Bracket::Short),
    }
}

fn inside(taus: &[f64], tau: f64) -> Result<Bracket, Refusal>
    ensures { numbered result ≡ inside_of taus.now (length taus.now) tau (beyond_of taus.now (length taus.now) tau) }
{
    match node_below(taus, tau) {
        Some(lo) => {
            let hi = lo + 1;
            Ok(Bracket::Segment {
                lo,
                hi,
                x: (tau - taus[lo]) / (taus[hi] - taus[lo]),
            })
        }
        None => Err(Refusal::BeyondLast),
    }
}

impl Nodes {
    // Over 32 nodes, which no lookup takes, the tolerances are zeros.
    pub fn of(run: &Run) -> Nodes
        ensures { result ≡ nodes_of run.now }
    {
        let n = run.count;
        let taus = crate::run::taus_of(&run.recs);
        let mut tols = [0.0; 32];
        if n <= 32 {
            tols = tolerances(&taus[..n]);
        }
        Nodes {
            count: n,
            taus,
            tols,
        }
    }

    // The segment of tau, after the tests of the point.
    pub fn bracket(&self, policy: ShortExpiryPolicy, k: f64, tau: f64) -> Result<Bracket, Refusal>
        ensures { numbered result ≡ bracket_of self.now.taus self.now.tols self.now.count policy k tau }
    {
        let n = self.count;
        if 32 < n {
            return Err(Refusal::Size);
        }
        point::check_point(k, tau)?;
        let taus = &self.taus[..n];
        if let Some(j) = node(taus, &self.tols[..n], tau) {
            return Ok(on_node(j));
        }
        if tau < self.taus[0] {
            return short_of(policy);
        }
        inside(taus, tau)
    }
}
