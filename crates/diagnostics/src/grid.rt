// The walk over the grid: k outside, tau inside. A good point is recorded in the tallies, a failure is written to the lent room.
ghost use Rattle.std.specs.Prelude.{◌≡◌, ◌+◌, ◌*◌, ◌<◌, ◌≤◌, length};
ghost use Rattle.refusals.specs.Numbers.{numbered};
ghost use Rattle.diagnostics.specs.Walk.{gap_of, good_of, failed_of, walk_in, visit_of, fresh_of, seen_on, taus_at, walk_start, walk_of};

use crate::points::Reading;
use crate::report::DiagnosticsConfig;
use crate::tally::{Check, DiagnosticPoint};
use refusals::Refusal;
use surface::types::{Nodes, Run, ShortExpiryPolicy};

// The point before on the tau axis, which did not fail.
#[derive(Clone, Copy)]
pub struct Previous {
    pub tau: f64,
    pub w: f64,
}

#[derive(Clone, Copy)]
pub struct Walk {
    pub butterfly: Check,
    pub slope: Check,
    pub gap: Check,
    pub failed: usize,
    pub previous: Option<Previous>,
}

// The gap from the point before to one at which w is `now.value`. It stands at the earlier tau.
fn gap_after(gap: Check, p: Option<Previous>, now: DiagnosticPoint, tolerance: f64) -> Check
    ensures { result ≡ gap_of gap p now.k now.value tolerance }
{
    match p {
        Some(before) => {
            let at = DiagnosticPoint {
                k: now.k,
                tau: before.tau,
                value: now.value - before.w,
            };
            gap.recorded(at, tolerance)
        }
        None => gap,
    }
}

fn good(s: Walk, k: f64, tau: f64, r: Reading, tol: DiagnosticsConfig) -> Walk
    ensures { result ≡ good_of s k tau r tol }
{
    let g = DiagnosticPoint { k, tau, value: r.g };
    let rise = DiagnosticPoint {
        k,
        tau,
        value: r.w_tau,
    };
    let level = DiagnosticPoint { k, tau, value: r.w };
    Walk {
        butterfly: s.butterfly.recorded(g, tol.butterfly_tolerance),
        slope: s.slope.recorded(rise, tol.calendar_tolerance),
        gap: gap_after(s.gap, s.previous, level, tol.calendar_tolerance),
        failed: s.failed,
        previous: Some(Previous { tau, w: r.w }),
    }
}

fn failed_at(s: Walk) -> Walk
    requires { s.failed < 18446744073709551615 }
    ensures { result ≡ failed_of s }
{
    Walk {
        failed: s.failed + 1,
        previous: None,
        ..s
    }
}

fn visit(
    room: &mut [f64],
    s: Walk,
    seen: Result<Reading, Refusal>,
    k: f64,
    tau: f64,
    tol: DiagnosticsConfig,
) -> Walk
    requires { 3 * s.failed + 3 ≤ length room.old }
    ensures room_after { walk_in result room.new ≡ visit_of (walk_in s room.old) (numbered seen) k tau tol }
    ensures failed_bound { result.failed ≤ s.failed + 1 }
{
    match seen {
        Ok(r) => good(s, k, tau, r, tol),
        Err(e) => {
            let at = 3 * s.failed;
            room[at] = k;
            room[at + 1] = tau;
            room[at + 2] = e.number() as f64;
            failed_at(s)
        }
    }
}

// A new k has no point before.
fn fresh(s: Walk) -> Walk
    ensures { result ≡ fresh_of s }
{
    Walk {
        previous: None,
        ..s
    }
}

fn row(
    run: &Run,
    nodes: &Nodes,
    policy: ShortExpiryPolicy,
    axis: &[f64],
    tol: DiagnosticsConfig,
    k: f64,
    from: Walk,
    room: &mut [f64],
) -> Walk
    requires { 3 * (from.failed + length axis.now) ≤ length room.old }
    ensures room_after { walk_in result room.new ≡ taus_at (seen_on run.now.recs nodes.now.taus nodes.now.tols nodes.now.count policy) tol axis.now k (walk_in from room.old) }
    ensures failed_bound { result.failed ≤ from.failed + length axis.now }
{
    let mut s = fresh(from);
    for tau in axis {
        let tau = *tau;
        let seen = crate::points::seen_at(run, nodes, policy, k, tau);
        s = visit(room, s, seen, k, tau, tol);
    }
    s
}

fn start() -> Walk
    ensures { result ≡ walk_start }
{
    let none = Check::default();
    Walk {
        butterfly: none,
        slope: none,
        gap: none,
        failed: 0,
        previous: None,
    }
}

pub(crate) fn walk_grid(
    run: &Run,
    nodes: &Nodes,
    policy: ShortExpiryPolicy,
    ks: &[f64],
    axis: &[f64],
    tol: DiagnosticsConfig,
    room: &mut [f64],
) -> Walk
    requires { 3 * (length ks.now * length axis.now) ≤ length room.old }
    ensures { walk_in result room.new ≡ walk_of (seen_on run.now.recs nodes.now.taus nodes.now.tols nodes.now.count policy) tol ks.now axis.now room.old }
{
    let mut s = start();
    for k in ks {
        s = row(run, nodes, policy, axis, tol, *k, s, room);
    }
    s
}
