// The answers about points and surfaces as the rows of numbers that leave the library: the number of a refusal, or 0, and the values. A refusal carries zeros.
ghost use Rattle.std.specs.Prelude.{◌≡◌, [], ◌∷◌};
ghost use Rattle.rows.specs.Answers.{policy_of, policy_number, total_answer, no_diagnostics, bracket_for, region_for, total_for, covers_for, diagnosed_for, room_for, total_row, places_row, weight_in, is_calibrated, diagnosed_counts, diagnosed_worst, check_of, check_at, report_at};
ghost use Rattle.rows.specs.Flag.{flag};

use crate::{numbered, told, told_number};
use diagnostics::report::{DiagnosticsConfig, SurfaceDiagnostics};
use diagnostics::tally::{Check, DiagnosticPoint, Worst};
use point::TotalVariance;
use surface::types::{Bracket, Region, Run, ShortExpiryPolicy};

// ---- a policy as a number

// Both stay: the numbers are C's (PORT_REJECT, PORT_CONSTANT_VOL), and a From of them would have to stand in crate surface, which knows of no C.

// A refusal is for callers who name it: 0 is Reject, every other number is ConstantVol.
fn policy_of(policy: u32) -> ShortExpiryPolicy
    ensures { result ≡ policy_of policy }
{
    if policy == 0 {
        return ShortExpiryPolicy::Reject;
    }
    ShortExpiryPolicy::ConstantVol
}

pub fn policy_number(policy: ShortExpiryPolicy) -> u32
    ensures { result ≡ policy_number policy }
{
    match policy {
        ShortExpiryPolicy::Reject => 0,
        ShortExpiryPolicy::ConstantVol => 1,
    }
}

// ---- a record as its rows, and back

// Of any number in the place of a total variance.
pub fn write_total(t: Result<TotalVariance, u32>, total: &mut [f64; 4]) -> u32
    ensures { (result ≡ (total_answer t).number) × (total.new ≡ total_row (total_answer t).value) }
{
    let a = told_number(t, TotalVariance::default());
    let v = a.value;
    *total = [v.w, v.w_k, v.w_kk, v.w_tau];
    a.number
}

fn no_diagnostics() -> SurfaceDiagnostics
    ensures { result ≡ no_diagnostics }
{
    SurfaceDiagnostics {
        butterfly: Check::default(),
        calendar_slope: Check::default(),
        calendar_gap: Check::default(),
        evaluation_failures: 0,
    }
}

fn write_report(d: SurfaceDiagnostics, counts: &mut [usize; 10], worst: &mut [f64; 9])
    ensures { (counts.new ≡ diagnosed_counts d) × (worst.new ≡ diagnosed_worst d) }
{
    let b = d.butterfly;
    let s = d.calendar_slope;
    let g = d.calendar_gap;
    *counts = [
        b.points,
        b.violations,
        usize::from(b.worst.found),
        s.points,
        s.violations,
        usize::from(s.worst.found),
        g.points,
        g.violations,
        usize::from(g.worst.found),
        d.evaluation_failures,
    ];
    *worst = [
        b.worst.at.k,
        b.worst.at.tau,
        b.worst.at.value,
        s.worst.at.k,
        s.worst.at.tau,
        s.worst.at.value,
        g.worst.at.k,
        g.worst.at.tau,
        g.worst.at.value,
    ];
}

fn check_of(points: usize, violations: usize, found: usize, k: f64, tau: f64, value: f64) -> Check
    ensures { result ≡ check_of points violations found k tau value }
{
    Check {
        points,
        violations,
        worst: Worst {
            found: found != 0,
            at: DiagnosticPoint { k, tau, value },
        },
    }
}

pub fn check_at(counts: &[usize; 3], worst: &[f64; 3]) -> Check
    ensures { result ≡ check_at 0 counts.now worst.now }
{
    check_of(
        counts[0], counts[1], counts[2], worst[0], worst[1], worst[2],
    )
}

pub fn report_at(counts: &[usize; 10], worst: &[f64; 9]) -> SurfaceDiagnostics
    ensures { result ≡ report_at counts.now worst.now }
{
    SurfaceDiagnostics {
        butterfly: check_of(
            counts[0], counts[1], counts[2], worst[0], worst[1], worst[2],
        ),
        calendar_slope: check_of(
            counts[3], counts[4], counts[5], worst[3], worst[4], worst[5],
        ),
        calendar_gap: check_of(
            counts[6], counts[7], counts[8], worst[6], worst[7], worst[8],
        ),
        evaluation_failures: counts[9],
    }
}

// ---- of a copied run

pub fn bracket_of(
    run: Run,
    policy: u32,
    k: f64,
    tau: f64,
    places: &mut [usize; 3],
    x: &mut [f64; 1],
) -> u32
    ensures { (result ≡ (bracket_for run policy k tau).number) × (places.new ≡ places_row (bracket_for run policy k tau).value) × (x.new ≡ weight_in (bracket_for run policy k tau).value ∷ []) }
{
    let none = Bracket::Segment {
        lo: 0,
        hi: 0,
        x: 0.0,
    };
    let bracket = surface::answers::bracket_run(run, policy_of(policy), k, tau);
    let a = told(bracket, none);
    match a.value {
        Bracket::Short => {
            *places = [1, 0, 0];
            *x = [0.0];
        }
        Bracket::Segment { lo, hi, x: weight } => {
            *places = [0, lo, hi];
            *x = [weight];
        }
    }
    a.number
}

pub fn region_of(run: Run, policy: u32, k: f64, tau: f64, calibrated: &mut [usize; 1]) -> u32
    ensures { (result ≡ (region_for run policy k tau).number) × (calibrated.new ≡ flag (is_calibrated (region_for run policy k tau).value) ∷ []) }
{
    let region = surface::answers::region_run(run, policy_of(policy), k, tau);
    let a = told(region, Region::Extrapolated);
    let yes = match a.value {
        Region::Calibrated => 1,
        Region::Extrapolated => 0,
    };
    *calibrated = [yes];
    a.number
}

pub fn total_of(run: Run, policy: u32, k: f64, tau: f64, total: &mut [f64; 4]) -> u32
    ensures { (result ≡ (total_for run policy k tau).number) × (total.new ≡ total_row (total_for run policy k tau).value) }
{
    let t = surface::answers::total_variance_run(run, policy_of(policy), k, tau);
    write_total(numbered(t), total)
}

pub fn covers_of(run: Run, ks: &[f64], taus: &[f64], all: &mut [usize; 1]) -> u32
    ensures { (result ≡ (covers_for run ks.now taus.now).number) × (all.new ≡ flag (covers_for run ks.now taus.now).value ∷ []) }
{
    let a = told(surface::answers::covers_run(run, ks, taus), false);
    *all = [usize::from(a.value)];
    a.number
}

pub fn diagnose_of(
    run: Run,
    policy: u32,
    ks: &[f64],
    taus: &[f64],
    butterfly_tolerance: f64,
    calendar_tolerance: f64,
    room: &mut [f64],
    counts: &mut [usize; 10],
    worst: &mut [f64; 9],
) -> u32
    ensures { (result ≡ (diagnosed_for run policy ks.now taus.now butterfly_tolerance calendar_tolerance room.old).number) × (room.new ≡ room_for run policy ks.now taus.now butterfly_tolerance calendar_tolerance room.old) × (counts.new ≡ diagnosed_counts (diagnosed_for run policy ks.now taus.now butterfly_tolerance calendar_tolerance room.old).value) × (worst.new ≡ diagnosed_worst (diagnosed_for run policy ks.now taus.now butterfly_tolerance calendar_tolerance room.old).value) }
{
    let config = DiagnosticsConfig {
        butterfly_tolerance,
        calendar_tolerance,
    };
    let report = diagnostics::report::diagnose_run(run, policy_of(policy), ks, taus, config, room);
    let a = told(report, no_diagnostics());
    write_report(a.value, counts, worst);
    a.number
}
