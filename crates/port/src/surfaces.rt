// Points, surfaces and their diagnostics, for callers outside. A policy is a number: 0 for Reject, every other for ConstantVol.
ghost use Rattle.std.specs.Prelude.{◌≡◌, [], ◌∷◌};
ghost use Rattle.point.specs.Point.{point_number, total_of};
ghost use Rattle.surface.specs.Lookup.{default_policy};
ghost use Rattle.surface.specs.Runs.{run_of, check_run};
ghost use Rattle.diagnostics.specs.Tally.{point_at, recorded_of, is_clean};
ghost use Rattle.diagnostics.specs.Diagnostics.{report_clean};
ghost use Rattle.rows.specs.Answers.{policy_number, total_answer, bracket_for, region_for, total_for, covers_for, diagnosed_for, room_for, total_row, places_row, weight_in, is_calibrated, diagnosed_counts, diagnosed_worst, check_at, report_at};
ghost use Rattle.rows.specs.Flag.{flag};

use diagnostics::report::SurfaceDiagnostics;
use diagnostics::tally::{Check, DiagnosticPoint};
use point::TotalVariance;
use slice::SviSlice;
use surface::types::ShortExpiryPolicy;

// ---- one point

pub fn port_check_point(k: f64, tau: f64) -> u32
    ensures { result ≡ point_number k tau }
{
    rows::number(point::check_point(k, tau))
}

pub fn port_raw_total(w: f64, w_k: f64, w_kk: f64, w_tau: f64, total: &mut [f64; 4]) -> u32
    ensures { (result ≡ (total_answer (total_of w w_k w_kk w_tau)).number) × (total.new ≡ total_row (total_answer (total_of w w_k w_kk w_tau)).value) }
{
    rows::answers::write_total(
        rows::numbered(TotalVariance::new(w, w_k, w_kk, w_tau)),
        total,
    )
}

// ---- a lent run of slices

// The policy for a caller who has no wish of his own.
pub fn port_default_policy() -> u32
    ensures { result ≡ policy_number default_policy }
{
    rows::answers::policy_number(ShortExpiryPolicy::default())
}

pub fn port_surface(slices: &[SviSlice]) -> u32
    ensures { result ≡ check_run (run_of slices.now) }
{
    rows::number(surface::run::check_run(surface::copied(slices)))
}

// Where (k, tau) lies. places: below (1 or 0), lo, hi; x: the weight of hi.
pub fn port_raw_bracket(
    slices: &[SviSlice],
    policy: u32,
    k: f64,
    tau: f64,
    places: &mut [usize; 3],
    x: &mut [f64; 1],
) -> u32
    ensures { (result ≡ (bracket_for (run_of slices.now) policy k tau).number) × (places.new ≡ places_row (bracket_for (run_of slices.now) policy k tau).value) × (x.new ≡ weight_in (bracket_for (run_of slices.now) policy k tau).value ∷ []) }
{
    rows::answers::bracket_of(surface::copied(slices), policy, k, tau, places, x)
}

pub fn port_raw_region(
    slices: &[SviSlice],
    policy: u32,
    k: f64,
    tau: f64,
    calibrated: &mut [usize; 1],
) -> u32
    ensures { (result ≡ (region_for (run_of slices.now) policy k tau).number) × (calibrated.new ≡ flag (is_calibrated (region_for (run_of slices.now) policy k tau).value) ∷ []) }
{
    rows::answers::region_of(surface::copied(slices), policy, k, tau, calibrated)
}

pub fn port_raw_total_variance(
    slices: &[SviSlice],
    policy: u32,
    k: f64,
    tau: f64,
    total: &mut [f64; 4],
) -> u32
    ensures { (result ≡ (total_for (run_of slices.now) policy k tau).number) × (total.new ≡ total_row (total_for (run_of slices.now) policy k tau).value) }
{
    rows::answers::total_of(surface::copied(slices), policy, k, tau, total)
}

pub fn port_raw_covers_nodes(
    slices: &[SviSlice],
    ks: &[f64],
    taus: &[f64],
    all: &mut [usize; 1],
) -> u32
    ensures { (result ≡ (covers_for (run_of slices.now) ks.now taus.now).number) × (all.new ≡ flag (covers_for (run_of slices.now) ks.now taus.now).value ∷ []) }
{
    rows::answers::covers_of(surface::copied(slices), ks, taus, all)
}

// ---- diagnostics

// counts: points, violations, found (1 or 0) of the butterflies, of the slopes, of the gaps, then the failures; worst: k, tau, value of each of the three.
pub fn port_raw_diagnose(
    slices: &[SviSlice],
    policy: u32,
    ks: &[f64],
    taus: &[f64],
    butterfly_tolerance: f64,
    calendar_tolerance: f64,
    room: &mut [f64],
    counts: &mut [usize; 10],
    worst: &mut [f64; 9],
) -> u32
    ensures { (result ≡ (diagnosed_for (run_of slices.now) policy ks.now taus.now butterfly_tolerance calendar_tolerance room.old).number) × (room.new ≡ room_for (run_of slices.now) policy ks.now taus.now butterfly_tolerance calendar_tolerance room.old) × (counts.new ≡ diagnosed_counts (diagnosed_for (run_of slices.now) policy ks.now taus.now butterfly_tolerance calendar_tolerance room.old).value) × (worst.new ≡ diagnosed_worst (diagnosed_for (run_of slices.now) policy ks.now taus.now butterfly_tolerance calendar_tolerance room.old).value) }
{
    rows::answers::diagnose_of(
        surface::copied(slices),
        policy,
        ks,
        taus,
        butterfly_tolerance,
        calendar_tolerance,
        room,
        counts,
        worst,
    )
}

// The tally is lent, and updated where it stands.
pub fn port_raw_check_record(check: &mut Check, k: f64, tau: f64, value: f64, tolerance: f64)
    ensures { check.new ≡ recorded_of check.old (point_at k tau value) tolerance }
{
    check.record(DiagnosticPoint { k, tau, value }, tolerance);
}

// counts: points, violations, found (0 for no, any other number for yes); worst: k, tau, value.
pub fn port_raw_check_clean(counts: &[usize; 3], worst: &[f64; 3]) -> u32
    ensures { result ≡ flag (is_clean (check_at 0 counts.now worst.now)) }
{
    u32::from(rows::answers::check_at(counts, worst).is_clean())
}

// The rows that port_raw_diagnose writes.
pub fn port_raw_report_clean(counts: &[usize; 10], worst: &[f64; 9]) -> u32
    ensures { result ≡ flag (report_clean (report_at counts.now worst.now)) }
{
    u32::from(rows::answers::report_at(counts, worst).is_clean())
}
