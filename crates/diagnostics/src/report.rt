// The tests before a walk, and the report after it.
ghost use Rattle.std.specs.Prelude.{◌≡◌, ◌*◌, ltb};
ghost use Rattle.refusals.specs.Numbers.{numbered, number_in};
ghost use Rattle.diagnostics.specs.Diagnostics.{default_config, tolerance_number, diagnose_number, report_of, report_clean, diagnose_of};

use crate::grid::Walk;
use crate::tally::Check;
use refusals::Refusal;
use surface::types::{Nodes, Run, ShortExpiryPolicy};

// A value counts as a violation only below minus its tolerance.
#[repr(C)]
#[derive(Clone, Copy)]
pub struct DiagnosticsConfig {
    pub butterfly_tolerance: f64,
    pub calendar_tolerance: f64,
}

impl Default for DiagnosticsConfig {
    ghost is_default = { λ config. config ≡ default_config };

    fn default() -> DiagnosticsConfig
        ensures { result ≡ default_config }
    {
        DiagnosticsConfig {
            butterfly_tolerance: 1e-10,
            calendar_tolerance: 1e-12,
        }
    }
}

// The tallies, and how many failures stand in the room.
#[repr(C)]
#[derive(Clone, Copy)]
pub struct SurfaceDiagnostics {
    pub butterfly: Check,
    pub calendar_slope: Check,
    pub calendar_gap: Check,
    pub evaluation_failures: usize,
}

impl SurfaceDiagnostics {
    // No violation and no failure on the grid.
    pub fn is_clean(self) -> bool
        ensures { result ≡ report_clean self }
    {
        let butterfly = self.butterfly.is_clean();
        let slope = self.calendar_slope.is_clean();
        let gap = self.calendar_gap.is_clean();
        butterfly & slope & gap & (self.evaluation_failures == 0)
    }
}

// 42 unless both tolerances are finite and not below zero.
fn check_tolerance(tol: DiagnosticsConfig) -> Result<(), Refusal>
    ensures { number_in result ≡ tolerance_number tol }
{
    let b = bits::is_finite(tol.butterfly_tolerance) & (0.0 <= tol.butterfly_tolerance);
    let c = bits::is_finite(tol.calendar_tolerance) & (0.0 <= tol.calendar_tolerance);
    if b & c {
        return Ok(());
    }
    Err(Refusal::Tolerance)
}

// Whether the room is too short for three numbers a grid point. By division, so that nothing overflows.
fn short_room(room: usize, nk: usize, nt: usize) -> bool
    ensures { result ≡ ltb room (3 * (nk * nt)) }
{
    if nt == 0 {
        return false;
    }
    room / 3 / nt < nk
}

// 12, then 11, 21 to 28, 32, 33, then 40 to 42.
fn check_diagnose(
    run: Run,
    ks: &[f64],
    axis: &[f64],
    tol: DiagnosticsConfig,
    room: usize,
) -> Result<(), Refusal>
    ensures { number_in result ≡ diagnose_number run ks.now axis.now tol room }
{
    if short_room(room, ks.len(), axis.len()) {
        return Err(Refusal::Lengths);
    }
    surface::answers::check_entry(run, ks, axis)?;
    check_tolerance(tol)
}

fn report_of(s: Walk) -> SurfaceDiagnostics
    ensures { result ≡ report_of s }
{
    SurfaceDiagnostics {
        butterfly: s.butterfly,
        calendar_slope: s.slope,
        calendar_gap: s.gap,
        evaluation_failures: s.failed,
    }
}

pub fn diagnose_run(
    run: Run,
    policy: ShortExpiryPolicy,
    ks: &[f64],
    axis: &[f64],
    tol: DiagnosticsConfig,
    room: &mut [f64],
) -> Result<SurfaceDiagnostics, Refusal>
    ensures { (numbered result ≡ (diagnose_of run policy ks.now axis.now tol room.old).answer) × (room.new ≡ (diagnose_of run policy ks.now axis.now tol room.old).room) }
{
    check_diagnose(run, ks, axis, tol, room.len())?;
    let nodes = Nodes::of(&run);
    let s = crate::grid::walk_grid(&run, &nodes, policy, ks, axis, tol, room);
    Ok(report_of(s))
}
