// A surface lent as a run of slice records that a caller may have written. Each entry copies the run, and a function by value does the work; nothing is judged here.
#![tactic(auto)]

ghost use Rattle.std.specs.Prelude.{◌≡◌};
ghost use Rattle.refusals.specs.Numbers.{numbered, number_in};
ghost use Rattle.surface.specs.Runs.{run_of, check_run};
ghost use Rattle.surface.specs.Surface.{bracket_run, region_run, total_run, covers_run};
ghost use Rattle.diagnostics.specs.Diagnostics.{diagnose_of};

use diagnostics::report::{DiagnosticsConfig, SurfaceDiagnostics};
use point::TotalVariance;
use refusals::Refusal;
use slice::SviSlice;
use surface::types::{Bracket, Region, ShortExpiryPolicy};

// `SviSurface::new`: the first test that fails.
pub fn check_surface(slices: &[SviSlice]) -> Result<(), Refusal>
    ensures { number_in result ≡ check_run (run_of slices.now) }
{
    surface::run::check_run(surface::copied(slices))
}

pub fn bracket(
    slices: &[SviSlice],
    policy: ShortExpiryPolicy,
    k: f64,
    tau: f64,
) -> Result<Bracket, Refusal>
    ensures { numbered result ≡ bracket_run (run_of slices.now) policy k tau }
{
    surface::answers::bracket_run(surface::copied(slices), policy, k, tau)
}

pub fn region(
    slices: &[SviSlice],
    policy: ShortExpiryPolicy,
    k: f64,
    tau: f64,
) -> Result<Region, Refusal>
    ensures { numbered result ≡ region_run (run_of slices.now) policy k tau }
{
    surface::answers::region_run(surface::copied(slices), policy, k, tau)
}

pub fn total_variance(
    slices: &[SviSlice],
    policy: ShortExpiryPolicy,
    k: f64,
    tau: f64,
) -> Result<TotalVariance, Refusal>
    ensures { numbered result ≡ total_run (run_of slices.now) policy k tau }
{
    surface::answers::total_variance_run(surface::copied(slices), policy, k, tau)
}

pub fn covers_nodes(slices: &[SviSlice], ks: &[f64], taus: &[f64]) -> Result<bool, Refusal>
    ensures { numbered result ≡ covers_run (run_of slices.now) ks.now taus.now }
{
    surface::answers::covers_run(surface::copied(slices), ks, taus)
}

// Failures go to the room, three numbers each (k, tau, the number), in walking order; the room beyond them stays as it was, and a refusal leaves all of it.
pub fn diagnose(
    slices: &[SviSlice],
    policy: ShortExpiryPolicy,
    ks: &[f64],
    taus: &[f64],
    config: DiagnosticsConfig,
    room: &mut [f64],
) -> Result<SurfaceDiagnostics, Refusal>
    ensures { (numbered result ≡ (diagnose_of (run_of slices.now) policy ks.now taus.now config room.old).answer) × (room.new ≡ (diagnose_of (run_of slices.now) policy ks.now taus.now config room.old).room) }
{
    diagnostics::report::diagnose_run(surface::copied(slices), policy, ks, taus, config, room)
}
