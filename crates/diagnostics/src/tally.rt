// One check as a running tally: how many points, how many violations, and the worst.
ghost use Rattle.std.specs.Prelude.{◌≡◌};
ghost use Rattle.diagnostics.specs.Tally.{one_more, worse_of, recorded_of, no_check, is_clean};

// One grid point and the checked value there. For a gap, tau is the earlier one.
#[repr(C)]
#[derive(Clone, Copy)]
pub struct DiagnosticPoint {
    pub k: f64,
    pub tau: f64,
    pub value: f64,
}

// Stays: `found` beside the point, and no Option, since a Check crosses the C interface as it is (PortWorst of include/kesupayro.h).
#[repr(C)]
#[derive(Clone, Copy)]
pub struct Worst {
    pub found: bool,
    pub at: DiagnosticPoint,
}

#[repr(C)]
#[derive(Clone, Copy)]
pub struct Check {
    pub points: usize,
    pub violations: usize,
    pub worst: Worst,
}

// One more where asked. It stops at the top.
fn bumped(yes: bool, n: usize) -> usize
    ensures { result ≡ one_more yes n }
{
    if yes { n.saturating_add(1) } else { n }
}

fn worse(w: Worst, p: DiagnosticPoint) -> Worst
    ensures { result ≡ worse_of w p }
{
    if w.found {
        let q = w.at;
        if p.value < q.value {
            Worst { found: true, at: p }
        } else {
            w
        }
    } else {
        Worst { found: true, at: p }
    }
}

// Stays: not derived, since a derived `default` promises each field alone, and callers want the whole, `no_check`.
impl Default for Check {
    ghost is_default = { λ check. check ≡ no_check };

    fn default() -> Check
        ensures { result ≡ no_check }
    {
        Check {
            points: 0,
            violations: 0,
            worst: Worst {
                found: false,
                at: DiagnosticPoint {
                    k: 0.0,
                    tau: 0.0,
                    value: 0.0,
                },
            },
        }
    }
}

impl Check {
    pub fn recorded(self, point: DiagnosticPoint, tolerance: f64) -> Check
        ensures { result ≡ recorded_of self point tolerance }
    {
        let w = self.worst;
        Check {
            points: bumped(true, self.points),
            violations: bumped(point.value < -tolerance, self.violations),
            worst: worse(w, point),
        }
    }

    // The tally is lent, and updated where it stands.
    pub fn record(&mut self, point: DiagnosticPoint, tolerance: f64)
        ensures { self.new ≡ recorded_of self.old point tolerance }
    {
        *self = self.recorded(point, tolerance);
    }

    // No violation.
    pub fn is_clean(self) -> bool
        ensures { result ≡ is_clean self }
    {
        self.violations == 0
    }
}
