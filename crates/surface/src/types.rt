// What the functions of a surface take and hand back.
ghost use Rattle.std.specs.Prelude.{◌≡◌};
ghost use Rattle.surface.specs.Lookup.{default_policy};

use slice::SviSlice;

// A lent run of slice records, copied: how many there are, and the first 32.
// Stays: a count beside an array, and no slice, since the promises of the entries are about this copy (docs/PROMISES.md: `surface::copied`).
#[derive(Clone, Copy)]
pub struct Run {
    pub count: usize,
    pub recs: [SviSlice; 32],
}

// The nodes of a surface, as each lookup among them needs them: the taus of its slices, and the tolerance of each.
#[derive(Clone, Copy)]
pub struct Nodes {
    pub count: usize,
    pub taus: [f64; 32],
    pub tols: [f64; 32],
}

// What stands below the first expiry.
#[derive(Clone, Copy)]
pub enum ShortExpiryPolicy {
    Reject,
    ConstantVol,
}

// Stays: not derived, since a derived `default` promises less than that it is `default_policy`.
impl Default for ShortExpiryPolicy {
    ghost is_default = { λ policy. policy ≡ default_policy };

    fn default() -> ShortExpiryPolicy
        ensures { result ≡ default_policy }
    {
        ShortExpiryPolicy::ConstantVol
    }
}

// The slices that answer a query at tau: two positions and the weight of hi; or the first alone.
#[derive(Clone, Copy)]
pub enum Bracket {
    Short,
    Segment { lo: usize, hi: usize, x: f64 },
}

// Whether a point is backed by calibrated data.
#[derive(Clone, Copy)]
pub enum Region {
    Calibrated,
    Extrapolated,
}
