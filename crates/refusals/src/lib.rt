// Why something is refused, and the number that each reason has outside.
#![tactic(auto)]

ghost use Rattle.std.specs.Prelude.{◌≡◌};
ghost use Rattle.refusals.specs.Numbers.{refusal_number};

// The numbers are those of include/kesupayro.h.
#[derive(Clone, Copy, PartialEq, Eq)]
pub enum Refusal {
    // a setting out of range
    Settings = 1,
    // tau is not finite and above 0
    Tau = 2,
    // fewer observations than the settings ask for
    TooFew = 3,
    // all observations at one k, or too far apart to measure
    NoSpan = 4,
    // the weights do not scale to numbers above 0
    Weights = 5,
    // a pass of the search found nothing to compare
    NoFace = 6,
    // the best point is on the edge of the search
    GridEdge = 7,
    // the slice found is not one that may be used
    OutOfDomain = 8,
    // the residuals are too large, or no number
    Rmse = 9,
    // k, w or weight not finite, w below 0, or weight not above 0
    BadObservation = 10,
    // over the sizes that are taken
    Size = 11,
    // columns of unequal length, or a buffer that is too short
    Lengths = 12,
    // k range not finite, or lo above hi
    KRange = 21,
    // a number of a slice is not finite
    NotFinite = 22,
    // tau of a slice not above 0
    SliceTau = 23,
    // b below 0
    B = 24,
    // rho beyond -1 or 1
    Rho = 25,
    // sigma not above 0
    Sigma = 26,
    // b (1 + |rho|) above 2, Lee's bound
    Lee = 27,
    // smallest total variance not finite and above 0
    Minimum = 28,
    // k not finite
    EvalK = 29,
    // a value that is not finite
    Eval = 30,
    // curvature not above 0 where b is above 0
    Curvature = 31,
    // fewer than two slices
    TwoSlices = 32,
    // the taus of the slices do not rise
    TauOrder = 33,
    // the k asked for is not finite
    PointK = 34,
    // the tau asked for is not finite and above 0
    PointTau = 35,
    // before the first slice
    BeforeFirst = 36,
    // beyond the last slice
    BeyondLast = 37,
    // total variance not finite and above 0
    Variance = 38,
    // a derivative that is not finite
    Derivative = 39,
    // the k axis is empty, or not of finite, rising numbers
    KAxis = 40,
    // the tau axis is empty, or not of finite, rising numbers above 0
    TauAxis = 41,
    // a tolerance not finite, or below 0
    Tolerance = 42,
    // the bytes are not a house file
    Malformed = 43,
    // one quote number with two contents
    TwoContents = 44,
}

impl Refusal {
    // The number of a refusal: no two have the same, and none has 0.
    pub fn number(self) -> u32
        ensures { result ≡ refusal_number self }
    {
        self as u32
    }
}
