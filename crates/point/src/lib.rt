// A point of a surface, and the total variance there.
#![tactic(auto)]

ghost use Rattle.std.specs.Prelude.{◌≡◌};
ghost use Rattle.refusals.specs.Numbers.{numbered, number_in};
ghost use Rattle.point.specs.Point.{point_number, total_number, total_of};

use refusals::Refusal;

// Total implied variance w at one point, with dw/dk, d2w/dk2 and dw/dtau.
#[repr(C)]
#[derive(Clone, Copy, Default)]
pub struct TotalVariance {
    pub w: f64,
    pub w_k: f64,
    pub w_kk: f64,
    pub w_tau: f64,
}

// 34 for a k that is not finite, then 35 for a tau that is not finite and positive.
pub fn check_point(k: f64, tau: f64) -> Result<(), Refusal>
    ensures { number_in result ≡ point_number k tau }
{
    if !bits::is_finite(k) {
        return Err(Refusal::PointK);
    }
    if bits::is_positive(tau) {
        return Ok(());
    }
    Err(Refusal::PointTau)
}

fn check_total(v: TotalVariance) -> Result<(), Refusal>
    ensures { number_in result ≡ total_number v }
{
    if !bits::is_positive(v.w) {
        return Err(Refusal::Variance);
    }
    let rest = bits::is_finite(v.w_k) & bits::is_finite(v.w_kk) & bits::is_finite(v.w_tau);
    if rest {
        return Ok(());
    }
    Err(Refusal::Derivative)
}

impl TotalVariance {
    pub fn new(w: f64, w_k: f64, w_kk: f64, w_tau: f64) -> Result<TotalVariance, Refusal>
        ensures { numbered result ≡ total_of w w_k w_kk w_tau }
    {
        let v = TotalVariance {
            w,
            w_k,
            w_kk,
            w_tau,
        };
        check_total(v)?;
        Ok(v)
    }
}
