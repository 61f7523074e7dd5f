// A slice judged on observations: the fitted w and the vol residual at each, their sums, objective_params and rmse. Nothing is searched here.
#![tactic(auto)]

ghost use Rattle.std.specs.Prelude.{◌≡◌, length};
ghost use Rattle.slice.specs.Slice.{eval_raw};
ghost use Rattle.judge.specs.Judge.{reading_of, residual_at, added_to, sums_of, matched_of, matched_sums, highest_of, params_hold, rmse_of, rmse_holds};

use records::FitConfig;
use slice::SviSlice;

// Of one observation: the fitted w, where the slice evaluates there, and the observed minus the fitted volatility.
#[derive(Clone, Copy)]
pub struct Residual {
    pub fitted: Option<f64>,
    pub vol: f64,
}

// Over the observations: whether the slice evaluates, the squares of the vol residuals, objective_params, the total weight.
// Stays: sums_of promises the sums also where some observation does not evaluate, so it is no Option.
#[derive(Clone, Copy, Default)]
pub struct Sums {
    pub ok: bool,
    pub squares: f64,
    pub params: f64,
    pub weight: f64,
}

// The largest w, or a_min if that is larger.
pub fn highest(w: &[f64], a_min: f64) -> f64
    ensures { result ≡ highest_of w.now a_min }
{
    w.iter().fold(a_min, |t, w| bits::max(t, *w))
}

fn reading_at(s: SviSlice, k: f64) -> Option<f64>
    ensures { result ≡ reading_of (eval_raw s k) }
{
    slice::eval_tested(s, k).ok().map(|v| v.w)
}

pub fn residual_at(s: SviSlice, k: f64, w: f64) -> Residual
    ensures { result ≡ residual_at s k w }
{
    let fitted = reading_at(s, k);
    let vol = roots::sqrt(w / s.tau) - roots::sqrt(fitted.unwrap_or(0.0) / s.tau);
    Residual { fitted, vol }
}

fn added(t: Sums, r: Residual, w: f64, weight: f64) -> Sums
    ensures { result ≡ added_to t r w weight }
{
    let d = r.fitted.unwrap_or(0.0) - w;
    Sums {
        ok: t.ok & r.fitted.is_some(),
        squares: t.squares + r.vol * r.vol,
        params: t.params + weight * d * d,
        weight: t.weight + weight,
    }
}

fn summed(s: SviSlice, k: &[f64], w: &[f64], weights: &[f64]) -> Sums
    requires { (length w.now ≡ length k.now) × (length weights.now ≡ length k.now) }
    ensures { result ≡ sums_of s k.now w.now weights.now }
{
    let none = Sums {
        ok: true,
        ..Sums::default()
    };
    k.iter()
        .zip(w)
        .zip(weights)
        .fold(none, |t, ((k, w), weight)| {
            added(t, residual_at(s, *k, *w), *w, *weight)
        })
}

// Each observation has its w and its weight.
fn matched(k: &[f64], w: &[f64], weights: &[f64]) -> bool
    ensures { result ≡ matched_of k.now w.now weights.now }
{
    let n = k.len();
    (n == w.len()) & (n == weights.len())
}

// The sums over all observations; where their lengths differ nothing evaluates.
pub fn sums_of(s: SviSlice, k: &[f64], w: &[f64], weights: &[f64]) -> Sums
    ensures { result ≡ matched_sums s k.now w.now weights.now }
{
    if matched(k, w, weights) {
        return summed(s, k, w, weights);
    }
    Sums::default()
}

pub fn params_hold(config: FitConfig, a_max: f64, objective: f64, t: Sums) -> bool
    ensures { result ≡ params_hold config a_max objective t }
{
    let allowed = 1e-9 * objective + config.feasibility_tolerance * t.weight * a_max * a_max;
    t.ok & bits::is_finite(t.params) & (t.params <= objective + allowed)
}

pub fn rmse_of(t: Sums, n: usize) -> f64
    ensures { result ≡ rmse_of t n }
{
    roots::sqrt(t.squares / std::num::nearest_u64_to_f64(n as u64))
}

pub fn rmse_holds(config: FitConfig, rmse: f64) -> bool
    ensures { result ≡ rmse_holds config rmse }
{
    bits::is_finite(rmse) & (rmse <= config.max_rmse_vol)
}
