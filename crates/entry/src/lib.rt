// The entry checks of the fit that come before the weights, and the range of k. Nothing is fitted here.
#![tactic(auto)]

ghost use Rattle.std.specs.Prelude.{◌≡◌, length};
ghost use Rattle.refusals.specs.Numbers.{number_in};
ghost use Rattle.entry.specs.Entry.{lengths_hold, columns_pass, range_of, span_of, checks_number};

use records::FitConfig;
use refusals::Refusal;
use slice::KRange;

fn lengths_hold(k: &[f64], w: &[f64], weight: &[f64], room: usize, slots: usize) -> bool
    ensures { result ≡ lengths_hold k.now w.now weight.now room slots }
{
    let n = k.len();
    (n == w.len()) & (n == weight.len()) & (n * 4 <= room) & (n <= slots)
}

fn all_pass(k: &[f64], w: &[f64], weight: &[f64]) -> bool
    requires { (length w.now ≡ length k.now) × (length weight.now ≡ length k.now) }
    ensures { result ≡ columns_pass k.now w.now weight.now }
{
    k.iter()
        .zip(w)
        .zip(weight)
        .all(|((k, w), t)| records::passes(*k, *w, *t))
}

// The least and the largest k.
pub fn range_of(k: &[f64]) -> KRange
    ensures { result ≡ range_of k.now }
{
    let none = KRange {
        lo: f64::INFINITY,
        hi: -f64::INFINITY,
    };
    k.iter().fold(
        none,
        |t, k| KRange {
            lo: bits::min(t.lo, *k),
            hi: bits::max(t.hi, *k),
        },
    )
}

fn span_of(k: &[f64]) -> f64
    ensures { result ≡ span_of k.now }
{
    let t = range_of(k);
    t.hi - t.lo
}

// The first of the checks 12, 11, 10, 1, 2, 3, 4 that fails.
pub fn checks(
    tau: f64,
    config: FitConfig,
    k: &[f64],
    w: &[f64],
    weight: &[f64],
    room: usize,
    slots: usize,
) -> Result<(), Refusal>
    ensures { number_in result ≡ checks_number tau config k.now w.now weight.now room slots }
{
    if !lengths_hold(k, w, weight, room, slots) {
        return Err(Refusal::Lengths);
    }
    if !records::sizes_hold(k.len(), config) {
        return Err(Refusal::Size);
    }
    if !all_pass(k, w, weight) {
        return Err(Refusal::BadObservation);
    }
    if !config.validate() {
        return Err(Refusal::Settings);
    }
    if !bits::is_positive(tau) {
        return Err(Refusal::Tau);
    }
    if k.len() < config.min_observations {
        return Err(Refusal::TooFew);
    }
    if !bits::is_positive(span_of(k)) {
        return Err(Refusal::NoSpan);
    }
    Ok(())
}
