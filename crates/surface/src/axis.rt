// The two axes of a diagnostic grid, lent.
ghost use Rattle.std.specs.Prelude.{◌≡◌, length};
ghost use Rattle.std.specs.List.{list_all};
ghost use Rattle.laws.specs.Floats.{finite};
ghost use Rattle.refusals.specs.Numbers.{number_in};
ghost use Rattle.surface.specs.Runs.{rises_of};
ghost use Rattle.surface.specs.Axis.{rising_of, all_positive, grid_number, held_of};

use refusals::Refusal;

// Whether each value is above the one before it.
pub(crate) fn rises(v: &[f64]) -> bool
    ensures { result ≡ rises_of v.now (length v.now) }
{
    v.iter()
        .zip(v.iter().skip(1))
        .all(|(before, x)| *before < *x)
}

fn all_finite(v: &[f64]) -> bool
    ensures { result ≡ list_all finite v.now }
{
    v.iter().all(|x| bits::is_finite(*x))
}

// Whether an axis has values, all finite, each above the one before it.
pub fn rising(v: &[f64]) -> bool
    ensures { result ≡ rising_of v.now }
{
    if v.is_empty() {
        return false;
    }
    all_finite(v) & rises(v)
}

fn all_positive(v: &[f64]) -> bool
    ensures { result ≡ all_positive v.now }
{
    v.iter().all(|x| 0.0 < *x)
}

// 40 for the k axis, then 41 for the tau axis.
pub fn check_axes(k: &[f64], tau: &[f64]) -> Result<(), Refusal>
    ensures { number_in result ≡ grid_number k.now tau.now }
{
    if !rising(k) {
        return Err(Refusal::KAxis);
    }
    if rising(tau) & all_positive(tau) {
        return Ok(());
    }
    Err(Refusal::TauAxis)
}

// Whether the axis holds a value with the bits of x.
pub fn holds(v: &[f64], x: f64) -> bool
    ensures { result ≡ held_of v.now x }
{
    let bits = bits::bits_of(x);
    v.iter().any(|y| bits::bits_of(*y) == bits)
}
