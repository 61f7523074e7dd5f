// The points of an axis: `linspace`.
ghost use Rattle.std.specs.Prelude.{◌≡◌};
ghost use Rattle.moves.specs.Axis.{last_of, linspace_at};

// n - 1, and at least 1.
fn last_of(n: usize) -> usize
    ensures { result ≡ last_of n }
{
    n.saturating_sub(1).max(1)
}

// Point i of the n from lo to hi.
pub fn linspace_at(lo: f64, hi: f64, n: usize, i: usize) -> f64
    ensures { result ≡ linspace_at lo hi n i }
{
    let last = last_of(n);
    if i == last {
        return hi;
    }
    lo + (hi - lo) * std::num::nearest_u64_to_f64(i as u64)
        / std::num::nearest_u64_to_f64(last as u64)
}
