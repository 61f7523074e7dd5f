// The observations of a cell, at (m, sigma).
ghost use Rattle.std.specs.Prelude.{◌≡◌, ◌≤◌, length};

// The rows y and h at the front of lent room, and w and the weight of each.
#[derive(Clone, Copy)]
pub(crate) struct Data<'a> {
    pub(crate) ys: &'a [f64; 256],
    pub(crate) hs: &'a [f64; 256],
    pub(crate) ws: &'a [f64],
    pub(crate) weights: &'a [f64],
    ghost fits: { length ws.now ≤ 256 },
    ghost weighted: { length weights.now ≡ length ws.now },
}
