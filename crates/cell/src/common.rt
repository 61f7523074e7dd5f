// What the systems of all faces of a cell have in common.
ghost use Rattle.std.specs.Prelude.{◌≡◌};
ghost use Rattle.polytope.specs.Polytope.{rows_of};
ghost use Rattle.cell.specs.Shared.{empty_scale, other_scale, Scaled};

// The block, the rows and bounds of the constraints, the pivots' tolerance and the slack; and the scale of the empty face, from which every other one's follows.
#[derive(Clone, Copy)]
pub(crate) struct Common {
    pub(crate) b: [f64; 12],
    pub(crate) g: [f64; 21],
    pub(crate) h: [f64; 7],
    pub(crate) pivot: f64,
    pub(crate) slack: f64,
    pub(crate) scale: f64,
    ghost rows: { g ≡ rows_of },
    ghost scaled: { scale ≡ empty_scale b },
    ghost others: { Scaled b (other_scale b) },
}
