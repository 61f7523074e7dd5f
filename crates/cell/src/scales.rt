// The scales of a cell's systems, each worked out once: that of the empty face is the largest magnitude of the block; every other face has a constraint with an entry of magnitude 1, and none of more.
ghost use Rattle.std.specs.Prelude.{◌≡◌};
ghost use Rattle.solver.specs.Rows.{NotBelowZero};
ghost use Rattle.cell.specs.Shared.{line_scale, empty_scale};

// The largest of acc and three magnitudes. A -0 is not above +0, so its sign may stay.
fn line_scale(acc: f64, x: f64, y: f64, z: f64) -> f64
    requires { NotBelowZero acc }
    ensures { (result ≡ line_scale acc x y z) × NotBelowZero result }
{
    let a = bits::larger(acc, bits::unsigned(x));
    let b = bits::larger(a, bits::unsigned(y));
    bits::larger(b, bits::unsigned(z))
}

// The scale of the empty face.
pub(crate) fn block_scale(b: &[f64; 12]) -> f64
    ensures { result ≡ empty_scale b.now }
{
    let n = crate::least::lines(b);
    let a = line_scale(0.0, n.a.q0, n.a.q1, n.a.q2);
    let d = line_scale(a, n.d.q0, n.d.q1, n.d.q2);
    line_scale(d, n.c.q0, n.c.q1, n.c.q2)
}
