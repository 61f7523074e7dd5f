// The weighted least squares at (m, sigma): the rows (1, y, h) of the observations, the normal equations, the objective.
ghost use Rattle.std.specs.Prelude.{◌≡◌, ◌≤◌, ◌<◌, length};
ghost use Rattle.laws.specs.Floats.{at};
ghost use Rattle.laws.specs.Room.{filled_on};
ghost use Rattle.cell.specs.Least.{y_of, line_of, with_observation, normal_equations};
ghost use Rattle.cell.specs.Shared.{doubled_of, line_at, lines_of};
ghost use Rattle.cell.specs.Inner.{goal_of};

use crate::data::Data;
use crate::{Line, Normal};

// (k - m) / sigma of each observation, where it is to stand.
pub(crate) fn fill_ys(ks: &[f64], m: f64, sigma: f64, ys: &mut [f64; 256])
    requires { length ks.now ≤ 256 }
    ensures { ys.new ≡ filled_on (length ks.now) (y_of ks.now m sigma) ys.old }
{
    for (i, k) in ks.iter().enumerate() {
        ys[i] = (*k - m) / sigma;
    }
}

#[tactic(auto, unfolding(crate::specs::Least::line_of))]
fn line_plus(l: Line, s: f64, y: f64, h: f64, w: f64) -> Line
    ensures { result ≡ line_of l s y h w }
{
    Line {
        lin: l.lin + s * w,
        q0: l.q0 + s * 1.0,
        q1: l.q1 + s * y,
        q2: l.q2 + s * h,
    }
}

#[tactic(auto, unfolding(crate::specs::Least::with_observation))]
fn added(n: Normal, t: f64, y: f64, h: f64, w: f64) -> Normal
    ensures { result ≡ with_observation n t y h w }
{
    let a = line_plus(n.a, t * 1.0, y, h, w);
    let d = line_plus(n.d, t * y, y, h, w);
    let c = line_plus(n.c, t * h, y, h, w);
    Normal { a, d, c }
}

// Twice the normal equations: the block of the systems of all faces.
pub(crate) fn doubled(n: Normal) -> [f64; 12]
    ensures { result ≡ doubled_of n }
{
    [
        2.0 * n.a.q0,
        2.0 * n.a.q1,
        2.0 * n.a.q2,
        2.0 * n.a.lin,
        2.0 * n.d.q0,
        2.0 * n.d.q1,
        2.0 * n.d.q2,
        2.0 * n.d.lin,
        2.0 * n.c.q0,
        2.0 * n.c.q1,
        2.0 * n.c.q2,
        2.0 * n.c.lin,
    ]
}

// Line of the block from place o on.
fn line_at(b: &[f64; 12], o: usize) -> Line
    requires { o < 9 }
    ensures { result ≡ line_at o b.now }
{
    Line {
        lin: b[o + 3],
        q0: b[o],
        q1: b[o + 1],
        q2: b[o + 2],
    }
}

// The block by its lines.
pub(crate) fn lines(b: &[f64; 12]) -> Normal
    ensures { result ≡ lines_of b.now }
{
    let a = line_at(b, 0);
    let d = line_at(b, 4);
    let c = line_at(b, 8);
    Normal { a, d, c }
}

impl Data<'_> {
    pub(crate) fn normal_equations(&self) -> Normal
        ensures { result ≡ normal_equations (at self.now.ys.now) (at self.now.hs.now) self.now.ws.now self.now.weights.now }
    {
        let mut n = Normal::default();
        for (i, w) in self.ws.iter().enumerate() {
            n = added(n, self.weights[i], self.ys[i], self.hs[i], *w);
        }
        n
    }

    // The weighted sum of squares at x, summed directly.
    pub(crate) fn objective(&self, x: &[f64; 3]) -> f64
        ensures { result ≡ goal_of self.now x.now }
    {
        let mut acc = 0.0;
        for (i, w) in self.ws.iter().enumerate() {
            let r = x[0] + x[1] * self.ys[i] + x[2] * self.hs[i] - *w;
            acc += self.weights[i] * r * r;
        }
        acc
    }
}
