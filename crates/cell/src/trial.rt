// One face: its KKT system, its point, and whether that is a candidate.
ghost use Rattle.std.specs.Prelude.{◌≡◌, ◌<◌, Float, List};
ghost use Rattle.faces.specs.Next.{Good};
ghost use Rattle.cell.specs.Cell.{slot_of, kkt_of, rhs_of, valued_of, tried_of, pick_of};
ghost use Rattle.cell.specs.Shared.{block_of, side_of, system_answer};
ghost use Rattle.cell.specs.Inner.{problem_with, point_tried};

use crate::common::Common;
use crate::{Point, Tried};
use faces::Face;
use solver::Solved;

// Constraint c as row and column r of the matrix.
fn slot(m: &mut [f64; 36], g: &[f64; 21], c: usize, r: usize)
    requires { (c < 7) × (r < 6) }
    ensures { m.new ≡ slot_of g.now 3 c r m.old }
{
    // Stays: j is a row and a column of the matrix, which are no slices together.
    for j in 0..3 {
        let v = g[c * 3 + j];
        m[r * 6 + j] = v;
        m[j * 6 + r] = v;
    }
}

// Stays: `Good` in four of these contracts. The face is a public type with open fields, and one round it for four private functions is no plainer.
impl Common {
    // The matrix of a face: the block, and each constraint as a further row and column.
    // Stays: with a loop over the constraints here and in `right`, in place of three steps, a cell of all faces takes 15 % more instructions.
    #[tactic(auto, using(crate::proofs::Systems::kkt_none, crate::proofs::Systems::kkt_one, crate::proofs::Systems::kkt_two, crate::proofs::Systems::kkt_three))]
    fn kkt(&self, f: Face) -> [f64; 36]
        requires { Good 3 7 f }
        ensures { result ≡ kkt_of (block_of self.now.b) self.now.g 3 f }
    {
        let b = &self.b;
        let mut m = [
            b[0], b[1], b[2], 0.0, 0.0, 0.0, b[4], b[5], b[6], 0.0, 0.0, 0.0, b[8], b[9], b[10],
            0.0, 0.0, 0.0, 0.0, 0.0, 0.0, 0.0, 0.0, 0.0, 0.0, 0.0, 0.0, 0.0, 0.0, 0.0, 0.0, 0.0,
            0.0, 0.0, 0.0, 0.0,
        ];
        if f.size == 0 {
            return m;
        }
        slot(&mut m, &self.g, f.a, 3);
        if f.size == 1 {
            return m;
        }
        slot(&mut m, &self.g, f.b, 4);
        if f.size == 2 {
            return m;
        }
        slot(&mut m, &self.g, f.c, 5);
        m
    }

    // Its right side: that of the block, and the bound of each constraint.
    fn right(&self, f: Face) -> [f64; 6]
        requires { Good 3 7 f }
        ensures { result ≡ rhs_of (side_of self.now.b) self.now.h 3 f }
    {
        let mut t = [self.b[3], self.b[7], self.b[11], 0.0, 0.0, 0.0];
        if f.size == 0 {
            return t;
        }
        t[3] = self.h[f.a];
        if f.size == 1 {
            return t;
        }
        t[4] = self.h[f.b];
        if f.size == 2 {
            return t;
        }
        t[5] = self.h[f.c];
        t
    }

    // The answer of a face's system. Each size has a call of its own, so that the compiler knows every place.
    // Stays: with one call, whose size is no constant, a cell takes 23 to 55 % more instructions (docs/SPEED.md).
    #[tactic(auto, using(crate::proofs::Systems::answers))]
    fn solution(&self, limit: f64, f: Face) -> Solved
        requires { Good 3 7 f }
        ensures { result ≡ system_answer self.now.b self.now.g self.now.h limit f }
    {
        let m = self.kkt(f);
        let rhs = self.right(f);
        if f.size == 3 {
            return solver::solve_under(m, rhs, 6, limit);
        }
        if f.size == 2 {
            return solver::solve_under(m, rhs, 5, limit);
        }
        if f.size == 1 {
            return solver::solve_under(m, rhs, 4, limit);
        }
        solver::solve_under(m, rhs, 3, limit)
    }

    // The point of a face where it is solved and feasible.
    pub(crate) fn candidate(&self, limit: f64, f: Face) -> Point
        requires { Good 3 7 f }
        ensures work { result.updates ≡ (system_answer self.now.b self.now.g self.now.h limit f).updates }
        ensures tried { (o : List Float → Float) → tried_of o (problem_with self.now) f (system_answer self.now.b self.now.g self.now.h limit f) ≡ point_tried o f result.x }
    {
        let s = self.solution(limit, f);
        let x = [s.x[0], s.x[1], s.x[2]];
        if s.ok {
            if polytope::feasible(&self.h, &x, self.slack) {
                return Point {
                    x: Some(x),
                    updates: s.updates,
                };
            }
        }
        Point {
            x: None,
            updates: s.updates,
        }
    }
}

// A candidate with the objective v takes the best one's place where v is finite and smaller: the earlier face stays on a tie.
pub(crate) fn judged(best: Tried, f: Face, x: [f64; 3], v: f64) -> Tried
    ensures { result ≡ pick_of (valued_of f x v) best }
{
    if bits::is_finite(v) & (!best.some | (v < best.objective)) {
        return Tried {
            some: true,
            objective: v,
            x,
            face: f,
        };
    }
    best
}
