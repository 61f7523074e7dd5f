// The lines of an answer.
ghost use Rattle.std.specs.Prelude.{◌+◌, ◌*◌, ◌/◌, ◌≤◌, ◌≡◌, length};
ghost use Rattle.text.specs.Place.{Says, longest};
ghost use Rattle.text.specs.Digits.{each};
ghost use Rattle.text.specs.Lines.{line, read_line, fit_line, search_line, margins_line, active_line, capped_line, point_lines, refused_line, refused_floats};

use crate::page::{Figure, Page};
use records::{Counts, FitAnswer};
use slice::SviSlice;

impl Page<'_> {
    fn line<T: Figure>(&mut self, name: &[u8], xs: &[T])
        requires { self.old.at + length name.now + (T.most + 1) * length xs.now + 1 ≤ longest }
        ensures wrote { Says self.old self.new (line name.now (each T.text xs.now)) }
        ensures upper_bound { self.new.at ≤ self.old.at + length name.now + (T.most + 1) * length xs.now + 1 }
    {
        self.text(name);
        self.values(xs);
        self.text(b"\n");
    }

    pub(crate) fn read_line(&mut self, read: usize, kept: usize)
        requires { self.old.at + 52 ≤ longest }
        ensures wrote { Says self.old self.new (read_line read kept) }
        ensures upper_bound { self.new.at ≤ self.old.at + 52 }
    {
        self.text(b"read");
        self.values(&[read]);
        self.line(b" kept", &[kept]);
    }

    pub(crate) fn fit_line(&mut self, s: SviSlice)
        requires { self.old.at + 106 ≤ longest }
        ensures wrote { Says self.old self.new (fit_line s) }
        ensures upper_bound { self.new.at ≤ self.old.at + 106 }
    {
        self.line(b"fit", &[s.tau, s.a, s.b, s.rho, s.m, s.sigma]);
    }

    pub(crate) fn search_line(&mut self, n: Counts)
        requires { self.old.at + 133 ≤ longest }
        ensures wrote { Says self.old self.new (search_line n) }
        ensures upper_bound { self.new.at ≤ self.old.at + 133 }
    {
        let ns = [
            n.passes,
            n.recentres,
            n.shrinks,
            n.cells,
            n.faces,
            n.updates,
        ];
        self.line(b"search", &ns);
    }

    pub(crate) fn margins_line(&mut self, a: FitAnswer)
        requires { self.old.at + 93 ≤ longest }
        ensures wrote { Says self.old self.new (margins_line a) }
        ensures upper_bound { self.new.at ≤ self.old.at + 93 }
    {
        let xs = [
            a.objective,
            a.objective_params,
            a.lee_margin,
            a.a_margin,
            a.rmse_vol,
        ];
        self.line(b"margins", &xs);
    }

    pub(crate) fn active_line(&mut self, active: &[bool; 7])
        requires { self.old.at + 15 ≤ longest }
        ensures wrote { Says self.old self.new (active_line active.now) }
        ensures upper_bound { self.new.at ≤ self.old.at + 15 }
    {
        self.text(b"active ");
        self.marks(active);
        self.text(b"\n");
    }

    pub(crate) fn capped_line(&mut self, capped: &[usize])
        requires { self.old.at + 28 + 21 * length capped.now ≤ longest }
        ensures wrote { Says self.old self.new (capped_line capped.now) }
        ensures upper_bound { self.new.at ≤ self.old.at + 28 + 21 * length capped.now }
    {
        self.text(b"capped");
        self.values(&[capped.len()]);
        self.line(b"", capped);
    }

    // One for each four numbers.
    pub(crate) fn point_lines(&mut self, residuals: &[f64])
        requires { self.old.at + 74 * (length residuals.now / 4) ≤ longest }
        ensures wrote { Says self.old self.new (point_lines residuals.now) }
        ensures upper_bound { self.new.at ≤ self.old.at + 74 * (length residuals.now / 4) }
    {
        let (points, _) = residuals.as_chunks::<4>();
        for point in points {
            self.line(b"point", point);
        }
    }

    pub(crate) fn refused_line(&mut self, number: u32, x: usize, y: usize)
        requires { self.old.at + 71 ≤ longest }
        ensures wrote { Says self.old self.new (refused_line number x y) }
        ensures upper_bound { self.new.at ≤ self.old.at + 71 }
    {
        self.line(b"refused", &[number as usize, x, y]);
    }

    // 9, the one refusal whose values are floats.
    pub(crate) fn refused_floats(&mut self, x: f64, y: f64)
        requires { self.old.at + 63 ≤ longest }
        ensures wrote { Says self.old self.new (refused_floats x y) }
        ensures upper_bound { self.new.at ≤ self.old.at + 63 }
    {
        self.text(b"refused");
        self.values(&[9usize]);
        self.line(b"", &[x, y]);
    }
}
