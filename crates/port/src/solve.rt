// The solver, and one cell of the search, for callers outside.
ghost use Rattle.std.specs.Prelude.{◌≡◌, [], ◌∷◌};
ghost use Rattle.solver.specs.Solve.{solve_of};
ghost use Rattle.cell.specs.Cell.{inner_of};
ghost use Rattle.rows.specs.Flag.{flag};
ghost use Rattle.rows.specs.Rows.{read_limits, cell_counts, cell_values};

// m x = rhs in n unknowns: 1 where there is a solution, else 0. m: six rows of six; x: the six numbers of the solution.
// updates: how many entries of the matrix the elimination updates, also before a refusal.
pub fn port_raw_solve(
    m: &[f64; 36],
    rhs: &[f64; 6],
    n: usize,
    tol: f64,
    x: &mut [f64; 6],
    updates: &mut [usize; 1],
) -> u32
    ensures value { result ≡ flag (solve_of n m.now rhs.now tol).ok }
    ensures x_after { x.new ≡ (solve_of n m.now rhs.now tol).x }
    ensures updates_after { updates.new ≡ (solve_of n m.now rhs.now tol).updates ∷ [] }
{
    let a = *m;
    let b = *rhs;
    let s = solver::solve(a, b, n, tol);
    let y = s.x;
    *x = y;
    *updates = [s.updates];
    u32::from(s.ok)
}

// The cell (m, sigma) over observations k, w and scaled weights: 1 where a face qualifies, else 0.
// limits: a_min, a_max, pivot_tolerance, feasibility_tolerance; counts: the faces tried, and the entries that their eliminations update; values: the objective, then x; active: the seven constraints.
pub fn port_raw_cell(
    k: &[f64],
    w: &[f64],
    scaled: &[f64],
    limits: &[f64; 4],
    m: f64,
    sigma: f64,
    counts: &mut [usize; 2],
    values: &mut [f64; 4],
    active: &mut [bool; 7],
) -> u32
    ensures value { result ≡ flag (inner_of k.now w.now scaled.now (read_limits limits.now) m sigma).some }
    ensures counts_after { counts.new ≡ cell_counts (inner_of k.now w.now scaled.now (read_limits limits.now) m sigma) }
    ensures values_after { values.new ≡ cell_values (inner_of k.now w.now scaled.now (read_limits limits.now) m sigma) }
    ensures active_after { active.new ≡ (inner_of k.now w.now scaled.now (read_limits limits.now) m sigma).active }
{
    let c = cell::inner(k, w, scaled, rows::fits::read_limits(limits), m, sigma);
    *counts = [c.faces, c.updates];
    let x = c.x;
    *values = [c.objective, x[0], x[1], x[2]];
    let marks = c.active;
    *active = marks;
    u32::from(c.some)
}
