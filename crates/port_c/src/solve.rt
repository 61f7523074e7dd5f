// The solver, and one cell of the search, for callers outside.
ghost use Rattle.std.specs.Prelude.{◌≡◌, [], ◌∷◌};
ghost use Rattle.solver.specs.Solve.{solve_of};
ghost use Rattle.cell.specs.Cell.{inner_of};
ghost use Rattle.rows.specs.Flag.{flag};
ghost use Rattle.rows.specs.Rows.{read_limits, cell_counts, cell_values};

#[unsafe(no_mangle)]
pub extern "C" fn port_raw_solve(
    m: &[f64; 36],
    rhs: &[f64; 6],
    n: usize,
    tol: f64,
    x: &mut [f64; 6],
    updates: &mut [usize; 1],
) -> u32
    ensures value { result ≡ flag (solve_of n m.now rhs.now tol).ok }
    ensures x_after { x.new ≡ (solve_of n m.now rhs.now tol).x }
    ensures updates_after { updates.new ≡ (solve_of n m.now rhs.now tol).updates ∷ [] }
{
    port::solve::port_raw_solve(m, rhs, n, tol, x, updates)
}

#[unsafe(no_mangle)]
pub extern "C" fn port_raw_cell(
    k: &[f64],
    w: &[f64],
    scaled: &[f64],
    limits: &[f64; 4],
    m: f64,
    sigma: f64,
    counts: &mut [usize; 2],
    values: &mut [f64; 4],
    active: &mut [bool; 7],
) -> u32
    ensures value { result ≡ flag (inner_of k.now w.now scaled.now (read_limits limits.now) m sigma).some }
    ensures counts_after { counts.new ≡ cell_counts (inner_of k.now w.now scaled.now (read_limits limits.now) m sigma) }
    ensures values_after { values.new ≡ cell_values (inner_of k.now w.now scaled.now (read_limits limits.now) m sigma) }
    ensures active_after { active.new ≡ (inner_of k.now w.now scaled.now (read_limits limits.now) m sigma).active }
{
    port::solve::port_raw_cell(k, w, scaled, limits, m, sigma, counts, values, active)
}
