// Gaussian elimination with partial pivoting: `solve_linear` of calibrate.rs, for any size up to 6.
// The matrix is 6 by 6, row by row, of which the first n rows and columns count.
#![tactic(auto)]

mod rows;

ghost use Rattle.std.specs.Prelude.{◌≡◌, ◌+◌, ◌≤◌, ◌<◌};
ghost use Rattle.laws.specs.Floats.{+0};
ghost use Rattle.solver.specs.Solve.{refused, row_scale_of, scale_of, under_of, solve_of};
ghost use Rattle.solver.specs.Rows.{NotBelowZero, placed_row, placed_of, front_of, answer_of};

// The unknowns, and whether there is a solution; what is no unknown is 0.
// Stays: a public type, which `solve_of`, `under_of` and the theorems about them read as a record with `ok`. The six numbers come first: behind the bool they would be copied from an odd address.
// `updates` is how many entries of the matrix the elimination as defined updates, also one that is refused: it is the same whichever way the code takes.
#[derive(Clone, Copy)]
pub struct Solved {
    pub x: [f64; 6],
    pub ok: bool,
    pub updates: usize,
}

// The number itself. A signalling NaN comes out as a quiet one: to the definitions they are one NaN, but a machine's maximum may answer a signalling one with a NaN, where a quiet one is passed over.
fn quiet(x: f64) -> f64
    ensures { result ≡ x }
{
    if x.is_nan() { f64::NAN } else { x }
}

// Stays: `n ≤ 6` in the contracts below. With a type of its own for a size each of their lines would have a field in place of n, and each caller a match.
// The largest magnitude of a row, from +0 on: no row waits for the one before. A -0 is not above +0, so its sign may stay.
fn row_scale(m: &[f64; 36], n: usize, i: usize) -> f64
    requires { (n ≤ 6) × (i < 6) }
    ensures { (result ≡ row_scale_of n m.now i +0) × NotBelowZero result }
{
    let mut acc = 0.0;
    for x in &m[i * 6..i * 6 + n] {
        acc = bits::larger(acc, bits::unsigned(quiet(*x)));
    }
    acc
}

fn scale_of(m: &[f64; 36], n: usize) -> f64
    requires { n ≤ 6 }
    ensures { result ≡ scale_of n m.now }
{
    let mut acc = 0.0;
    // Stays: `chunks_exact(6).take(n)` would give rows of six, of which n numbers count.
    for i in 0..n {
        acc = bits::larger(acc, row_scale(m, n, i));
    }
    acc
}

// Row i of the matrix in its place among six rows of eight.
fn place_row(t: &mut [f64; 48], m: &[f64; 36], n: usize, i: usize)
    requires { (n ≤ 6) × (i < n) }
    ensures { t.new ≡ placed_row n m.now i t.old }
{
    // Stays: with `copy_from_slice` a cell of all faces takes 72 % more instructions, since `solve_under` is then no part of its callers.
    for j in 0..n {
        let k = (6 - n + i) * 8 + (6 - n + j);
        let l = i * 6 + j;
        t[k] = m[l];
    }
}

// The system in the last n rows and columns of six rows of eight, its right side in column 6.
fn place(m: &[f64; 36], rhs: &[f64; 6], n: usize) -> [f64; 48]
    requires { n ≤ 6 }
    ensures { result ≡ placed_of n m.now rhs.now }
{
    let mut t = [0.0; 48];
    // Stays: i is a row of the matrix, of the right side and of what is written.
    for i in 0..n {
        place_row(&mut t, m, n, i);
        let k = (6 - n + i) * 8 + 6;
        t[k] = rhs[i];
    }
    t
}

// The last n of six numbers, first.
fn first(x: &[f64; 6], n: usize) -> [f64; 6]
    requires { n ≤ 6 }
    ensures { result ≡ front_of n x.now }
{
    let mut r = [0.0; 6];
    r[..n].copy_from_slice(&x[6 - n..]);
    r
}

// No solution, after so many updates.
fn refused(updates: usize) -> Solved
    ensures { result ≡ refused updates }
{
    Solved {
        x: [0.0; 6],
        ok: false,
        updates,
    }
}

// The answer of a system in its rows, in its caller's code, which knows the size.
#[inline(always)]
fn answer(t: &mut [f64; 48], n: usize, limit: f64) -> Solved
    requires { (1 ≤ n) × (n ≤ 6) }
    ensures { result ≡ answer_of n limit t.old }
{
    let s = rows::solve_rows(t, n, limit);
    match s.x {
        Some(x) => Solved {
            x: first(&x, n),
            ok: true,
            updates: s.updates,
        },
        None => refused(s.updates),
    }
}

// m x = rhs in n unknowns, or a refusal: a size other than 1 to 6 (no updates), a pivot of at most the limit, or a value that is not finite.
// Where a caller names the size, the compiler writes the system to its rows without a copy; `solve_rows` stays one piece of code.
pub fn solve_under(m: [f64; 36], rhs: [f64; 6], n: usize, limit: f64) -> Solved
    ensures { result ≡ under_of n m rhs limit }
{
    if !((0 < n) & (n <= 6)) {
        return refused(0);
    }
    answer(&mut place(&m, &rhs, n), n, limit)
}

// The same with a limit of tol times the scale. Refused are n above 6 and no positive finite scale (no updates), a pivot of at most the limit, and a value that is not finite.
pub fn solve(m: [f64; 36], rhs: [f64; 6], n: usize, tol: f64) -> Solved
    ensures { result ≡ solve_of n m rhs tol }
{
    if 6 < n {
        return refused(0);
    }
    let scale = scale_of(&m, n);
    if !bits::is_positive(scale) {
        return refused(0);
    }
    answer(&mut place(&m, &rhs, n), n, tol * scale)
}
