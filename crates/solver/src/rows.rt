// The elimination, in six rows of eight numbers: six columns, the right side, and one that is not used. A system of n unknowns stands in the LAST n rows and columns,
// so that each column is at a place that the compiler knows, whatever the size: it writes every column's loops out, two numbers at a time.
ghost use Rattle.std.specs.Prelude.{◌≡◌, true, false, ℕ, ◌+◌, ◌-◌, ◌*◌, ◌≤◌, ◌<◌, replicate, IfOk, MatchOption};
ghost use Rattle.std.specs.Option.{is_some};
ghost use Rattle.laws.specs.Floats.{◌/f◌, +0};
ghost use Rattle.solver.specs.Rows.{spot, room, reduced, counted, eliminated, pivot_in, swap_in, row_in, clear_in, from_in, most_of, most_from, tail_in, back_in, back_from, solved_in, updates_in};

// A system's unknowns in the last places of six numbers, where it has any, and how many entries its elimination updates.
#[derive(Clone, Copy)]
pub(crate) struct Unknowns {
    pub(crate) x: Option<[f64; 6]>,
    pub(crate) updates: usize,
}

// The row from `col` on with the largest magnitude in its column: the last of equal ones, and a NaN is above all.
// Two jumps, each mostly one way, let the processor go on with the row that it expects.
fn pivot(m: &[f64; 48], col: usize) -> usize
    requires { col < 6 }
    ensures { (result ≡ pivot_in col m.now) × (result < 6) }
{
    let mut p = col;
    let mut top = bits::unsigned(m[col * 8 + col]);
    // Stays: the index is what is looked for, and a column of rows in one array is no slice.
    for i in col + 1..6 {
        let size = bits::unsigned(m[i * 8 + col]);
        if top <= size {
            p = i;
            top = size;
        } else if size.is_nan() {
            p = i;
            top = size;
        }
    }
    p
}

// Rows a and b change places from column a on; a row with itself needs no work.
fn swap(m: &mut [f64; 48], a: usize, b: usize)
    requires { (a < 6) × (b < 6) }
    ensures { m.new ≡ swap_in a b m.old }
{
    if a == b {
        return;
    }
    for j in a..7 {
        m.swap(a * 8 + j, b * 8 + j);
    }
}

// A row less its factor times the pivot's row, from the next column on: its own column is not looked at again, but the definition updates it, so it counts.
// A zero factor leaves the row as it is. `left` is what was counted with all that may still come: only a row that is left as it is takes its entries off, so that any other costs nothing.
fn less(m: &mut [f64; 48], col: usize, row: usize, left: usize) -> usize
    requires { (col < 6) × (row < 6) × (6 - col ≤ left) }
    ensures { (u rest : ℕ) → u + (6 - col) + rest ≡ left → (reduced true m.new (result - rest) ≡ row_in col row (spot m.old row col /f spot m.old col col) (reduced true m.old u)) × (rest ≤ result) }
{
    let factor = m[row * 8 + col] / m[col * 8 + col];
    if factor == 0.0 {
        return left - (6 - col);
    }
    // Stays: a row is written from another of the same array, and nothing is known of what a `zip` of `iter_mut` writes.
    for j in col + 1..7 {
        let k = row * 8 + j;
        let l = col * 8 + j;
        m[k] -= factor * m[l];
    }
    left
}

fn clear(m: &mut [f64; 48], col: usize, left: usize) -> usize
    requires { (col < 6) × ((6 - (col + 1)) * (6 - col) ≤ left) }
    ensures { (u rest : ℕ) → u + (6 - (col + 1)) * (6 - col) + rest ≡ left → (reduced true m.new (result - rest) ≡ clear_in col (reduced true m.old u)) × (rest ≤ result) }
{
    let mut now_left = left;
    for row in col + 1..6 {
        now_left = less(m, col, row, now_left);
    }
    now_left
}

// How many entries an elimination of n unknowns updates where no factor is zero.
fn most(n: usize) -> usize
    requires { (1 ≤ n) × (n ≤ 6) }
    ensures { result ≡ most_of n }
{
    n * (n * n - 1) / 3
}

// Stays: the rows, n and the limit are parameters of their own. In a struct lent by `&mut` each contract would have to say besides that n and the limit stay as they are.
// One column, where the system has it: its pivot is found, tested and brought up, and the rows below it are cleared. What is left of the count goes on; a pivot of at most the limit refuses, and its count is
// without the updates of the columns that are left. The column is a const parameter, so that each has code of its own, with every place known.
fn column<const COL: usize>(
    m: &mut [f64; 48],
    n: usize,
    limit: f64,
    left: usize,
) -> Result<usize, usize>
    requires { (COL < 6) × (1 ≤ n) × (most_from COL n ≤ left) }
    ensures rows { from_in (COL + 1) n limit (counted (COL + 1) n result m.new) ≡ from_in COL n limit (reduced true m.old (left - most_from COL n)) }
    ensures fits { IfOk result (λ still. most_from (COL + 1) n ≤ still) }
{
    if n < 6 - COL {
        return Ok(left);
    }
    let p = pivot(m, COL);
    let small = bits::unsigned(m[p * 8 + COL]) <= limit;
    if small {
        return Err(left - most(6 - COL));
    }
    swap(m, COL, p);
    Ok(clear(m, COL, left))
}

// The six columns in turn: how many entries were updated, also up to a refusal.
// Stays: a call for each column, as for each row in `back`, where a loop takes 17 % more instructions in a cell of all faces.
fn eliminate(m: &mut [f64; 48], n: usize, limit: f64) -> Result<usize, usize>
    requires { (1 ≤ n) × (n ≤ 6) }
    ensures { eliminated result m.new ≡ from_in 0 n limit (reduced true m.old 0) }
{
    let left = column::<0>(m, n, limit, most(n))?;
    let left = column::<1>(m, n, limit, left)?;
    let left = column::<2>(m, n, limit, left)?;
    let left = column::<3>(m, n, limit, left)?;
    let left = column::<4>(m, n, limit, left)?;
    column::<5>(m, n, limit, left)
}

fn tail(m: &[f64; 48], x: &[f64; 6], row: usize) -> f64
    requires { row < 6 }
    ensures { result ≡ tail_in m.now x.now row }
{
    let mut tail = 0.0;
    // Stays: a `zip` of two ranges would begin at row * 9 + 1 in the one and at row + 1 in the other.
    for j in row + 1..6 {
        tail += m[row * 8 + j] * x[j];
    }
    tail
}

// The unknown of a row, where the system has it: one that is not finite refuses. The row is a const parameter, as the column is.
#[tactic(auto, using(crate::proofs::Steps::row_left_out, crate::proofs::Steps::row_known))]
fn unknown<const ROW: usize>(m: &[f64; 48], n: usize, x: &mut [f64; 6]) -> Option<()>
    requires { ROW < 6 }
    ensures { back_from (6 - ROW) n m.now (room (is_some result) x.new) ≡ back_from (5 - ROW) n m.now (room true x.old) }
{
    if n < 6 - ROW {
        return Some(());
    }
    let v = (m[ROW * 8 + 6] - tail(m, x, ROW)) / m[ROW * 8 + ROW];
    x[ROW] = v;
    if bits::is_finite(v) { Some(()) } else { None }
}

// The unknowns from the last up.
fn back(m: &[f64; 48], n: usize) -> Option<[f64; 6]>
    requires { n ≤ 6 }
    ensures { MatchOption result ((back_in n m.now (replicate 6 +0)).ok ≡ false) (λ x. room true x ≡ back_in n m.now (replicate 6 +0)) }
{
    let mut x = [0.0; 6];
    unknown::<5>(m, n, &mut x)?;
    unknown::<4>(m, n, &mut x)?;
    unknown::<3>(m, n, &mut x)?;
    unknown::<2>(m, n, &mut x)?;
    unknown::<1>(m, n, &mut x)?;
    unknown::<0>(m, n, &mut x)?;
    Some(x)
}

// The system of n unknowns in the last n rows and columns of m, its right side in column 6. A pivot of at most the limit refuses, and so does an unknown that is not finite.
// One piece of code for all callers, which know the size.
#[inline(never)]
pub(crate) fn solve_rows(m: &mut [f64; 48], n: usize, limit: f64) -> Unknowns
    requires { (1 ≤ n) × (n ≤ 6) }
    ensures unknowns { MatchOption result.x ((solved_in n limit m.old (replicate 6 +0)).ok ≡ false) (λ x. room true x ≡ solved_in n limit m.old (replicate 6 +0)) }
    ensures counted { result.updates ≡ updates_in n limit m.old }
{
    match eliminate(m, n, limit) {
        Ok(updates) => Unknowns {
            x: back(m, n),
            updates,
        },
        Err(updates) => Unknowns { x: None, updates },
    }
}
