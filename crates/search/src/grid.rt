// A pass: the best cell of a window's grid.
ghost use Rattle.std.specs.Prelude.{◌≡◌, ◌^◌, ◌≤◌, ◌<◌, take};
ghost use Rattle.laws.specs.Room.{filled_on};
ghost use Rattle.cell.specs.Cell.{no_cell, inner_of};
ghost use Rattle.search.specs.Search.{better, consider, grid_row, pass_of};
ghost use Rattle.search.specs.Run.{fit_cell};
ghost use Rattle.search.specs.Sigmas.{sigma_at, sigmas_of};

use cell::{Cell, Limits};
use moves::{Axis, PassBest, Window, points};

// sigma at each point of the axis of ln sigma, once for all rows.
fn fill_sigmas(a: Axis, n: usize, sigmas: &mut [f64; 256])
    requires { n ≤ 255 }
    ensures { sigmas.new ≡ filled_on n (sigma_at a n) sigmas.old }
{
    // Stays: of iter_mut under enumerate no promise says what it leaves.
    for j in 0..n {
        sigmas[j] = exponent::exp(points::linspace_at(a.lo, a.hi, n, j));
    }
}

// What the cells of a fit are made from.
#[derive(Clone, Copy)]
pub(crate) struct Task<'a> {
    pub(crate) ks: &'a [f64],
    pub(crate) ws: &'a [f64],
    pub(crate) weights: &'a [f64],
    pub(crate) l: Limits,
}

// Room that is used for every cell of a pass.
#[derive(Drop)]
struct Rooms {
    ys: [f64; 256],
    hs: [f64; 256],
}

fn cell_at(o: Task, m: f64, sigma: f64, rooms: &mut Rooms) -> Cell
    ensures { result ≡ inner_of o.entry.ks.now o.entry.ws.now o.entry.weights.now o.entry.l m sigma }
{
    cell::inner_on(
        o.ks,
        o.ws,
        o.weights,
        o.l,
        m,
        sigma,
        &mut rooms.ys,
        &mut rooms.hs,
    )
}

fn better_than(c: Cell, b: Cell) -> bool
    ensures { result ≡ better c b }
{
    c.some & (!b.some | (c.objective < b.objective))
}

// The best so far is left where it stands unless the cell wins.
fn considered(b: PassBest, c: Cell, i: usize, j: usize) -> PassBest
    requires { (b.cells < 2 ^ 60) × (b.faces < 2 ^ 60) × (c.faces < 2 ^ 60) × (b.updates < 2 ^ 60) × (c.updates < 2 ^ 60) }
    ensures { result ≡ consider b c i j }
{
    let cells = b.cells + 1;
    let faces = b.faces + c.faces;
    let updates = b.updates + c.updates;
    if better_than(c, b.cell) {
        return PassBest {
            cell: c,
            i,
            j,
            cells,
            faces,
            updates,
        };
    }
    PassBest {
        cells,
        faces,
        updates,
        ..b
    }
}

// Row i of the grid: of equal cells the earlier wins.
fn row(
    o: Task,
    w: Window,
    n: usize,
    sigmas: &[f64],
    rooms: &mut Rooms,
    i: usize,
    b: PassBest,
) -> PassBest
    requires { (n ≤ 255) × (b.cells < 2 ^ 50) × (b.faces < 2 ^ 50) × (b.updates < 2 ^ 50) × (sigmas.now ≡ take n (sigmas_of w.s n)) }
    ensures { result ≡ grid_row (fit_cell o.entry.ks.now o.entry.ws.now o.entry.weights.now o.entry.l) w n i b }
{
    let m = points::linspace_at(w.m.lo, w.m.hi, n, i);
    let mut best = b;
    for (j, sigma) in sigmas.iter().enumerate() {
        let c = cell_at(o, m, *sigma, rooms);
        best = considered(best, c, i, j);
    }
    best
}

pub(crate) fn no_cell() -> Cell
    ensures { result ≡ no_cell }
{
    Cell::default()
}

// The whole grid, m outside and ln sigma inside.
pub(crate) fn pass(o: Task, w: Window, n: usize) -> PassBest
    requires { n ≤ 255 }
    ensures { result ≡ pass_of (fit_cell o.entry.ks.now o.entry.ws.now o.entry.weights.now o.entry.l) w n }
{
    let mut best = PassBest {
        cell: no_cell(),
        i: 0,
        j: 0,
        cells: 0,
        faces: 0,
        updates: 0,
    };
    let mut sigmas = [0.0; 256];
    let mut rooms = Rooms {
        ys: [0.0; 256],
        hs: [0.0; 256],
    };
    fill_sigmas(w.s, n, &mut sigmas);
    for i in 0..n {
        best = row(o, w, n, &sigmas[..n], &mut rooms, i, best);
    }
    best
}
