// One cell (m, sigma) of the search: the least squares over the polytope by trying its faces, `inner` of calibrate.rs.
#![tactic(auto)]

mod common;
mod data;
mod least;
mod scales;
mod trial;

ghost use Rattle.std.specs.Prelude.{◌≡◌, false};
ghost use Rattle.laws.specs.Choice.{unless};
ghost use Rattle.laws.specs.Floats.{at};
ghost use Rattle.faces.specs.Faces.{face_at};
ghost use Rattle.faces.specs.Next.{Good};
ghost use Rattle.cell.specs.Shared.{system_answer};
ghost use Rattle.cell.specs.Cell.{tried_of, try_of, updates_of, pick_of, best_of, cell_from, chosen_of, fit_model, posed_of, in_range, inner_of};
ghost use Rattle.cell.specs.Inner.{goal_of, problem_with};
ghost use Rattle.cell.specs.Lent.{ys_on, hs_on, inner_on};

use common::Common;
use data::Data;
use faces::Face;

// The sizes of a fit's model: how many unknowns, constraints and faces. The definitions take them as a parameter, but their block, rows and bounds are those of a, d and c
// (`problem_of` of specs/Cell), and the code is that of 3, 7 and 64.
#[derive(Clone, Copy)]
pub struct Model {
    pub u: usize,
    pub n: usize,
    pub faces: usize,
}

// What a fit fixes for all its cells.
#[repr(C)]
#[derive(Clone, Copy)]
pub struct Limits {
    pub a_min: f64,
    pub a_max: f64,
    pub pivot_tolerance: f64,
    pub feasibility_tolerance: f64,
}

// One line of the normal equations: its right side, and its three entries.
#[derive(Clone, Copy, Default)]
pub struct Line {
    pub lin: f64,
    pub q0: f64,
    pub q1: f64,
    pub q2: f64,
}

// The normal equations: the lines of a, d and c.
#[derive(Clone, Copy, Default)]
pub struct Normal {
    pub a: Line,
    pub d: Line,
    pub c: Line,
}

// The point of a face, where its system has one that is feasible, and how many entries of its matrix were updated.
#[derive(Clone, Copy)]
pub struct Point {
    pub x: Option<[f64; 3]>,
    pub updates: usize,
}

// A face that was tried: whether it qualifies, its objective, its point and itself. The default does not qualify.
// Stays: the definitions that docs/PROMISES.md names (`try_of`, `face_tried`, `First` ..) and those of search read it as a record with `some`.
#[derive(Clone, Copy, Default)]
pub struct Tried {
    pub some: bool,
    pub objective: f64,
    pub x: [f64; 3],
    pub face: Face,
}

// Faces that were tried: the best of them, and how many entries of their matrices were updated. The work stands beside the try, which it does not change. The default is none.
#[derive(Clone, Copy, Default)]
pub struct Walked {
    pub best: Tried,
    pub updates: usize,
}

// A cell: whether a face qualifies, the best one's objective, point (a, d, c) and constraints, how many faces were tried, and how many entries of their matrices were updated.
// The default is that of no observations. Stays: `some` is read by moves, search, calibrate and port, and by definitions that docs/PROMISES.md names (`Beats`, `First`).
#[repr(C)]
#[derive(Clone, Copy, Default)]
pub struct Cell {
    pub some: bool,
    pub objective: f64,
    pub x: [f64; 3],
    pub active: [bool; 7],
    pub faces: usize,
    pub updates: usize,
}

// A face tried after others, the best of which is at hand. One that is no candidate leaves the best where it stands. In its callers' code, so that the best is not copied in and out for each face.
#[inline(always)]
fn try_face(d: &Data, c: &Common, limit: f64, f: Face, best: Tried) -> Walked
    requires { Good 3 7 f }
    ensures best { result.best ≡ pick_of (tried_of (goal_of d.now) (problem_with c.now) f (system_answer c.now.b c.now.g c.now.h limit f)) best }
    ensures work { result.updates ≡ (system_answer c.now.b c.now.g c.now.h limit f).updates }
{
    let e = c.candidate(limit, f);
    match e.x {
        Some(x) => Walked {
            best: trial::judged(best, f, x, d.objective(&x)),
            updates: e.updates,
        },
        None => Walked {
            best,
            updates: e.updates,
        },
    }
}

// The empty face.
fn empty(d: &Data, c: &Common) -> Walked
    ensures { (result.best ≡ try_of (goal_of d.now) (problem_with c.now) (face_at 3 7 0)) × (result.updates ≡ updates_of (problem_with c.now) 1) }
{
    if !bits::is_positive(c.scale) {
        return Walked::default();
    }
    try_face(d, c, c.pivot * c.scale, Face::default(), Tried::default())
}

// The best of all faces, where the empty one, with so many updates, does not qualify.
fn best(d: &Data, c: &Common, first: usize) -> Walked
    requires empty_fails { (try_of (goal_of d.now) (problem_with c.now) (face_at 3 7 0)).some ≡ false }
    requires empty_counted { first ≡ updates_of (problem_with c.now) 1 }
    ensures { (result.best ≡ best_of (goal_of d.now) (problem_with c.now) 64) × (result.updates ≡ updates_of (problem_with c.now) 64) }
{
    let mut best = Tried::default();
    let mut updates = 0;
    let scale = bits::pick(c.scale < 1.0, 1.0, c.scale);
    if !bits::is_positive(scale) {
        return Walked {
            best,
            updates: first,
        };
    }
    let limit = c.pivot * scale;
    let mut f = Face::default();
    for t in 1..64usize {
        f = faces::next(f);
        let e = try_face(d, c, limit, f, best);
        best = e.best;
        updates += e.updates;
    }
    Walked {
        best,
        updates: first + updates,
    }
}

#[tactic(auto, unfolding(crate::specs::Cell::cell_from))]
fn cell_from(w: Walked, faces: usize) -> Cell
    ensures { result ≡ cell_from w.best faces w.updates }
{
    let x = w.best.x;
    let active = faces::marks(w.best.face);
    Cell {
        some: w.best.some,
        objective: w.best.objective,
        x,
        active,
        faces,
        updates: w.updates,
    }
}

// The empty face where it qualifies, else the best of all.
fn chosen(d: &Data, c: &Common) -> Cell
    ensures { result ≡ chosen_of (goal_of d.now) (problem_with c.now) 64 }
{
    let e = empty(d, c);
    if e.best.some {
        return cell_from(e, 1);
    }
    let all = best(d, c, e.updates);
    cell_from(all, 64)
}

// A cell, with the rows of the observations at hand.
fn posed(d: &Data, l: Limits, sigma: f64) -> Cell
    ensures { result ≡ posed_of fit_model (at d.now.ys.now) (at d.now.hs.now) d.now.ws.now d.now.weights.now l sigma }
{
    let b = least::doubled(d.normal_equations());
    let g = polytope::rows();
    let h = polytope::bounds(sigma, l.a_min, l.a_max);
    let c = Common {
        b,
        g,
        h,
        pivot: l.pivot_tolerance,
        slack: l.feasibility_tolerance * polytope::spread(&h),
        scale: scales::block_scale(&b),
    };
    chosen(d, &c)
}

// The cell of the fit, in lent room, so that a search need not make it again for each cell: y and its hypotenuse with 1 are worked out once for each observation. Over 256 observations, or not as many w or weights as k, give no face, none is tried, and the room is left as it was.
pub fn inner_on(
    ks: &[f64],
    ws: &[f64],
    weights: &[f64],
    l: Limits,
    m: f64,
    sigma: f64,
    ys: &mut [f64; 256],
    hs: &mut [f64; 256],
) -> Cell
    ensures value { result ≡ inner_on ks.now ws.now weights.now l m sigma ys.old hs.old }
    ensures ys_after { ys.new ≡ unless (in_range ks.now ws.now weights.now) ys.old (ys_on ks.now m sigma ys.old) }
    ensures hs_after { hs.new ≡ unless (in_range ks.now ws.now weights.now) hs.old (hs_on ks.now m sigma ys.old hs.old) }
{
    if !((ks.len() <= 256) & ((ws.len() == ks.len()) & (weights.len() == ks.len()))) {
        return Cell::default();
    }
    least::fill_ys(ks, m, sigma, ys);
    roots::lengths::with_one(ys, ks.len(), hs);
    posed(
        &Data {
            ys,
            hs,
            ws,
            weights,
        },
        l,
        sigma,
    )
}

// The cell of the fit. Over 256 observations, or not as many w or weights as k, give no face, and none is tried.
pub fn inner(ks: &[f64], ws: &[f64], weights: &[f64], l: Limits, m: f64, sigma: f64) -> Cell
    ensures { result ≡ inner_of ks.now ws.now weights.now l m sigma }
{
    let mut ys = [0.0; 256];
    let mut hs = [0.0; 256];
    inner_on(ks, ws, weights, l, m, sigma, &mut ys, &mut hs)
}
