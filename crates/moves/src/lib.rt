// The points of an axis, and the moves of the window between two passes of the search: the best of the passes so far, and the next window.
#![tactic(auto)]

pub mod points;

ghost use Rattle.std.specs.Prelude.{◌≡◌, ◌<◌};
ghost use Rattle.moves.specs.Moves.{goes_on, was_refused, open_edge, spot_of, place_of, improves, found_of, around, grow_of, centred, recentred, step_on, narrowed_on, narrowed, shrunk, stopped, can_recentre, can_shrink, moved_of};

use cell::Cell;
use records::Counts;

// One axis of a window.
#[repr(C)]
#[derive(Clone, Copy)]
pub struct Axis {
    pub lo: f64,
    pub hi: f64,
}

// A window of the domain: m, and ln sigma.
#[repr(C)]
#[derive(Clone, Copy)]
pub struct Window {
    pub m: Axis,
    pub s: Axis,
}

// The best cell of a pass so far, with its place, how many cells and faces the pass has tried, and how many entries their eliminations updated.
#[derive(Clone, Copy)]
pub struct PassBest {
    pub cell: Cell,
    pub i: usize,
    pub j: usize,
    pub cells: usize,
    pub faces: usize,
    pub updates: usize,
}

// The best cell of all passes, where it stands, and whether that is an edge of its pass's grid.
#[repr(C)]
#[derive(Clone, Copy)]
pub struct Found {
    pub cell: Cell,
    pub m: f64,
    pub ls: f64,
    pub on_edge: bool,
}

// Where a pass's best stands on one axis, whether that is an edge beyond which the domain goes on, and whether it is any edge.
#[derive(Clone, Copy)]
pub struct Spot {
    pub point: f64,
    pub inner_edge: bool,
    pub edge: bool,
}

// Where a pass's best stands, on each axis.
#[derive(Clone, Copy)]
pub struct Place {
    pub m: Spot,
    pub s: Spot,
}

// The settings of the search, its domain, and half the domain's width along each axis.
#[repr(C)]
#[derive(Clone, Copy)]
pub struct Plan {
    pub n: usize,
    pub refinements: usize,
    pub max_recentres: usize,
    pub domain: Window,
    pub hm_max: f64,
    pub hs_max: f64,
}

// The search goes on, has ended, or was refused by a pass with no face. No search is refused and goes on all the same, but `moved` answers for that state as for the others.
#[derive(Clone, Copy, PartialEq, Eq)]
pub enum Stage {
    Going,
    Ended,
    Refused,
    GoingRefused,
}

impl Stage {
    pub fn goes_on(self) -> bool
        ensures { result ≡ goes_on self }
    {
        (self == Stage::Going) | (self == Stage::GoingRefused)
    }

    pub fn was_refused(self) -> bool
        ensures { result ≡ was_refused self }
    {
        (self == Stage::Refused) | (self == Stage::GoingRefused)
    }
}

// The state of the search between passes.
#[derive(Clone, Copy)]
pub struct Search {
    pub stage: Stage,
    pub window: Window,
    pub smallest: f64,
    pub found: Found,
    pub counts: Counts,
}

fn within(c: f64, h: f64, d: Axis) -> Axis
    ensures { result ≡ around c h d }
{
    Axis {
        lo: bits::max(c - h, d.lo),
        hi: bits::min(c + h, d.hi),
    }
}

fn grown(edge: bool, a: Axis, most: f64) -> f64
    ensures { result ≡ grow_of edge a most }
{
    let wide = a.hi - a.lo;
    bits::pick(edge, bits::min(wide, most), 0.5 * wide)
}

fn open_edge(k: usize, last: usize, w: Axis, d: Axis) -> bool
    ensures { result ≡ open_edge k last w d }
{
    ((k == 0) & (w.lo > d.lo)) | ((k == last) & (w.hi < d.hi))
}

fn spot_of(w: Axis, d: Axis, n: usize, k: usize) -> Spot
    ensures { result ≡ spot_of w d n k }
{
    let last = n.saturating_sub(1);
    Spot {
        point: points::linspace_at(w.lo, w.hi, n, k),
        inner_edge: open_edge(k, last, w, d),
        edge: (k == 0) | (k == last),
    }
}

fn place_of(p: Plan, w: Window, b: PassBest) -> Place
    ensures { result ≡ place_of p w b }
{
    Place {
        m: spot_of(w.m, p.domain.m, p.n, b.i),
        s: spot_of(w.s, p.domain.s, p.n, b.j),
    }
}

fn improving(c: Cell, b: Cell) -> bool
    ensures { result ≡ improves c b }
{
    !b.some | (c.objective <= b.objective)
}

// The best of all passes: between passes the later wins a tie.
fn found_of(b: PassBest, a: Place, o: Found) -> Found
    ensures { result ≡ found_of b a o }
{
    if improving(b.cell, o.cell) {
        return Found {
            cell: b.cell,
            m: a.m.point,
            ls: a.s.point,
            on_edge: a.m.edge | a.s.edge,
        };
    }
    o
}

fn centred(a: Spot, w: Axis, d: Axis, most: f64) -> Axis
    ensures { result ≡ centred a w d most }
{
    within(a.point, grown(a.inner_edge, w, most), d)
}

fn recentre(p: Plan, s: Search, n: Counts, a: Place, o: Found) -> Search
    requires { n.recentres < p.max_recentres }
    ensures { result ≡ recentred p s n a o }
{
    Search {
        stage: Stage::Going,
        window: Window {
            m: centred(a.m, s.window.m, p.domain.m, p.hm_max),
            s: centred(a.s, s.window.s, p.domain.s, p.hs_max),
        },
        found: o,
        counts: Counts {
            recentres: n.recentres + 1,
            ..n
        },
        ..s
    }
}

fn step_on(a: Axis, n: usize) -> f64
    ensures { result ≡ step_on a n }
{
    points::linspace_at(a.lo, a.hi, n, 1) - a.lo
}

// Two steps either way of c.
fn narrow_on(c: f64, w: Axis, d: Axis, n: usize) -> Axis
    ensures { result ≡ narrowed_on c w d n }
{
    within(c, 2.0 * step_on(w, n), d)
}

fn narrow(p: Plan, w: Window, o: Found) -> Window
    ensures { result ≡ narrowed p w o }
{
    Window {
        m: narrow_on(o.m, w.m, p.domain.m, p.n),
        s: narrow_on(o.ls, w.s, p.domain.s, p.n),
    }
}

// Counted only where it reaches a window smaller, along m, than the domain and than every shrink counted before.
fn shrink(p: Plan, s: Search, n: Counts, o: Found) -> Search
    requires { n.shrinks < p.refinements }
    ensures { result ≡ shrunk p s n o }
{
    let window = narrow(p, s.window, o);
    let wide = window.m.hi - window.m.lo;
    let less = wide < s.smallest;
    Search {
        stage: Stage::Going,
        window,
        smallest: bits::pick(less, wide, s.smallest),
        found: o,
        counts: Counts {
            shrinks: bits::pick(less, n.shrinks + 1, n.shrinks),
            ..n
        },
    }
}

fn stop(s: Search, n: Counts, o: Found) -> Search
    ensures { result ≡ stopped s n o }
{
    Search {
        stage: Stage::Ended,
        found: o,
        counts: n,
        ..s
    }
}

fn can_recentre(p: Plan, s: Search, n: Counts, b: PassBest, a: Place) -> bool
    ensures { result ≡ can_recentre p s n b a }
{
    let up = improving(b.cell, s.found.cell);
    (a.m.inner_edge | a.s.inner_edge) & (up & (n.recentres < p.max_recentres))
}

fn can_shrink(p: Plan, s: Search, n: Counts) -> bool
    ensures { result ≡ can_shrink p s n }
{
    let dm = step_on(s.window.m, p.n);
    let ds = step_on(s.window.s, p.n);
    (n.shrinks < p.refinements) & ((dm > 0.0) & (ds > 0.0))
}

// The move after a pass that found a cell.
pub fn moved(p: Plan, s: Search, n: Counts, b: PassBest) -> Search
    ensures { result ≡ moved_of p s n b }
{
    let a = place_of(p, s.window, b);
    let o = found_of(b, a, s.found);
    if can_recentre(p, s, n, b, a) {
        return recentre(p, s, n, a, o);
    }
    if can_shrink(p, s, n) {
        return shrink(p, s, n, o);
    }
    stop(s, n, o)
}
