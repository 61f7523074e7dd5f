// The outer part of fit_slice: passes over the grid of a window, and the move of the window after each.
#![tactic(auto)]

mod grid;

ghost use Rattle.std.specs.Prelude.{◌≡◌, true, ◌^◌, ◌<◌};
ghost use Rattle.search.specs.Search.{counted_of, search_refused, start_of, step_of, search_of};
ghost use Rattle.search.specs.Run.{fit_cell, plan_sizes_hold, planned_search};
ghost use Rattle.search.specs.Roomy.{Roomy};

use cell::Limits;
use grid::Task;
use moves::{Found, PassBest, Plan, Search, Stage};
use records::Counts;

fn counted(n: Counts, b: PassBest) -> Counts
    requires { (n.passes < 2 ^ 60) × (n.cells < 2 ^ 60) × (n.faces < 2 ^ 60) × (n.updates < 2 ^ 60) × (b.cells < 2 ^ 60) × (b.faces < 2 ^ 60) × (b.updates < 2 ^ 60) }
    ensures { result ≡ counted_of n b }
{
    Counts {
        passes: n.passes + 1,
        cells: n.cells + b.cells,
        faces: n.faces + b.faces,
        updates: n.updates + b.updates,
        ..n
    }
}

fn refuse(s: Search, n: Counts) -> Search
    ensures { result ≡ search_refused s n }
{
    Search {
        stage: Stage::Refused,
        counts: n,
        ..s
    }
}

// One pass and the move after it. A pass with no face refuses, whatever was found before.
fn step(o: Task, p: Plan, s: Search) -> Search
    requires { Roomy p s }
    ensures { result ≡ step_of (fit_cell o.entry.ks.now o.entry.ws.now o.entry.weights.now o.entry.l) p s }
{
    let b = grid::pass(o, s.window, p.n);
    let n = counted(s.counts, b);
    if b.cell.some {
        return moves::moved(p, s, n, b);
    }
    refuse(s, n)
}

// The first window is the whole domain.
fn start(p: Plan) -> Search
    ensures { result ≡ start_of p }
{
    Search {
        stage: Stage::Going,
        window: p.domain,
        smallest: p.domain.m.hi - p.domain.m.lo,
        found: Found {
            cell: grid::no_cell(),
            m: 0.0,
            ls: 0.0,
            on_edge: true,
        },
        counts: Counts::default(),
    }
}

// Passes until the search ends, or there were as many as the settings allow.
fn searched(o: Task, p: Plan) -> Search
    requires { plan_sizes_hold p ≡ true }
    ensures { result ≡ search_of (fit_cell o.entry.ks.now o.entry.ws.now o.entry.weights.now o.entry.l) p }
{
    let limit = p.refinements + 2 * p.max_recentres + 1;
    let mut s = start(p);
    for t in 0..limit {
        if !s.stage.goes_on() {
            return s;
        }
        s = step(o, p, s);
    }
    s
}

fn sizes_hold(p: Plan) -> bool
    ensures { result ≡ plan_sizes_hold p }
{
    (p.n <= 255) & ((p.refinements <= 1000) & (p.max_recentres <= 1000))
}

// The search of the fit; over a size nothing is searched.
pub fn run(ks: &[f64], ws: &[f64], weights: &[f64], l: Limits, p: Plan) -> Search
    ensures { result ≡ planned_search ks.now ws.now weights.now l p }
{
    if sizes_hold(p) {
        return searched(Task { ks, ws, weights, l }, p);
    }
    start(p)
}
