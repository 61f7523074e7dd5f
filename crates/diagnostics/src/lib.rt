// Static diagnostics of a surface, a run of records by value, on a lent grid: every grid point is one butterfly point or one failure.
#![tactic(auto)]

pub mod tally; // one check, as a running tally
pub mod points; // what a grid point yields
pub mod grid; // the walk over the grid: k outside, tau inside
pub mod report; // the tests before it, and the report
