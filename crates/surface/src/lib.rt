// A surface of slices, as a run of records by value: copied from what a caller lends, tested, and asked. Crate `lent` has the entries over the records themselves.
#![tactic(auto)]

pub mod types; // what the functions take and hand back
pub mod axis; // the two axes of a diagnostic grid
pub mod run; // a copied run, and its tests
pub mod lookup; // the nodes of a run, and the segment of a tau
pub mod answers; // what a tested run answers

ghost use Rattle.std.specs.Prelude.{◌≡◌};
ghost use Rattle.surface.specs.Runs.{run_of};

use slice::SviSlice;
use types::Run;

// The one loop over lent records: the first 32 are kept, all are counted.
pub fn copied(s: &[SviSlice]) -> Run
    ensures { result ≡ run_of s.now }
{
    let mut run = Run::empty();
    for x in s {
        run.push(*x);
    }
    run
}
