// A copied run of slice records, and the tests that every entry over a surface makes first.
ghost use Rattle.std.specs.Prelude.{◌≡◌, [], ◌+◌, ◌<◌, ◌≤◌, ◌^◌, length};
ghost use Rattle.refusals.specs.Numbers.{number_in};
ghost use Rattle.surface.specs.Runs.{run_of, taus_of, first_bad, check_run};
ghost use Rattle.surface.specs.Inner.{pushed};

use crate::types::Run;
use refusals::Refusal;
use slice::SviSlice;

impl Run {
    pub(crate) fn empty() -> Run
        ensures { result ≡ run_of [] }
    {
        Run {
            count: 0,
            recs: [SviSlice::default(); 32],
        }
    }

    // One more record. Past 32 they are counted, and not kept.
    pub(crate) fn push(&mut self, x: SviSlice)
        requires { self.old.count + 1 < 2 ^ 64 }
        ensures { self.new ≡ pushed self.old x }
    {
        let n = self.count;
        if n < 32 {
            self.recs[n] = x;
        }
        self.count = n + 1;
    }
}

pub(crate) fn taus_of(recs: &[SviSlice; 32]) -> [f64; 32]
    ensures { result ≡ taus_of recs.now }
{
    let mut taus = [0.0; 32];
    for (i, s) in recs.iter().enumerate() {
        taus[i] = s.tau;
    }
    taus
}

// Each record's own tests: the first that fails.
fn check_each(recs: &[SviSlice]) -> Result<(), Refusal>
    ensures { number_in result ≡ first_bad recs.now (length recs.now) }
{
    for s in recs {
        slice::check(*s)?;
    }
    Ok(())
}

// 11, then the first bad record's number, then 32 and 33.
pub fn check_run(run: Run) -> Result<(), Refusal>
    ensures { number_in result ≡ check_run run }
{
    let n = run.count;
    if 32 < n {
        return Err(Refusal::Size);
    }
    check_each(&run.recs[..n])?;
    if n < 2 {
        return Err(Refusal::TwoSlices);
    }
    let taus = taus_of(&run.recs);
    if crate::axis::rises(&taus[..n]) {
        return Ok(());
    }
    Err(Refusal::TauOrder)
}
