// What a file, or quotes as they came in, come to: number, counts, slice, residuals, without a word of text. For every byte string and every room.
#![tactic(auto)]

ghost use Rattle.std.specs.Prelude.{◌≡◌, length};
ghost use Rattle.laws.specs.Room.{written};
ghost use Rattle.refusals.specs.Numbers.{refusal_number};
ghost use Rattle.house.specs.File.{records_of};
ghost use Rattle.house.specs.Repeats.{kept};
ghost use Rattle.house.specs.Taken.{kept_of};
ghost use Rattle.outcome.specs.Outcome.{outcome_in, refused_at, quotes_outcome, bytes_outcome, file_outcome, settings_of, residuals_for, capped_for};

use records::{Counts, FitConfig, FitFailure, SliceFit};
use refusals::Refusal;

#[derive(Clone, Copy)]
pub struct Outcome {
    // How many records came in, and how many are kept.
    pub read: usize,
    pub kept: usize,
    pub fit: Result<SliceFit, FitFailure>,
}

// A refusal before the fit: zeros but for its number, and as many kept as read.
fn refused(refusal: Refusal, read: usize) -> Outcome
    ensures { outcome_in result ≡ refused_at (refusal_number refusal) read }
{
    Outcome {
        read,
        kept: read,
        fit: Err(FitFailure::after(refusal, Counts::default())),
    }
}

// The outcome of as many quotes as there are 32 bytes for.
fn of_records(
    tau: f64,
    config: FitConfig,
    quotes: &[u8],
    residuals: &mut [f64],
    capped: &mut [usize],
) -> Outcome
    ensures value { outcome_in result ≡ quotes_outcome tau config (records_of quotes.now) (length residuals.old) (length capped.old) }
    ensures residuals_after { residuals.new ≡ written (outcome_in result).fit.number (residuals_for (outcome_in result).fit.slice (kept (records_of quotes.now))) residuals.old }
    ensures capped_after { capped.new ≡ written (outcome_in result).fit.number (capped_for config (kept (records_of quotes.now))) capped.old }
{
    let n = quotes.len() / 32;
    let intake = house::check_intake(quotes, config, residuals.len(), capped.len());
    if let Err(refusal) = intake {
        return refused(refusal, n);
    }
    let mut k = [0.0; 256];
    let mut w = [0.0; 256];
    let mut weight = [0.0; 256];
    let m = house::take(quotes, &mut k, &mut w, &mut weight);
    let fit = calibrate::fit_slice(
        tau,
        config,
        &k[..m],
        &w[..m],
        &weight[..m],
        residuals,
        capped,
    );
    Outcome {
        read: n,
        kept: m,
        fit,
    }
}

// What a house file comes to, with the residuals and the capped positions of an accepted fit.
pub fn of_file(file: &[u8], residuals: &mut [f64], capped: &mut [usize]) -> Outcome
    ensures value { outcome_in result ≡ file_outcome file.now (length residuals.old) (length capped.old) }
    ensures residuals_after { residuals.new ≡ written (outcome_in result).fit.number (residuals_for (outcome_in result).fit.slice (kept_of file.now)) residuals.old }
    ensures capped_after { capped.new ≡ written (outcome_in result).fit.number (capped_for (settings_of file.now) (kept_of file.now)) capped.old }
{
    let Some(layout) = house::house_of(file) else {
        return refused(Refusal::Malformed, 0);
    };
    let tau = house::tau_of(file, layout.settings);
    let config = house::config_of(file, layout.settings);
    let from = 20 + 88 * layout.settings;
    of_records(tau, config, &file[from..], residuals, capped)
}

// The same of quotes with no file around them: 32 bytes each, as a file's records.
pub fn of_quotes(
    tau: f64,
    config: FitConfig,
    quotes: &[u8],
    residuals: &mut [f64],
    capped: &mut [usize],
) -> Outcome
    ensures value { outcome_in result ≡ bytes_outcome tau config quotes.now (length residuals.old) (length capped.old) }
    ensures residuals_after { residuals.new ≡ written (outcome_in result).fit.number (residuals_for (outcome_in result).fit.slice (kept (records_of quotes.now))) residuals.old }
    ensures capped_after { capped.new ≡ written (outcome_in result).fit.number (capped_for config (kept (records_of quotes.now))) capped.old }
{
    if quotes.len() % 32 != 0 {
        return refused(Refusal::Lengths, 0);
    }
    of_records(tau, config, quotes, residuals, capped)
}
