// The fit of one slice, from columns or from quotes as they came in, for callers outside. Settings are two rows: sizes and reals.
ghost use Rattle.std.specs.Prelude.{◌≡◌};
ghost use Rattle.records.specs.Settings.{defaults_of};
ghost use Rattle.rows.specs.Rows.{sizes_row, reals_row};
ghost use Rattle.port.specs.FitRows.{FittedRows, QuotesRows};

#[unsafe(no_mangle)]
pub extern "C" fn port_raw_default_config(sizes: &mut [usize; 4], reals: &mut [f64; 7])
    ensures sizes_after { sizes.new ≡ sizes_row defaults_of }
    ensures reals_after { reals.new ≡ reals_row defaults_of }
{
    port::calibration::port_raw_default_config(sizes, reals);
}

#[unsafe(no_mangle)]
pub extern "C" fn port_raw_fit_slice(
    tau: f64,
    sizes: &[usize; 4],
    reals: &[f64; 7],
    k: &[f64],
    w: &[f64],
    weight: &[f64],
    residuals: &mut [f64],
    capped: &mut [usize],
    counts: &mut [usize; 9],
    values: &mut [f64; 14],
    active: &mut [bool; 7],
) -> u32
    ensures { FittedRows tau sizes.now reals.now k.now w.now weight.now residuals.old capped.old result residuals.new capped.new counts.new values.new active.new }
{
    port::calibration::port_raw_fit_slice(
        tau, sizes, reals, k, w, weight, residuals, capped, counts, values, active,
    )
}

#[unsafe(no_mangle)]
pub extern "C" fn port_raw_fit_quotes(
    tau: f64,
    sizes: &[usize; 4],
    reals: &[f64; 7],
    quotes: &[u8],
    residuals: &mut [f64],
    capped: &mut [usize],
    counts: &mut [usize; 11],
    values: &mut [f64; 14],
    active: &mut [bool; 7],
) -> u32
    ensures { QuotesRows tau sizes.now reals.now quotes.now residuals.old capped.old result residuals.new capped.new counts.new values.new active.new }
{
    port::calibration::port_raw_fit_quotes(
        tau, sizes, reals, quotes, residuals, capped, counts, values, active,
    )
}
