// What an accepted fit writes into the lent buffers. Neither can fail.
ghost use Rattle.std.specs.Prelude.{◌≡◌, ◌++◌, ◌*◌, ◌≤◌, length, drop};
ghost use Rattle.weights.specs.Weights.{capped_at};
ghost use Rattle.calibrate.specs.Fit.{residuals_of};

use slice::SviSlice;

// The residuals, four numbers an observation; the rest of the room is as it was.
pub(crate) fn write_residuals(s: SviSlice, k: &[f64], w: &[f64], out: &mut [f64])
    requires { (length w.now ≡ length k.now) × (length k.now * 4 ≤ length out.old) }
    ensures { out.new ≡ residuals_of s k.now w.now ++ drop (length k.now * 4) out.old }
{
    for (i, (k, w)) in k.iter().zip(w).enumerate() {
        let r = judge::residual_at(s, *k, *w);
        let j = i * 4;
        // Stays: of chunks of out under zip no promise says what they leave.
        out[j] = *k;
        out[j + 1] = *w;
        out[j + 2] = r.fitted.unwrap_or(0.0);
        out[j + 3] = r.vol;
    }
}

// The positions of the weights above the cap, rising; the rest of the room is as it was.
pub(crate) fn list_capped(ws: &[f64], cap: f64, out: &mut [usize]) -> usize
    requires { length ws.now ≤ length out.old }
    ensures { (result ≡ length (capped_at cap ws.now)) × (out.new ≡ capped_at cap ws.now ++ drop result out.old) }
{
    let mut n = 0;
    for (i, w) in ws.iter().enumerate() {
        if *w > cap {
            out[n] = i;
            n += 1;
        }
    }
    n
}
