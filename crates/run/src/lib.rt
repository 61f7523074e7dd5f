// A house file in, the whole printed answer out, for every byte string and every room.
#![tactic(auto)]

ghost use Rattle.std.specs.Prelude.{◌≡◌, ◌≤◌, length};
ghost use Rattle.text.specs.Place.{placed, longest};
ghost use Rattle.run.specs.Answer.{answer_of};

pub fn run(file: &[u8], out: &mut [u8]) -> usize
    ensures value { result ≡ length (answer_of file.now) }
    ensures out_after { out.new ≡ placed (answer_of file.now) out.old }
    ensures upper_bound { result ≤ longest }
{
    let mut residuals = [0.0; 1024];
    let mut capped = [0usize; 256];
    let o = outcome::of_file(file, &mut residuals, &mut capped);
    let a = records::told(o.fit);
    if a.number == 43 {
        return text::malformed(out);
    }
    if a.number != 0 {
        return text::refused(o.read, o.kept, a, out);
    }
    let n = o.kept * 4;
    text::accepted(o.read, o.kept, a, &residuals[..n], &capped[..a.capped], out)
}
