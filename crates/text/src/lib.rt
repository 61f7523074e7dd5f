// The answers of the fit program as text, each for every input: a text is written whole at the front of the room where the room holds it, else nothing is, and how long it is comes back.
// It is never held in whole: it is measured first, on one byte, and then written where it is to stand.
#![tactic(auto)]

use records::FitAnswer;

mod page; // page.rt: bytes and numbers
mod lines; // lines.rt: one line each
mod answers; // answers.rt: lines one after the other

ghost use Rattle.std.specs.Prelude.{◌≡◌, ◌≤◌, ℕ, List, length};
ghost use Rattle.text.specs.Place.{Wrote, placed, longest};
ghost use Rattle.text.specs.Answers.{malformed_text, refused_text, accepted_text};

// What write puts onto any buffer, as far as that goes, is measured on one byte, and put into the room where this holds it.
fn whole<F: Fn(&mut [u8]) -> usize>(out: &mut [u8], write: F) -> usize
    requires { F.IsAlwaysCallable write }
    ensures said { (text : List ℕ) → ((b b' : _) (r : ℕ) → F.post write b r b' → Wrote b.now b'.now 0 r text) → (result ≡ length text) × (out.new ≡ placed text out.old) }
    ensures measured { (b b' : _) × F.post write b result b' }
{
    let mut none = [0u8; 1];
    let size = write(&mut none);
    if size <= out.len() {
        write(out);
    }
    size
}

// The answer to a malformed file.
pub fn malformed(out: &mut [u8]) -> usize
    ensures value { result ≡ length malformed_text }
    ensures out_after { out.new ≡ placed malformed_text out.old }
    ensures upper_bound { result ≤ 128 }
{
    whole(out, |out| answers::malformed(out))
}

// The answer to any other file that is refused.
// Stays: read, kept and the fit's answer travel together, here and in `accepted`, since these signatures are promised.
pub fn refused(read: usize, kept: usize, a: FitAnswer, out: &mut [u8]) -> usize
    ensures value { result ≡ length (refused_text read kept a) }
    ensures out_after { out.new ≡ placed (refused_text read kept a) out.old }
    ensures upper_bound { result ≤ 256 }
{
    whole(out, |out| answers::refused(out, read, kept, a))
}

// The answer to a file whose fit is accepted. More than 256 points, or capped positions, no answer has: then the text is empty.
pub fn accepted(
    read: usize,
    kept: usize,
    a: FitAnswer,
    residuals: &[f64],
    capped: &[usize],
    out: &mut [u8],
) -> usize
    ensures value { result ≡ length (accepted_text read kept a residuals.now capped.now) }
    ensures out_after { out.new ≡ placed (accepted_text read kept a residuals.now capped.now) out.old }
    ensures upper_bound { result ≤ longest }
{
    whole(
        out,
        |out| answers::accepted(out, read, kept, a, residuals, capped),
    )
}
