// The lines of an answer, one after the other.
ghost use Rattle.std.specs.Prelude.{◌≡◌, ◌&&◌, ◌+◌, ◌≤◌, leb, length};
ghost use Rattle.text.specs.Place.{Wrote, Says, longest};
ghost use Rattle.text.specs.Answers.{is_late, malformed_text, refused_of, refusal_text, refused_text, figures_text, accepted_text};

use crate::page::Page;
use records::FitAnswer;

fn is_late(number: u32) -> bool
    ensures { result ≡ is_late number }
{
    (6 <= number) & (number <= 9)
}

fn few(points: usize, capped: usize) -> bool
    ensures { result ≡ leb points 1024 && leb capped 256 }
{
    (points <= 1024) & (capped <= 256)
}

impl Page<'_> {
    // 9 has its floats, and any other refusal the two counts.
    fn refused_of(&mut self, a: FitAnswer)
        requires { self.old.at + 71 ≤ longest }
        ensures wrote { Says self.old self.new (refused_of a) }
        ensures upper_bound { self.new.at ≤ self.old.at + 71 }
    {
        if a.number == 9 {
            self.refused_floats(a.rmse_vol, a.max_rmse_vol);
        } else {
            self.refused_line(a.number, a.observed, a.required);
        }
    }

    fn refusal(&mut self, a: FitAnswer)
        requires { self.old.at + 204 ≤ longest }
        ensures wrote { Says self.old self.new (refusal_text a) }
        ensures upper_bound { self.new.at ≤ self.old.at + 204 }
    {
        if is_late(a.number) {
            self.search_line(a.counts);
        }
        self.refused_of(a);
    }

    fn figures(&mut self, a: FitAnswer)
        requires { self.old.at + 347 ≤ longest }
        ensures wrote { Says self.old self.new (figures_text a) }
        ensures upper_bound { self.new.at ≤ self.old.at + 347 }
    {
        self.fit_line(a.slice);
        self.search_line(a.counts);
        self.margins_line(a);
        self.active_line(&a.active);
    }

    // More points or capped positions than any answer has are no text.
    fn accepted(
        &mut self,
        read: usize,
        kept: usize,
        a: FitAnswer,
        residuals: &[f64],
        capped: &[usize],
    )
        requires { self.old.at ≡ 0 }
        ensures wrote { Says self.old self.new (accepted_text read kept a residuals.now capped.now) }
        ensures upper_bound { self.new.at ≤ longest }
    {
        if few(residuals.len(), capped.len()) {
            self.read_line(read, kept);
            self.figures(a);
            self.capped_line(capped);
            self.point_lines(residuals);
        }
    }
}

// ---- whole answers, from the buffer's front on: how far each goes

pub(crate) fn malformed(out: &mut [u8]) -> usize
    ensures wrote { Wrote out.old out.new 0 result malformed_text }
    ensures upper_bound { result ≤ 128 }
{
    let mut page = Page { out, at: 0 };
    page.refused_line(43, 0, 0);
    page.at
}

pub(crate) fn refused(out: &mut [u8], read: usize, kept: usize, a: FitAnswer) -> usize
    ensures wrote { Wrote out.old out.new 0 result (refused_text read kept a) }
    ensures upper_bound { result ≤ 256 }
{
    let mut page = Page { out, at: 0 };
    page.read_line(read, kept);
    page.refusal(a);
    page.at
}

pub(crate) fn accepted(
    out: &mut [u8],
    read: usize,
    kept: usize,
    a: FitAnswer,
    residuals: &[f64],
    capped: &[usize],
) -> usize
    ensures wrote { Wrote out.old out.new 0 result (accepted_text read kept a residuals.now capped.now) }
    ensures upper_bound { result ≤ longest }
{
    let mut page = Page { out, at: 0 };
    page.accepted(read, kept, a, residuals, capped);
    page.at
}
