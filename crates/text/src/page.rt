// Bytes, numbers and lists of numbers onto a page, which is a lent buffer and the next place in it.
ghost use Rattle.std.specs.Prelude.{◌≡◌, ℕ, List, ◌+◌, ◌*◌, ◌<◌, ◌≤◌, [], ◌∷◌, length};
ghost use Rattle.text.specs.Digits.{glyph_of, digits_of, decimal_of, hex_of, float_of, each, marks_of};
ghost use Rattle.text.specs.Place.{Says, longest};

#[derive(Drop)]
pub(crate) struct Page<'a> {
    pub(crate) out: &'a mut [u8],
    pub(crate) at: usize,
}

fn glyph(d: u64) -> u8
    requires { d < 16 }
    ensures { result ≡ glyph_of d }
{
    if d < 10 {
        b'0' + d as u8
    } else {
        b'a' - 10 + d as u8
    }
}

impl Page<'_> {
    // A byte that lies beyond the buffer's end is not written, and counts all the same: a text is measured on a buffer of any length, and then written with the same code.
    fn put(&mut self, b: u8)
        requires { self.old.at < longest }
        ensures { Says self.old self.new (b ∷ []) }
    {
        if self.at < self.out.len() {
            self.out[self.at] = b;
        }
        self.at += 1;
    }

    pub(crate) fn text(&mut self, text: &[u8])
        requires { self.old.at + length text.now ≤ longest }
        ensures { Says self.old self.new text.now }
    {
        for b in text {
            self.put(*b);
        }
    }

    // The digits in front of the last are written first, so it calls itself.
    fn digits(&mut self, n: u64, base: u64, stop: u64, f: usize)
        requires { (0 < base) × (base ≤ 16) × (self.old.at + f ≤ longest) }
        ensures { Says self.old self.new (digits_of base stop f n) }
    {
        if f == 0 {
            return;
        }
        if stop <= n {
            self.digits(n / base, base, stop, f - 1);
        }
        self.put(glyph(n % base));
    }

    // A space and the figure of each value.
    pub(crate) fn values<T: Figure>(&mut self, xs: &[T])
        requires { self.old.at + (T.most + 1) * length xs.now ≤ longest }
        ensures wrote { Says self.old self.new (each T.text xs.now) }
        ensures upper_bound { self.new.at ≤ self.old.at + (T.most + 1) * length xs.now }
    {
        for x in xs {
            self.put(b' ');
            x.print(self);
        }
    }

    // One digit for each of the seven marks.
    pub(crate) fn marks(&mut self, active: &[bool; 7])
        requires { self.old.at + 7 ≤ longest }
        ensures wrote { Says self.old self.new (marks_of active.now) }
        ensures upper_bound { self.new.at ≤ self.old.at + 7 }
    {
        for mark in active {
            self.put(if *mark { b'1' } else { b'0' });
        }
    }
}

// What stands behind a space in a line of values.
pub(crate) trait Figure: Copy {
    ghost text: { Self → List ℕ };

    // At most so many bytes.
    ghost most: { ℕ };

    fn print(self, page: &mut Page<'_>)
        requires { page.old.at + most ≤ longest }
        ensures wrote { Says page.old page.new (text self) }
        ensures upper_bound { page.new.at ≤ page.old.at + most };
}

// A float is its bits, in sixteen digits.
impl Figure for f64 {
    ghost text = { float_of };

    ghost most = { 16 };

    fn print(self, page: &mut Page<'_>) {
        page.digits(bits::bits_of(self), 16, 0, 16);
    }
}

// A count has no zeros in front.
impl Figure for usize {
    ghost text = { decimal_of };

    ghost most = { 20 };

    fn print(self, page: &mut Page<'_>) {
        page.digits(self as u64, 10, 10, 20);
    }
}
