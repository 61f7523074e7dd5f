// The house file, and records as they stand in it. Nothing is copied out of the bytes but what is kept: counts and places say where each value stands. Every public function answers on every byte string.
#![tactic(auto)]

ghost use Rattle.std.specs.Prelude.{◌≡◌, ◌&&◌, map, ◌*◌, ◌≤◌, ◌<◌, ◌^◌, leb, length};
ghost use Rattle.laws.specs.Room.{at_front};
ghost use Rattle.refusals.specs.Numbers.{number_in};
ghost use Rattle.house.specs.File.{house_of, f64_at, tau_of, settings_at, config_of, quote_of, records_of};
ghost use Rattle.house.specs.Check.{k_of, w_of, weight_of, quote_passes, all_pass};
ghost use Rattle.house.specs.Repeats.{same_content, same_quote, all_agree, among, kept};
ghost use Rattle.house.specs.Next.{agrees_next};
ghost use Rattle.house.specs.Taken.{intake_number, taken_of};

use records::FitConfig;
use refusals::Refusal;

// What a well-formed file says of its sections: how many settings records (0 or 1) and how many observations it has.
#[derive(Clone, Copy)]
pub struct Layout {
    pub settings: usize,
    pub count: usize,
}

// A record as the file has it: the quote number, and the bits of three floats.
#[derive(Clone, Copy)]
pub struct Quote {
    pub number: u64,
    pub k: u64,
    pub w: u64,
    pub weight: u64,
}

// None of bytes that are not a house file.
pub fn house_of(s: &[u8]) -> Option<Layout>
    ensures { result ≡ house_of s.now }
{
    let c = bits::u32_at(s, 0) as usize;
    if 1 < c {
        return None;
    }
    let expiries = bits::u32_at(s, 4 + 88 * c);
    if expiries != 1 {
        return None;
    }
    let n = bits::u32_at(s, 16 + 88 * c) as usize;
    if 256 < n {
        return None;
    }
    let size = 20 + 88 * c + 32 * n;
    if s.len() != size {
        return None;
    }
    Some(Layout {
        settings: c,
        count: n,
    })
}

// ---- tau and the settings

// The float whose bits stand at a place.
fn f64_at(s: &[u8], at: usize) -> f64
    ensures { result ≡ f64_at s.now at }
{
    bits::f64_of(bits::u64_at(s, at))
}

pub fn tau_of(s: &[u8], settings: usize) -> f64
    ensures { result ≡ tau_of s.now settings }
{
    f64_at(s, bits::pick(settings == 0, 8, 96))
}

// The eleven values of a settings record.
fn settings_at(s: &[u8]) -> FitConfig
    ensures { result ≡ settings_at s.now }
{
    FitConfig {
        grid: bits::u64_at(s, 4) as usize,
        refinements: bits::u64_at(s, 12) as usize,
        max_recentres: bits::u64_at(s, 20) as usize,
        sigma_lo: f64_at(s, 28),
        sigma_hi: f64_at(s, 36),
        a_min: f64_at(s, 44),
        min_observations: bits::u64_at(s, 52) as usize,
        max_rmse_vol: f64_at(s, 60),
        pivot_tolerance: f64_at(s, 68),
        feasibility_tolerance: f64_at(s, 76),
        max_weight_ratio: f64_at(s, 84),
    }
}

pub fn config_of(s: &[u8], settings: usize) -> FitConfig
    ensures { result ≡ config_of s.now settings }
{
    if settings == 0 {
        return FitConfig::defaults();
    }
    settings_at(s)
}

// ---- the checks that come before repeats are dropped

// A record's number, and the whole record.
fn number_of(bytes: &[u8; 32]) -> u64
    ensures { result ≡ (quote_of bytes.now).number }
{
    bits::u64_at(bytes, 0)
}

fn quote_of(bytes: &[u8; 32]) -> Quote
    ensures { result ≡ quote_of bytes.now }
{
    Quote {
        number: bits::u64_at(bytes, 0),
        k: bits::u64_at(bytes, 8),
        w: bits::u64_at(bytes, 16),
        weight: bits::u64_at(bytes, 24),
    }
}

fn quote_passes(q: Quote) -> bool
    ensures { result ≡ quote_passes q }
{
    records::passes(bits::f64_of(q.k), bits::f64_of(q.w), bits::f64_of(q.weight))
}

// Whether each of some records passes check 10.
fn all_pass(sent: &[[u8; 32]]) -> bool
    ensures { result ≡ all_pass (map quote_of sent.now) }
{
    sent.iter().all(|bytes| quote_passes(quote_of(bytes)))
}

// Room for four residual numbers and one capped position for every record.
fn room_holds(n: usize, room: usize, slots: usize) -> bool
    requires { n * 4 < 2 ^ 64 }
    ensures { result ≡ leb (n * 4) room && leb n slots }
{
    (n * 4 <= room) & (n <= slots)
}

fn same_content(a: Quote, b: Quote) -> bool
    ensures { result ≡ same_content a b }
{
    (a.k == b.k) & (a.w == b.w) & (a.weight == b.weight)
}

// Whether the next record with the number of q has its content, or there is none.
fn agrees_next(q: Quote, after: &[[u8; 32]]) -> bool
    ensures { result ≡ agrees_next q (map quote_of after.now) }
{
    for bytes in after {
        if number_of(bytes) == q.number {
            return same_content(q, quote_of(bytes));
        }
    }
    true
}

// Whether no number of some records has two contents. Each is compared with the next record of its number alone, which answers for those after it.
fn all_agree(sent: &[[u8; 32]]) -> bool
    ensures { result ≡ all_agree (map quote_of sent.now) }
{
    for (i, bytes) in sent.iter().enumerate() {
        if !agrees_next(quote_of(bytes), &sent[i + 1..]) {
            return false;
        }
    }
    true
}

// What refuses records, 32 bytes each, before repeats are dropped: 12, 11, 10 or 44.
pub fn check_intake(s: &[u8], config: FitConfig, room: usize, slots: usize) -> Result<(), Refusal>
    ensures { number_in result ≡ intake_number config (records_of s.now) room slots }
{
    let (sent, _) = s.as_chunks::<32>();
    let n = sent.len();
    if !room_holds(n, room, slots) {
        return Err(Refusal::Lengths);
    }
    if !records::sizes_hold(n, config) {
        return Err(Refusal::Size);
    }
    if !all_pass(sent) {
        return Err(Refusal::BadObservation);
    }
    if !all_agree(sent) {
        return Err(Refusal::TwoContents);
    }
    Ok(())
}

// ---- repeats

// Whether a record has the number and the content of q. Its number is read first, since most differ in it.
fn is_same(bytes: &[u8; 32], q: Quote) -> bool
    ensures { result ≡ same_quote (quote_of bytes.now) q }
{
    let same_number = number_of(bytes) == q.number;
    same_number && same_content(quote_of(bytes), q)
}

// Whether one of some records is the same as q.
fn among(q: Quote, before: &[[u8; 32]]) -> bool
    ensures { result ≡ among q (map quote_of before.now) }
{
    before.iter().any(|bytes| is_same(bytes, q))
}

// Puts what is kept of some records into three columns, and answers how many that is. Room beyond is untouched.
fn keep(sent: &[[u8; 32]], k: &mut [f64], w: &mut [f64], weight: &mut [f64]) -> usize
    requires { (length sent.now ≤ length k.old) × (length sent.now ≤ length w.old) × (length sent.now ≤ length weight.old) }
    ensures value { result ≡ length (kept (map quote_of sent.now)) }
    ensures k_after { k.new ≡ at_front (map k_of (kept (map quote_of sent.now))) k.old }
    ensures w_after { w.new ≡ at_front (map w_of (kept (map quote_of sent.now))) w.old }
    ensures weight_after { weight.new ≡ at_front (map weight_of (kept (map quote_of sent.now))) weight.old }
{
    // Stays: m counts the records that are kept, and not the turns.
    let mut m = 0;
    for (i, bytes) in sent.iter().enumerate() {
        let q = quote_of(bytes);
        if !among(q, &sent[..i]) {
            k[m] = bits::f64_of(q.k);
            w[m] = bits::f64_of(q.w);
            weight[m] = bits::f64_of(q.weight);
            m += 1;
        }
    }
    m
}

fn columns_hold(n: usize, a: usize, b: usize, c: usize) -> bool
    ensures { result ≡ leb n a && leb n b && leb n c }
{
    (n <= a) & (n <= b) & (n <= c)
}

// Puts the first of each of some records, 32 bytes each, into three columns, and answers how many these are: none where a column has not room for all of them.
pub fn take(s: &[u8], k: &mut [f64], w: &mut [f64], weight: &mut [f64]) -> usize
    ensures value { result ≡ length (taken_of (records_of s.now) (length k.old) (length w.old) (length weight.old)) }
    ensures k_after { k.new ≡ at_front (map k_of (taken_of (records_of s.now) (length k.old) (length w.old) (length weight.old))) k.old }
    ensures w_after { w.new ≡ at_front (map w_of (taken_of (records_of s.now) (length k.old) (length w.old) (length weight.old))) w.old }
    ensures weight_after { weight.new ≡ at_front (map weight_of (taken_of (records_of s.now) (length k.old) (length w.old) (length weight.old))) weight.old }
{
    let (sent, _) = s.as_chunks::<32>();
    if !columns_hold(sent.len(), k.len(), w.len(), weight.len()) {
        return 0;
    }
    keep(sent, k, w, weight)
}
