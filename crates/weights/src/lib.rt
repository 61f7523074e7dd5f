// Step 3 of the fit: the median weight, the cap, and the weights capped and scaled so that the largest is 1.
#![tactic(auto)]

ghost use Rattle.std.specs.Prelude.{◌≡◌, map, ◌++◌, ◌+◌, ◌≤◌, ◌<◌, length, take, drop};
ghost use Rattle.laws.specs.Room.{at_front};
ghost use Rattle.weights.specs.Weights.{insert_of, sort_of, mid_of, top_of, scale_one, scaled_of, all_good, weighed, weights_of, scaled_in};

// What step 3 hands on beside the scaled weights, which stand in lent room: whether each of them is finite and positive, and the cap.
// Stays: weights_of promises the cap also of weights that are not all good, so it is no Option.
#[derive(Clone, Copy)]
pub struct Weights {
    pub ok: bool,
    pub cap: f64,
}

// x is put among the first n of `a`: at each place the lesser stays, and the greater goes on.
fn insert(a: &mut [f64], n: usize, x: f64)
    requires { n < length a.old }
    ensures { a.new ≡ insert_of x (take n a.old) ++ drop (n + 1) a.old }
{
    let mut carry = x;
    for y in a[..n].iter_mut() {
        let z = *y;
        let less = carry < z;
        *y = bits::pick(less, carry, z);
        carry = bits::pick(less, z, carry);
    }
    a[n] = carry;
}

// The weights in ascending order, in the first places of the room.
// Stays: the order of weights that are no number is promised too, which the library's sort does not say.
fn sort(room: &mut [f64], weights: &[f64])
    requires { length weights.now ≤ length room.old }
    ensures { room.new ≡ at_front (sort_of weights.now) room.old }
{
    for (m, w) in weights.iter().rev().enumerate() {
        insert(room, m, *w);
    }
}

// The middle of a, which is sorted.
fn middle(a: &[f64]) -> f64
    requires { 1 ≤ length a.now }
    ensures { result ≡ mid_of (length a.now) a.now }
{
    let h = a.len() / 2;
    let hi = a[h];
    if a.len() % 2 == 0 {
        let lo = a[h - 1];
        return lo + 0.5 * (hi - lo);
    }
    hi
}

// The largest capped weight, or 0.
fn top(weights: &[f64], cap: f64) -> f64
    ensures { result ≡ top_of cap weights.now }
{
    weights
        .iter()
        .fold(0.0, |t, w| bits::max(t, bits::min(*w, cap)))
}

// Each weight, capped, over the largest, in the first places of the room.
fn scale(room: &mut [f64], weights: &[f64], cap: f64, most: f64)
    requires { length weights.now ≤ length room.old }
    ensures { room.new ≡ at_front (map (scale_one cap most) weights.now) room.old }
{
    // Stays: of iter_mut under zip no promise says what it leaves.
    for (i, w) in weights.iter().enumerate() {
        room[i] = bits::min(*w, cap) / most;
    }
}

// Whether each is finite and positive.
fn all_good(a: &[f64]) -> bool
    ensures { result ≡ all_good a.now }
{
    // Stays, and no is_positive: the edit zero_weight_passes is of this line.
    a.iter().all(|x| bits::is_finite(*x) & (0.0 < *x))
}

// The room is filled with the sorted weights, for the median, and then with the scaled ones.
fn weigh(weights: &[f64], ratio: f64, room: &mut [f64]) -> Weights
    requires { (1 ≤ length weights.now) × (length weights.now ≤ length room.old) }
    ensures value { result ≡ weighed ratio weights.now }
    ensures room_after { room.new ≡ at_front (scaled_of ratio weights.now) room.old }
{
    let n = weights.len();
    sort(room, weights);
    let cap = ratio * middle(&room[..n]);
    let most = top(weights, cap);
    scale(room, weights, cap, most);
    Weights {
        ok: all_good(&room[..n]),
        cap,
    }
}

// The weights of step 3, in the first places of the lent room; of none, and of more than 256, nothing is made, and the room is left as it was.
pub fn weights_of(weights: &[f64], ratio: f64, room: &mut [f64; 256]) -> Weights
    ensures value { result ≡ weights_of ratio weights.now }
    ensures room_after { room.new ≡ scaled_in ratio weights.now room.old }
{
    let n = weights.len();
    if (1 <= n) & (n <= 256) {
        return weigh(weights, ratio, room);
    }
    Weights {
        ok: false,
        cap: 0.0,
    }
}
