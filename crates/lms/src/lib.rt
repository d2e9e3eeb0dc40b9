#![tactic(auto)]

// The predictor of one channel. Products and sums wrap at 32 bits: they are held as low bits and read
// as a signed number once, at the end.
ghost use Rattle.std.specs.Prelude.{◌≡◌, ◌^◌, ◌≤◌, ℤ, ◌+ℤ◌, ◌*ℤ◌, nat_lt, unsigned_abs};
ghost use Rattle.std.specs.Int.Signed.{mag};
ghost use Rattle.wrap.specs.Wrap.{low32, wrap32};
ghost use Rattle.lms.specs.Predictor.{all_short, clamp16, cost_of, dot, new_lms, predicted, penalty_of, stepped, updated};
ghost use Rattle.lms.specs.Parts.{older_dot, WeightsWithin};

use wrap::TwosComplement;

pub const QOA_LMS_LEN: usize = 4;

// Four numbers of history, the newest last, and a weight for each. kept: a bound on the weights is a clause and no invariant, since it is
// another at each floor (2^26 to 2^30), and a state may be handed in with any weights.
#[derive(Clone, Copy)]
pub struct QoaLms {
    pub history: [i32; QOA_LMS_LEN],
    pub weights: [i32; QOA_LMS_LEN],
}

// One that is all zero.
pub const ZERO_LMS: QoaLms = QoaLms {
    history: [0; QOA_LMS_LEN],
    weights: [0; QOA_LMS_LEN],
};

// The predictor of a new encoder.
pub fn new_lms() -> QoaLms
    ensures { result ≡ new_lms }
{
    QoaLms {
        history: [0, 0, 0, 0],
        weights: [0, 0, -8192, 16384],
    }
}

// The low bits of the sum of the first three products.
pub fn older_dot(a: [i32; QOA_LMS_LEN], b: [i32; QOA_LMS_LEN]) -> u32
    ensures { result ≡ low32 (older_dot a b) }
{
    let p0 = wrap::wrapping_mul(a[0], b[0]);
    let p1 = wrap::wrapping_mul(a[1], b[1]);
    let p2 = wrap::wrapping_mul(a[2], b[2]);
    p0.wrapping_add(p1).wrapping_add(p2)
}

// The sum with one product more, wrapped. The newest product comes last, since the others are known before it.
pub fn add_newest(older: u32, a: i32, b: i32) -> i32
    ensures { (z : ℤ) → older ≡ low32 z → result ≡ wrap32 (z +ℤ a *ℤ b) }
{
    let newest = wrap::wrapping_mul(a, b);
    i32::signed(older.wrapping_add(newest))
}

// The sum of the four products, wrapped.
fn wrapped_dot(a: [i32; QOA_LMS_LEN], b: [i32; QOA_LMS_LEN]) -> i32
    ensures { result ≡ wrap32 (dot a b) }
{
    add_newest(older_dot(a, b), a[3], b[3])
}

// What the predictor expects next.
pub fn predict(lms: QoaLms) -> i32
    ensures { result ≡ predicted lms }
{
    wrapped_dot(lms.weights, lms.history) >> 13
}

// What large weights cost, before it is squared.
pub fn penalty(lms: QoaLms) -> u32
    ensures { result ≡ penalty_of lms }
{
    let squares = wrapped_dot(lms.weights, lms.weights);
    ((squares >> 18) - 2303).max(0) as u32
}

// The nearest number of 16 bits. kept: a name of its own, which the source's `clamp` and an edit have.
pub fn clamp(x: i32) -> i16
    ensures { result ≡ clamp16 x }
{
    x.clamp(-32768, 32767) as i16
}

// The prediction plus a table value, clamped to 16 bits.
pub fn reconstruct(prediction: i32, residual: i32) -> i16
    requires { (unsigned_abs prediction ≤ 2 ^ 18) × (unsigned_abs residual ≤ 14336) }
    ensures { result ≡ clamp16 (prediction +ℤ residual) }
{
    clamp(prediction + residual)
}

// A sample's cost: its squared error plus the squared penalty.
pub fn cost(sample: i16, reconstructed: i16, penalty: u32) -> u64
    ensures { result ≡ cost_of sample reconstructed penalty }
{
    let error = wrap::magnitude((sample as i32) - (reconstructed as i32)) as u64;
    let excess = penalty as u64;
    error * error + excess * excess
}

// A weight gains d, or loses d where its history is negative.
fn step(weight: i32, history: i32, d: i32) -> i32
    requires { (unsigned_abs weight ≤ 2 ^ 30) × (unsigned_abs d ≤ 896) }
    ensures { result ≡ stepped weight history d }
{
    if history < 0 { weight - d } else { weight + d }
}

// The predictor after a sample whose table value is `residual`.
pub fn update(lms: QoaLms, sample: i16, residual: i32) -> QoaLms
    requires { (WeightsWithin (2 ^ 30) lms) × (unsigned_abs residual ≤ 14336) }
    ensures { result ≡ updated lms sample residual }
{
    let QoaLms {
        history: h,
        weights: w,
    } = lms;
    let d = residual >> 4;
    QoaLms {
        history: [h[1], h[2], h[3], sample as i32],
        // kept: written out, since the proof of `from_fn` was found only at the limits of the search
        weights: [
            step(w[0], h[0], d),
            step(w[1], h[1], d),
            step(w[2], h[2], d),
            step(w[3], h[3], d),
        ],
    }
}

// Whether a number is one of 16 bits. kept: a test of its own, which loops run and an edit changes.
pub fn is_short(x: i32) -> bool
    ensures { result ≡ nat_lt (mag x) 32768 }
{
    -32768 <= x && x <= 32767
}

// Numbers of 16 bits.
pub fn are_short(xs: [i32; QOA_LMS_LEN]) -> bool
    ensures { result ≡ all_short xs }
{
    xs.iter().all(|x| is_short(*x))
}
