#![tactic(auto)]

// The predictor of a decoding loop: it holds the sum of its older products ahead, and its weights gain by numbers from memory.
ghost use Rattle.std.specs.Prelude.{◌≡◌, ◌≤◌, ◌^◌, pos, negsuc, nat_abs, ◌+ℤ◌};
ghost use Rattle.std.specs.Int.Signed.{lt_z};
ghost use Rattle.wrap.specs.Wrap.{low32};
ghost use Rattle.lms.specs.Predictor.{clamp16, pick, predicted};
ghost use Rattle.ahead.specs.Parts.{gained, gains_of, moved_by, side_of, SmallGains};
ghost use Rattle.lms.specs.Parts.{older_dot, WeightsWithin};

use lms::{QoaLms, add_newest, is_short, older_dot};

// The predictor of a decoding loop, with the sum of its three older products, which is known before the newest sample is.
#[derive(Clone, Copy)]
pub struct Ahead {
    pub lms: QoaLms,
    pub older: u32,
    pub ghost ahead: { older ≡ low32 (older_dot lms.weights lms.history) },
}

// What a weight gains by a table value: a sixteenth of it, and the negative of that for a history below zero.
pub fn gains(residual: i32) -> [i32; 2]
    ensures { result ≡ gains_of residual }
{
    let step = residual >> 4;
    [step, -step]
}

// Which of the two is a history number's. kept: a number by a test, since it is a place in memory.
fn side(history: i32) -> usize
    ensures { result ≡ side_of history }
{
    if history < 0 { 1 } else { 0 }
}

// A weight after its gain: what `lms::update` makes of it, by a number from memory in place of a test. kept: that gains are small is a
// clause: it follows for all eight at once where they are made (`GainsOf` in slice), and a type would say it of each.
fn gain(weight: i32, history: i32, gains: &[i32; 2]) -> i32
    requires { (nat_abs weight ≤ 2 ^ 30) × SmallGains gains.now }
    ensures { result ≡ gained weight history gains.now }
{
    weight + gains[side(history)]
}

// What `lms::update` makes, by the gains of the table value.
fn moved_by(lms: QoaLms, sample: i32, gains: &[i32; 2]) -> QoaLms
    requires { (WeightsWithin (2 ^ 30) lms) × SmallGains gains.now }
    ensures { result ≡ moved_by lms sample gains.now }
{
    let QoaLms {
        history: h,
        weights: w,
    } = lms;
    QoaLms {
        history: [h[1], h[2], h[3], sample],
        // kept: written out, as in `lms::update`: the decoder's innermost code
        weights: [
            gain(w[0], h[0], gains),
            gain(w[1], h[1], gains),
            gain(w[2], h[2], gains),
            gain(w[3], h[3], gains),
        ],
    }
}

// The predictor, made ready for a loop.
pub fn ready(lms: QoaLms) -> Ahead
    ensures { result.lms ≡ lms }
{
    Ahead {
        lms,
        older: older_dot(lms.weights, lms.history),
    }
}

// What it expects next.
fn expect(a: Ahead) -> i32
    ensures { result ≡ predicted a.lms }
{
    add_newest(a.older, a.lms.weights[3], a.lms.history[3]) >> 13
}

// The end of the 16-bit range that is on a number's side of zero.
fn end_of(x: i32) -> i32
    ensures { result ≡ pick (lt_z x (pos 0)) (negsuc 32767) (pos 32767) }
{
    if x < 0 { -32768 } else { 32767 }
}

// The prediction plus a table value, not clamped.
pub fn sum_ahead(a: Ahead, residual: i32) -> i32
    requires { nat_abs residual ≤ 14336 }
    ensures { result ≡ predicted a.lms +ℤ residual }
{
    expect(a) + residual
}

// The same, clamped to 16 bits. A sum that is too far out has the prediction's sign, which is known before the sum.
pub fn clamped_ahead(a: Ahead, residual: i32) -> i32
    requires { nat_abs residual ≤ 14336 }
    ensures { result ≡ clamp16 (predicted a.lms +ℤ residual) }
{
    let sum = sum_ahead(a, residual);
    let end = end_of(expect(a));
    if is_short(sum) { sum } else { end }
}

// The predictor of a loop after a sample whose table value has these gains.
pub fn advance(lms: QoaLms, sample: i32, gains: &[i32; 2]) -> Ahead
    requires { (WeightsWithin (2 ^ 30) lms) × SmallGains gains.now }
    ensures { result.lms ≡ moved_by lms sample gains.now }
{
    ready(moved_by(lms, sample, gains))
}
