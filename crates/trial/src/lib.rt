#![tactic(auto)]

// One sample, as a decoder hears it and as an encoder tries it at a scale factor.
ghost use Rattle.std.specs.Prelude.{◌≡◌, ◌≤◌, ◌^◌, nat_abs, ◌-ℤ◌};
ghost use Rattle.lms.specs.Predictor.{predicted};
ghost use Rattle.trial.specs.Trial.{heard, tried};
ghost use Rattle.lms.specs.Parts.{WeightsWithin};

use lms::QoaLms;
use scale::{Coder, Coding};

// A sample that is heard, with the predictor after it.
#[derive(Clone, Copy)]
pub struct Heard {
    pub sample: i16,
    pub lms: QoaLms,
}

// A sample that is tried: its code, the clamped sum that it comes to, its cost, and the predictor after it.
#[derive(Clone, Copy)]
pub struct Tried {
    pub code: u8,
    pub sum: i16,
    pub cost: u64,
    pub lms: QoaLms,
}

// The sample that a table value stands for.
pub fn hear(lms: QoaLms, value: i32) -> Heard
    requires { (WeightsWithin (2 ^ 30) lms) × (nat_abs value ≤ 14336) }
    ensures { result ≡ heard lms value }
{
    let sample = lms::reconstruct(lms::predict(lms), value);
    let next = lms::update(lms, sample, value);
    Heard { sample, lms: next }
}

// How far a sample is from the prediction.
fn residual(lms: QoaLms, sample: i16) -> i32
    ensures { result ≡ sample -ℤ predicted lms }
{
    (sample as i32) - lms::predict(lms)
}

// A sample, tried at a scale factor by a coder, the plain row or the quick one.
pub fn attempt<C: Coder>(lms: QoaLms, sample: i16, coding: &Coding, coder: &C) -> Tried
    requires { WeightsWithin (2 ^ 30) lms }
    ensures { result ≡ tried lms sample (C.factor coder.now) }
{
    let v = residual(lms, sample);
    let coded = coder.coded(coding, v);
    let heard = hear(lms, coded.value);
    let sum = heard.sample;
    let next = heard.lms;
    let cost = lms::cost(sample, sum, lms::penalty(lms));
    Tried {
        code: coded.code,
        sum,
        cost,
        lms: next,
    }
}
