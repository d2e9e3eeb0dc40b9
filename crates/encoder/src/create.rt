// A new encoder.
ghost use Rattle.std.specs.Prelude.{◌≡◌, ◌≤◌};
ghost use Rattle.refusal.specs.Rules.{first_of};
ghost use Rattle.refusal.specs.Refusals.{told_refusal};
ghost use Rattle.encoder.specs.Encoder.{create_rules, new_view, encoder_view};
ghost use Rattle.format.specs.Format.{max_channels};
ghost use Rattle.encoder.specs.Calls.{CreateDone};

use crate::{CreatedEncoder, QoaEncoder};
use format::frame::{QOA_MAX_CHANNELS, QOA_MOST_RATE};
use lms::ZERO_LMS;
use refusal::{Done, Refusal};

// The state of a refusal.
const ZERO_ENCODER: QoaEncoder = QoaEncoder {
    channels: 0,
    rate: 0,
    total: 0,
    lms: [ZERO_LMS; QOA_MAX_CHANNELS],
};

// The refusals of a creation, in FORMAT.md's order.
fn check_create(channels: u8, rate: u32, total: u32) -> Result<(), Refusal>
    ensures { told_refusal result ≡ first_of (create_rules channels rate total) }
{
    if channels == 0 || QOA_MAX_CHANNELS < channels as usize {
        return Err(Refusal::InvalidChannels);
    }
    if rate == 0 || QOA_MOST_RATE < rate {
        return Err(Refusal::InvalidSampleRate);
    }
    if total == 0 {
        return Err(Refusal::InvalidSamples);
    }
    Ok(())
}

// Every predictor is new, those of the unused channels too.
fn fresh_encoder(channels: u8, rate: u32, total: u32) -> QoaEncoder
    requires { channels ≤ max_channels }
    ensures { encoder_view result ≡ new_view channels rate total }
{
    QoaEncoder {
        channels,
        rate,
        total,
        lms: [lms::new_lms(); QOA_MAX_CHANNELS],
    }
}

// A new encoder, or the refusal: 11, 12, 13.
pub fn new_encoder(channels: u8, rate: u32, total: u32) -> CreatedEncoder
    ensures { CreateDone channels rate total result }
{
    match check_create(channels, rate, total) {
        Err(why) => Done::refused(why, ZERO_ENCODER),
        Ok(()) => Done {
            answer: Ok(()),
            state: fresh_encoder(channels, rate, total),
        },
    }
}
