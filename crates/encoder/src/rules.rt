// The state rules of an encoder, and the range of its weights.
ghost use Rattle.std.specs.Prelude.{◌≡◌, ◌≤◌};
ghost use Rattle.format.specs.Format.{max_channels};
ghost use Rattle.format.specs.Predictor.{lms_of};
ghost use Rattle.word.specs.Below.{below};
ghost use Rattle.encoder.specs.Encoder.{good_encoder, encoder_view};
ghost use Rattle.encoder.specs.Frame.{first_wide};
ghost use Rattle.encoder.specs.Parts.{told_wide};
ghost use Rattle.lms.specs.Predictor.{history_rule};

use crate::QoaEncoder;
use format::frame::{QOA_MAX_CHANNELS, QOA_MOST_RATE};
use lms::{QoaLms, are_short};

// The histories of the used channels are in 16 bits. kept: the states with the number of channels, as the contract's `below` takes them.
fn are_good_histories(states: &[QoaLms; QOA_MAX_CHANNELS], channels: usize) -> bool
    requires { channels ≤ max_channels }
    ensures { result ≡ below channels (λ j. history_rule (lms_of states.now j)) }
{
    states[..channels].iter().all(|lms| are_short(lms.history))
}

// All of the state rules.
pub fn is_good_encoder(e: QoaEncoder) -> bool
    ensures { result ≡ good_encoder (encoder_view e) }
{
    let channels = e.channels as usize;
    if channels == 0
        || QOA_MAX_CHANNELS < channels
        || e.rate == 0
        || QOA_MOST_RATE < e.rate
        || e.total == 0
    {
        return false;
    }
    are_good_histories(&e.lms, channels)
}

// The first channel that has a weight out of 16 bits.
pub fn first_wide(states: [QoaLms; QOA_MAX_CHANNELS], channels: usize) -> Option<u8>
    requires { channels ≤ max_channels }
    ensures { told_wide result ≡ first_wide channels states }
{
    let channel = states[..channels]
        .iter()
        .position(|lms| !are_short(lms.weights))?;
    Some(channel as u8)
}
