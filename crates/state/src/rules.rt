// The state rules of a decoder, each checked on its own.
ghost use Rattle.std.specs.Prelude.{◌≡◌, ◌&&◌, ◌≤◌, ◌*◌, leb, length};
ghost use Rattle.lms.specs.Predictor.{history_rule};
ghost use Rattle.format.specs.Format.{max_channels, slice_len};
ghost use Rattle.state.specs.View.{view};
ghost use Rattle.state.specs.States.{mode_rule, some_channels, weight_rule, weight_bound, lms_rule, good_state};

use crate::{FrameFacts, ProcessingMode, QoaDecoder};
use format::frame::{QOA_MAX_CHANNELS, QOA_MOST_RATE, QOA_SLICE_LEN};
use lms::QoaLms;

// In fixed mode a total of at least 1, with the first frame's channels and rate in range.
fn is_good_mode(mode: ProcessingMode) -> bool
    ensures { result ≡ mode_rule mode }
{
    match mode {
        ProcessingMode::Streaming => true,
        ProcessingMode::FixedSamples {
            samples,
            channels,
            rate,
        } => {
            samples != 0
                && (1..=QOA_MAX_CHANNELS).contains(&(channels as usize))
                && (1..=QOA_MOST_RATE).contains(&rate)
        }
    }
}

// Channels may be 0 only where no sample remains.
fn has_channels(channels: u8, remaining: u16) -> bool
    ensures { result ≡ some_channels channels remaining }
{
    channels != 0 || remaining == 0
}

// The current frame's channels, and what remains of its samples.
fn is_good_frame(frame: FrameFacts, remaining: u16) -> bool
    ensures { result ≡ (leb frame.channels max_channels && (some_channels frame.channels remaining && leb remaining frame.samples)) }
{
    (frame.channels as usize) <= QOA_MAX_CHANNELS
        && has_channels(frame.channels, remaining)
        && remaining <= frame.samples
}

// The pending samples lie within one slice of every channel.
fn is_good_range(next: usize, end: usize, channels: u8) -> bool
    ensures { result ≡ (leb next end && leb end (slice_len * channels)) }
{
    next <= end && end <= QOA_SLICE_LEN * (channels as usize)
}

// Weights at most `bound` in magnitude.
fn are_good_weights(lms: QoaLms, bound: u32) -> bool
    ensures { result ≡ weight_rule bound lms }
{
    lms.weights.iter().all(|w| w.unsigned_abs() <= bound)
}

// The largest magnitude of a weight where so many samples per channel remain.
fn weight_bound(remaining: u16) -> u32
    ensures { result ≡ weight_bound remaining }
{
    let slices = format::slices_of(remaining as usize) as u32;
    32768 + 17920 * (3277 - slices)
}

// One channel's predictor.
fn is_good_lms(lms: QoaLms, bound: u32) -> bool
    ensures { result ≡ (history_rule lms && weight_rule bound lms) }
{
    lms::are_short(lms.history) && are_good_weights(lms, bound)
}

// The predictors of the used channels.
fn are_good_states(states: &[QoaLms], bound: u32) -> bool
    ensures { result ≡ lms_rule (length states.now) bound states.now }
{
    states.iter().all(|&lms| is_good_lms(lms, bound))
}

// All of the state rules, for an input of so many bytes.
pub fn is_good(d: QoaDecoder, bytes: usize) -> bool
    ensures { result ≡ good_state (view d) bytes }
{
    d.at <= bytes
        && is_good_mode(d.mode)
        && is_good_frame(d.frame, d.remaining)
        && is_good_range(d.next, d.end, d.frame.channels)
        && are_good_states(
            &d.lms[..d.frame.channels as usize],
            weight_bound(d.remaining),
        )
}
