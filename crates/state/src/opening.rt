// Opening a decoder.
ghost use Rattle.std.specs.Prelude.{◌≡◌, ◌+◌, ◌*◌, ◌≤◌, length};
ghost use Rattle.std.specs.Result.{MatchResult};
ghost use mathlib.Core.Option.{none, some};
ghost use Rattle.refusal.specs.Rules.{after, first_of, good};
ghost use Rattle.format.specs.FileHeader.{total_of};
ghost use Rattle.format.specs.Format.{max_channels, state_end};
ghost use Rattle.format.specs.Header.{header_at};
ghost use Rattle.state.specs.View.{view};
ghost use Rattle.state.specs.Opening.{OpenLeaves, first_rules, open_rules, opened_at, opened_fixed, opened_stream, zero_state};
ghost use Rattle.refusal.specs.Refusals.{number_of, told, told_refusal};

use crate::{FrameFacts, OpenedDecoder, PENDING, ProcessingMode, QoaDecoder};
use format::checks::Kind;
use format::frame::{FrameHeader, QOA_HEADER_SIZE, QOA_MAX_CHANNELS};
use refusal::{Done, Refusal};

// The state of a refusal. kept: a function and no `Default`, since the contract cites the definition of this state by its name.
pub fn zero_state() -> QoaDecoder
    ensures { result ≡ zero_state }
{
    QoaDecoder {
        mode: ProcessingMode::Streaming,
        at: 0,
        frame: FrameFacts {
            channels: 0,
            rate: 0,
            samples: 0,
        },
        remaining: 0,
        next: 0,
        end: 0,
        given: false,
        lms: [lms::ZERO_LMS; QOA_MAX_CHANNELS],
        pending: [0; PENDING],
    }
}

// A stream before its first frame.
fn stream_state() -> QoaDecoder
    ensures { view result ≡ opened_stream }
{
    QoaDecoder {
        at: QOA_HEADER_SIZE,
        ..zero_state()
    }
}

// The header of the first frame, whose predictor state is whole.
fn first_frame(bytes: &[u8]) -> Result<FrameHeader, Refusal>
    ensures { told result ≡ after (first_rules bytes.now) (good (header_at bytes.now 8)) }
{
    let left = bytes.len().saturating_sub(QOA_HEADER_SIZE);
    if left < QOA_HEADER_SIZE {
        return Err(Refusal::NoSamples);
    }
    let h = format::read_header(bytes, QOA_HEADER_SIZE);
    let need = format::state_end(h.channels as usize);
    format::check_frame(h, Kind::Any, need, left)?;
    Ok(h)
}

// A fixed file at its first frame's slices.
fn fixed_state(bytes: &[u8], total: u32, h: FrameHeader) -> QoaDecoder
    requires { (total ≡ total_of bytes.now) × (h ≡ header_at bytes.now 8) × (h.channels ≤ max_channels) × (8 + state_end h.channels ≤ length bytes.now) }
    ensures { view result ≡ opened_fixed bytes.now }
{
    let zero = zero_state();
    let channels = h.channels as usize;
    QoaDecoder {
        mode: ProcessingMode::FixedSamples {
            samples: total,
            channels: h.channels,
            rate: h.rate,
        },
        at: QOA_HEADER_SIZE + format::state_end(channels),
        frame: FrameFacts::from(h),
        remaining: h.samples,
        lms: predictors::read_states(bytes, 2 * QOA_HEADER_SIZE, channels, zero.lms),
        ..zero
    }
}

// The state at the start of a file, or the refusal.
fn opened(bytes: &[u8]) -> Result<QoaDecoder, Refusal>
    ensures { MatchResult result (λ d. (first_of (open_rules bytes.now) ≡ none) × (view d ≡ opened_at bytes.now)) (λ r. first_of (open_rules bytes.now) ≡ some (number_of r)) }
{
    let total = format::file_header(bytes)?;
    if total == 0 {
        return Ok(stream_state());
    }
    let h = first_frame(bytes)?;
    Ok(fixed_state(bytes, total as u32, h))
}

// A decoder at the start of a file.
pub fn open_decoder(bytes: &[u8]) -> OpenedDecoder
    ensures { (told_refusal result.answer ≡ first_of (open_rules bytes.now)) × OpenLeaves (first_of (open_rules bytes.now)) bytes.now result.state }
{
    match opened(bytes) {
        Err(why) => Done::refused(why, zero_state()),
        Ok(state) => Done {
            answer: Ok(()),
            state,
        },
    }
}
