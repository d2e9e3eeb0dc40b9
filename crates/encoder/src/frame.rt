// A frame: its refusals, then its bytes.
ghost use Rattle.std.specs.Prelude.{◌≡◌, ◌+◌, ◌≤◌, length};
ghost use mathlib.Core.Option.{none};
ghost use Rattle.refusal.specs.Rules.{good, first_of};
ghost use Rattle.format.specs.Format.{frame_length};
ghost use Rattle.refusal.specs.Refusals.{told_refusal};
ghost use Rattle.encoder.specs.Encoder.{encoder_view};
ghost use Rattle.encoder.specs.Frame.{after_frame, frame_bytes, encode_rules, per_channel};
ghost use Rattle.refusal.specs.Lent.{laid_over};
ghost use Rattle.encoder.specs.Parts.{FrameFits};
ghost use Rattle.encoder.specs.Calls.{FrameDone};

use crate::rules::{first_wide, is_good_encoder};
use crate::{EncodeRefusal, EncodedBytes, QoaEncoder};
use body::{put_groups, put_states};
use format::frame::{
    FrameHeader, QOA_FRAME_LEN, QOA_HEADER_SIZE, frame_length, header_word, state_end,
};
use refusal::{Done, Refusal};
use word::BigEndian;

// The refusals of a frame but for 14, in FORMAT.md's order.
fn check_frame(e: QoaEncoder, samples: &[i16], room: usize) -> Result<(), Refusal>
    ensures { told_refusal result ≡ first_of (encode_rules (encoder_view e) samples.now room) }
{
    if !is_good_encoder(e) {
        return Err(Refusal::BadState);
    }
    let channels = e.channels as usize;
    if samples.is_empty() || samples.len() % channels != 0 {
        return Err(Refusal::InvalidSamples);
    }
    let n = samples.len() / channels;
    if QOA_FRAME_LEN < n {
        return Err(Refusal::InvalidSamples);
    }
    if room < frame_length(channels, n) {
        return Err(Refusal::OutputTooSmall);
    }
    Ok(())
}

// Stores a frame from a place on, and hands back the state after it.
pub fn put_frame(e: QoaEncoder, samples: &[i16], out: &mut [u8], at: usize) -> QoaEncoder
    requires frame_fits { FrameFits (encoder_view e) samples.now }
    requires samples_in_bounds { at + frame_length e.channels (per_channel (encoder_view e) samples.now) ≤ length out.old }
    ensures state { encoder_view result ≡ after_frame (encoder_view e) samples.now }
    ensures bytes { out.new ≡ laid_over out.old at (good (frame_bytes (encoder_view e) samples.now)) }
{
    let channels = e.channels as usize;
    let n = samples.len() / channels;
    let header = FrameHeader {
        channels: e.channels,
        rate: e.rate,
        samples: n as u16,
        size: frame_length(channels, n) as u16,
    };
    header_word(header).write_be(out, at);
    let states = e.lms;
    put_states(states, channels, out, at + QOA_HEADER_SIZE);
    let next = put_groups(states, channels, samples, n, out, at + state_end(channels));
    QoaEncoder { lms: next, ..e }
}

// A frame that nothing but 14 refuses.
fn encode_checked(e: QoaEncoder, samples: &[i16], out: &mut [u8]) -> EncodedBytes
    requires { first_of (encode_rules (encoder_view e) samples.now (length out.old)) ≡ none }
    ensures { FrameDone e samples.now out.old result out.new }
{
    let channels = e.channels as usize;
    let states = e.lms;
    if let Some(channel) = first_wide(states, channels) {
        return Done::refused(EncodeRefusal::WeightRange { count: 0, channel }, e);
    }
    Done {
        state: put_frame(e, samples, out, 0),
        answer: Ok(frame_length(channels, samples.len() / channels)),
    }
}

// A frame of interleaved samples: 8, 13, 7, 14.
pub fn encode_frame(e: QoaEncoder, samples: &[i16], out: &mut [u8]) -> EncodedBytes
    ensures { FrameDone e samples.now out.old result out.new }
{
    match check_frame(e, samples, out.len()) {
        Err(why) => Done::refused(EncodeRefusal::from(why), e),
        Ok(()) => encode_checked(e, samples, out),
    }
}
