#![tactic(auto)]

// A whole file in one shot: the file header, then frames of 5120 samples per channel.
ghost use Rattle.std.specs.Prelude.{◌≡◌, ◌≤◌, ◌<◌, ◌^◌, length};
ghost use mathlib.Core.Option.{none};
ghost use Rattle.refusal.specs.Rules.{good, first_of};
ghost use Rattle.format.specs.Format.{frame_len, frame_length, max_channels};
ghost use Rattle.refusal.specs.Refusals.{told_refusal};
ghost use Rattle.encoder.specs.Encoder.{encoder_view};
ghost use Rattle.encoder.specs.Frame.{after_frame, frame_bytes, per_channel};
ghost use Rattle.refusal.specs.Lent.{laid_over};
ghost use Rattle.encoder.specs.Parts.{FrameFits};
ghost use Rattle.oneshot.specs.OneShot.{chunk, shot_rules};
ghost use Rattle.oneshot.specs.Parts.{frame_place};
ghost use Rattle.oneshot.specs.Shots.{AllDone, ShotDone};

use encoder::create::new_encoder;
use encoder::frame::put_frame;
use encoder::head::put_head;
use encoder::rules::{first_wide, is_good_encoder};
use encoder::{EncodeRefusal, EncodedBytes, QoaEncoder};
use format::frame::{QOA_FRAME_LEN, QOA_HEADER_SIZE, frame_length};
use need::file_need;
use refusal::{Done, Refusal};

pub mod need;

pub use need::encode_need;

// The refusals of one shot but for 14, in FORMAT.md's order.
fn check_shot(e: QoaEncoder, samples: &[i16], room: usize) -> Result<(), Refusal>
    ensures { told_refusal result ≡ first_of (shot_rules (encoder_view e) samples.now room) }
{
    if !is_good_encoder(e) {
        return Err(Refusal::BadState);
    }
    let channels = e.channels as usize;
    let total = e.total as usize;
    if samples.len() != total * channels {
        return Err(Refusal::InvalidSamples);
    }
    if room < file_need(channels, total) {
        return Err(Refusal::OutputTooSmall);
    }
    Ok(())
}

// Where frame `f` is stored: those before it are full.
fn frame_place(channels: usize, f: usize) -> usize
    requires { (channels ≤ max_channels) × (f < 2 ^ 32) }
    ensures { result ≡ frame_place channels f }
{
    QOA_HEADER_SIZE + f * frame_length(channels, QOA_FRAME_LEN)
}

// A file that nothing but 14 refuses: the file header, then frame after frame.
fn encode_frames(e: QoaEncoder, samples: &[i16], out: &mut [u8]) -> EncodedBytes
    requires { first_of (shot_rules (encoder_view e) samples.now (length out.old)) ≡ none }
    ensures { ShotDone e samples.now out.old result out.new }
{
    put_head(e.total, out);
    let channels = e.channels as usize;
    let mut state = e;
    for (f, frame) in samples.chunks(QOA_FRAME_LEN * channels).enumerate() {
        let at = frame_place(channels, f);
        if let Some(channel) = first_wide(state.lms, channels) {
            return Done::refused(EncodeRefusal::WeightRange { count: at, channel }, e);
        }
        state = put_frame(state, frame, out, at);
    }
    Done {
        answer: Ok(file_need(channels, e.total as usize)),
        state,
    }
}

// All samples in one shot: 8, 13, 7, 14.
pub fn encode(e: QoaEncoder, samples: &[i16], out: &mut [u8]) -> EncodedBytes
    ensures { ShotDone e samples.now out.old result out.new }
{
    match check_shot(e, samples, out.len()) {
        Err(why) => Done::refused(EncodeRefusal::from(why), e),
        Ok(()) => encode_frames(e, samples, out),
    }
}

// A whole file from a new encoder: 11, 12, 13, then 13, 7, 14.
pub fn encode_all(
    channels: u8,
    rate: u32,
    total: u32,
    samples: &[i16],
    out: &mut [u8],
) -> Result<usize, EncodeRefusal>
    ensures { AllDone channels rate total samples.now out.old result out.new }
{
    let created = new_encoder(channels, rate, total);
    created.answer?;
    encode(created.state, samples, out).answer
}
