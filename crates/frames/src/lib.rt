#![tactic(auto)]

// Moving to the next frame.
ghost use Rattle.std.specs.Prelude.{◌≡◌, true, ◌+◌, ◌*◌, ◌^◌, ◌≤◌, length};
ghost use Rattle.format.specs.Format.{max_channels, slices_of, state_end};
ghost use Rattle.format.specs.Header.{header_at};
ghost use Rattle.state.specs.View.{View, view};
ghost use Rattle.state.specs.States.{good_state};
ghost use Rattle.into.specs.Into.{groups_end};
ghost use Rattle.frames.specs.Frames.{NextDone, past_rest, entered, frame_read, kind_of};
ghost use Rattle.groups.specs.Parts.{AllWithin, groups_states};
ghost use Rattle.frames.specs.Parts.{EnterDone};

use format::checks::{First, Kind};
use format::frame::{FrameHeader, QOA_HEADER_SIZE, QOA_MAX_CHANNELS, QOA_SLICE_LEN};
use lms::QoaLms;
use refusal::{Done, Refusal};
use state::{FrameFacts, PENDING, ProcessingMode, QoaDecoder};

// The next frame, or none at the end, and the state after it.
pub type NextFrame = Done<Result<Option<FrameFacts>, Refusal>, QoaDecoder>;

// The predictors after so many groups, whose samples are dropped. kept: the groups are counted, since bytes have no
// chunks of 8 bytes per channel where there is no channel.
fn run_groups(
    states: [QoaLms; QOA_MAX_CHANNELS],
    bytes: &[u8],
    at: usize,
    channels: usize,
    groups: usize,
) -> [QoaLms; QOA_MAX_CHANNELS]
    requires small { (channels ≤ max_channels) × (groups ≤ 3277) }
    requires whole { at + 8 * (groups * channels) ≤ length bytes.now }
    requires weights { AllWithin (2 ^ 26) channels states }
    ensures { result ≡ groups_states bytes.now at channels states groups }
{
    let tab = scale::dequant_tab();
    let mut scratch = [0i16; PENDING];
    let mut all = states;
    for g in 0..groups {
        let place = at + 8 * (g * channels);
        let next = groups::decode_groups(
            &tab,
            all,
            bytes,
            place,
            channels,
            QOA_SLICE_LEN,
            &mut scratch,
            0,
        );
        all = next;
    }
    all
}

// The state after all that remains of the frame.
fn drop_rest(d: QoaDecoder, bytes: &[u8]) -> QoaDecoder
    requires good { good_state (view d) (length bytes.now) ≡ true }
    requires whole { groups_end (view d) (slices_of d.remaining) ≤ length bytes.now }
    ensures { view result ≡ past_rest bytes.now (view d) }
{
    let channels = d.frame.channels as usize;
    let slices = format::slices_of(d.remaining as usize);
    QoaDecoder {
        at: d.at + 8 * (slices * channels),
        remaining: 0,
        next: 0,
        end: 0,
        given: true,
        lms: run_groups(d.lms, bytes, d.at, channels, slices),
        ..d
    }
}

// The frames that a decoder accepts.
fn kind_of(mode: ProcessingMode) -> Kind
    ensures { result ≡ kind_of mode }
{
    match mode {
        ProcessingMode::Streaming => Kind::Any,
        ProcessingMode::FixedSamples { channels, rate, .. } => Kind::Like(First {
            fixed: true,
            channels,
            rate,
        }),
    }
}

// Whether a frame was read.
pub fn has_read(d: QoaDecoder) -> bool
    ensures { result ≡ frame_read (view d) }
{
    match d.mode {
        ProcessingMode::Streaming => 0 < d.frame.channels,
        ProcessingMode::FixedSamples { .. } => true,
    }
}

// The state at the start of the frame at a place.
fn start_frame(d: QoaDecoder, bytes: &[u8], place: usize, h: FrameHeader) -> QoaDecoder
    requires { (h ≡ header_at bytes.now place) × (h.channels ≤ max_channels) × (place + state_end h.channels ≤ length bytes.now) }
    ensures { (v : View) → v.mode ≡ d.mode → v.at ≡ place → view result ≡ entered bytes.now v }
{
    let channels = h.channels as usize;
    QoaDecoder {
        at: place + format::state_end(channels),
        frame: FrameFacts::from(h),
        remaining: h.samples,
        next: 0,
        end: 0,
        given: true,
        lms: predictors::read_states(bytes, place + QOA_HEADER_SIZE, channels, d.lms),
        ..d
    }
}

// The frame at a place where a header is left.
pub fn enter_frame(d: QoaDecoder, bytes: &[u8], place: usize) -> NextFrame
    requires { place + 8 ≤ length bytes.now }
    ensures { (v : View) → v.mode ≡ d.mode → v.at ≡ place → EnterDone bytes.now d v result }
{
    let h = format::read_header(bytes, place);
    let need = format::state_end(h.channels as usize);
    match format::check_frame(h, kind_of(d.mode), need, bytes.len() - place) {
        Err(why) => Done::refused(why, d),
        Ok(()) => Done {
            answer: Ok(Some(FrameFacts::from(h))),
            state: start_frame(d, bytes, place, h),
        },
    }
}

// The next frame, past what remains of the current one, or the end: its predictors are run only where no other frame takes their place.
pub fn next_frame(d: QoaDecoder, bytes: &[u8]) -> NextFrame
    ensures { NextDone bytes.now d result }
{
    if !state::is_good(d, bytes.len()) {
        return Done::refused(Refusal::BadState, d);
    }
    let slices = format::slices_of(d.remaining as usize);
    let place = d.at + 8 * (slices * (d.frame.channels as usize));
    if bytes.len() < place {
        return Done::refused(Refusal::Truncated, d);
    }
    let left = bytes.len() - place;
    if left < QOA_HEADER_SIZE {
        if !format::tail_ok(left, has_read(d)) {
            return Done::refused(Refusal::Truncated, d);
        }
        return Done {
            answer: Ok(None),
            state: drop_rest(d, bytes),
        };
    }
    enter_frame(d, bytes, place)
}
