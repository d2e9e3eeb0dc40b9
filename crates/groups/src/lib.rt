#![tactic(auto)]

// A channel's slices and slice groups, decoded into lent samples. `tab` is the dequantising table, which a caller holds for a whole frame.
ghost use Rattle.std.specs.Prelude.{◌≡◌, ℕ, ◌+◌, ◌*◌, ◌^◌, ◌≤◌, ◌<◌, length};
ghost use Rattle.word.specs.Bytes.{be64};
ghost use Rattle.word.specs.Parts.{written};
ghost use Rattle.lms.specs.Parts.{WeightsWithin};
ghost use Rattle.format.specs.Format.{max_channels, slices_of};
ghost use Rattle.groups.specs.Channel.{channel_at, run_after};
ghost use Rattle.groups.specs.Groups.{groups_at};
ghost use Rattle.groups.specs.Parts.{AllWithin, groups_states};

use format::frame::{QOA_MAX_CHANNELS, QOA_SLICE_LEN};
use lms::QoaLms;
use scale::Dequant;
use slice::decode_slice;
use word::BigEndian;

// The slices of one channel, the first of which is at the place `at`.
pub fn decode_channel(
    tab: &Dequant,
    lms: QoaLms,
    bytes: &[u8],
    at: usize,
    channels: usize,
    samples: usize,
    out: &mut [i16],
    start: usize,
) -> QoaLms
    requires small { (WeightsWithin (2 ^ 28) lms) × (samples ≤ 65535) }
    requires whole { (g : ℕ) → g < slices_of samples → at + 8 * (g * channels) + 8 ≤ length bytes.now }
    requires room { (k : ℕ) → k < samples → start + k * channels < length out.old }
    ensures state { result ≡ run_after (λ g. be64 bytes.now (at + 8 * (g * channels))) lms (slices_of samples) }
    ensures samples { out.new ≡ written (channel_at (λ g. be64 bytes.now (at + 8 * (g * channels))) lms) out.old start channels samples }
{
    // kept: with `slices_of` here the compiler keeps the newest sample in memory in the loops of `slice`, and decoding is up to 7 percent
    // slower (docs/LOOK-BACK.md).
    let slices = (samples + QOA_SLICE_LEN - 1) / QOA_SLICE_LEN;
    let mut state = lms;
    // kept: the number g says where the slice's word and its samples stand.
    for g in 0..slices {
        let word = u64::read_be(bytes, at + 8 * (g * channels));
        let done = QOA_SLICE_LEN * g;
        let count = QOA_SLICE_LEN.min(samples - done);
        state = decode_slice(
            tab,
            state,
            word,
            out,
            start + done * channels,
            channels,
            count,
        );
    }
    state
}

// The slice groups of all channels, that start at the place `at`: `samples` samples of each channel, interleaved from `start` on.
pub fn decode_groups(
    tab: &Dequant,
    states: [QoaLms; QOA_MAX_CHANNELS],
    bytes: &[u8],
    at: usize,
    channels: usize,
    samples: usize,
    out: &mut [i16],
    start: usize,
) -> [QoaLms; QOA_MAX_CHANNELS]
    requires small { (channels ≤ max_channels) × (samples ≤ 65535) }
    requires whole { at + 8 * (channels * slices_of samples) ≤ length bytes.now }
    requires room { start + samples * channels ≤ length out.old }
    requires weights { AllWithin (2 ^ 28) channels states }
    ensures states { result ≡ groups_states bytes.now at channels states (slices_of samples) }
    ensures samples { out.new ≡ written (groups_at bytes.now at channels states) out.old start 1 (samples * channels) }
{
    let mut next = states;
    // kept: j says where the channel's slices and its samples stand, two places beside its predictor.
    for j in 0..channels {
        let lms = next[j];
        let after = decode_channel(
            tab,
            lms,
            bytes,
            at + 8 * j,
            channels,
            samples,
            out,
            start + j,
        );
        next[j] = after;
    }
    next
}
