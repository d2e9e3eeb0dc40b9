#![tactic(auto)]

// A frame's body, stored in lent bytes: the predictor states, then the slice groups, channels in turn.
ghost use Rattle.std.specs.Prelude.{◌≡◌, ℕ, ◌+◌, ◌*◌, ◌≤◌, ◌<◌, ◌^◌, length};
ghost use Rattle.word.specs.Bytes.{bytes_of};
ghost use Rattle.word.specs.Parts.{written};
ghost use Rattle.lms.specs.Parts.{WeightsWithin};
ghost use Rattle.format.specs.Format.{frame_len, max_channels, slice_len, slices_of};
ghost use Rattle.format.specs.Predictor.{lms_of};
ghost use Rattle.search.specs.Search.{encoded_slice, strided};
ghost use Rattle.body.specs.Channel.{lms_before, slice_word};
ghost use Rattle.refusal.specs.Rules.{good};
ghost use Rattle.refusal.specs.Lent.{laid_over};
ghost use Rattle.body.specs.Laid.{laid, lms_bytes};

use format::frame::{QOA_MAX_CHANNELS, QOA_SLICE_LEN, slices_of};
use lms::QoaLms;
use predictors::write_lms;
use scale::QuickTables;
use word::BigEndian;

// Stores the predictors of the used channels from a place on.
pub fn put_states(states: [QoaLms; QOA_MAX_CHANNELS], channels: usize, out: &mut [u8], at: usize)
    requires { (channels ≤ max_channels) × (at + 16 * channels ≤ length out.old) }
    ensures { out.new ≡ laid_over out.old at (good (laid channels (λ j. lms_bytes (lms_of states j)))) }
{
    for (j, lms) in states[..channels].iter().enumerate() {
        write_lms(out, at + 16 * j, *lms);
    }
}

// Stores slice group `g`, of `count` samples per channel, and hands back the predictors after it.
fn put_group(
    tables: &QuickTables,
    states: [QoaLms; QOA_MAX_CHANNELS],
    channels: usize,
    samples: &[i16],
    start: usize,
    count: usize,
    out: &mut [u8],
    at: usize,
) -> [QoaLms; QOA_MAX_CHANNELS]
    requires small { (channels ≤ max_channels) × (0 < count) × (count ≤ slice_len) }
    requires whole { start + count * channels ≤ length samples.now }
    requires room { at + 8 * channels ≤ length out.old }
    requires weights { (j : ℕ) → j < channels → WeightsWithin (2 ^ 29) (lms_of states j) }
    ensures states { result ≡ written (λ j. (encoded_slice (lms_of states j) (strided count samples.now (start + j) channels)).lms) states 0 1 channels }
    ensures bytes { out.new ≡ laid_over out.old at (good (laid channels (λ j. bytes_of 8 (encoded_slice (lms_of states j) (strided count samples.now (start + j) channels)).word))) }
{
    let mut next = states;
    // kept: j says where the channel's samples and its word stand, two places beside its predictor.
    for j in 0..channels {
        let lms = next[j];
        let slice = search::encode_slice(tables, lms, samples, start + j, channels, count);
        let after = slice.lms;
        next[j] = after;
        slice.word.write_be(out, at + 8 * j);
    }
    next
}

// Stores all slice groups of `n` samples per channel, and hands back the predictors after them.
pub fn put_groups(
    states: [QoaLms; QOA_MAX_CHANNELS],
    channels: usize,
    samples: &[i16],
    n: usize,
    out: &mut [u8],
    at: usize,
) -> [QoaLms; QOA_MAX_CHANNELS]
    requires small { (0 < channels) × (channels ≤ max_channels) × (n ≤ frame_len) }
    requires whole { n * channels ≤ length samples.now }
    requires room { at + 8 * (channels * slices_of n) ≤ length out.old }
    requires weights { (j : ℕ) → j < channels → WeightsWithin 32768 (lms_of states j) }
    ensures states { (j : ℕ) → j < channels → lms_of result j ≡ lms_before (lms_of states j) (strided n samples.now j channels) (slices_of n) }
    ensures bytes { out.new ≡ laid_over out.old at (good (laid (slices_of n) (λ g. laid channels (λ j. bytes_of 8 (slice_word (lms_of states j) (strided n samples.now j channels) g))))) }
{
    let tables = scale::quick_tables();
    let slices = slices_of(n);
    let mut next = states;
    // kept: the number g says where the group's samples and its bytes stand.
    for g in 0..slices {
        let done = QOA_SLICE_LEN * g;
        let count = QOA_SLICE_LEN.min(n - done);
        let after = put_group(
            &tables,
            next,
            channels,
            samples,
            done * channels,
            count,
            out,
            at + 8 * (g * channels),
        );
        next = after;
    }
    next
}
