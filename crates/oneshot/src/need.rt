// How many bytes a whole file takes.
ghost use Rattle.std.specs.Prelude.{◌≡◌, ◌≤◌, ◌<◌, ◌^◌};
ghost use Rattle.refusal.specs.Rules.{after, good};
ghost use Rattle.format.specs.Format.{max_channels};
ghost use Rattle.oneshot.specs.OneShot.{frames_in, need_of, need_rules};
ghost use Rattle.refusal.specs.Refusals.{told};

use format::frame::{QOA_FRAME_LEN, QOA_HEADER_SIZE, QOA_MAX_CHANNELS, slices_of, state_end};
use refusal::Refusal;

// How many frames so many samples per channel take.
pub fn frames_in(total: usize) -> usize
    requires { total < 2 ^ 32 }
    ensures { result ≡ frames_in total }
{
    total.div_ceil(QOA_FRAME_LEN)
}

// How many bytes a whole file takes.
pub fn file_need(channels: usize, total: usize) -> usize
    requires { (channels ≤ max_channels) × (total < 2 ^ 32) }
    ensures { result ≡ need_of channels total }
{
    QOA_HEADER_SIZE + (frames_in(total) * state_end(channels) + 8 * (channels * slices_of(total)))
}

// How many bytes a caller must lend for a whole file: 11, 13.
pub fn encode_need(channels: u8, total: u32) -> Result<usize, Refusal>
    ensures { told result ≡ after (need_rules channels total) (good (need_of channels total)) }
{
    if channels == 0 || QOA_MAX_CHANNELS < channels as usize {
        return Err(Refusal::InvalidChannels);
    }
    if total == 0 {
        return Err(Refusal::InvalidSamples);
    }
    Ok(file_need(channels as usize, total as usize))
}
