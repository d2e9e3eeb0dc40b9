// Decoding frames that a survey has passed: there is nothing left to refuse.
ghost use Rattle.std.specs.Prelude.{◌≡◌, ◌+◌, ◌*◌, ◌≤◌, length};
ghost use Rattle.format.specs.Format.{max_channels};
ghost use Rattle.format.specs.Header.{header_at};
ghost use Rattle.format.specs.Part.{length_of};
ghost use Rattle.file.specs.Frame.{frame_samples};
ghost use Rattle.file.specs.Walk.{frame_at};
ghost use Rattle.refusal.specs.Rules.{good};
ghost use Rattle.refusal.specs.Lent.{laid_over};
ghost use Rattle.whole.specs.Parts.{HasRoom, held};

use format::frame::{FrameHeader, QOA_HEADER_SIZE, QOA_MAX_CHANNELS};
use scale::Dequant;
use survey::sample_count;

// The frame at the start of the bytes, its samples stored from `start` on.
fn decode_frame(tab: &Dequant, bytes: &[u8], h: FrameHeader, out: &mut [i16], start: usize)
    requires frame { (h ≡ header_at bytes.now 0) × (h.channels ≤ max_channels) × (length_of h ≤ length bytes.now) }
    requires room { start + h.samples * h.channels ≤ length out.old }
    ensures { out.new ≡ laid_over out.old start (good (frame_samples (frame_at bytes.now))) }
{
    let channels = h.channels as usize;
    let samples = h.samples as usize;
    let unread = [lms::new_lms(); QOA_MAX_CHANNELS];
    let states = predictors::read_states(bytes, QOA_HEADER_SIZE, channels, unread);
    let place = format::state_end(channels);
    groups::decode_groups(tab, states, bytes, place, channels, samples, out, start);
}

// Frames one after another. kept: a loop of its own beside the survey's, since an iterator over frames would hide what is left after the last.
pub fn decode_held(bytes: &[u8], out: &mut [i16])
    requires { HasRoom (held bytes.now) (length out.old) }
    ensures { out.new ≡ laid_over out.old 0 (held bytes.now) }
{
    let tab = scale::dequant_tab();
    let mut rest = bytes;
    let mut done: usize = 0;
    while QOA_HEADER_SIZE <= rest.len() {
        let h = format::read_header(rest, 0);
        decode_frame(&tab, rest, h, out, done);
        done = done + sample_count(h);
        rest = &rest[h.length()..];
    }
}
