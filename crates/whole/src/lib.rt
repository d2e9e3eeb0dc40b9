#![tactic(auto)]

// Whole files and streaming frames, decoded into lent samples. Two passes: the survey tells every refusal and the need,
// and then there is nothing left to refuse.
pub mod held;

ghost use Rattle.std.specs.Prelude.{◌≡◌, ◌≤◌, length};
ghost use Rattle.format.specs.Format.{most_bytes};
ghost use Rattle.file.specs.Whole.{audio_in, decode};
ghost use Rattle.file.specs.Streaming.{streamed};
ghost use Rattle.refusal.specs.Refusals.{told};
ghost use Rattle.refusal.specs.Lent.{laid_over};
ghost use Rattle.whole.specs.Told.{count_in, heard_in, summary_in};
ghost use Rattle.survey.specs.Parts.{audio_after};

use format::checks::{First, Kind};
use format::frame::{QOA_HEADER_SIZE, QOA_MOST_BYTES};
use held::decode_held;
use refusal::{Refusal, Summary};
use survey::walk_frames;

// More room than any whole file needs.
const AMPLE: usize = 3 * QOA_MOST_BYTES;

// The frames of a file with a good header.
fn need_after(bytes: &[u8], fixed: bool) -> Result<Summary, Refusal>
    requires { (8 ≤ length bytes.now) × (length bytes.now ≤ most_bytes) }
    ensures { told result ≡ summary_in (audio_after fixed bytes.now) }
{
    let frames = &bytes[QOA_HEADER_SIZE..];
    if frames.len() < QOA_HEADER_SIZE {
        return Err(Refusal::NoSamples);
    }
    let h = format::read_header(frames, 0);
    let first = First {
        fixed,
        channels: h.channels,
        rate: h.rate,
    };
    let count = walk_frames(frames, Kind::Like(first), AMPLE)?;
    Ok(Summary {
        channels: h.channels,
        rate: h.rate,
        count,
    })
}

// What `decode_all` would answer, whatever the room.
pub fn decode_need(bytes: &[u8]) -> Result<Summary, Refusal>
    ensures { told result ≡ summary_in (audio_in bytes.now) }
{
    if QOA_MOST_BYTES < bytes.len() {
        return Err(Refusal::InputTooLong);
    }
    let total = format::file_header(bytes)?;
    need_after(bytes, total != 0)
}

// A whole file into lent memory, of which nothing past the count is touched, and nothing at all on a refusal.
pub fn decode_all(bytes: &[u8], out: &mut [i16]) -> Result<Summary, Refusal>
    ensures answer { told result ≡ summary_in (decode (length out.old) bytes.now) }
    ensures samples { out.new ≡ laid_over out.old 0 (heard_in (decode (length out.old) bytes.now)) }
{
    let summary = decode_need(bytes)?;
    if out.len() < summary.count {
        return Err(Refusal::OutputTooSmall);
    }
    decode_held(&bytes[QOA_HEADER_SIZE..], out);
    Ok(summary)
}

// Whole frames one after another, of any channels and rates, into lent memory. It keeps no state.
pub fn decode_frames(bytes: &[u8], out: &mut [i16]) -> Result<usize, Refusal>
    ensures answer { told result ≡ count_in (streamed (length out.old) bytes.now) }
    ensures samples { out.new ≡ laid_over out.old 0 (streamed (length out.old) bytes.now) }
{
    let count = walk_frames(bytes, Kind::Any, out.len())?;
    decode_held(bytes, out);
    Ok(count)
}
