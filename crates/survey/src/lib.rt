#![tactic(auto)]

// The survey: every refusal of frames, and how many samples they have, by headers alone. It touches no lent memory.
ghost use Rattle.std.specs.Prelude.{◌≡◌, ◌*◌, ◌^◌, ◌<◌};
ghost use Rattle.refusal.specs.Rules.{first_of};
ghost use Rattle.refusal.specs.Refusals.{told, told_refusal};
ghost use Rattle.file.specs.Whole.{tail_rules};
ghost use Rattle.file.specs.Streaming.{no_tail};
ghost use Rattle.survey.specs.Parts.{fit_after, fits, reader_for};

use format::checks::Kind;
use format::frame::{FrameHeader, QOA_HEADER_SIZE};
use refusal::Refusal;

// The bytes that are left after the last frame of a file.
pub fn check_tail(left: usize) -> Result<(), Refusal>
    ensures { told_refusal result ≡ first_of (tail_rules left) }
{
    if !format::tail_ok(left, true) {
        return Err(Refusal::Truncated);
    }
    Ok(())
}

// No bytes may be left after streaming frames. kept: another rule of another reader than the tail's.
fn check_none(left: usize) -> Result<(), Refusal>
    ensures { told_refusal result ≡ first_of (no_tail left) }
{
    if left != 0 {
        return Err(Refusal::Truncated);
    }
    Ok(())
}

// The bytes that are left after the last frame of a kind.
fn check_end(left: usize, kind: Kind) -> Result<(), Refusal>
    ensures { told_refusal result ≡ first_of ((reader_for kind).tail left) }
{
    match kind {
        Kind::Any => check_none(left),
        Kind::Like(_) => check_tail(left),
    }
}

// The samples of a frame, over all channels.
pub fn sample_count(h: FrameHeader) -> usize
    ensures { (result ≡ h.samples * h.channels) × (result < 2 ^ 24) }
{
    (h.samples as usize) * (h.channels as usize)
}

// So many samples, where there is room for them.
fn fit_count(need: usize, room: usize) -> Result<usize, Refusal>
    ensures { told result ≡ fits room need }
{
    if room < need {
        return Err(Refusal::OutputTooSmall);
    }
    Ok(need)
}

// All frames of a kind, one after another.
pub fn walk_frames(bytes: &[u8], kind: Kind, room: usize) -> Result<usize, Refusal>
    requires { room < 2 ^ 63 }
    ensures { told result ≡ fit_after (reader_for kind) room 0 bytes.now }
{
    let mut rest = bytes;
    let mut need: usize = 0;
    while QOA_HEADER_SIZE <= rest.len() {
        let h = format::read_header(rest, 0);
        let length = h.length();
        format::check_frame(h, kind, length, rest.len())?;
        // once it is past the room it stays one past it
        need = (need + sample_count(h)).min(room + 1);
        rest = &rest[length..];
    }
    check_end(rest.len(), kind)?;
    fit_count(need, room)
}
