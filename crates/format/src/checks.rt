// The checks of a frame, in one place for every call: the header's, whether it is like the first frame, and whether it is cut.
ghost use Rattle.std.specs.Prelude.{◌≡◌};
ghost use Rattle.refusal.specs.Rules.{first_of};
ghost use Rattle.refusal.specs.Refusals.{told_refusal};
ghost use Rattle.format.specs.Part.{cut_rules};
ghost use Rattle.format.specs.Checks.{frame_rules, kind_rules, same_rules, state_rules};

use crate::frame::{FrameHeader, check_header, state_end};
use refusal::Refusal;

// A file's mode, and the channels and rate of its first frame.
#[derive(Clone, Copy)]
pub struct First {
    pub fixed: bool,
    pub channels: u8,
    pub rate: u32,
}

// Which frames a call accepts: any, or those like the first of a file.
#[derive(Clone, Copy)]
pub enum Kind {
    Any,
    Like(First),
}

// Something of `whole` bytes is cut where fewer are left.
fn check_cut(whole: usize, left: usize) -> Result<(), Refusal>
    ensures { told_refusal result ≡ first_of (cut_rules whole left) }
{
    if left < whole {
        return Err(Refusal::Truncated);
    }
    Ok(())
}

// Other channels or another rate than the first frame's.
fn check_same(h: FrameHeader, first: First) -> Result<(), Refusal>
    ensures { told_refusal result ≡ first_of (same_rules first.channels first.rate h) }
{
    if h.channels != first.channels || h.rate != first.rate {
        return Err(Refusal::IncompatibleFrame);
    }
    Ok(())
}

// In streaming mode the predictor state is read before a frame is compared with the first.
fn check_state(fixed: bool, channels: u8, left: usize) -> Result<(), Refusal>
    ensures { told_refusal result ≡ first_of (state_rules fixed channels left) }
{
    if fixed {
        return Ok(());
    }
    check_cut(state_end(channels as usize), left)
}

// A frame that is to be like the first is compared with it.
fn check_kind(h: FrameHeader, kind: Kind, left: usize) -> Result<(), Refusal>
    ensures { told_refusal result ≡ first_of (kind_rules kind h left) }
{
    match kind {
        Kind::Any => Ok(()),
        Kind::Like(first) => {
            check_state(first.fixed, h.channels, left)?;
            check_same(h, first)
        }
    }
}

// All checks of a frame of a kind, of which the call takes `need` bytes and so many are left.
pub fn check_frame(h: FrameHeader, kind: Kind, need: usize, left: usize) -> Result<(), Refusal>
    ensures { told_refusal result ≡ first_of (frame_rules kind h need left) }
{
    check_header(h)?;
    check_kind(h, kind, left)?;
    check_cut(need, left)
}
