// The frame part: the bytes of one whole good frame, where one starts at a place.
ghost use Rattle.std.specs.Prelude.{◌≡◌};
ghost use Rattle.format.specs.Part.{part_length, part_of};
ghost use Rattle.refusal.specs.Refusals.{told};

use crate::frame::header_at;
use refusal::Refusal;

// The length of the frame at a place, or the refusal.
pub fn part_length(bytes: &[u8], at: usize) -> Result<usize, Refusal>
    ensures { told result ≡ part_length bytes.now at }
{
    let h = header_at(bytes, at)?;
    let n = h.length();
    if bytes.len().saturating_sub(at) < n {
        return Err(Refusal::Truncated);
    }
    Ok(n)
}

// The caller's own bytes, no copy: the frame at a place, or nothing.
pub fn frame_part(bytes: &[u8], at: usize) -> &[u8]
    ensures { result.now ≡ part_of (part_length bytes.now at) bytes.now at }
{
    match part_length(bytes, at) {
        Err(_) => &bytes[0..0],
        Ok(n) => &bytes[at..at + n],
    }
}
