// The bytes that are left at the end.
ghost use Rattle.std.specs.Prelude.{◌≡◌};
ghost use Rattle.format.specs.Grammar.{tail_ok};

use crate::frame::QOA_HEADER_SIZE;

// Whether so many bytes may be left at the end, where a frame was read or not. kept: `read` is not looked at, but request M-100 needs it.
pub fn tail_ok(left: usize, read: bool) -> bool
    ensures { result ≡ tail_ok left read }
{
    left < QOA_HEADER_SIZE
}
