// A decoder's facts.
ghost use Rattle.std.specs.Prelude.{◌≡◌, length};
ghost use Rattle.refusal.specs.Refusals.{told};
ghost use Rattle.state.specs.View.{view};
ghost use Rattle.state.specs.Facts.{facts_answer};

use crate::rules::is_good;
use crate::{ProcessingMode, QoaDecoder};
use format::facts::Facts;
use refusal::Refusal;

// Fixed: the first frame's. Streaming: the current frame's, and no total.
pub fn facts_given(d: QoaDecoder, bytes: &[u8]) -> Result<Facts, Refusal>
    ensures { told result ≡ facts_answer (view d) (length bytes.now) }
{
    if !is_good(d, bytes.len()) {
        return Err(Refusal::BadState);
    }
    let frame = d.frame;
    match d.mode {
        ProcessingMode::Streaming => Ok(format::facts_of(0, frame.channels, frame.rate)),
        ProcessingMode::FixedSamples {
            samples,
            channels,
            rate,
        } => Ok(format::facts_of(samples, channels, rate)),
    }
}
