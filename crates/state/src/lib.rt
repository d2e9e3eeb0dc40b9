#![tactic(auto)]

// A decoder's state by value, its rules, opening it, and its facts.
ghost use Rattle.std.specs.Prelude.{◌≡◌};
ghost use Rattle.state.specs.View.{facts_in};

use format::frame::{FrameHeader, QOA_MAX_CHANNELS, QOA_SLICE_LEN};
use lms::QoaLms;
use refusal::{Done, Refusal};

pub mod facts;
pub mod opening;
pub mod rules;

pub use facts::facts_given;
pub use opening::{open_decoder, zero_state};
pub use rules::is_good;

// One slice of every channel.
pub const PENDING: usize = QOA_SLICE_LEN * QOA_MAX_CHANNELS;

// Fixed: a declared total, and the first frame's channels and rate. Streaming: no total, and both may change.
#[derive(Clone, Copy)]
pub enum ProcessingMode {
    FixedSamples {
        samples: u32,
        channels: u8,
        rate: u32,
    },
    Streaming,
}

// What is told of a frame: channels, rate, samples per channel.
#[derive(Clone, Copy)]
pub struct FrameFacts {
    pub channels: u8,
    pub rate: u32,
    pub samples: u16,
}

// What a frame's header tells of it.
impl From<FrameHeader> for FrameFacts {
    ghost from_gives = { λ h f. f ≡ facts_in h };

    fn from(h: FrameHeader) -> FrameFacts {
        FrameFacts {
            channels: h.channels,
            rate: h.rate,
            samples: h.samples,
        }
    }
}

#[derive(Clone, Copy)]
pub struct QoaDecoder {
    pub mode: ProcessingMode,
    // the place in the caller's bytes
    pub at: usize,
    // the current frame
    pub frame: FrameFacts,
    // samples per channel that its slices still hold
    pub remaining: u16,
    // the pending samples are those from `next` to `end`. kept: two numbers, which definitions and the block name
    pub next: usize,
    pub end: usize,
    // whether the first header was given
    pub given: bool,
    pub lms: [QoaLms; QOA_MAX_CHANNELS],
    pub pending: [i16; PENDING],
}

// Nothing or the refusal, and the state at the start of a file.
pub type OpenedDecoder = Done<Result<(), Refusal>, QoaDecoder>;
