#![tactic(auto)]

// The encoder: a state by value, and the calls on it with lent samples and lent output.
ghost use Rattle.std.specs.Prelude.{◌≡◌};
ghost use Rattle.encoder.specs.declared.EncodeRefusal.TheVariants.{Refused};

use format::frame::QOA_MAX_CHANNELS;
use lms::QoaLms;
use refusal::{Done, Refusal};

pub mod create;
pub mod frame;
pub mod head;
pub mod rules;

pub use create::new_encoder;
pub use frame::encode_frame;
pub use head::write_header;
pub use rules::is_good_encoder;

#[derive(Clone, Copy)]
pub struct QoaEncoder {
    pub channels: u8,
    pub rate: u32,
    // samples per channel in the whole file
    pub total: u32,
    pub lms: [QoaLms; QOA_MAX_CHANNELS],
}

// Why an encoding call refuses. Refusal 14 tells how many bytes stand in the output, and the first channel that has such a weight.
#[derive(Clone, Copy)]
pub enum EncodeRefusal {
    Refused(Refusal),
    WeightRange { count: usize, channel: u8 },
}

impl From<Refusal> for EncodeRefusal {
    ghost from_gives = { λ why r. r ≡ Refused why };

    fn from(why: Refusal) -> EncodeRefusal {
        EncodeRefusal::Refused(why)
    }
}

// What a creation answers, with the new state, or an all-zero one.
pub type CreatedEncoder = Done<Result<(), Refusal>, QoaEncoder>;

// How many bytes were written, with the state after them.
pub type EncodedBytes = Done<Result<usize, EncodeRefusal>, QoaEncoder>;
