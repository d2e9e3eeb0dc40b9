#![tactic(auto)]

// The calls on a decoder, with the caller's bytes: decoding into a buffer, the next frame, and the item step, which is made here of both.
pub mod items;

pub use frames::{NextFrame, next_frame};
pub use into::{DecodedInto, decode_into};
pub use items::next_item;
use refusal::{Done, Refusal};
use state::{FrameFacts, QoaDecoder};

// A frame header or a sample.
#[derive(Clone, Copy)]
pub enum QoaItem {
    Header(FrameFacts),
    Sample(i16),
}

// The next item, or none at the end, and the state after it.
pub type NextItem = Done<Result<Option<QoaItem>, Refusal>, QoaDecoder>;
