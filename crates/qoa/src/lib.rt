#![tactic(auto)]

// Every public call, in FORMAT.md's order, and the C interface.
pub mod linked;

// What a call answers beside a state, and the state that it hands back.
pub use refusal::Done;

// Opening a decoder: the first refusal, or a state by value at the start of the file.
pub use state::{OpenedDecoder, ProcessingMode, QoaDecoder, open_decoder};

// A decoder's facts: total, channels, rate, length in seconds.
pub use format::Facts;
pub use state::facts_given;

// Samples of the current frame into a lent buffer, as many as there are or fit.
pub use decoder::{DecodedInto, decode_into};

// On to the next frame, over what remains of this one.
pub use decoder::{NextFrame, next_frame};
pub use state::FrameFacts;

// One item: a frame header, a sample, the end.
pub use decoder::{NextItem, QoaItem, next_item};

// A whole file into lent samples, and what it needs.
pub use refusal::Summary;
pub use whole::{decode_all, decode_need};

// Streaming frames into lent samples, without a state.
pub use whole::decode_frames;

// The frame part: its length, and the caller's own bytes.
pub use format::{frame_part, part_length};

// A new encoder, a state by value.
pub use encoder::{CreatedEncoder, QoaEncoder, new_encoder};

// The file header into lent bytes.
pub use encoder::{EncodeRefusal, write_header};

// A frame into lent bytes.
pub use encoder::{EncodedBytes, encode_frame};

// A whole file into lent bytes, from an encoder or from a new one, and what it needs.
pub use oneshot::{encode, encode_all, encode_need};

// Why a call refuses; `u8::from` is the refusal's number.
pub use refusal::Refusal;

// The reader: the caller's bytes and a place in them, and the calls above over both.
pub use reader::{
    DecodedAt, FramePart, OpenedReader, ReadFrame, ReadInto, ReadItem, Reader, decode_from,
    moved_reader, new_reader, open_reader, read_frame, read_into, read_item, read_part,
};
