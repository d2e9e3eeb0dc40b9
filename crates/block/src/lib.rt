#![tactic(auto)]

// States as blocks of bytes with a fixed layout: numbers big-endian, signed ones in two's complement.
pub mod decoding;
pub mod encoding;
pub mod kept_predictors;

pub use decoding::{DECODER_SIZE, read_decoder, write_decoder};
pub use encoding::{ENCODER_SIZE, read_encoder, write_encoder};
