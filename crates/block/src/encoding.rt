// An encoder's state as a block.
ghost use Rattle.std.specs.Prelude.{◌≡◌, ◌≤◌, length};
ghost use Rattle.refusal.specs.Rules.{good};
ghost use Rattle.refusal.specs.Lent.{laid_over};
ghost use Rattle.encoder.specs.Encoder.{encoder_view};
ghost use Rattle.block.specs.EncoderBlock.{encoder_bytes, encoder_size};
ghost use Rattle.block.specs.Parts.{EncoderRead, readable_encoder};

use crate::kept_predictors::{PREDICTOR_SIZE, read_predictors, write_predictors};
use encoder::QoaEncoder;
use format::frame::QOA_MAX_CHANNELS;
use word::BigEndian;

// Where the fields stand, in their order.
const RATE_AT: usize = 1;

const TOTAL_AT: usize = 5;

const PREDICTORS_AT: usize = 9;

pub const ENCODER_SIZE: usize = PREDICTORS_AT + PREDICTOR_SIZE * QOA_MAX_CHANNELS;

// The size of a state, and no more channels than one can have.
fn is_readable(block: &[u8]) -> bool
    ensures { result ≡ readable_encoder block.now }
{
    block.len() == ENCODER_SIZE && block[0] as usize <= QOA_MAX_CHANNELS
}

// The state of a block that is readable.
pub fn read_encoder(block: &[u8]) -> Option<QoaEncoder>
    ensures { EncoderRead block.now result }
{
    if !is_readable(block) {
        return None;
    }
    let channels = block[0];
    Some(QoaEncoder {
        channels,
        rate: u32::read_be(block, RATE_AT),
        total: u32::read_be(block, TOTAL_AT),
        lms: read_predictors(block, PREDICTORS_AT, channels as usize),
    })
}

// Stores a state at the start of lent memory.
pub fn write_encoder(block: &mut [u8], e: QoaEncoder)
    requires { encoder_size ≤ length block.old }
    ensures { block.new ≡ laid_over block.old 0 (good (encoder_bytes (encoder_view e))) }
{
    e.channels.write_be(block, 0);
    e.rate.write_be(block, RATE_AT);
    e.total.write_be(block, TOTAL_AT);
    write_predictors(block, PREDICTORS_AT, e.lms, e.channels as usize);
}
