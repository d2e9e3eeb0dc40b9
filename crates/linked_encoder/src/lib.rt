#![tactic(auto)]

// The C interface of an encoder whose state is a block of lent bytes. An answer is a number from 0 on, or minus the number of the refusal.
ghost use Rattle.std.specs.Prelude.{◌≡◌, ◌≤◌, pos, length};
ghost use Rattle.encoder.specs.Calls.{told_encode};
ghost use Rattle.encoder.specs.Encoder.{encoder_view};
ghost use Rattle.block.specs.EncoderBlock.{encoder_size};
ghost use Rattle.linked_encoder.specs.Linked.{FileLinked, FrameLinked, HeaderLinked, NewLinked, encoder_left};

use block::ENCODER_SIZE;
use codes::{encoded, minus};
use encoder::{EncodeRefusal, QoaEncoder};
use refusal::Refusal;

// The bytes of an encoder's block.
pub fn qoa_encoder_size() -> i64
    ensures { result ≡ pos encoder_size }
{
    ENCODER_SIZE as i64
}

// A new encoder: 11, 12, 13, then 7 where the block is too short.
pub fn qoa_encoder_new(channels: u8, rate: u32, total: u32, state: &mut [u8]) -> i64
    ensures { NewLinked channels rate total state.old result state.new }
{
    let created = encoder::new_encoder(channels, rate, total);
    if let Err(why) = created.answer {
        return minus(why);
    }
    if state.len() < ENCODER_SIZE {
        return minus(Refusal::OutputTooSmall);
    }
    block::write_encoder(state, created.state);
    0
}

// The file header into lent bytes: how many.
pub fn qoa_encoder_header(state: &[u8], out: &mut [u8]) -> i64
    ensures { HeaderLinked state.now out.old result out.new }
{
    let Some(shown) = block::read_encoder(state) else {
        return minus(Refusal::BadState);
    };
    encoded(encoder::write_header(shown, out))
}

// Stores the state after an accepted call. kept: beside the decoder's, which answers a code
// too, where refusal 14 has its own here.
fn keep(state: &mut [u8], answer: Result<usize, EncodeRefusal>, after: QoaEncoder)
    requires { encoder_size ≤ length state.old }
    ensures { state.new ≡ encoder_left (told_encode answer) (encoder_view after) state.old }
{
    if answer.is_ok() {
        block::write_encoder(state, after);
    }
}

// A frame into lent bytes: how many. The state goes on.
pub fn qoa_encoder_frame(state: &mut [u8], samples: &[i16], out: &mut [u8]) -> i64
    ensures { FrameLinked state.old samples.now out.old result state.new out.new }
{
    let Some(given) = block::read_encoder(state) else {
        return minus(Refusal::BadState);
    };
    let done = encoder::encode_frame(given, samples, out);
    keep(state, done.answer, done.state);
    encoded(done.answer)
}

// A whole file into lent bytes: how many. The state goes on.
pub fn qoa_encoder_file(state: &mut [u8], samples: &[i16], out: &mut [u8]) -> i64
    ensures { FileLinked state.old samples.now out.old result state.new out.new }
{
    let Some(held) = block::read_encoder(state) else {
        return minus(Refusal::BadState);
    };
    let shot = oneshot::encode(held, samples, out);
    keep(state, shot.answer, shot.state);
    encoded(shot.answer)
}
