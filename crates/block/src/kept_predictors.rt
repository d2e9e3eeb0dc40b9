// Predictors in a block: for each channel four histories and four weights, each of 32 bits.
ghost use Rattle.std.specs.Prelude.{◌≡◌, cond, ◌+◌, ◌*◌, ◌≤◌, length};
ghost use Rattle.word.specs.Table.{table};
ghost use Rattle.format.specs.Format.{max_channels};
ghost use Rattle.format.specs.Predictor.{lms_of};
ghost use Rattle.refusal.specs.Rules.{good};
ghost use Rattle.refusal.specs.Lent.{laid_over};
ghost use Rattle.block.specs.Predictors.{four_bytes, four_in, predictor_bytes, predictor_in, predictors_bytes, predictors_in};

use format::frame::QOA_MAX_CHANNELS;
use lms::{QOA_LMS_LEN, QoaLms, ZERO_LMS};
use word::BigEndian;
use wrap::TwosComplement;

// The bytes of one channel's.
pub const PREDICTOR_SIZE: usize = 8 * QOA_LMS_LEN;

// Four numbers from a place on.
fn four_in(block: &[u8], at: usize) -> [i32; QOA_LMS_LEN]
    requires { at + 16 ≤ length block.now }
    ensures { result ≡ four_in block.now at }
{
    std::array::from_fn(|i| i32::signed(u32::read_be(block, at + 4 * i)))
}

// One channel's predictor.
fn read_predictor(block: &[u8], at: usize) -> QoaLms
    requires { at + 32 ≤ length block.now }
    ensures { result ≡ predictor_in block.now at }
{
    let history = four_in(block, at);
    let weights = four_in(block, at + 16);
    QoaLms { history, weights }
}

// The predictors of so many channels, from a place on; the other channels' are zero.
pub fn read_predictors(block: &[u8], at: usize, channels: usize) -> [QoaLms; QOA_MAX_CHANNELS]
    requires { (channels ≤ max_channels) × (at + 32 * channels ≤ length block.now) }
    ensures { table channels (lms_of result) ≡ predictors_in block.now at channels }
{
    let mut all = [ZERO_LMS; QOA_MAX_CHANNELS];
    for (j, lms) in all[..channels].iter_mut().enumerate() {
        *lms = read_predictor(block, at + PREDICTOR_SIZE * j);
    }
    all
}

// Stores four numbers from a place on.
fn write_four(block: &mut [u8], at: usize, xs: [i32; QOA_LMS_LEN])
    requires { at + 16 ≤ length block.old }
    ensures { block.new ≡ laid_over block.old at (good (four_bytes xs)) }
{
    let [a, b, c, d] = xs.map(i32::pattern);
    a.write_be(block, at);
    b.write_be(block, at + 4);
    c.write_be(block, at + 8);
    d.write_be(block, at + 12);
}

// Stores one channel's predictor.
fn write_predictor(block: &mut [u8], at: usize, lms: QoaLms)
    requires { at + 32 ≤ length block.old }
    ensures { block.new ≡ laid_over block.old at (good (predictor_bytes lms)) }
{
    let QoaLms { history, weights } = lms;
    write_four(block, at, history);
    write_four(block, at + 16, weights);
}

// What is used, else what stands for none.
pub fn held<T: Copy>(x: T, used: bool, none: T) -> T
    ensures { result ≡ cond used x none }
{
    if used { x } else { none }
}

// Stores the predictors of all channels, 0 for those that are not used.
// kept: a loop beside that of the pending samples, since one for both takes a closure with clauses and is longer.
pub fn write_predictors(
    block: &mut [u8],
    at: usize,
    states: [QoaLms; QOA_MAX_CHANNELS],
    channels: usize,
)
    requires { at + 32 * max_channels ≤ length block.old }
    ensures { block.new ≡ laid_over block.old at (good (predictors_bytes (table channels (lms_of states)))) }
{
    for (j, lms) in states.iter().enumerate() {
        write_predictor(
            block,
            at + PREDICTOR_SIZE * j,
            held(*lms, j < channels, ZERO_LMS),
        );
    }
}
