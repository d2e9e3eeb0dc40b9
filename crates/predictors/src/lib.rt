#![tactic(auto)]

// A channel's predictor state in a frame: four history and four weight numbers of 16 bits, each four in one word.
ghost use Rattle.std.specs.Prelude.{◌≡◌, ◌+◌, ◌*◌, ◌<◌, ◌≤◌, length};
ghost use Rattle.std.specs.Int.{w16};
ghost use mir.Val.{to_z};
ghost use Rattle.word.specs.Word.{field};
ghost use Rattle.word.specs.Parts.{written};
ghost use Rattle.wrap.specs.Wrap.{low16};
ghost use Rattle.format.specs.Format.{max_channels};
ghost use Rattle.format.specs.Predictor.{four_word, lms_at};
ghost use Rattle.format.specs.Parts.{four_of, put_lms};

use format::frame::QOA_MAX_CHANNELS;
use lms::{QOA_LMS_LEN, QoaLms};
use word::BigEndian;
use wrap::TwosComplement;

// The signed 16-bit number that has so many bits below it.
fn number_in(word: u64, below: usize) -> i32
    requires { below < 64 }
    ensures { result ≡ to_z w16 (field 16 below word) }
{
    i16::signed(((word >> below) & 0xffff) as u16) as i32
}

// The four numbers of a word.
fn four_of(word: u64) -> [i32; QOA_LMS_LEN]
    ensures { result ≡ four_of word }
{
    std::array::from_fn(|i| number_in(word, 48 - 16 * i))
}

// The state at a place.
pub fn read_lms(bytes: &[u8], at: usize) -> QoaLms
    requires { at + 16 ≤ length bytes.now }
    ensures { result ≡ lms_at bytes.now at }
{
    let history = four_of(u64::read_be(bytes, at));
    let weights = four_of(u64::read_be(bytes, at + 8));
    QoaLms { history, weights }
}

// The predictor states of so many channels, read from a place on and stored over the first of `states`.
pub fn read_states(
    bytes: &[u8],
    at: usize,
    channels: usize,
    states: [QoaLms; QOA_MAX_CHANNELS],
) -> [QoaLms; QOA_MAX_CHANNELS]
    requires { (channels ≤ max_channels) × (at + 16 * channels ≤ length bytes.now) }
    ensures { result ≡ written (λ j. lms_at bytes.now (at + 16 * j)) states 0 1 channels }
{
    let mut all = states;
    for (j, lms) in all[..channels].iter_mut().enumerate() {
        *lms = read_lms(bytes, at + 16 * j);
    }
    all
}

// The low 16 bits of x. kept: a mask and a cast, since a cast loses nothing.
fn low_half(x: i32) -> u64
    ensures { result ≡ low16 x }
{
    (x.pattern() & 0xffff) as u64
}

// The word of four numbers.
fn four_word(xs: [i32; QOA_LMS_LEN]) -> u64
    ensures { result ≡ four_word xs }
{
    let [a, b, c, d] = xs.map(low_half);
    (a << 48) | ((b << 32) | ((c << 16) | d))
}

// Stores a state at a place.
pub fn write_lms(out: &mut [u8], at: usize, lms: QoaLms)
    requires { at + 16 ≤ length out.old }
    ensures { out.new ≡ put_lms out.old at lms }
{
    let QoaLms { history, weights } = lms;
    four_word(history).write_be(out, at);
    four_word(weights).write_be(out, at + 8);
}
