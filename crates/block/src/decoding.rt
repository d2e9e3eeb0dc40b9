// A decoder's state as a block.
ghost use Rattle.std.specs.Prelude.{◌≡◌, cond, ◌+◌, ◌-◌, ◌*◌, ◌%◌, ◌^◌, ◌≤◌, ◌<◌, ltb, pos, get_or, length};
ghost use Rattle.word.specs.Bytes.{bytes_of};
ghost use Rattle.word.specs.Table.{table};
ghost use Rattle.format.specs.Format.{max_channels, pending_len};
ghost use Rattle.state.specs.View.{view};
ghost use Rattle.refusal.specs.Rules.{good};
ghost use Rattle.refusal.specs.Lent.{laid_over};
ghost use Rattle.body.specs.Laid.{laid};
ghost use Rattle.wrap.specs.Wrap.{low16};
ghost use Rattle.block.specs.DecoderBlock.{decoder_bytes, decoder_size, fixed_bytes, facts_bytes, frame_in, mode_bytes, mode_in, rest_bytes, sample_in};
ghost use Rattle.block.specs.Parts.{DecoderRead, readable_decoder};

use crate::kept_predictors::{PREDICTOR_SIZE, held, read_predictors, write_predictors};
use format::frame::QOA_MAX_CHANNELS;
use state::{FrameFacts, PENDING, ProcessingMode, QoaDecoder};
use word::BigEndian;
use wrap::TwosComplement;

// Where the fields stand, in their order.
const TOTAL_AT: usize = 1;

const FIRST_CHANNELS_AT: usize = 5;

const FIRST_RATE_AT: usize = 6;

const PLACE_AT: usize = 10;

const CHANNELS_AT: usize = 18;

const RATE_AT: usize = 19;

const SAMPLES_AT: usize = 23;

const REMAINING_AT: usize = 25;

const NEXT_AT: usize = 27;

const END_AT: usize = 29;

const GIVEN_AT: usize = 31;

const PREDICTORS_AT: usize = 32;

const PENDING_AT: usize = PREDICTORS_AT + PREDICTOR_SIZE * QOA_MAX_CHANNELS;

pub const DECODER_SIZE: usize = PENDING_AT + 2 * PENDING;

// In streaming mode the fields of the fixed one mean nothing.
fn read_mode(block: &[u8]) -> ProcessingMode
    requires { 10 ≤ length block.now }
    ensures { result ≡ mode_in block.now }
{
    if block[0] == 0 {
        return ProcessingMode::Streaming;
    }
    ProcessingMode::FixedSamples {
        samples: u32::read_be(block, TOTAL_AT),
        channels: block[FIRST_CHANNELS_AT],
        rate: u32::read_be(block, FIRST_RATE_AT),
    }
}

// The current frame.
fn read_frame(block: &[u8]) -> FrameFacts
    requires { 25 ≤ length block.now }
    ensures { result ≡ frame_in block.now }
{
    FrameFacts {
        channels: block[CHANNELS_AT],
        rate: u32::read_be(block, RATE_AT),
        samples: u16::read_be(block, SAMPLES_AT),
    }
}

// The pending samples from `next` to `end`; all else is zero. kept: a range of indices, since `next` may be past `end`.
fn read_pending(block: &[u8], next: usize, end: usize) -> [i16; PENDING]
    requires { (end ≤ pending_len) × (decoder_size ≤ length block.now) }
    ensures { table (end - next) (λ i. get_or result (next + i) (pos 0)) ≡ table (end - next) (λ i. sample_in block.now (next + i)) }
{
    let mut pending = [0i16; PENDING];
    for i in next..end {
        pending[i] = i16::signed(u16::read_be(block, PENDING_AT + 2 * i));
    }
    pending
}

// The size of a state, a mode and a flag, and no more channels and pending samples than a state has places for.
fn is_readable(block: &[u8]) -> bool
    ensures { result ≡ readable_decoder block.now }
{
    if block.len() != DECODER_SIZE
        || 1 < block[0]
        || 1 < block[GIVEN_AT]
        || QOA_MAX_CHANNELS < block[CHANNELS_AT] as usize
    {
        return false;
    }
    u16::read_be(block, END_AT) as usize <= PENDING
}

// The state of a block that is readable.
pub fn read_decoder(block: &[u8]) -> Option<QoaDecoder>
    ensures { DecoderRead block.now result }
{
    if !is_readable(block) {
        return None;
    }
    let frame = read_frame(block);
    let next = u16::read_be(block, NEXT_AT) as usize;
    let end = u16::read_be(block, END_AT) as usize;
    Some(QoaDecoder {
        mode: read_mode(block),
        at: u64::read_be(block, PLACE_AT) as usize,
        frame,
        remaining: u16::read_be(block, REMAINING_AT),
        next,
        end,
        given: block[GIVEN_AT] == 1,
        lms: read_predictors(block, PREDICTORS_AT, frame.channels as usize),
        pending: read_pending(block, next, end),
    })
}

// Stores a mode's four fields. kept: `mode` is the block's byte.
fn write_fixed(block: &mut [u8], mode: u8, total: u32, channels: u8, rate: u32)
    requires { 10 ≤ length block.old }
    ensures { block.new ≡ laid_over block.old 0 (good (fixed_bytes mode total channels rate)) }
{
    mode.write_be(block, 0);
    total.write_be(block, TOTAL_AT);
    channels.write_be(block, FIRST_CHANNELS_AT);
    rate.write_be(block, FIRST_RATE_AT);
}

// Stores the mode; in streaming mode the fields of the fixed one are 0.
fn write_mode(block: &mut [u8], mode: ProcessingMode)
    requires { 10 ≤ length block.old }
    ensures { block.new ≡ laid_over block.old 0 (good (mode_bytes mode)) }
{
    match mode {
        ProcessingMode::Streaming => write_fixed(block, 0, 0, 0, 0),
        ProcessingMode::FixedSamples {
            samples,
            channels,
            rate,
        } => write_fixed(block, 1, samples, channels, rate),
    }
}

// Stores the current frame.
fn write_frame(block: &mut [u8], frame: FrameFacts)
    requires { 25 ≤ length block.old }
    ensures { block.new ≡ laid_over block.old 18 (good (facts_bytes frame)) }
{
    frame.channels.write_be(block, CHANNELS_AT);
    frame.rate.write_be(block, RATE_AT);
    frame.samples.write_be(block, SAMPLES_AT);
}

// The low 16 bits of a number. kept: a remainder and a cast, since a cast loses nothing.
fn low_half(n: usize) -> u16
    ensures { result ≡ n % 2 ^ 16 }
{
    (n % 0x1_0000) as u16
}

// Stores what remains, the range of the pending samples, and whether the first header was given.
fn write_rest(block: &mut [u8], remaining: u16, next: usize, end: usize, given: bool)
    requires { 32 ≤ length block.old }
    ensures { block.new ≡ laid_over block.old 25 (good (rest_bytes remaining next end given)) }
{
    remaining.write_be(block, REMAINING_AT);
    low_half(next).write_be(block, NEXT_AT);
    low_half(end).write_be(block, END_AT);
    u8::from(given).write_be(block, GIVEN_AT);
}

// Stores the pending samples, 0 outside of `next` to `end`.
fn write_pending(block: &mut [u8], pending: &[i16; PENDING], next: usize, end: usize)
    requires { decoder_size ≤ length block.old }
    ensures { block.new ≡ laid_over block.old (32 + 32 * max_channels) (good (laid pending_len (λ i. bytes_of 2 (low16 (cond (ltb i next) (pos 0) (cond (ltb i end) (get_or pending.now i (pos 0)) (pos 0))))))) }
{
    for (i, sample) in pending.iter().enumerate() {
        let pending = held(*sample, next <= i && i < end, 0);
        pending.pattern().write_be(block, PENDING_AT + 2 * i);
    }
}

// Stores a state at the start of lent memory.
pub fn write_decoder(block: &mut [u8], d: QoaDecoder)
    requires { decoder_size ≤ length block.old }
    ensures { block.new ≡ laid_over block.old 0 (good (decoder_bytes (view d))) }
{
    write_mode(block, d.mode);
    (d.at as u64).write_be(block, PLACE_AT);
    write_frame(block, d.frame);
    write_rest(block, d.remaining, d.next, d.end, d.given);
    write_predictors(block, PREDICTORS_AT, d.lms, d.frame.channels as usize);
    write_pending(block, &d.pending, d.next, d.end);
}
