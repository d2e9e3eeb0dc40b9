#![tactic(auto)]

// The C interface of a decoder whose state is a block of lent bytes. An answer is a number from 0 on, or minus the number of the refusal.
ghost use Rattle.std.specs.Prelude.{◌≡◌, ◌≤◌, ◌<◌, ◌^◌, IfOk, pos, length};
ghost use Rattle.refusal.specs.Rules.{good, ◌then◌};
ghost use Rattle.refusal.specs.Refusals.{told};
ghost use Rattle.refusal.specs.Lent.{laid_over};
ghost use Rattle.state.specs.View.{view};
ghost use Rattle.block.specs.DecoderBlock.{decoder_size};
ghost use Rattle.codes.specs.Codes.{coded, coded_seconds};
ghost use Rattle.linked_decoder.specs.Linked.{FactsLinked, NextLinked, IntoLinked, ItemLinked, OpenLinked, facts_on, kept, three_facts};
ghost use Rattle.linked_decoder.specs.Numbers.{frame_code, found_code, item_code};

use block::DECODER_SIZE;
use codes::{minus, told};
use decoder::QoaItem;
use format::facts::Facts;
use refusal::Refusal;
use state::{FrameFacts, QoaDecoder};
use wrap::TwosComplement;

// The bytes of a decoder's block.
pub fn qoa_decoder_size() -> i64
    ensures { result ≡ pos decoder_size }
{
    DECODER_SIZE as i64
}

// Opens a file: its refusals, then 7 where the block is too short.
pub fn qoa_decoder_open(bytes: &[u8], state: &mut [u8]) -> i64
    ensures { OpenLinked bytes.now state.old result state.new }
{
    let opened = state::open_decoder(bytes);
    if let Err(why) = opened.answer {
        return minus(why);
    }
    if state.len() < DECODER_SIZE {
        return minus(Refusal::OutputTooSmall);
    }
    block::write_decoder(state, opened.state);
    0
}

// Stores the state after an accepted call, whose number it tells.
fn keep(state: &mut [u8], answer: Result<usize, Refusal>, after: QoaDecoder) -> i64
    requires room { decoder_size ≤ length state.old }
    requires small { IfOk answer (λ n. n < 2 ^ 63) }
    ensures code { result ≡ coded (told answer) }
    ensures block { state.new ≡ kept (told answer) (view after) state.old }
{
    if answer.is_ok() {
        block::write_decoder(state, after);
    }
    told(answer)
}

// Samples of the current frame into lent memory: how many.
pub fn qoa_decoder_into(bytes: &[u8], state: &mut [u8], out: &mut [i16]) -> i64
    ensures { IntoLinked bytes.now state.old out.old result state.new out.new }
{
    let Some(given) = block::read_decoder(state) else {
        return minus(Refusal::BadState);
    };
    let done = decoder::decode_into(given, bytes, out);
    keep(state, done.answer, done.state)
}

// A frame's channels, rate and samples in one number.
fn frame_code(frame: FrameFacts) -> usize
    ensures { (result ≡ frame_code frame) × (result < 2 ^ 57) }
{
    let channels = frame.channels as usize;
    let rate = frame.rate as usize;
    channels * 0x1_0000_0000_0000 + rate * 0x1_0000 + (frame.samples as usize)
}

// What is found: 0 at the end, or the frame's number.
fn found_code(found: Option<FrameFacts>) -> usize
    ensures { (result ≡ found_code found) × (result < 2 ^ 63) }
{
    found.map_or(0, frame_code)
}

// On to the next frame: 0 at the end, or the frame's number.
pub fn qoa_decoder_next_frame(bytes: &[u8], state: &mut [u8]) -> i64
    ensures { NextLinked bytes.now state.old result state.new }
{
    let Some(current) = block::read_decoder(state) else {
        return minus(Refusal::BadState);
    };
    let found = decoder::next_frame(current, bytes);
    keep(state, found.answer.map(found_code), found.state)
}

// An item: 0 at the end, a header or a sample with its mark.
fn item_code(item: Option<QoaItem>) -> usize
    ensures { (result ≡ item_code item) × (result < 2 ^ 63) }
{
    match item {
        None => 0,
        Some(QoaItem::Header(frame)) => 0x1000_0000_0000_0000 + frame_code(frame),
        Some(QoaItem::Sample(sample)) => 0x2000_0000_0000_0000 + sample.pattern() as usize,
    }
}

// The next item: 0 at the end, a header or a sample with its mark.
pub fn qoa_decoder_next_item(bytes: &[u8], state: &mut [u8]) -> i64
    ensures { ItemLinked bytes.now state.old result state.new }
{
    let Some(held) = block::read_decoder(state) else {
        return minus(Refusal::BadState);
    };
    let step = decoder::next_item(held, bytes);
    keep(state, step.answer.map(item_code), step.state)
}

// The facts of a block's state.
fn facts_in(bytes: &[u8], state: &[u8]) -> Result<Facts, Refusal>
    ensures { told result ≡ facts_on state.now (length bytes.now) }
{
    let Some(shown) = block::read_decoder(state) else {
        return Err(Refusal::BadState);
    };
    state::facts_given(shown, bytes)
}

// Stores the three numbers at the start of lent memory.
fn put_facts(facts: &mut [u32], known: Facts)
    requires { 3 ≤ length facts.old }
    ensures { facts.new ≡ laid_over facts.old 0 (good (three_facts known)) }
{
    facts[0] = known.total;
    facts[1] = known.channels as u32;
    facts[2] = known.rate;
}

// Total, channels and rate into lent memory.
pub fn qoa_decoder_facts(bytes: &[u8], state: &[u8], facts: &mut [u32]) -> i64
    ensures { FactsLinked state.now (length bytes.now) facts.old result facts.new }
{
    match facts_in(bytes, state) {
        Err(why) => minus(why),
        Ok(known) => {
            if facts.len() < 3 {
                return minus(Refusal::OutputTooSmall);
            }
            put_facts(facts, known);
            0
        }
    }
}

// The length in seconds, 0.0 where there is none; minus 8 on a refusal.
pub fn qoa_decoder_seconds(bytes: &[u8], state: &[u8]) -> f64
    ensures { result ≡ coded_seconds (facts_on state.now (length bytes.now) then λ f. good f.length) }
{
    match facts_in(bytes, state) {
        Err(why) => minus(why) as f64,
        Ok(known) => known.length,
    }
}
