// A decoder whose state is a block of lent bytes: each function is the library's.
ghost use Rattle.std.specs.Prelude.{◌≡◌, pos, length};
ghost use Rattle.refusal.specs.Rules.{good, ◌then◌};
ghost use Rattle.block.specs.DecoderBlock.{decoder_size};
ghost use Rattle.codes.specs.Codes.{coded_seconds};
ghost use Rattle.linked_decoder.specs.Linked.{FactsLinked, NextLinked, IntoLinked, ItemLinked, OpenLinked, facts_on};

// The bytes of a decoder's block.
#[unsafe(no_mangle)]
pub extern "C" fn qoa_decoder_size() -> i64
    ensures { result ≡ pos decoder_size }
{
    linked_decoder::qoa_decoder_size()
}

// Opens a file: its refusals, then 7 where the block is too short.
#[unsafe(no_mangle)]
pub extern "C" fn qoa_decoder_open(bytes: &[u8], state: &mut [u8]) -> i64
    ensures { OpenLinked bytes.now state.old result state.new }
{
    linked_decoder::qoa_decoder_open(bytes, state)
}

// Samples of the current frame into lent memory: how many.
#[unsafe(no_mangle)]
pub extern "C" fn qoa_decoder_into(bytes: &[u8], state: &mut [u8], out: &mut [i16]) -> i64
    ensures { IntoLinked bytes.now state.old out.old result state.new out.new }
{
    linked_decoder::qoa_decoder_into(bytes, state, out)
}

// On to the next frame: 0 at the end, or the frame's number.
#[unsafe(no_mangle)]
pub extern "C" fn qoa_decoder_next_frame(bytes: &[u8], state: &mut [u8]) -> i64
    ensures { NextLinked bytes.now state.old result state.new }
{
    linked_decoder::qoa_decoder_next_frame(bytes, state)
}

// The next item: 0 at the end, a header or a sample with its mark.
#[unsafe(no_mangle)]
pub extern "C" fn qoa_decoder_next_item(bytes: &[u8], state: &mut [u8]) -> i64
    ensures { ItemLinked bytes.now state.old result state.new }
{
    linked_decoder::qoa_decoder_next_item(bytes, state)
}

// Total, channels and rate into lent memory.
#[unsafe(no_mangle)]
pub extern "C" fn qoa_decoder_facts(bytes: &[u8], state: &[u8], facts: &mut [u32]) -> i64
    ensures { FactsLinked state.now (length bytes.now) facts.old result facts.new }
{
    linked_decoder::qoa_decoder_facts(bytes, state, facts)
}

// The length in seconds, 0.0 where there is none; minus 8 on a refusal.
#[unsafe(no_mangle)]
pub extern "C" fn qoa_decoder_seconds(bytes: &[u8], state: &[u8]) -> f64
    ensures { result ≡ coded_seconds (facts_on state.now (length bytes.now) then λ f. good f.length) }
{
    linked_decoder::qoa_decoder_seconds(bytes, state)
}
