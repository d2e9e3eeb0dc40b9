// The C interface: numbers and slices only, a slice as a pointer and a length. An answer is a count, or minus the number of
// the refusal.
ghost use Rattle.std.specs.Prelude.{◌≡◌, length};
ghost use Rattle.refusal.specs.Rules.{after, good, ◌then◌};
ghost use Rattle.format.specs.Part.{part_length};
ghost use Rattle.refusal.specs.Refusals.{told};
ghost use Rattle.file.specs.Whole.{audio_in, decode};
ghost use Rattle.file.specs.Streaming.{streamed};
ghost use Rattle.refusal.specs.Lent.{laid_over};
ghost use Rattle.whole.specs.Told.{count_in, heard_in};
ghost use Rattle.encoder.specs.Encoder.{new_view};
ghost use Rattle.oneshot.specs.OneShot.{need_of, need_rules};
ghost use Rattle.oneshot.specs.Shots.{all_rules, shot_memory, shot_told};
ghost use Rattle.codes.specs.Codes.{coded, coded_encode, coded_seconds};
ghost use Rattle.qoa.specs.Coded.{channels_in, opened_facts, rate_in, sample_count};

use codes::{encoded, minus, told};
use format::Facts;
use refusal::Refusal;

// A whole file into lent samples: how many. Nothing past them is touched, and nothing at all on a refusal.
pub fn qoa_decode_all(bytes: &[u8], out: &mut [i16]) -> i64
    ensures answer { result ≡ coded (sample_count (decode (length out.old) bytes.now)) }
    ensures samples { out.new ≡ laid_over out.old 0 (heard_in (decode (length out.old) bytes.now)) }
{
    told(whole::decode_all(bytes, out).map(|s| s.count))
}

// How many samples a whole file has, over all channels.
pub fn qoa_decode_need(bytes: &[u8]) -> i64
    ensures { result ≡ coded (sample_count (audio_in bytes.now)) }
{
    told(whole::decode_need(bytes).map(|s| s.count))
}

// The channels of a whole file.
pub fn qoa_channels(bytes: &[u8]) -> i64
    ensures { result ≡ coded (channels_in (audio_in bytes.now)) }
{
    told(whole::decode_need(bytes).map(|s| s.channels as usize))
}

// The rate of a whole file.
pub fn qoa_rate(bytes: &[u8]) -> i64
    ensures { result ≡ coded (rate_in (audio_in bytes.now)) }
{
    told(whole::decode_need(bytes).map(|s| s.rate as usize))
}

// Whole frames one after another into lent samples: how many.
pub fn qoa_decode_frames(bytes: &[u8], out: &mut [i16]) -> i64
    ensures answer { result ≡ coded (count_in (streamed (length out.old) bytes.now)) }
    ensures samples { out.new ≡ laid_over out.old 0 (streamed (length out.old) bytes.now) }
{
    told(whole::decode_frames(bytes, out))
}

// The length of the frame part at a place.
pub fn qoa_part_length(bytes: &[u8], at: usize) -> i64
    ensures { result ≡ coded (part_length bytes.now at) }
{
    told(format::part_length(bytes, at))
}

// The facts of a file at its start.
fn opened_facts(bytes: &[u8]) -> Result<Facts, Refusal>
    ensures { told result ≡ opened_facts bytes.now }
{
    let opened = state::open_decoder(bytes);
    opened.answer?;
    state::facts_given(opened.state, bytes)
}

// The declared total of samples per channel; 0 is a stream.
pub fn qoa_facts_total(bytes: &[u8]) -> i64
    ensures { result ≡ coded (opened_facts bytes.now then λ f. good f.total) }
{
    told(opened_facts(bytes).map(|f| f.total as usize))
}

// The first frame's channels; 0 in a stream, of which no frame is read.
pub fn qoa_facts_channels(bytes: &[u8]) -> i64
    ensures { result ≡ coded (opened_facts bytes.now then λ f. good f.channels) }
{
    told(opened_facts(bytes).map(|f| f.channels as usize))
}

// The first frame's rate; 0 in a stream.
pub fn qoa_facts_rate(bytes: &[u8]) -> i64
    ensures { result ≡ coded (opened_facts bytes.now then λ f. good f.rate) }
{
    told(opened_facts(bytes).map(|f| f.rate as usize))
}

// The length in seconds; 0.0 in a stream, which has none. A refusal is minus its number.
pub fn qoa_facts_seconds(bytes: &[u8]) -> f64
    ensures { result ≡ coded_seconds (opened_facts bytes.now then λ f. good f.length) }
{
    match opened_facts(bytes) {
        Err(why) => minus(why) as f64,
        Ok(facts) => facts.length,
    }
}

// Samples into a whole file in lent bytes: how many bytes.
pub fn qoa_encode_all(channels: u8, rate: u32, total: u32, samples: &[i16], out: &mut [u8]) -> i64
    ensures answer { result ≡ coded_encode (shot_told (all_rules channels rate total samples.now (length out.old)) (new_view channels rate total) samples.now) }
    ensures bytes { out.new ≡ shot_memory (all_rules channels rate total samples.now (length out.old)) (new_view channels rate total) samples.now out.old }
{
    encoded(oneshot::encode_all(channels, rate, total, samples, out))
}

// How many bytes a whole file takes.
pub fn qoa_encode_need(channels: u8, total: u32) -> i64
    ensures { result ≡ coded (after (need_rules channels total) (good (need_of channels total))) }
{
    told(oneshot::encode_need(channels, total))
}
