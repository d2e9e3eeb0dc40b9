// The header of a frame, a 64-bit word, with its checks, and the lengths that it tells.
ghost use Rattle.std.specs.Prelude.{◌≡◌, ◌+◌, ◌^◌, ◌≤◌, ◌<◌, length};
ghost use Rattle.refusal.specs.Rules.{first_of};
ghost use Rattle.format.specs.Format.{frame_length, slices_of, state_end};
ghost use Rattle.refusal.specs.Refusals.{told, told_refusal};
ghost use Rattle.format.specs.Part.{length_of};
ghost use Rattle.format.specs.Header.{good_header, header_at, header_rules, header_word};
ghost use Rattle.format.specs.Parts.{header_fields};

use refusal::Refusal;
use word::BigEndian;

pub const QOA_SLICE_LEN: usize = 20;

pub const QOA_HEADER_SIZE: usize = 8;

pub const QOA_SLICES_PER_FRAME: usize = 256;

pub const QOA_FRAME_LEN: usize = QOA_SLICES_PER_FRAME * QOA_SLICE_LEN;

// The most channels that a frame may have. kept: contracts bound a plain number by it, and no type does: headers and states may say any
// number, so a value of such a type would be made anew in each call.
pub const QOA_MAX_CHANNELS: usize = 8;

// The highest rate that 24 bits hold.
pub const QOA_MOST_RATE: u32 = 16777215;

// The most bytes of a whole file.
pub const QOA_MOST_BYTES: usize = 4294967295;

// Channels, rate in hertz, samples per channel, and the size field.
#[derive(Clone, Copy)]
pub struct FrameHeader {
    pub channels: u8,
    pub rate: u32,
    pub samples: u16,
    pub size: u16,
}

impl FrameHeader {
    // The bytes of the whole frame.
    pub fn length(self) -> usize
        ensures { result ≡ length_of self }
    {
        frame_length(self.channels as usize, self.samples as usize)
    }
}

// The fields of a word.
pub fn header_fields(word: u64) -> FrameHeader
    ensures { result ≡ header_fields word }
{
    FrameHeader {
        channels: ((word >> 56) & 0xff) as u8,
        rate: ((word >> 32) & 0xff_ffff) as u32,
        samples: ((word >> 16) & 0xffff) as u16,
        size: (word & 0xffff) as u16,
    }
}

// The word that has these fields. kept: a function and no `From`, and so its inverse, since a rate over 24 bits has no place in the word.
pub fn header_word(h: FrameHeader) -> u64
    requires { h.rate < 2 ^ 24 }
    ensures { result ≡ header_word h }
{
    let channels = h.channels as u64;
    let rate = h.rate as u64;
    let samples = h.samples as u64;
    let size = h.size as u64;
    (channels << 56) | ((rate << 32) | ((samples << 16) | size))
}

// The header at a place, not checked.
pub fn read_header(bytes: &[u8], at: usize) -> FrameHeader
    requires { at + 8 ≤ length bytes.now }
    ensures { result ≡ header_at bytes.now at }
{
    header_fields(u64::read_be(bytes, at))
}

// The slices of each channel.
pub fn slices_of(samples: usize) -> usize
    ensures { result ≡ slices_of samples }
{
    samples.div_ceil(QOA_SLICE_LEN)
}

// Where the slices of a frame start.
pub fn state_end(channels: usize) -> usize
    requires { channels ≤ 255 }
    ensures { result ≡ state_end channels }
{
    QOA_HEADER_SIZE + 16 * channels
}

// The bytes of a whole frame.
pub fn frame_length(channels: usize, samples: usize) -> usize
    requires { (channels ≤ 255) × (samples ≤ 65535) }
    ensures { result ≡ frame_length channels samples }
{
    state_end(channels) + 8 * (channels * slices_of(samples))
}

// The checks of a header, in FORMAT.md's order.
pub fn check_header(h: FrameHeader) -> Result<(), Refusal>
    ensures { told_refusal result ≡ first_of (header_rules h) }
{
    let c = h.channels as usize;
    let size = h.size as usize;
    let state = state_end(c);
    if c == 0 || h.rate == 0 || size <= state {
        return Err(Refusal::InvalidFrameHeader);
    }
    let k = (size - state) / 8;
    if k % c != 0 || QOA_SLICES_PER_FRAME < k / c {
        return Err(Refusal::InvalidFrameHeader);
    }
    if QOA_MAX_CHANNELS < c {
        return Err(Refusal::TooManyChannels);
    }
    Ok(())
}

// The header at a place, or the refusal.
pub fn header_at(bytes: &[u8], at: usize) -> Result<FrameHeader, Refusal>
    ensures { told result ≡ good_header bytes.now at }
{
    if bytes.len().saturating_sub(at) < QOA_HEADER_SIZE {
        return Err(Refusal::Truncated);
    }
    let h = read_header(bytes, at);
    check_header(h)?;
    Ok(h)
}
