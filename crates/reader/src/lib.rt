#![tactic(auto)]

// The caller's bytes and a place in them. A call on a decoder takes the reader apart and leaves the work to a function over the bytes and the place.
ghost use Rattle.std.specs.Prelude.{◌≡◌};
ghost use Rattle.refusal.specs.Rules.{first_of};
ghost use Rattle.format.specs.Part.{part_length, part_of};
ghost use Rattle.state.specs.Opening.{OpenLeaves, open_rules};
ghost use Rattle.reader.specs.Read.{FrameRead, IntoRead, ItemRead};
ghost use Rattle.refusal.specs.Refusals.{told, told_refusal};

use decoder::QoaItem;
pub use places::DecodedAt;
use places::{At, decode_at, next_frame_at, next_item_at};
use refusal::{Done, Refusal};
use state::{FrameFacts, QoaDecoder};

mod places;

// The caller's bytes, and a place in them.
#[derive(Clone, Copy)]
pub struct Reader<'a> {
    pub src: &'a [u8],
    pub at: usize,
}

// The part that is one whole good frame, or nothing, beside its length or the refusal. kept: both fields, which
// README and the theorem `read_part` name.
#[derive(Clone, Copy)]
pub struct FramePart<'a> {
    pub part: &'a [u8],
    pub answer: Result<usize, Refusal>,
}

// What a call on a decoder gives, and the reader at the new place; on a refusal both are as they were given.
#[derive(Clone, Copy)]
pub struct Read<'a, T> {
    pub reader: Reader<'a>,
    pub done: Done<Result<T, Refusal>, QoaDecoder>,
}

// A decoder's state at the start of a file, and the reader at its place.
pub type OpenedReader<'a> = Read<'a, ()>;

// How many samples were decoded.
pub type ReadInto<'a> = Read<'a, usize>;

// The next frame, or none at the end.
pub type ReadFrame<'a> = Read<'a, Option<FrameFacts>>;

// The next item, or none at the end.
pub type ReadItem<'a> = Read<'a, Option<QoaItem>>;

// At the start of the bytes.
pub fn new_reader<'a>(src: &'a [u8]) -> Reader<'a>
    ensures { (result.src ≡ src.entry) × (result.at ≡ 0) }
{
    Reader { src, at: 0 }
}

// The reader at another place.
pub fn moved_reader<'a>(r: Reader<'a>, at: usize) -> Reader<'a>
    ensures { (result.src ≡ r.entry.src) × (result.at ≡ at) }
{
    Reader { src: r.src, at }
}

// The frame at the reader's place: the caller's own bytes, no copy, beside the length or the refusal.
pub fn read_part<'a>(r: Reader<'a>) -> FramePart<'a>
    ensures { (result.part.now ≡ part_of (part_length r.entry.src.now r.entry.at) r.entry.src.now r.entry.at) × (told result.answer ≡ part_length r.entry.src.now r.entry.at) }
{
    FramePart {
        part: format::frame_part(r.src, r.at),
        answer: format::part_length(r.src, r.at),
    }
}

// A decoder at the start of a file; where it is refused the reader is at the start of the bytes.
pub fn open_reader<'a>(src: &'a [u8]) -> OpenedReader<'a>
    ensures { (result.reader.src ≡ src.entry) × (result.reader.at ≡ result.done.state.at) × (told_refusal result.done.answer ≡ first_of (open_rules src.now)) × OpenLeaves (first_of (open_rules src.now)) src.now result.done.state }
{
    let done = state::open_decoder(src);
    Read {
        reader: Reader {
            src,
            at: done.state.at,
        },
        done,
    }
}

// Samples of the current frame into lent memory.
pub fn read_into<'a>(r: Reader<'a>, d: QoaDecoder, out: &mut [i16]) -> ReadInto<'a>
    ensures { (result.reader.src ≡ r.entry.src) × IntoRead r.entry.src.now r.entry.at d out.old result.reader.at result.done out.new }
{
    let At { at, done } = decode_at(r.src, r.at, d, out);
    Read {
        reader: Reader { src: r.src, at },
        done,
    }
}

// On to the next frame, or the end.
pub fn read_frame<'a>(r: Reader<'a>, d: QoaDecoder) -> ReadFrame<'a>
    ensures { (result.reader.src ≡ r.entry.src) × FrameRead r.entry.src.now r.entry.at d result.reader.at result.done }
{
    let At { at, done } = next_frame_at(r.src, r.at, d);
    Read {
        reader: Reader { src: r.src, at },
        done,
    }
}

// The next item: a frame header, a sample, or the end.
pub fn read_item<'a>(r: Reader<'a>, d: QoaDecoder) -> ReadItem<'a>
    ensures { (result.reader.src ≡ r.entry.src) × ItemRead r.entry.src.now r.entry.at d result.reader.at result.done }
{
    let At { at, done } = next_item_at(r.src, r.at, d);
    Read {
        reader: Reader { src: r.src, at },
        done,
    }
}

// The same from plain bytes and a place: whoever calls this one needs no reader.
pub fn decode_from(src: &[u8], at: usize, d: QoaDecoder, out: &mut [i16]) -> DecodedAt
    ensures { IntoRead src.now at d out.old result.at result.done out.new }
{
    let Read { reader, done } = read_into(Reader { src, at }, d, out);
    At {
        at: reader.at,
        done,
    }
}
