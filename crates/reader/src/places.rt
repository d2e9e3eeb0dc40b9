// The calls on a decoder at a place of the bytes: what each gives, and the new place. On a refusal the place and the state are as they were given.
ghost use Rattle.std.specs.Prelude.{◌≡◌, List};
ghost use Rattle.refusal.specs.Rules.{Rule};
ghost use Rattle.state.specs.View.{View};
ghost use Rattle.into.specs.Left.{CallDone};
ghost use Rattle.reader.specs.Read.{FrameRead, HandedDone, IntoRead, ItemRead, placed};

use decoder::QoaItem;
use refusal::{Done, Refusal};
use state::{FrameFacts, QoaDecoder};

// What a call on a decoder gives, and the new place.
#[derive(Clone, Copy)]
pub struct At<T> {
    pub at: usize,
    pub done: Done<Result<T, Refusal>, QoaDecoder>,
}

// How many samples were decoded, and the place after them.
pub type DecodedAt = At<usize>;

// What is handed back of a call on the state d, set to the place: on a refusal both as they were given.
fn handed_back<T: Copy>(
    at: usize,
    d: QoaDecoder,
    done: Done<Result<T, Refusal>, QoaDecoder>,
) -> At<T>
    ensures { (rules : List Rule) (x : T) (v : View) → CallDone rules x (placed at d) v done → HandedDone rules x at d v result.at result.done }
{
    match done.answer {
        Err(why) => At {
            at,
            done: Done::refused(why, d),
        },
        Ok(_) => At {
            at: done.state.at,
            done,
        },
    }
}

pub fn decode_at(bytes: &[u8], at: usize, d: QoaDecoder, out: &mut [i16]) -> At<usize>
    ensures { IntoRead bytes.now at d out.old result.at result.done out.new }
{
    handed_back(
        at,
        d,
        decoder::decode_into(QoaDecoder { at, ..d }, bytes, out),
    )
}

pub fn next_frame_at(bytes: &[u8], at: usize, d: QoaDecoder) -> At<Option<FrameFacts>>
    ensures { FrameRead bytes.now at d result.at result.done }
{
    handed_back(at, d, decoder::next_frame(QoaDecoder { at, ..d }, bytes))
}

pub fn next_item_at(bytes: &[u8], at: usize, d: QoaDecoder) -> At<Option<QoaItem>>
    ensures { ItemRead bytes.now at d result.at result.done }
{
    handed_back(at, d, decoder::next_item(QoaDecoder { at, ..d }, bytes))
}
