// The item step: a frame header, a sample, the end, or a refusal.
ghost use Rattle.std.specs.Prelude.{◌≡◌, true, List, ℕ, ◌*◌, ◌≤◌, ◌<◌, length};
ghost use Rattle.format.specs.Format.{pending_len};
ghost use Rattle.state.specs.View.{view};
ghost use Rattle.state.specs.States.{good_state};
ghost use Rattle.decoder.specs.Items.{ItemDone, first_header, from_group, from_next, from_pending, item_in, settled};
ghost use Rattle.decoder.specs.Parts.{TurnDone};

use crate::{NextItem, QoaItem};
use format::frame::QOA_HEADER_SIZE;
use frames::{enter_frame, has_read};
use into::{after_pending, decode_more};
use refusal::{Done, Refusal};
use state::{FrameFacts, QoaDecoder};

// The first of the pending samples.
fn pending_item(d: QoaDecoder) -> NextItem
    requires { (d.next < d.end) × (d.end ≤ pending_len) }
    ensures { (bs : List ℕ) → TurnDone from_pending bs d result }
{
    Done {
        answer: Ok(Some(QoaItem::Sample(d.pending[d.next]))),
        state: after_pending(d, 1, d.given),
    }
}

// The same state, of which no sample is pending.
fn settle(d: QoaDecoder) -> QoaDecoder
    ensures { view result ≡ settled (view d) }
{
    QoaDecoder {
        next: 0,
        end: 0,
        given: true,
        ..d
    }
}

// The current frame's header, which was not given yet: all zero after a stream was opened.
fn header_item(d: QoaDecoder) -> NextItem
    ensures { (bs : List ℕ) → TurnDone first_header bs d result }
{
    Done {
        answer: Ok(Some(QoaItem::Header(d.frame))),
        state: settle(d),
    }
}

// The first sample of the next group.
fn group_item(d: QoaDecoder, bytes: &[u8]) -> NextItem
    requires { (good_state (view d) (length bytes.now) ≡ true) × (d.end ≤ d.next) × (0 < d.remaining) }
    ensures { TurnDone from_group bytes.now d result }
{
    if bytes.len() < d.at + 8 * (d.frame.channels as usize) {
        return Done::refused(Refusal::Truncated, d);
    }
    let mut one = [0i16; 1];
    let state = decode_more(d, bytes, &mut one, 1);
    Done {
        answer: Ok(Some(QoaItem::Sample(one[0]))),
        state,
    }
}

// What is found at a place, as an item.
fn item_in(found: Option<FrameFacts>) -> Option<QoaItem>
    ensures { result ≡ item_in found }
{
    found.map(QoaItem::Header)
}

// The next frame's header, or the end.
fn frame_item(d: QoaDecoder, bytes: &[u8]) -> NextItem
    requires { d.at ≤ length bytes.now }
    ensures { TurnDone from_next bytes.now d result }
{
    let left = bytes.len() - d.at;
    if left < QOA_HEADER_SIZE {
        if !format::tail_ok(left, has_read(d)) {
            return Done::refused(Refusal::Truncated, d);
        }
        return Done {
            answer: Ok(None),
            state: settle(d),
        };
    }
    let entered = enter_frame(d, bytes, d.at);
    Done {
        answer: entered.answer.map(item_in),
        state: entered.state,
    }
}

// One item: pending samples before all else, then the first header, the samples of the frame, and the next frame.
pub fn next_item(d: QoaDecoder, bytes: &[u8]) -> NextItem
    ensures { ItemDone bytes.now d result }
{
    if !state::is_good(d, bytes.len()) {
        return Done::refused(Refusal::BadState, d);
    }
    if d.next < d.end {
        return pending_item(d);
    }
    if !d.given {
        return header_item(d);
    }
    if 0 < d.remaining {
        return group_item(d, bytes);
    }
    frame_item(d, bytes)
}
