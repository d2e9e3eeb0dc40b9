#![tactic(auto)]

// Decoding into a buffer: pending samples, then slice groups until the buffer is full or the frame is done.
ghost use Rattle.std.specs.Prelude.{◌≡◌, true, List, ℕ, ◌+◌, ◌-◌, ◌*◌, ◌≤◌, ◌<◌, min, pos, get_or, length};
ghost use Rattle.word.specs.Parts.{written};
ghost use Rattle.format.specs.Format.{max_channels, pending_len, slice_len};
ghost use Rattle.state.specs.View.{view, waiting, flagged};
ghost use Rattle.state.specs.States.{good_state};
ghost use Rattle.into.specs.Into.{IntoDone, coming_at, groups_end, groups_for, range_end, range_next, taken_from};

use format::frame::QOA_SLICE_LEN;
use refusal::{Done, Refusal};
use state::{PENDING, QoaDecoder};

// How many samples were decoded, and the state after them.
pub type DecodedInto = Done<Result<usize, Refusal>, QoaDecoder>;

// The range of the pending samples, 0 and 0 where none is left.
fn pending_range(next: usize, end: usize) -> (usize, usize)
    ensures { (result.0 ≡ range_next next end) × (result.1 ≡ range_end next end) }
{
    if next < end { (next, end) } else { (0, 0) }
}

// Stores `n` of the pending samples, from `next` on, at `start` and after it.
fn copy_out(from: &[i16; PENDING], next: usize, n: usize, out: &mut [i16], start: usize)
    requires there { next + n ≤ pending_len }
    requires room { start + n ≤ length out.old }
    ensures { out.new ≡ written (λ i. get_or from.now (next + i) (pos 0)) out.old start 1 n }
{
    out[start..start + n].copy_from_slice(&from[next..next + n]);
}

// The samples per channel of the last group, of which a part is asked for: none where nothing is.
fn last_samples(rest: usize, left: usize) -> usize
    ensures { (rest ≡ 0 → result ≡ 0) × (0 < rest → result ≡ min slice_len left) }
{
    if rest == 0 {
        0
    } else {
        left.min(QOA_SLICE_LEN)
    }
}

// The pending samples, and `more` after them: whole groups straight into `out`, and the last one aside where a part of it stays pending.
// kept: `good_state` is a clause and no invariant, here as in `frames` and `decoder`, since a call may be handed any state.
pub fn decode_more(d: QoaDecoder, bytes: &[u8], out: &mut [i16], more: usize) -> QoaDecoder
    requires good { good_state (view d) (length bytes.now) ≡ true }
    requires some { (0 < more) × (more ≤ d.remaining * d.frame.channels) }
    requires whole { groups_end (view d) (groups_for d.frame.channels more) ≤ length bytes.now }
    requires room { waiting (view d) + more ≤ length out.old }
    ensures state { view result ≡ taken_from bytes.now (view d) (groups_for d.frame.channels more) (waiting (view d) + more) }
    ensures samples { out.new ≡ written (coming_at bytes.now (view d)) out.old 0 1 (waiting (view d) + more) }
{
    let tab = scale::dequant_tab();
    let channels = d.frame.channels as usize;
    let kept = d.end - d.next;
    copy_out(&d.pending, d.next, kept, out, 0);
    let group = QOA_SLICE_LEN * channels;
    let whole = more / group;
    let rest = more % group;
    let full = QOA_SLICE_LEN * whole;
    let run = groups::decode_groups(&tab, d.lms, bytes, d.at, channels, full, out, kept);
    let left = d.remaining as usize - full;
    let n = last_samples(rest, left);
    let place = d.at + 8 * (whole * channels);
    let mut fresh = [0i16; PENDING];
    let last = groups::decode_groups(&tab, run, bytes, place, channels, n, &mut fresh, 0);
    copy_out(&fresh, 0, rest, out, kept + whole * group);
    let (next, end) = pending_range(rest, n * channels);
    QoaDecoder {
        at: place + 8 * (format::slices_of(n) * channels),
        remaining: (left - n) as u16,
        next,
        end,
        given: true,
        lms: last,
        pending: fresh,
        ..d
    }
}

// The state after so many of the pending samples.
pub fn after_pending(d: QoaDecoder, count: usize, given: bool) -> QoaDecoder
    requires { (d.next ≤ d.end) × (count ≤ d.end - d.next) }
    ensures { (bs : List ℕ) → view result ≡ flagged given (taken_from bs (view d) 0 count) }
{
    let (next, end) = pending_range(d.next + count, d.end);
    QoaDecoder {
        next,
        end,
        given,
        ..d
    }
}

// How many groups give so many samples, all channels together.
fn groups_for(channels: usize, samples: usize) -> usize
    requires { (0 < channels) × (channels ≤ max_channels) × (samples ≤ 65535 * max_channels) }
    ensures { result ≡ groups_for channels samples }
{
    samples.div_ceil(QOA_SLICE_LEN * channels)
}

// Decodes into `out` until it is full or the frame is done: the count, and the state after it. Nothing is written past the count, nor on a refusal.
pub fn decode_into(d: QoaDecoder, bytes: &[u8], out: &mut [i16]) -> DecodedInto
    ensures { IntoDone bytes.now d out.old result out.new }
{
    if !state::is_good(d, bytes.len()) {
        return Done::refused(Refusal::BadState, d);
    }
    let channels = d.frame.channels as usize;
    let waiting = d.end - d.next;
    let count = out.len().min(waiting + (d.remaining as usize) * channels);
    if count <= waiting {
        copy_out(&d.pending, d.next, count, out, 0);
        return Done {
            answer: Ok(count),
            state: after_pending(d, count, true),
        };
    }
    let more = count - waiting;
    if bytes.len() < d.at + 8 * (groups_for(channels, more) * channels) {
        return Done::refused(Refusal::Truncated, d);
    }
    Done {
        answer: Ok(count),
        state: decode_more(d, bytes, out, more),
    }
}
