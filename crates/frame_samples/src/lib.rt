#![tactic(auto)]

// The samples of a whole frame, some at a time, each time as little-endian bytes too.
ghost use Rattle.std.specs.Prelude.{◌≡◌, ◌*◌, ◌≤◌, length};
ghost use Rattle.format.specs.Format.{pending_len};
ghost use Rattle.state.specs.View.{total, view};
ghost use Rattle.file.specs.Parts.{IsFree};
ghost use Rattle.frame_samples.specs.Blocks.{BlockDone};
ghost use Rattle.frame_samples.specs.Places.{After};

use state::QoaDecoder;

// A decoder in a whole frame, after so many samples of it.
#[derive(Clone, Copy)]
pub struct InFrame {
    pub decoder: QoaDecoder,
    pub done: usize,
}

// The next samples: how many, and the decoder after them.
#[derive(Clone, Copy)]
pub struct NextBlock {
    pub count: usize,
    pub place: InFrame,
}

// Before the first sample of a whole good frame.
pub fn open_frame(frame: &[u8]) -> InFrame
    requires { IsFree frame.now }
    ensures { (After frame.now result) × (result.done ≡ 0) }
{
    let decoder = frames::enter_frame(state::zero_state(), frame, 0).state;
    InFrame { decoder, done: 0 }
}

// How many samples are still to come.
fn samples_left(d: QoaDecoder) -> usize
    requires { (d.next ≤ d.end) × (d.end ≤ pending_len) }
    ensures { result ≡ total (view d) }
{
    (d.end - d.next) + (d.remaining as usize) * (d.frame.channels as usize)
}

// The next samples, as many as `block` has room for, into `block`, and their bytes at the start of `bytes`.
pub fn next_block(p: InFrame, frame: &[u8], block: &mut [i16], bytes: &mut [u8]) -> NextBlock
    requires after { After frame.now p }
    requires room { length block.old * 2 ≤ length bytes.old }
    ensures { BlockDone frame.now p block.old bytes.old result block.new bytes.new }
{
    let count = block.len().min(samples_left(p.decoder));
    let made = into::decode_into(p.decoder, frame, block);
    word::little::put_samples(&block[..count], bytes);
    NextBlock {
        count,
        place: InFrame {
            decoder: made.state,
            done: p.done + count,
        },
    }
}
