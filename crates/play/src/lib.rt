#![tactic(auto)]

// The decisions of a program that plays a file, with no reading and no writing: what comes next, by the run so far and the bytes that came.
// No program stands on them yet.
ghost use Rattle.std.specs.Prelude.{◌≡◌, ◌+◌, ◌≤◌, length};
ghost use Rattle.refusal.specs.Refusals.{number_of};
ghost use Rattle.format.specs.Format.{most_bytes};
ghost use Rattle.format.specs.Header.{header_at};
ghost use Rattle.play.specs.Decisions.{begun, between, counted, decided, decided_body, decided_end, decided_head, decided_size, decided_start, decided_state, first_for, said_of, told_decision, within as Decisions·within};
ghost use Rattle.play.specs.Parts.{GoodRun};
ghost use Rattle.play.specs.declared.Stop.TheVariants.{Refused};

use format::checks::{First, Kind};
use format::frame::{FrameHeader, QOA_HEADER_SIZE};
use refusal::Refusal;

// The most bytes of a frame that the program holds.
pub const MOST_HELD: usize = 65536;

// The most bytes of a whole file.
pub const MOST_BYTES: u64 = format::QOA_MOST_BYTES as u64;

// What the program waits for.
#[derive(Clone, Copy)]
pub enum Stage {
    FileHead,
    FrameHead,
    FrameState,
    FrameBody,
}

// What is known between two decisions: how many bytes are kept in the buffer, and up to how many it is to be filled; the bytes read before
// those; the file's mode, and its first frame, if there was one.
// kept: GoodRun is a clause of four functions and no ghost field, since the definitions build runs, for which they would owe its proof.
#[derive(Clone, Copy)]
pub struct Run {
    pub stage: Stage,
    pub held: usize,
    pub want: usize,
    pub read: u64,
    pub fixed: bool,
    pub first: Option<First>,
}

// A whole frame at the start of the buffer, of so many bytes, and the run after it.
#[derive(Clone, Copy)]
pub struct HeldFrame {
    pub size: usize,
    pub run: Run,
}

// How to go on: read on, or play a frame first.
#[derive(Clone, Copy)]
pub enum Next {
    Read(Run),
    Play(HeldFrame),
}

// Why to stop: a refusal, "frame too large", or nothing to say.
#[derive(Clone, Copy)]
pub enum Stop {
    Refused(Refusal),
    TooLarge,
    End,
}

impl From<Refusal> for Stop {
    ghost from_gives = { λ r s. s ≡ Refused r };

    fn from(refusal: Refusal) -> Stop {
        Stop::Refused(refusal)
    }
}

// What comes next.
pub type Decision = Result<Next, Stop>;

// Before the first byte.
pub fn begin() -> Run
    ensures { result ≡ begun }
{
    Run {
        stage: Stage::FileHead,
        held: 0,
        want: QOA_HEADER_SIZE,
        read: 0,
        fixed: false,
        first: None,
    }
}

// The run between two frames, after so many bytes.
fn next_head(read: u64, fixed: bool, first: Option<First>) -> Run
    ensures { result ≡ between read fixed first }
{
    Run {
        stage: Stage::FrameHead,
        held: 0,
        want: QOA_HEADER_SIZE,
        read,
        fixed,
        first,
    }
}

// The same file, at another stage of the frame.
fn within(run: Run, stage: Stage, held: usize, want: usize) -> Run
    ensures { result ≡ Decisions·within run stage held want }
{
    Run {
        stage,
        held,
        want,
        ..run
    }
}

// How many of the bytes that came are within the most bytes of a file.
fn count_within(run: Run, n: usize) -> usize
    requires { run.read ≤ most_bytes }
    ensures { result ≡ counted run n }
{
    n.min((MOST_BYTES - run.read) as usize)
}

// The file header.
fn start(bytes: &[u8]) -> Decision
    ensures { told_decision result ≡ decided_start bytes.now }
{
    let total = format::file_header(bytes)?;
    Ok(Next::Read(next_head(QOA_HEADER_SIZE as u64, total != 0, None)))
}

// The end of the input, with fewer than 8 bytes left: refusal 2 where there was no frame.
#[tactic(auto, using(std::proofs::lemmas::Bool::Decides::nat_tests), unfolding(refusal::specs::Rules::first_of))]
fn finish(run: Run, left: usize) -> Decision
    ensures { told_decision result ≡ decided_end run left }
{
    if run.first.is_none() {
        return Err(Stop::Refused(Refusal::NoSamples));
    }
    if !format::tail_ok(left, true) {
        return Err(Stop::Refused(Refusal::Truncated));
    }
    Err(Stop::End)
}

// A frame's header, or the end.
fn head(run: Run, bytes: &[u8]) -> Decision
    requires { GoodRun run }
    ensures { told_decision result ≡ decided_head run bytes.now }
{
    let n = bytes.len();
    if count_within(run, n) < n {
        return Err(Stop::Refused(Refusal::InputTooLong));
    }
    if n < QOA_HEADER_SIZE {
        return finish(run, n);
    }
    let h = format::read_header(bytes, 0);
    let end = format::state_end(h.channels as usize);
    Ok(Next::Read(within(run, Stage::FrameState, QOA_HEADER_SIZE, end)))
}

// The first frame of the file, which is this one where there was none.
fn first_for(run: Run, h: FrameHeader) -> First
    ensures { result ≡ first_for run h }
{
    run.first.unwrap_or(First {
        fixed: run.fixed,
        channels: h.channels,
        rate: h.rate,
    })
}

// A frame's verdict, from its header and as much of its predictor state as came: refused, too large, or to be read on.
fn verdict(run: Run, bytes: &[u8]) -> Decision
    requires { GoodRun run × (8 ≤ length bytes.now) }
    ensures { told_decision result ≡ decided_state run bytes.now }
{
    let h = format::read_header(bytes, 0);
    let left = count_within(run, bytes.len());
    let first = first_for(run, h);
    format::check_frame(h, Kind::Like(first), QOA_HEADER_SIZE, left)?;
    size_verdict(run, h, left)
}

// The same for a frame whose checks are good.
fn size_verdict(run: Run, h: FrameHeader, left: usize) -> Decision
    ensures { told_decision result ≡ decided_size run h left }
{
    let end = format::state_end(h.channels as usize);
    let size = h.length();
    if MOST_HELD < size {
        return Err(Stop::TooLarge);
    }
    if left < end {
        return Err(Stop::Refused(Refusal::Truncated));
    }
    Ok(Next::Read(within(run, Stage::FrameBody, end, size)))
}

// A frame's slices: cut, or a whole frame to play.
fn body(run: Run, bytes: &[u8]) -> Decision
    requires { GoodRun run × (8 ≤ length bytes.now) }
    ensures { told_decision result ≡ decided_body run bytes.now }
{
    let h = format::read_header(bytes, 0);
    let size = h.length();
    let left = count_within(run, bytes.len());
    let first = first_for(run, h);
    format::check_frame(h, Kind::Like(first), size, left)?;
    Ok(Next::Play(HeldFrame {
        size,
        run: next_head(run.read + size as u64, run.fixed, Some(first)),
    }))
}

// What comes next, after a fill: `bytes` are those that the buffer holds.
pub fn decide(run: Run, bytes: &[u8]) -> Decision
    requires { GoodRun run × (run.held ≤ length bytes.now) }
    ensures { told_decision result ≡ decided run bytes.now }
{
    let stage = run.stage;
    match stage {
        Stage::FileHead => start(bytes),
        Stage::FrameHead => head(run, bytes),
        Stage::FrameState => verdict(run, bytes),
        Stage::FrameBody => body(run, bytes),
    }
}

// The number that is said of a refusal, where the input has so many bytes: 9 goes before all others.
pub fn said_number(refusal: Refusal, all: u64) -> u8
    ensures { result ≡ said_of all (number_of refusal) }
{
    if MOST_BYTES < all {
        return u8::from(Refusal::InputTooLong);
    }
    u8::from(refusal)
}
