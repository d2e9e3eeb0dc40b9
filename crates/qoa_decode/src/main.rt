#![tactic(auto)]

// Reads a QOA file on standard input and writes its samples, 16-bit little-endian, on standard output.
// A refusal is whole-file decoding's number on standard error, after the samples of the frames before it.
// kept: `play` decides the same with contracts, and is to take this program's place when what it plays is proved.
ghost use Rattle.std.specs.Prelude.{◌≤◌, ◌-◌, IfOk};

use format::{First, Kind, QOA_HEADER_SIZE};
use refusal::Refusal;
use stdio::{ReadFailed, Streams, WriteFailed};

// The most bytes of a whole file.
const MOST_BYTES: u64 = format::QOA_MOST_BYTES as u64;

// Why the program stops. What failed was said.
#[derive(Clone, Copy)]
enum Stop {
    End,
    Refused(Refusal),
    TooLarge,
    Failed,
}

impl From<Refusal> for Stop {
    fn from(refusal: Refusal) -> Stop {
        Stop::Refused(refusal)
    }
}

impl From<ReadFailed> for Stop {
    fn from(_why: ReadFailed) -> Stop {
        Stop::Failed
    }
}

impl From<WriteFailed> for Stop {
    fn from(_why: WriteFailed) -> Stop {
        Stop::Failed
    }
}

// The input: a place for a whole frame, how many bytes were read, the file's mode, and its first frame, if there was one.
#[derive(Drop)]
struct Input {
    streams: Streams,
    buffer: [u8; 65536],
    read: u64,
    fixed: bool,
    first: Option<First>,
}

impl Input {
    // Reads into the buffer between two places: as many bytes as fit, or fewer at the end of the input.
    fn fill(&mut self, from: usize, to: usize) -> Result<usize, ReadFailed>
        requires { (from ≤ to) × (to ≤ 65536) }
        ensures count { IfOk result (λ n. n ≤ to - from) }
        ensures more { self.old.read ≤ self.new.read }
    {
        let n = stdio::fill(self.streams, &mut self.buffer[from..to])?;
        self.read = self.read.saturating_add(n as u64);
        Ok(n)
    }

    // The file header.
    fn start(&mut self) -> Result<(), Stop> {
        let n = self.fill(0, QOA_HEADER_SIZE)?;
        let total = format::file_header(&self.buffer[..n])?;
        self.fixed = total != 0;
        Ok(())
    }

    // The end of the input, with fewer than 8 bytes left: refusal 2 where there was no frame.
    fn end(&self, left: usize) -> Stop {
        if self.first.is_none() {
            return Stop::Refused(Refusal::NoSamples);
        }
        if !format::tail_ok(left, true) {
            return Stop::Refused(Refusal::Truncated);
        }
        Stop::End
    }

    // The next frame, whole at the start of the buffer: how many bytes it has. Whole-file decoding's refusals come in its order; whether
    // the frame is cut is told after the checks, which need no more than its header, as one too large comes before that.
    #[tactic(auto, unfolding(format::specs::Format::state_end, format::specs::Format::frame_length))]
    fn next_frame(&mut self) -> Result<usize, Stop>
        ensures { IfOk result (λ size. size ≤ 65536) }
    {
        let start = self.read;
        let n = self.fill(0, QOA_HEADER_SIZE)?;
        if MOST_BYTES < self.read {
            return Err(Stop::Refused(Refusal::InputTooLong));
        }
        if n < QOA_HEADER_SIZE {
            return Err(self.end(n));
        }
        let h = format::read_header(&self.buffer, 0);
        let end = format::state_end(h.channels as usize);
        let part = QOA_HEADER_SIZE + self.fill(QOA_HEADER_SIZE, end)?;
        let first = self.first.unwrap_or(First {
            fixed: self.fixed,
            channels: h.channels,
            rate: h.rate,
        });
        format::check_frame(h, Kind::Like(first), QOA_HEADER_SIZE, part)?;
        let size = h.length();
        if self.buffer.len() < size {
            return Err(Stop::TooLarge);
        }
        if part < end || MOST_BYTES - start < size as u64 {
            return Err(Stop::Refused(Refusal::Truncated));
        }
        if self.fill(end, size)? < size - end {
            return Err(Stop::Refused(Refusal::Truncated));
        }
        self.first = Some(first);
        Ok(size)
    }

    // Reads on to the end of the input or past the most bytes of a file.
    fn drain(&mut self) -> Result<(), ReadFailed> {
        while self.read <= MOST_BYTES {
            let n = stdio::read_chunk(self.streams, &mut self.buffer)?;
            if n == 0 {
                break;
            }
            self.read += n as u64;
        }
        Ok(())
    }

    // Says why the program stops: a refusal's number, or 9 where the input is too long.
    fn say(&mut self, stop: Stop) -> Result<(), ReadFailed> {
        match stop {
            Stop::Refused(refusal) => {
                self.drain()?;
                let too_long = MOST_BYTES < self.read;
                let told = if too_long {
                    Refusal::InputTooLong
                } else {
                    refusal
                };
                say_number(self.streams, u8::from(told));
            }
            Stop::TooLarge => {
                let _ = stdio::say(self.streams, b"frame too large\n");
            }
            Stop::End | Stop::Failed => {}
        }
        Ok(())
    }
}

// A number, on standard error.
fn say_number(streams: Streams, number: u8) {
    let mut digits = [0u8; 20];
    let n = io::decimal(number as u64, &mut digits);
    let _ = stdio::say(streams, &digits[..n]);
    let _ = stdio::say(streams, b"\n");
}

// Writes the samples of a whole frame, a block at a time.
fn play(
    streams: Streams,
    frame: &[u8],
    block: &mut [i16; 4096],
    bytes: &mut [u8; 8192],
) -> Result<(), WriteFailed> {
    let mut d = decoder::next_frame(state::zero_state(), frame).state;
    // a frame has fewer blocks than that
    for _ in 0..0x1_0000u32 {
        let made = decoder::decode_into(d, frame, block);
        let n = made.answer.unwrap_or(0);
        if n == 0 {
            break;
        }
        word::little::put_samples(&block[..n], bytes);
        stdio::write_out(streams, &bytes[..n * 2])?;
        d = made.state;
    }
    Ok(())
}

// All frames in turn. A proved loop has to end, so the turns are counted up to a number that no run reaches.
fn play_all(input: &mut Input) -> Result<(), Stop> {
    let mut block = [0i16; 4096];
    let mut bytes = [0u8; 8192];
    input.start()?;
    for _ in 0..u64::MAX {
        let size = input.next_frame()?;
        play(input.streams, &input.buffer[..size], &mut block, &mut bytes)?;
    }
    Ok(())
}

fn main(rt: HostRuntime) {
    let mut input = Input {
        streams: stdio::standard(rt),
        buffer: [0; 65536],
        read: 0,
        fixed: false,
        first: None,
    };
    if let Err(stop) = play_all(&mut input) {
        let _ = input.say(stop);
    }
}
