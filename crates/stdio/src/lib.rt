#![tactic(auto)]

// Reading and writing for programs: standard input, standard output, standard error. No contract can say which bytes pass; how many
// came is said. A read or a write that fails is told on standard error here, so that a program only has to stop.
ghost use Rattle.std.specs.Prelude.{length};
ghost use Rattle.stdio.specs.Reads.{Filled, ReadOnce, Taken};

use std::io::{Read, Stderr, Stdin, Stdout, Write};

// The standard streams: where a program reads, writes, and says words.
#[derive(Clone, Copy)]
pub struct Streams {
    pub input: Stdin,
    pub output: Stdout,
    pub words: Stderr,
}

// The streams of a program that was started with this runtime.
pub fn standard(rt: HostRuntime) -> Streams {
    Streams {
        input: rt.stdin(),
        output: rt.stdout(),
        words: rt.stderr(),
    }
}

// A read failed, after so many bytes came.
#[derive(Clone, Copy)]
pub struct ReadFailed {
    pub count: usize,
}

// Not all of the bytes were taken.
#[derive(Clone, Copy)]
pub struct WriteFailed;

// A read or a write failed, which was said.
#[derive(Clone, Copy)]
pub struct Failed;

impl From<ReadFailed> for Failed {
    fn from(_why: ReadFailed) -> Failed {
        Failed
    }
}

impl From<WriteFailed> for Failed {
    fn from(_why: WriteFailed) -> Failed {
        Failed
    }
}

// Writes all of a buffer. No bytes at all are not written, so that can't fail.
fn write_to<W: Write + Drop>(mut to: W, bytes: &[u8]) -> Result<(), WriteFailed>
    ensures { Taken bytes.now result }
{
    if bytes.is_empty() {
        return Ok(());
    }
    to.write_all(bytes).map_err(|_| WriteFailed)
}

// Says words on standard error.
pub fn say(streams: Streams, words: &[u8]) -> Result<(), WriteFailed>
    ensures { Taken words.now result }
{
    write_to(streams.words, words)
}

// One read from standard input into the buffer: a chunk, or nothing at the end.
pub fn read_chunk(streams: Streams, buffer: &mut [u8]) -> Result<usize, ReadFailed>
    ensures { ReadOnce (length buffer.old) result }
{
    let mut from = streams.input;
    let Ok(count) = from.read(buffer) else {
        let _ = say(streams, b"read failed\n");
        return Err(ReadFailed { count: 0 });
    };
    Ok(count)
}

// Reads until the buffer is full, the input ends or a read fails. Fewer bytes than the buffer holds tell the end.
pub fn fill(streams: Streams, buffer: &mut [u8]) -> Result<usize, ReadFailed>
    ensures { Filled (length buffer.old) result }
{
    // kept: n is told where a read fails
    let mut n = 0usize;
    while n < buffer.len() {
        let Ok(count) = read_chunk(streams, &mut buffer[n..]) else {
            return Err(ReadFailed { count: n });
        };
        if count == 0 {
            break;
        }
        n += count;
    }
    Ok(n)
}

// Writes all of a buffer to standard output.
pub fn write_out(streams: Streams, bytes: &[u8]) -> Result<(), WriteFailed>
    ensures { Taken bytes.now result }
{
    let written = write_to(streams.output, bytes);
    if written.is_err() {
        let _ = say(streams, b"write failed\n");
    }
    written
}
