#![tactic(auto)]

// A line of hex in, a line of hex out. A request is one call of the C interface; the answer is the call's answer and every list that
// it could write, whole, as it stands after the call. tools/README.md, "vectors", has the form of both.
ghost use Rattle.std.specs.Prelude.{◌<◌, ◌≤◌, length};
ghost use Rattle.replay.specs.Parts.{Fits, Laid};

use lines::lists::Element;
use lines::parts::{self, Part};
use lines::text::Text;
use lines::{answer, hex};
use qoa::linked;
use stdio::{Failed, Streams, WriteFailed};
use word::BigEndian;

// The kinds of lists, in the order in which they stand. Numbers and bytes are read; the others are given back.
#[derive(Clone, Copy)]
enum Kind {
    Numbers = 1,
    Bytes = 2,
    State = 3,
    Out = 4,
    Samples = 5,
    Facts = 6,
}

// A call's answer as 64 bits.
fn whole(told: i64) -> Option<u64> {
    Some(answer::bits_of(told))
}

fn double(told: f64) -> Option<u64> {
    Some(answer::bits_of_double(told))
}

// The lowest bits of a number. kept: a mask and a cast, since a cast loses nothing.
fn low8(n: u64) -> u8 {
    (n & 0xff) as u8
}

fn low32(n: u64) -> u32 {
    (n & 0xffff_ffff) as u32
}

// The division by a scale factor, of which there are sixteen.
fn divide(v: u32, sf: u64) -> Option<u64> {
    if 15 < sf {
        return None;
    }
    whole(scale::qoa_div(v.cast_signed(), sf as usize) as i64)
}

// What a call is lent: its numbers, 0 where the request has fewer, and its lists.
#[derive(Drop)]
struct Lent<'a> {
    numbers: [u64; 3],
    bytes: &'a [u8],
    state: &'a mut [u8],
    out: &'a mut [u8],
    samples: &'a mut [i16],
    facts: &'a mut [u32],
}

// kept: the calls go by their numbers of tools/README.md, where an enum would say each of them twice. None where there is no such call.
impl Lent<'_> {
    // Calls on bytes and numbers alone.
    fn reading(self, call: u8) -> Option<u64> {
        let Lent { numbers, bytes, .. } = self;
        let [first, second, _] = numbers;
        match call {
            0x01 => whole(linked::qoa_decode_need(bytes)),
            0x02 => whole(linked::qoa_channels(bytes)),
            0x03 => whole(linked::qoa_rate(bytes)),
            0x04 => whole(linked::qoa_part_length(bytes, first as usize)),
            0x05 => whole(linked::qoa_facts_total(bytes)),
            0x06 => whole(linked::qoa_facts_channels(bytes)),
            0x07 => whole(linked::qoa_facts_rate(bytes)),
            0x08 => double(linked::qoa_facts_seconds(bytes)),
            0x09 => whole(linked::qoa_encode_need(low8(first), low32(second))),
            0x0a => divide(low32(first), second),
            _ => None,
        }
    }

    // Calls from bytes into samples.
    fn hearing(self, call: u8) -> Option<u64> {
        let Lent { bytes, samples, .. } = self;
        match call {
            0x11 => whole(linked::qoa_decode_all(bytes, samples)),
            0x12 => whole(linked::qoa_decode_frames(bytes, samples)),
            _ => None,
        }
    }

    // Calls from samples into bytes.
    fn writing(self, call: u8) -> Option<u64> {
        let Lent {
            numbers,
            out,
            samples,
            ..
        } = self;
        let [first, second, third] = numbers;
        match call {
            0x21 => whole(linked::qoa_encode_all(
                low8(first),
                low32(second),
                low32(third),
                samples,
                out,
            )),
            _ => None,
        }
    }

    // Calls on a decoder whose state is a block.
    fn decoding(self, call: u8) -> Option<u64> {
        let Lent {
            bytes,
            state,
            samples,
            facts,
            ..
        } = self;
        match call {
            0x31 => whole(linked_decoder::qoa_decoder_size()),
            0x32 => whole(linked_decoder::qoa_decoder_open(bytes, state)),
            0x33 => whole(linked_decoder::qoa_decoder_into(bytes, state, samples)),
            0x34 => whole(linked_decoder::qoa_decoder_next_frame(bytes, state)),
            0x35 => whole(linked_decoder::qoa_decoder_next_item(bytes, state)),
            0x36 => whole(linked_decoder::qoa_decoder_facts(bytes, state, facts)),
            0x37 => double(linked_decoder::qoa_decoder_seconds(bytes, state)),
            _ => None,
        }
    }

    // Calls on an encoder whose state is a block.
    fn encoding(self, call: u8) -> Option<u64> {
        let Lent {
            numbers,
            state,
            out,
            samples,
            ..
        } = self;
        let [first, second, third] = numbers;
        match call {
            0x41 => whole(linked_encoder::qoa_encoder_size()),
            0x42 => whole(linked_encoder::qoa_encoder_new(
                low8(first),
                low32(second),
                low32(third),
                state,
            )),
            0x43 => whole(linked_encoder::qoa_encoder_header(state, out)),
            0x44 => whole(linked_encoder::qoa_encoder_frame(state, samples, out)),
            0x45 => whole(linked_encoder::qoa_encoder_file(state, samples, out)),
            _ => None,
        }
    }
}

// The numbers of a request, 0 where there are fewer.
fn given_numbers(ask: &[u8], p: Part) -> [u64; 3]
    requires { Fits 8 (length ask.now) 3 p }
{
    let mut numbers = [0u64; 3];
    for (i, number) in numbers[..p.count].iter_mut().enumerate() {
        *number = u64::read_be(ask, p.from + i * 8);
    }
    numbers
}

// A list from a request into its room, and back.
fn load<T: Element>(ask: &[u8], p: Part, room: &mut [T])
    requires { Fits T.width (length ask.now) (length room.old) p }
{
    T::read(&ask[p.from..p.next], &mut room[..p.count]);
}

fn store<T: Element>(room: &[T], p: Part, ask: &mut [u8])
    requires { Fits T.width (length ask.old) (length room.now) p }
{
    T::put(&room[..p.count], &mut ask[p.from..p.next]);
}

// Where the lists of a request stand.
#[derive(Clone, Copy)]
struct Places {
    numbers: Part,
    bytes: Part,
    state: Part,
    out: Part,
    samples: Part,
    facts: Part,
}

// The lists of a request, one after another.
fn take_apart(ask: &[u8]) -> Places
    requires { 1 ≤ length ask.now }
    ensures { Laid (length ask.now) result }
{
    let numbers = parts::take(ask, 1, Kind::Numbers as u8, 8, 3);
    let bytes = parts::take(ask, numbers.next, Kind::Bytes as u8, 1, 65536);
    let state = parts::take(ask, bytes.next, Kind::State as u8, 1, 4096);
    let out = parts::take(ask, state.next, Kind::Out as u8, 1, 65536);
    let samples = parts::take(ask, out.next, Kind::Samples as u8, 2, 32768);
    let facts = parts::take(ask, samples.next, Kind::Facts as u8, 4, 16);
    Places {
        numbers,
        bytes,
        state,
        out,
        samples,
        facts,
    }
}

// A request of at least one byte, and where its lists stand.
#[derive(Drop)]
struct Request<'a> {
    ask: &'a mut [u8],
    places: Places,
    ghost some: { 1 ≤ length ask.now },
    ghost laid: { Laid (length ask.now) places },
}

// The places for copies of the lists that a call may write, each as large as such a list may be.
#[derive(Drop)]
struct Rooms {
    state: [u8; 4096],
    out: [u8; 65536],
    samples: [i16; 32768],
    facts: [u32; 16],
}

impl Rooms {
    fn load(&mut self, request: &Request) {
        let ask = &request.ask[..];
        let p = request.places;
        load(ask, p.state, &mut self.state);
        load(ask, p.out, &mut self.out);
        load(ask, p.samples, &mut self.samples);
        load(ask, p.facts, &mut self.facts);
    }

    fn store(&self, request: &mut Request) {
        let p = request.places;
        store(&self.state, p.state, request.ask);
        store(&self.out, p.out, request.ask);
        store(&self.samples, p.samples, request.ask);
        store(&self.facts, p.facts, request.ask);
    }
}

// Makes the call on copies of the lists, each as long as the request says, and puts these back where they stood.
fn make_call(request: &mut Request) -> Option<u64> {
    let mut rooms = Rooms {
        state: [0; 4096],
        out: [0; 65536],
        samples: [0; 32768],
        facts: [0; 16],
    };
    rooms.load(request);
    let p = request.places;
    let ask = &request.ask[..];
    let lent = Lent {
        numbers: given_numbers(ask, p.numbers),
        bytes: &ask[p.bytes.from..p.bytes.next],
        state: &mut rooms.state[..p.state.count],
        out: &mut rooms.out[..p.out.count],
        samples: &mut rooms.samples[..p.samples.count],
        facts: &mut rooms.facts[..p.facts.count],
    };
    let call = ask[0];
    // the upper half of a call's number says what it is lent
    let told = match call / 16 {
        0 => lent.reading(call),
        1 => lent.hearing(call),
        2 => lent.writing(call),
        3 => lent.decoding(call),
        4 => lent.encoding(call),
        _ => None,
    };
    rooms.store(request);
    told
}

// Writes the answer's bits and the lists after the bytes that are read, as a line of hex.
fn write_answer(streams: Streams, bits: u64, lists: &[u8]) -> Result<(), WriteFailed> {
    let mut head = [0u8; 8];
    bits.write_be(&mut head, 0);
    let mut text = Text::<131200>::new();
    text.put_hex(&head);
    text.put_hex(lists);
    text.put(b"\n");
    stdio::write_out(streams, text.filled())
}

// What is wrong with a list, by the byte of its kind, which may be none.
fn write_fault(streams: Streams, kind: u8) -> Result<(), WriteFailed> {
    if (Kind::Numbers as u8..=Kind::Facts as u8).contains(&kind) {
        return stdio::write_out(streams, b"a list is cut, too long, or out of order\n");
    }
    stdio::write_out(streams, b"no such kind of list\n")
}

// A request.
fn answer_request(streams: Streams, ask: &mut [u8]) -> Result<(), WriteFailed>
    requires { 1 ≤ length ask.old }
{
    let places = take_apart(ask);
    let end = places.facts.next;
    if end < ask.len() {
        return write_fault(streams, ask[end]);
    }
    let mut request = Request { ask, places };
    let Some(bits) = make_call(&mut request) else {
        return stdio::write_out(streams, b"no such call\n");
    };
    let Request { ask, places } = request;
    write_answer(streams, bits, &ask[places.bytes.next..])
}

// A line: a remark, which is written out as it is, or the hex of a request.
fn reply(streams: Streams, line: &[u8]) -> Result<(), WriteFailed> {
    if matches!(line, [] | [b'#', ..]) {
        stdio::write_out(streams, line)?;
        return stdio::write_out(streams, b"\n");
    }
    if !hex::is_hex(line) {
        return stdio::write_out(streams, b"not hex\n");
    }
    let mut ask = [0u8; 65536];
    let n = line.len() / 2;
    if ask.len() < n {
        return stdio::write_out(streams, b"line too long\n");
    }
    hex::read_hex(line, &mut ask[..n]);
    answer_request(streams, &mut ask[..n])
}

// What is held between two reads: the start of a line. A line is at most one byte shorter than its place: a full place says that a line
// is too long.
#[derive(Drop)]
struct Session {
    streams: Streams,
    line: Text<131073>,
}

impl Session {
    fn end_line(&mut self) -> Result<(), WriteFailed> {
        let told = if self.line.is_full() {
            stdio::write_out(self.streams, b"line too long\n")
        } else {
            reply(self.streams, self.line.filled())
        };
        self.line.clear();
        told
    }

    // The lines of what was read. The last of them may go on in the next read.
    fn split(&mut self, chunk: &[u8]) -> Result<(), WriteFailed> {
        let mut rest = chunk;
        while let Some(end) = rest.iter().position(|byte| *byte == b'\n') {
            self.line.put(&rest[..end]);
            self.end_line()?;
            rest = &rest[end + 1..];
        }
        self.line.put(rest);
        Ok(())
    }

    // At the end of the input a line may be left that no newline ends.
    fn finish(&mut self) -> Result<(), WriteFailed> {
        if self.line.filled().is_empty() {
            return Ok(());
        }
        self.end_line()
    }

    // A proved loop has to end, so the turns are counted up to a number that no run reaches.
    fn run(&mut self, chunk: &mut [u8]) -> Result<(), Failed> {
        for _ in 0..u64::MAX {
            let n = stdio::read_chunk(self.streams, chunk)?;
            if n == 0 {
                break;
            }
            self.split(&chunk[..n])?;
        }
        self.finish()?;
        Ok(())
    }
}

fn main(rt: HostRuntime) {
    let mut chunk = [0u8; 65536];
    let mut session = Session {
        streams: stdio::standard(rt),
        line: Text::new(),
    };
    // what failed was said
    let _ = session.run(&mut chunk);
}
