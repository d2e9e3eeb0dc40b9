#![tactic(auto)]

// Big-endian numbers in bytes, and the fields of a slice's 64-bit word; little-endian samples in `little`.
pub mod little;

ghost use Rattle.std.specs.Prelude.{ℕ, ◌≡◌, ◌+◌, ◌*◌, ◌^◌, ◌≤◌, ◌<◌, length};
ghost use Rattle.word.specs.Bytes.{be};
ghost use Rattle.word.specs.Word.{scale_of, code_of, filled};
ghost use Rattle.word.specs.Parts.{put};

// The number with one byte more, pushed in from below. kept: words by shifts and masks, as document 01 asks.
fn push_byte(word: u64, byte: u8) -> u64
    requires { word < 2 ^ 56 }
    ensures { result ≡ word * 256 + byte }
{
    (word << 8) | (byte as u64)
}

// The number of `n` bytes from a place on, for every width of at most 64 bits.
fn read_number(bytes: &[u8], at: usize, n: usize) -> u64
    requires { (n ≤ 8) × (at + n ≤ length bytes.now) }
    ensures { (result ≡ be n bytes.now at) × (result < 2 ^ (8 * n)) }
{
    let mut word: u64 = 0;
    for byte in &bytes[at..at + n] {
        word = push_byte(word, *byte);
    }
    word
}

// Stores the lowest `n` bytes of a number from a place on, the topmost first.
pub fn write_number(out: &mut [u8], at: usize, word: u64, n: usize)
    requires { (n ≤ 8) × (at + n ≤ length out.old) }
    ensures { out.new ≡ put n out.old at word }
{
    for (i, byte) in out[at..at + n].iter_mut().enumerate() {
        *byte = ((word >> (8 * (n - 1 - i))) & 255) as u8;
    }
}

// A number that stands in bytes, the topmost first.
pub trait BigEndian: Copy {
    // how many bytes it takes
    ghost size: { ℕ };

    // the number that it is
    ghost value: { Self → ℕ };

    // The number at a place.
    fn read_be(bytes: &[u8], at: usize) -> Self
        requires { at + size ≤ length bytes.now }
        ensures { value result ≡ be size bytes.now at };

    // Stores it at a place.
    fn write_be(self, out: &mut [u8], at: usize)
        requires { at + size ≤ length out.old }
        ensures { out.new ≡ put size out.old at (value self) };
}

impl BigEndian for u8 {
    ghost size = { 1 };

    ghost value = { λ x. x };

    fn read_be(bytes: &[u8], at: usize) -> u8 {
        read_number(bytes, at, 1) as u8
    }

    fn write_be(self, out: &mut [u8], at: usize) {
        write_number(out, at, self as u64, 1);
    }
}

impl BigEndian for u16 {
    ghost size = { 2 };

    ghost value = { λ x. x };

    fn read_be(bytes: &[u8], at: usize) -> u16 {
        read_number(bytes, at, 2) as u16
    }

    fn write_be(self, out: &mut [u8], at: usize) {
        write_number(out, at, self as u64, 2);
    }
}

impl BigEndian for u32 {
    ghost size = { 4 };

    ghost value = { λ x. x };

    fn read_be(bytes: &[u8], at: usize) -> u32 {
        read_number(bytes, at, 4) as u32
    }

    fn write_be(self, out: &mut [u8], at: usize) {
        write_number(out, at, self as u64, 4);
    }
}

// In two halves, which the compiler makes one load.
impl BigEndian for u64 {
    ghost size = { 8 };

    ghost value = { λ x. x };

    fn read_be(bytes: &[u8], at: usize) -> u64 {
        let high = read_number(bytes, at, 4);
        let low = read_number(bytes, at + 4, 4);
        (high << 32) | low
    }

    fn write_be(self, out: &mut [u8], at: usize) {
        write_number(out, at, self, 8);
    }
}

// The scale factor of a slice.
pub fn scale_factor(word: u64) -> usize
    ensures { result ≡ scale_of word }
{
    ((word >> 60) & 15) as usize
}

// The i-th code of a slice.
pub fn code(word: u64, i: usize) -> usize
    requires { i < 20 }
    ensures { result ≡ code_of word i }
{
    ((word >> (57 - 3 * i)) & 7) as usize
}

// A word with one code more, pushed in from below.
pub fn push_code(word: u64, code: u64) -> u64
    requires { (word < 2 ^ 61) × (code < 8) }
    ensures { result ≡ word * 8 + code }
{
    (word << 3) | code
}

// The word of `n` codes, shifted to its place for the codes that are missing of the twenty.
pub fn fill(word: u64, n: usize) -> u64
    requires { (n ≤ 20) × (word < 2 ^ (4 + 3 * n)) }
    ensures { result ≡ filled n word }
{
    word << (3 * (20 - n))
}
