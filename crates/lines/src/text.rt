// A text that grows in a fixed place. Where bytes do not fit they are refused, and the place counts as full from then on.
ghost use Rattle.std.specs.Prelude.{◌≡◌, ◌*◌, ◌≤◌, leb, length, replicate, take};
ghost use Rattle.lines.specs.Hex.{digit_of};
ghost use Rattle.lines.specs.Output.{Put, byte_at};

use crate::hex::put_hex;
use crate::put::put_text;

// The bytes of the place, and how many of them are filled. kept: an array with its length, since a program has no heap.
#[derive(Drop)]
pub struct Text<const N: usize> {
    pub bytes: [u8; N],
    pub len: usize,
    pub ghost within: { len ≤ N },
}

impl<const N: usize> Text<N> {
    pub fn new() -> Self
        ensures { (result.len ≡ 0) × (result.bytes ≡ replicate N 0) }
    {
        Text {
            bytes: [0; N],
            len: 0,
        }
    }

    // The bytes that are filled.
    pub fn filled(&self) -> &[u8]
        ensures { result.now ≡ take self.now.len self.now.bytes }
    {
        &self.bytes[..self.len]
    }

    // Whether something did not fit, or nothing more will.
    pub fn is_full(&self) -> bool
        ensures { result ≡ leb N self.now.len }
    {
        N <= self.len
    }

    pub fn clear(&mut self)
        ensures { (self.new.len ≡ 0) × (self.new.bytes ≡ self.old.bytes) }
    {
        self.len = 0;
    }

    // More bytes.
    pub fn put(&mut self, text: &[u8])
        ensures { Put (byte_at text.now) (length text.now) self.old.len self.old.bytes self.new.bytes self.new.len }
    {
        self.len = put_text(&mut self.bytes, self.len, text);
    }

    // The digits of bytes.
    pub fn put_hex(&mut self, bytes: &[u8])
        ensures { Put (digit_of bytes.now) (length bytes.now * 2) self.old.len self.old.bytes self.new.bytes self.new.len }
    {
        self.len = put_hex(&mut self.bytes, self.len, bytes);
    }
}
