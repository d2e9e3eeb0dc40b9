// Bytes as hex.
ghost use Rattle.std.specs.Prelude.{◌≡◌, ◌+◌, ◌*◌, ◌/◌, ◌%◌, ◌<◌, ◌≤◌, length, set};
ghost use Rattle.io.specs.Digits.{hex_digit_ascii};
ghost use Rattle.word.specs.Parts.{written};
ghost use Rattle.lines.specs.Hex.{digit_of, is_hex, pair_at};
ghost use Rattle.lines.specs.Output.{Put};

use crate::digit::{hex_digit, hex_value};
use crate::put::fits;

// Whether a text is the hex of bytes.
pub fn is_hex(text: &[u8]) -> bool
    ensures { result ≡ is_hex text.now }
{
    text.len() % 2 == 0 && text.iter().all(|byte| hex_value(*byte).is_some())
}

// The byte that two digits say; a byte that is no digit counts as 0.
#[tactic(auto, using(crate::proofs::HexLaws::value_or_none), unfolding(crate::specs::Hex::pair_at))]
fn pair(text: &[u8], at: usize) -> u8
    requires { at + 1 < length text.now }
    ensures { result ≡ pair_at text.now at }
{
    let high = hex_value(text[at]).unwrap_or(0);
    let low = hex_value(text[at + 1]).unwrap_or(0);
    high * 16 + low
}

// The bytes that a text says, as many as there are places.
#[tactic(auto, using(crate::proofs::OutputLaws::one_more), unfolding(word::specs::Parts::written))]
pub fn read_hex(text: &[u8], out: &mut [u8])
    requires { length out.old * 2 ≤ length text.now }
    ensures { out.new ≡ written (λ i. pair_at text.now (i * 2)) out.old 0 1 (length out.old) }
{
    for (i, byte) in out.iter_mut().enumerate() {
        *byte = pair(text, i * 2);
    }
}

// The two digits of a byte.
fn store_pair(out: &mut [u8], at: usize, byte: u8)
    requires { at + 1 < length out.old }
    ensures { out.new ≡ set (set out.old at (hex_digit_ascii (byte / 16))) (at + 1) (hex_digit_ascii (byte % 16)) }
{
    out[at] = hex_digit(byte / 16);
    out[at + 1] = hex_digit(byte % 16);
}

// The digits of bytes, from a place on.
#[tactic(auto, using(crate::proofs::HexLaws::pair_more), unfolding(word::specs::Parts::written))]
pub fn store_hex(out: &mut [u8], at: usize, bytes: &[u8])
    requires { at + length bytes.now * 2 ≤ length out.old }
    ensures { out.new ≡ written (digit_of bytes.now) out.old at 1 (length bytes.now * 2) }
{
    for (i, byte) in bytes.iter().enumerate() {
        store_pair(out, at + i * 2, *byte);
    }
}

// The digits of bytes.
#[tactic(auto, using(std::proofs::lemmas::Bool::Decides::nat_tests), unfolding(crate::specs::Output::appended, crate::specs::Output::grown))]
pub fn put_hex(out: &mut [u8], at: usize, bytes: &[u8]) -> usize
    ensures { Put (digit_of bytes.now) (length bytes.now * 2) at out.old out.new result }
{
    if fits(out.len(), at, bytes.len() * 2) {
        store_hex(out, at, bytes);
        return at + bytes.len() * 2;
    }
    out.len()
}
