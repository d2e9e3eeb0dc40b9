// The elements of lists, out of the bytes of a request and back.
ghost use Rattle.std.specs.Prelude.{ℕ, ◌≡◌, ◌++◌, ◌*◌, ◌≤◌, List, length, drop};
ghost use Rattle.word.specs.Bytes.{be32};
ghost use Rattle.word.specs.Little.{le_bytes, le_sample};
ghost use Rattle.word.specs.Parts.{written};
ghost use Rattle.lines.specs.Lists.{numbers_put};
ghost use Rattle.lines.specs.Output.{byte_at};

use word::BigEndian;

// What a list is made of.
pub trait Element: Copy {
    // how many bytes an element takes
    ghost width: { ℕ };

    // the element at a place of bytes
    ghost element_at: { List ℕ → ℕ → Self };

    // bytes with elements stored from their start on
    ghost stored: { List Self → List ℕ → List ℕ };

    // Elements, as many as there are places.
    fn read(bytes: &[u8], out: &mut [Self])
        requires { length out.old * width ≤ length bytes.now }
        ensures { out.new ≡ written (λ i. element_at bytes.now (i * width)) out.old 0 1 (length out.old) };

    // The bytes of elements.
    fn put(elements: &[Self], out: &mut [u8])
        requires { length elements.now * width ≤ length out.old }
        ensures { out.new ≡ stored elements.now out.old };
}

impl Element for u8 {
    ghost width = { 1 };

    ghost element_at = { byte_at };

    ghost stored = { λ xs out. xs ++ drop (length xs) out };

    #[tactic(auto, using(crate::proofs::OutputLaws::filled))]
    fn read(bytes: &[u8], out: &mut [u8]) {
        out.copy_from_slice(&bytes[..out.len()]);
    }

    fn put(elements: &[u8], out: &mut [u8]) {
        out[..elements.len()].copy_from_slice(elements);
    }
}

// Samples, little-endian.
impl Element for i16 {
    ghost width = { 2 };

    ghost element_at = { le_sample };

    ghost stored = { λ xs out. le_bytes xs ++ drop (length xs * 2) out };

    fn read(bytes: &[u8], out: &mut [i16]) {
        word::little::read_samples(bytes, out);
    }

    fn put(elements: &[i16], out: &mut [u8]) {
        word::little::put_samples(elements, out);
    }
}

// 32-bit numbers, big-endian.
impl Element for u32 {
    ghost width = { 4 };

    ghost element_at = { be32 };

    ghost stored = { λ xs out. numbers_put xs out (length xs) };

    #[tactic(auto, using(crate::proofs::OutputLaws::one_more), unfolding(word::specs::Parts::written))]
    fn read(bytes: &[u8], out: &mut [u32]) {
        for (i, number) in out.iter_mut().enumerate() {
            *number = u32::read_be(bytes, i * 4);
        }
    }

    #[tactic(auto, using(word::proofs::BytesLaws::length_put), unfolding(crate::specs::Lists::numbers_put))]
    fn put(elements: &[u32], out: &mut [u8]) {
        for (i, number) in elements.iter().enumerate() {
            number.write_be(out, i * 4);
        }
    }
}
