// An output that grows: lent bytes, and how many of them are filled. Where bytes do not fit they are refused, and the output counts as full
// from then on.
ghost use Rattle.std.specs.Prelude.{◌≡◌, ◌+◌, ltb, length};
ghost use Rattle.lines.specs.Output.{Put, byte_at};

// Whether there is room for n bytes more.
pub fn fits(room: usize, at: usize, n: usize) -> bool
    ensures { result ≡ ltb (at + n) room }
{
    at < room && n < room - at
}

// A text.
#[tactic(auto, using(std::proofs::lemmas::Bool::Decides::nat_tests, crate::proofs::OutputLaws::copied), unfolding(crate::specs::Output::appended, crate::specs::Output::grown))]
pub fn put_text(out: &mut [u8], at: usize, text: &[u8]) -> usize
    ensures { Put (byte_at text.now) (length text.now) at out.old out.new result }
{
    if fits(out.len(), at, text.len()) {
        out[at..at + text.len()].copy_from_slice(text);
        return at + text.len();
    }
    out.len()
}
