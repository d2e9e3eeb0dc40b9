// Where a byte stands.
ghost use Rattle.lines.specs.Find.{FirstPlace};

// The first place from `from` on where a byte stands, or the end.
pub fn find(text: &[u8], from: usize, byte: u8) -> usize
    ensures { FirstPlace text.now from byte result }
{
    if text.len() <= from {
        return text.len();
    }
    match text[from..].iter().position(|b| *b == byte) {
        Some(i) => from + i,
        None => text.len(),
    }
}
