// The lists of a request, each where it stands.
ghost use Rattle.std.specs.Prelude.{◌≤◌, length};
ghost use Rattle.lines.specs.Parts.{PartTaken};

use word::BigEndian;

// A list: its first element, how many there are, and what stands after it.
#[derive(Clone, Copy)]
pub struct Part {
    pub from: usize,
    pub count: usize,
    pub next: usize,
}

// The list of a kind at a place, with elements of so many bytes and at most so many of them; where there is no
// such list, the empty one at that place. kept: no `Option`, since the lists after it are sought at the same place.
#[tactic(auto, using(std::proofs::lemmas::Bool::Decides::nat_tests), unfolding(crate::specs::Parts::is_part, crate::specs::Parts::part_at))]
pub fn take(ask: &[u8], at: usize, kind: u8, width: usize, most: usize) -> Part
    requires { (at ≤ length ask.now) × (width ≤ 8) }
    ensures { PartTaken ask.now at kind width most result }
{
    let none = Part {
        from: at,
        count: 0,
        next: at,
    };
    if ask.len() - at < 5 {
        return none;
    }
    if ask[at] != kind {
        return none;
    }
    let count = u32::read_be(ask, at + 1) as usize;
    if most < count {
        return none;
    }
    if ask.len() - at - 5 < count * width {
        return none;
    }
    Part {
        from: at + 5,
        count,
        next: at + 5 + count * width,
    }
}
