// The facts record: what a file says of itself, and how long it lasts.
ghost use Rattle.std.specs.Prelude.{◌≡◌};
ghost use Rattle.format.specs.Facts.{facts_of};

// `timed` says whether there is a length, in seconds. kept: no `Option`, since document 01 wants a length of type f64 in the record, 0.0 where there is none.
#[derive(Clone, Copy)]
pub struct Facts {
    pub total: u32,
    pub channels: u8,
    pub rate: u32,
    pub timed: bool,
    pub length: f64,
}

// Both casts lose nothing, so the division is the one rounding. It is total: a rate of 0 is not refused here.
pub fn facts_of(total: u32, channels: u8, rate: u32) -> Facts
    ensures { result ≡ facts_of total channels rate }
{
    let timed = total != 0;
    Facts {
        total,
        channels,
        rate,
        timed,
        length: if timed {
            (total as f64) / (rate as f64)
        } else {
            0.0
        },
    }
}
