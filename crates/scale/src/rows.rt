// The dequantising table and its rows. That each holds what the definitions say is an invariant of its type.
ghost use Rattle.std.specs.Prelude.{◌≡◌, ◌<◌};
ghost use Rattle.scale.specs.Tables.{row_of};
ghost use Rattle.scale.specs.Parts.{dequant_tab};

// What each code stands for, a row for each scale factor.
#[derive(Clone, Copy)]
pub struct Dequant {
    pub rows: [[i32; 8]; 16],
    pub ghost whole: { rows ≡ dequant_tab },
}

// The row of a scale factor, which is copied by value.
#[derive(Clone, Copy)]
pub struct Row {
    pub sf: usize,
    pub values: [i32; 8],
    pub ghost numbered: { sf < 16 },
    pub ghost own: { values ≡ row_of sf },
}

impl Dequant {
    pub fn row(&self, sf: usize) -> Row
        requires { sf < 16 }
        ensures { result.sf ≡ sf }
    {
        Row {
            sf,
            values: self.rows[sf],
        }
    }
}
