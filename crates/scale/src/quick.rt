// The search's tables: a residual's code and table value by its place in a quick row, which takes in the division's repair of signs.
ghost use Rattle.std.specs.Prelude.{◌≡◌, ℕ, ◌<◌, pos, slice_index_or};
ghost use Rattle.scale.specs.Tables.{reciprocal_of, row_of};
ghost use Rattle.scale.specs.Division.{code_for, divided_by, shifted};
ghost use Rattle.scale.specs.Parts.{half_of, quick_codes, quick_place, quick_row, quick_tab, reciprocal_tab};

use crate::rows::{Dequant, Row};

// The code at each place: a half for residuals from 0 up, then one for those below. In each the shifted product is -7 to 7,
// then 8 and more, then -8 and less.
const QUICK_CODES: [u8; 34] = [
    5, 5, 3, 3, 1, 0, 0, 0, 0, 2, 2, 4, 4, 6, 6, 6, 7, 7, 7, 5, 5, 3, 3, 1, 1, 1, 0, 0, 2, 2, 4, 4,
    6, 7,
];

// The reciprocals and the codes, by which a residual is coded. That each holds what the definitions say is an invariant.
#[derive(Clone, Copy)]
pub struct Coding {
    pub reciprocals: [i32; 16],
    pub codes: [u8; 34],
    pub ghost all_reciprocals: { reciprocals ≡ reciprocal_tab },
    pub ghost all_codes: { codes ≡ quick_codes },
}

// All that a search reads, made once per frame: a constant is built anew at each use.
#[derive(Clone, Copy)]
pub struct QuickTables {
    pub tab: Dequant,
    pub quick: [[i16; 34]; 16],
    pub coding: Coding,
    pub ghost quick_rows: { quick ≡ quick_tab },
}

// The quick row of a scale factor, which is copied by value: one load gives a residual's table value.
#[derive(Clone, Copy)]
pub struct QuickRow {
    pub sf: usize,
    pub values: [i16; 34],
    pub ghost numbered: { sf < 16 },
    pub ghost own: { values ≡ quick_row sf },
}

// A residual's code at a scale factor, and the table value of that code.
#[derive(Clone, Copy)]
pub struct Coded {
    pub code: u8,
    pub value: i32,
}

// What codes a residual at its scale factor.
pub trait Coder {
    ghost factor: { Self → ℕ };

    fn coded(&self, coding: &Coding, v: i32) -> Coded
        ensures code { result.code ≡ code_for (divided_by v (factor self.now)) }
        ensures value { result.value ≡ slice_index_or (row_of (factor self.now)) (code_for (divided_by v (factor self.now))) (pos 0) };

    ghost in_range: { (s : Self) → factor s < 16 };
}

// The tables of the search.
pub fn quick_tables() -> QuickTables {
    let tab = crate::dequant_tab();
    let codes = QUICK_CODES;
    let quick = quick_tab(&tab, &codes);
    let coding = Coding {
        reciprocals: crate::QOA_RECIPROCAL_TAB,
        codes,
    };
    QuickTables { tab, quick, coding }
}

// The table values of those codes at a scale factor, from its row of the table.
fn quick_row(row: Row, codes: &[u8; 34]) -> [i16; 34]
    requires { codes.now ≡ quick_codes }
    ensures { result ≡ quick_row row.sf }
{
    let mut values = [0i16; 34];
    for (i, code) in codes.iter().enumerate() {
        values[i] = row.values[*code as usize] as i16;
    }
    values
}

// The quick rows of all scale factors.
fn quick_tab(tab: &Dequant, codes: &[u8; 34]) -> [[i16; 34]; 16]
    requires { codes.now ≡ quick_codes }
    ensures { result ≡ quick_tab }
{
    let mut quick = [[0i16; 34]; 16];
    // kept: sf says which row of the table is read and which quick row is stored.
    for sf in 0..16 {
        quick[sf] = quick_row(tab.row(sf), codes);
    }
    quick
}

// Where a residual's half of a row starts.
fn half(v: i32) -> usize
    ensures { result ≡ half_of v }
{
    if v < 0 { 17 } else { 0 }
}

// The place of a residual in its half, by a scale factor's reciprocal: the shifted product plus 7 (458752 is 7 times 65536). One of 8 and more comes to 15;
// one of -8 and less wraps to a large number, and comes to 16.
fn place(v: i32, reciprocal: i32) -> usize
    ensures { (k : ℕ) → reciprocal ≡ pos (reciprocal_of k) → result ≡ quick_place (shifted v k) }
{
    let product = wrap::wrapping_mul(v, reciprocal);
    let sum = product.wrapping_add(32768);
    let from = sum.wrapping_add(458752) >> 16;
    from.min(15 + (sum >> 31)) as usize
}

impl Coding {
    // The code of a residual's quotient by a scale factor.
    pub fn quick_code(&self, v: i32, sf: usize) -> u8
        requires { sf < 16 }
        ensures { result ≡ code_for (divided_by v sf) }
    {
        let at = half(v) + place(v, self.reciprocals[sf]);
        self.codes[at]
    }
}

impl QuickTables {
    pub fn quick_row(&self, sf: usize) -> QuickRow
        requires { sf < 16 }
        ensures { result.sf ≡ sf }
    {
        QuickRow {
            sf,
            values: self.quick[sf],
        }
    }
}

impl QuickRow {
    // The table value of that code. The half is taken first: it is known before the place.
    pub fn quick_value(&self, reciprocals: &[i32; 16], v: i32) -> i32
        requires { reciprocals.now ≡ reciprocal_tab }
        ensures { result ≡ slice_index_or (row_of self.now.sf) (code_for (divided_by v self.now.sf)) (pos 0) }
    {
        let start = half(v);
        let half_row = &self.values[start..start + 17];
        half_row[place(v, reciprocals[self.sf])] as i32
    }
}

// With the plain row the value waits for the code, which a first trial can afford: it has no trial before it.
impl Coder for Row {
    ghost factor = { λ r. r.sf };

    ghost in_range = { λ r. r.numbered };

    fn coded(&self, coding: &Coding, v: i32) -> Coded {
        let code = coding.quick_code(v, self.sf);
        Coded {
            code,
            value: self.values[code as usize],
        }
    }
}

impl Coder for QuickRow {
    ghost factor = { λ r. r.sf };

    ghost in_range = { λ r. r.numbered };

    fn coded(&self, coding: &Coding, v: i32) -> Coded {
        Coded {
            code: coding.quick_code(v, self.sf),
            value: self.quick_value(&coding.reciprocals, v),
        }
    }
}
