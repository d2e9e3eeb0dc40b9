#![tactic(auto)]

// The tables, and the division by a scale factor.
mod quick;
mod rows;

ghost use Rattle.std.specs.Prelude.{◌≡◌, ◌<◌, pos};
ghost use Rattle.scale.specs.Tables.{reciprocal_of};
ghost use Rattle.scale.specs.Division.{code_for, divided_by};
ghost use Rattle.scale.specs.Parts.{dequant_tab};

pub use quick::{Coded, Coder, Coding, QuickRow, QuickTables, quick_tables};
pub use rows::{Dequant, Row};
use wrap::TwosComplement;

// The encoder's code of each quotient from -8 to 8.
const QOA_QUANT_TAB: [u8; 17] = [7, 7, 7, 5, 5, 3, 3, 1, 0, 0, 2, 2, 4, 4, 6, 6, 6];

// 65536 over each scale factor, rounded up.
const QOA_RECIPROCAL_TAB: [i32; 16] = [
    65536, 9363, 3121, 1457, 781, 475, 311, 216, 156, 117, 90, 71, 57, 47, 39, 32,
];

// What each code stands for, a row for each scale factor.
const QOA_DEQUANT_TAB: [[i32; 8]; 16] = [
    [1, -1, 3, -3, 5, -5, 7, -7],
    [5, -5, 18, -18, 32, -32, 49, -49],
    [16, -16, 53, -53, 95, -95, 147, -147],
    [34, -34, 113, -113, 203, -203, 315, -315],
    [63, -63, 210, -210, 378, -378, 588, -588],
    [104, -104, 345, -345, 621, -621, 966, -966],
    [158, -158, 528, -528, 950, -950, 1477, -1477],
    [228, -228, 760, -760, 1368, -1368, 2128, -2128],
    [316, -316, 1053, -1053, 1895, -1895, 2947, -2947],
    [422, -422, 1405, -1405, 2529, -2529, 3934, -3934],
    [548, -548, 1828, -1828, 3290, -3290, 5117, -5117],
    [696, -696, 2320, -2320, 4176, -4176, 6496, -6496],
    [868, -868, 2893, -2893, 5207, -5207, 8099, -8099],
    [1064, -1064, 3548, -3548, 6386, -6386, 9933, -9933],
    [1286, -1286, 4288, -4288, 7718, -7718, 12005, -12005],
    [1536, -1536, 5120, -5120, 9216, -9216, 14336, -14336],
];

// The reciprocal of a scale factor, for the plain division below; the search has all of them in its tables. kept: `sf < 16` is a clause
// where a number comes from outside (here, `qoa_div`, `quick_code`) or makes a row; a `Row` has it as an invariant.
pub fn reciprocal(sf: usize) -> i32
    requires { sf < 16 }
    ensures { result ≡ pos (reciprocal_of sf) }
{
    QOA_RECIPROCAL_TAB[sf]
}

// The whole table. A caller holds it for a frame, since a constant is built anew at each use.
pub fn dequant_tab() -> Dequant
    ensures { result.rows ≡ dequant_tab }
{
    Dequant {
        rows: QOA_DEQUANT_TAB,
    }
}

// The quotient of v by a scale factor, in the plain form of the specification's division: the product with its reciprocal,
// rounded. The search runs the quick rows, which are proved to give the same; this form is what the vectors (replay's
// `divide`) and the comparison with the source (tools/leaves) run.
pub fn qoa_div(v: i32, sf: usize) -> i32
    requires { sf < 16 }
    ensures { result ≡ divided_by v sf }
{
    let product = wrap::wrapping_mul(v, reciprocal(sf));
    let n = i32::signed(product.wrapping_add(32768)) >> 16;
    n + v.signum() - n.signum()
}

// The code of a quotient, in the plain form: a clamp and a look-up. Only the comparison with the source (tools/leaves) runs it.
pub fn code(quotient: i32) -> u8
    ensures { result ≡ code_for quotient }
{
    let place = quotient.clamp(-8, 8) + 8;
    QOA_QUANT_TAB[place as usize]
}
