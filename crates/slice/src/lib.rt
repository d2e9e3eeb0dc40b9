#![tactic(auto)]

// A slice, decoded into lent samples. `tab` is the dequantising table, which a caller holds for a whole frame.
// kept: `out`, `start` and `stride` are three parameters: the memory is changed in place, and `written` speaks of both numbers.
ghost use Rattle.std.specs.Prelude.{◌≡◌, ℕ, ◌+◌, ◌*◌, ◌^◌, ◌≤◌, ◌<◌, List, ℤ, length};
ghost use Rattle.format.specs.Format.{slice_len};
ghost use Rattle.word.specs.Word.{code_of, scale_of};
ghost use Rattle.word.specs.Parts.{written};
ghost use Rattle.lms.specs.declared.QoaLms.{QoaLms};
ghost use Rattle.scale.specs.Tables.{row_of};
ghost use Rattle.trial.specs.Trial.{heard};
ghost use Rattle.slice.specs.Slice.{residual_at, sample_at, state_after};
ghost use Rattle.lms.specs.Parts.{WeightsWithin};
ghost use Rattle.slice.specs.Parts.{GainsOf, HeardTo};

use format::frame::QOA_SLICE_LEN;
use lms::QoaLms;
use scale::Dequant;
use trial::Heard;

// A slice to be heard: the row of its scale factor, and the word. kept: what a weight gains by each value of the row is handed to the
// loops beside it: with the gains in this struct decoding is up to 4 percent slower, by where the linker puts the loops (docs/LOOK-BACK.md).
#[derive(Clone, Copy)]
struct SliceWord {
    row: [i32; 8],
    word: u64,
    ghost own_row: { row ≡ row_of (scale_of word) },
}

// What a weight gains by each table value of a row.
// kept: written out, since `row.map(ahead::gains)` was not proved: what `map` asks of that function stays open.
fn gains_of(row: [i32; 8]) -> [[i32; 2]; 8]
    ensures { GainsOf result row }
{
    [
        ahead::gains(row[0]),
        ahead::gains(row[1]),
        ahead::gains(row[2]),
        ahead::gains(row[3]),
        ahead::gains(row[4]),
        ahead::gains(row[5]),
        ahead::gains(row[6]),
        ahead::gains(row[7]),
    ]
}

// How many samples of a slice are heard, and the predictor after them.
#[derive(Clone, Copy)]
struct Part {
    done: usize,
    lms: QoaLms,
}

// The word without its first `n` codes: those after them come first.
fn drop_codes(word: u64, n: usize) -> u64
    requires { n ≤ slice_len }
    ensures { (j : ℕ) → n + j < slice_len → code_of result j ≡ code_of word (n + j) }
{
    word << (3 * n)
}

// 1 where a number is at an end of the 16-bit range. kept: a number, since one test of the sum then serves all four.
fn at_end(x: i32) -> usize
    ensures { result ≤ 1 }
{
    if x < -32767 {
        return 1;
    }
    if 32766 < x { 1 } else { 0 }
}

// How many times four samples the quiet loop is to try: none where a sample before was at an end, since more will be.
fn fours_to_try(lms: QoaLms, count: usize) -> usize
    ensures { 4 * result ≤ count }
{
    let h = lms.history;
    let ends = at_end(h[0]) + at_end(h[1]) + at_end(h[2]) + at_end(h[3]);
    if ends == 0 { count / 4 } else { 0 }
}

impl SliceWord {
    // The slice of a word, with its row of the table copied by value.
    fn new(tab: &Dequant, word: u64) -> SliceWord
        ensures { result.word ≡ word }
    {
        let own = tab.row(word::scale_factor(word));
        let row = own.values;
        SliceWord { row, word }
    }

    // Its i-th sample.
    fn hear(&self, lms: QoaLms, i: usize) -> Heard
        requires { (WeightsWithin (2 ^ 30) lms) × (i < slice_len) }
        ensures { result ≡ heard lms (residual_at self.now.word i) }
    {
        let code = word::code(self.word, i);
        trial::hear(lms, self.row[code])
    }

    // kept: the three loops below count by hand, a form that was chosen by its times (docs/notes/speed-trials.md).

    // The quiet loop: the samples of a slice from one on to another, up to the first that is to be clamped. A sum of 16 bits is its own clamp.
    fn hear_quiet(
        &self,
        gains: &[[i32; 2]; 8],
        lms: QoaLms,
        out: &mut [i16],
        start: usize,
        stride: usize,
        from: usize,
        to: usize,
    ) -> Part
        requires gains { GainsOf gains.now (row_of (scale_of self.now.word)) }
        requires small { (WeightsWithin (2 ^ 29 + 17920) lms) × (from ≤ to) × (to ≤ slice_len) }
        requires room { (i : ℕ) → i < to → start + i * stride < length out.old }
        ensures done { result.done ≤ to }
        ensures heard { (s : QoaLms) (o : List ℤ) → HeardTo self.now.word s o start stride from lms out.old → HeardTo self.now.word s o start stride result.done result.lms out.new }
    {
        let rest = drop_codes(self.word, from);
        let mut state = ahead::ready(lms);
        for i in from..to {
            let code = word::code(rest, i - from);
            let value = self.row[code];
            let sum = ahead::sum_ahead(state, value);
            if !lms::is_short(sum) {
                let left = state.lms;
                return Part { done: i, lms: left };
            }
            out[start + i * stride] = sum as i16;
            state = ahead::advance(state.lms, sum, &gains[code]);
        }
        let after = state.lms;
        Part {
            done: to,
            lms: after,
        }
    }

    // The quiet loop from a slice's start, four samples at a time: the compiler writes four out, and no number has to move.
    fn hear_fours(
        &self,
        gains: &[[i32; 2]; 8],
        lms: QoaLms,
        out: &mut [i16],
        start: usize,
        stride: usize,
        fours: usize,
    ) -> Part
        requires gains { GainsOf gains.now (row_of (scale_of self.now.word)) }
        requires small { (WeightsWithin (2 ^ 29) lms) × (4 * fours ≤ slice_len) }
        requires room { (i : ℕ) → i < 4 * fours → start + i * stride < length out.old }
        ensures done { result.done ≤ 4 * fours }
        ensures heard { HeardTo self.now.word lms out.old start stride result.done result.lms out.new }
    {
        let mut part = Part { done: 0, lms };
        for k in 0..fours {
            let state = part.lms;
            part = self.hear_quiet(gains, state, out, start, stride, 4 * k, 4 * k + 4);
            if part.done < 4 * k + 4 {
                return part;
            }
        }
        part
    }

    // The loud loop: every sample of a slice from one on is clamped.
    fn hear_loud(
        &self,
        gains: &[[i32; 2]; 8],
        lms: QoaLms,
        out: &mut [i16],
        start: usize,
        stride: usize,
        from: usize,
        count: usize,
    ) -> QoaLms
        requires gains { GainsOf gains.now (row_of (scale_of self.now.word)) }
        requires small { (WeightsWithin (2 ^ 29 + 17920) lms) × (from ≤ count) × (count ≤ slice_len) }
        requires room { (i : ℕ) → i < count → start + i * stride < length out.old }
        ensures { (s : QoaLms) (o : List ℤ) → HeardTo self.now.word s o start stride from lms out.old → HeardTo self.now.word s o start stride count result out.new }
    {
        let mut state = ahead::ready(lms);
        let mut rest = drop_codes(self.word, from);
        for i in from..count {
            let code = word::code(rest, 0);
            let value = self.row[code];
            let sample = ahead::clamped_ahead(state, value);
            out[start + i * stride] = sample as i16;
            state = ahead::advance(state.lms, sample, &gains[code]);
            rest = drop_codes(rest, 1);
        }
        state.lms
    }

    // The first `count` samples of a slice, stored at start, start + stride, ..: by the quiet loop as far as it goes, then by the loud one.
    fn hear_stored(
        &self,
        gains: &[[i32; 2]; 8],
        lms: QoaLms,
        out: &mut [i16],
        start: usize,
        stride: usize,
        count: usize,
    ) -> QoaLms
        requires gains { GainsOf gains.now (row_of (scale_of self.now.word)) }
        requires small { (WeightsWithin (2 ^ 29) lms) × (count ≤ slice_len) }
        requires room { (i : ℕ) → i < count → start + i * stride < length out.old }
        ensures state { result ≡ state_after self.now.word lms count }
        ensures samples { out.new ≡ written (sample_at self.now.word lms) out.old start stride count }
    {
        let fours = fours_to_try(lms, count);
        let part = self.hear_fours(gains, lms, out, start, stride, fours);
        let done = part.done;
        let state = part.lms;
        self.hear_loud(gains, state, out, start, stride, done, count)
    }

    // The samples of a slice from one on, heard and not stored, for the predictor's sake.
    fn hear_rest(&self, lms: QoaLms, from: usize) -> QoaLms
        requires small { (WeightsWithin (2 ^ 29 + 17920) lms) × (from ≤ slice_len) }
        ensures { (s : QoaLms) → lms ≡ state_after self.now.word s from → result ≡ state_after self.now.word s slice_len }
    {
        let mut state = lms;
        // kept: i counts the codes of the word, which are no list.
        for i in from..QOA_SLICE_LEN {
            let heard = self.hear(state, i);
            state = heard.lms;
        }
        state
    }
}

// A slice of one channel: its first `count` samples are stored, and the predictor runs over all twenty.
pub fn decode_slice(
    tab: &Dequant,
    lms: QoaLms,
    word: u64,
    out: &mut [i16],
    start: usize,
    stride: usize,
    count: usize,
) -> QoaLms
    requires small { (WeightsWithin (2 ^ 29) lms) × (count ≤ slice_len) }
    requires room { (i : ℕ) → i < count → start + i * stride < length out.old }
    ensures state { result ≡ state_after word lms slice_len }
    ensures samples { out.new ≡ written (sample_at word lms) out.old start stride count }
{
    let slice = SliceWord::new(tab, word);
    let row = slice.row;
    let gains = gains_of(row);
    let state = slice.hear_stored(&gains, lms, out, start, stride, count);
    slice.hear_rest(state, count)
}
