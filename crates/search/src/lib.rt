#![tactic(auto)]

// The search for a slice's scale factor.
ghost use Rattle.std.specs.Prelude.{◌≡◌, ◌+◌, ◌-◌, ◌*◌, ◌≤◌, ◌<◌, ◌^◌, length, take};
ghost use Rattle.format.specs.Format.{slice_len};
ghost use Rattle.lms.specs.Predictor.{at};
ghost use Rattle.search.specs.Candidate.{no_best, step_of};
ghost use Rattle.search.specs.Search.{encoded_slice, leader_of, strided};
ghost use Rattle.search.specs.Parts.{begun_of, counted_of, drops, firsts_of, SamplesFit};
ghost use Rattle.lms.specs.Parts.{WeightsWithin};

use format::frame::QOA_SLICE_LEN;
use lms::QoaLms;
use scale::{QuickRow, QuickTables, Row};

mod order;

// The rank before any candidate has finished, which no rank exceeds. kept: the source's own form, a number that is compared as every other rank is.
const NO_RANK: u64 = u64::MAX;

// A candidate after some of its samples.
#[derive(Clone, Copy)]
pub struct Run {
    pub rank: u64,
    pub word: u64,
    pub lms: QoaLms,
}

// The scale factor that leads, with its finished run.
#[derive(Clone, Copy)]
pub struct Leader {
    pub sf: usize,
    pub run: Run,
}

// The first sample's code at each scale factor, and the key that its cost gives the candidate. kept: two arrays, as document 01 asks.
#[derive(Clone, Copy)]
pub struct Firsts {
    pub codes: [u8; 16],
    pub keys: [u64; 16],
}

// The choice, with the number of trials that were made.
#[derive(Clone, Copy)]
pub struct Counted {
    pub leader: Leader,
    pub trials: u64,
}

// A slice: its word and scale factor, the predictor after it, and the number of trials that were made.
#[derive(Clone, Copy)]
pub struct Encoded {
    pub word: u64,
    pub sf: usize,
    pub lms: QoaLms,
    pub trials: u64,
}

// The samples of one channel, side by side.
fn gather(samples: &[i16], start: usize, stride: usize, n: usize) -> [i16; QOA_SLICE_LEN]
    requires { (0 < n) × (n ≤ slice_len) × (start + (n - 1) * stride < length samples.now) }
    ensures { (take n result ≡ strided n samples.now start stride) × SamplesFit (strided n samples.now start stride) }
{
    let mut taken: [i16; QOA_SLICE_LEN] = [0; QOA_SLICE_LEN];
    for (i, place) in taken[..n].iter_mut().enumerate() {
        *place = samples[start + i * stride];
    }
    taken
}

// The first sample, tried at each scale factor.
fn first_trials(tables: &QuickTables, lms: QoaLms, sample: i16) -> Firsts
    requires { WeightsWithin (2 ^ 30) lms }
    ensures { result ≡ firsts_of lms sample }
{
    let mut codes = [0u8; 16];
    let mut keys = [0u64; 16];
    // kept: sf is a scale factor's number, which the row and the key are made of.
    for sf in 0..16 {
        let row = tables.tab.row(sf);
        let t = trial::attempt(lms, sample, &tables.coding, &row);
        codes[sf] = t.code;
        keys[sf] = t.cost * 16 + sf as u64;
    }
    Firsts { codes, keys }
}

// A candidate after its first sample, of that trial's code and cost.
fn begin(lms: QoaLms, row: Row, code: u8, cost: u64) -> Run
    requires { (WeightsWithin (2 ^ 30) lms) × (code < 8) }
    ensures { result ≡ begun_of lms row.sf code cost }
{
    let heard = trial::hear(lms, row.values[code as usize]);
    let next = heard.lms;
    Run {
        rank: cost,
        word: word::push_code(row.sf as u64, code as u64),
        lms: next,
    }
}

// A candidate after one sample more.
fn advance(tables: &QuickTables, row: &QuickRow, run: Run, sample: i16) -> Run
    requires { (run.rank < 2 ^ 62) × (run.word < 2 ^ 61) × (WeightsWithin (2 ^ 30) run.lms) }
    ensures { result ≡ step_of row.now.sf sample run }
{
    let before = run.lms;
    let t = trial::attempt(before, sample, &tables.coding, row);
    let next = t.lms;
    Run {
        rank: run.rank + t.cost,
        word: word::push_code(run.word, t.code as u64),
        lms: next,
    }
}

// A candidate is dropped at sample `i`: its rank is above the limit, or twice its rank is and this is the eleventh sample.
// kept: test after test. As one `||` the compiler makes all three tests at every sample, and encoding is slower by it.
fn dropped(limit: u64, i: usize, rank: u64) -> bool
    requires { rank < 2 ^ 63 }
    ensures { result ≡ drops limit i rank }
{
    if limit < rank {
        return true;
    }
    if i == 10 {
        return limit < 2 * rank;
    }
    false
}

// Before any candidate has finished.
fn unled(lms: QoaLms) -> Leader
    ensures { result ≡ leader_of lms no_best }
{
    let run = Run {
        rank: NO_RANK,
        word: 0,
        lms,
    };
    Leader { sf: 0, run }
}

// The search: which scale factor is chosen, its run, and the number of trials. The next key is found before the run of the
// candidate in turn: neither has to wait for the other. Both loops stand in one function, as document 01 asks.
fn choose(tables: &QuickTables, lms: QoaLms, samples: &[i16]) -> Counted
    requires weights_within { WeightsWithin (2 ^ 29) lms }
    requires samples_nonzero { (0 < length samples.now) × (length samples.now ≤ slice_len) × SamplesFit samples.now }
    ensures { result ≡ counted_of lms samples.now }
{
    let first = first_trials(tables, lms, samples[0]);
    let codes = first.codes;
    let keys = first.keys;
    let mut best = unled(lms);
    let mut trials = 16u64;
    let n = samples.len();
    let mut key = order::next_key(&keys, 0);
    'candidates: while key < order::NO_KEY {
        let cost = key / 16;
        let limit = best.run.rank;
        if limit < cost {
            break 'candidates;
        }
        let sf = (key % 16) as usize;
        let after = order::next_key(&keys, key + 1);
        let row = tables.tab.row(sf);
        let mut run = begin(lms, row, codes[sf], cost);
        let fast = tables.quick_row(sf);
        let mut i = 1;
        // kept: where the run stopped says whether it is finished, so `i` outlives the loop.
        'samples: while i < n {
            run = advance(tables, &fast, run, samples[i]);
            trials += 1;
            if dropped(limit, i, run.rank) {
                break 'samples;
            }
            i += 1;
        }
        if i == n && run.rank < limit {
            best = Leader { sf, run };
        }
        key = after;
    }
    Counted {
        leader: best,
        trials,
    }
}

// The slice of `n` samples of one channel, `stride` apart from `start` on.
pub fn encode_slice(
    tables: &QuickTables,
    lms: QoaLms,
    samples: &[i16],
    start: usize,
    stride: usize,
    n: usize,
) -> Encoded
    requires weights_within { WeightsWithin (2 ^ 29) lms }
    requires n_nonzero { (0 < n) × (n ≤ slice_len) × (start + (n - 1) * stride < length samples.now) }
    ensures { result ≡ encoded_slice lms (strided n samples.now start stride) }
{
    let taken = gather(samples, start, stride, n);
    let found = choose(tables, lms, &taken[0..n]);
    let leader = found.leader;
    let run = leader.run;
    let after = run.lms;
    Encoded {
        word: word::fill(run.word, n),
        sf: leader.sf,
        lms: after,
        trials: found.trials,
    }
}
