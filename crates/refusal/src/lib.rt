#![tactic(auto)]

// The refusals with their numbers, and the shapes of answers that several calls share.
ghost use Rattle.std.specs.Prelude.{◌≡◌};
ghost use Rattle.refusal.specs.Refusals.{number_of};

// Why a call refuses.
#[derive(Clone, Copy)]
pub enum Refusal {
    NotQoaFile,
    NoSamples,
    InvalidFrameHeader,
    IncompatibleFrame,
    Truncated,
    TooManyChannels,
    OutputTooSmall,
    BadState,
    InputTooLong,
    InvalidChannels,
    InvalidSampleRate,
    InvalidSamples,
    WeightRange,
}

// What a call answers, and the state that it hands back: on a refusal the one that it was given, or the all-zero one where it was given none.
#[derive(Clone, Copy)]
pub struct Done<A, S> {
    pub answer: A,
    pub state: S,
}

impl<T, E, S> Done<Result<T, E>, S> {
    // A refusal, with a state.
    pub fn refused(why: E, state: S) -> Self
        ensures { (result.answer ≡ Err why) × (result.state ≡ state) }
    {
        Done {
            answer: Err(why),
            state,
        }
    }
}

// A file's channels and rate, and how many samples it has over all channels.
#[derive(Clone, Copy)]
pub struct Summary {
    pub channels: u8,
    pub rate: u32,
    pub count: usize,
}

// The number of a refusal. kept: number by number, as document 01's table has them, and two edits change one each.
impl From<Refusal> for u8 {
    ghost from_gives = { λ r n. n ≡ number_of r };

    fn from(refusal: Refusal) -> u8 {
        match refusal {
            Refusal::NotQoaFile => 1,
            Refusal::NoSamples => 2,
            Refusal::InvalidFrameHeader => 3,
            Refusal::IncompatibleFrame => 4,
            Refusal::Truncated => 5,
            Refusal::TooManyChannels => 6,
            Refusal::OutputTooSmall => 7,
            Refusal::BadState => 8,
            Refusal::InputTooLong => 9,
            Refusal::InvalidChannels => 11,
            Refusal::InvalidSampleRate => 12,
            Refusal::InvalidSamples => 13,
            Refusal::WeightRange => 14,
        }
    }
}
