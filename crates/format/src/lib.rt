#![tactic(auto)]

// The structure of a QOA file: its headers, the checks of a frame and of the end, the frame part, the facts record.
pub mod checks;
pub mod facts;
pub mod file;
pub mod frame;
pub mod part;
pub mod tail;

pub use checks::{First, Kind, check_frame};
pub use facts::{Facts, facts_of};
pub use file::{file_header, file_word};
pub use frame::{
    FrameHeader, QOA_FRAME_LEN, QOA_HEADER_SIZE, QOA_MAX_CHANNELS, QOA_MOST_BYTES, QOA_MOST_RATE,
    QOA_SLICE_LEN, QOA_SLICES_PER_FRAME, check_header, frame_length, header_at, header_fields,
    header_word, read_header, slices_of, state_end,
};
pub use part::{frame_part, part_length};
pub use tail::tail_ok;
