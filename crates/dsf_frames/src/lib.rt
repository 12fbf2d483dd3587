// Frames of a DSF file in our layout. The definition is in dsf's specs, the promises in specs/.
#![tactic(auto)]

mod frames;

pub use frames::{frame, reaches, window, window_frame};

// A stretch of the data, which begins at byte 92 of a file.
#[derive(Clone, Copy, PartialEq, Eq)]
pub struct FrameWindow {
    pub start: u64,
    pub end: u64,
}
