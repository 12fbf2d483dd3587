// What the programs that compare share: stored rows, answers as numbers, records out of numbers, bytes out of a seed.
#![tactic(auto)]

mod answers;
mod bytes;
mod records;
mod rows;

pub use answers::{Told, answered, clipped, clips_are, refusal, stats};
pub use bytes::{behind, digest, fill, next, put, top, up_to, words};
pub use records::{
    bits, channel_numbers, cutoff, float, gain, rate, rate_of_hertz, route, settings, stats_are,
    stats_of_row,
};
pub use rows::{bytes_of, numbers, print_right, rows_of, stored_numbers};

// What a conversion answers.
pub type Converted = Result<reference::ConvertStats, reference::PcmError>;
