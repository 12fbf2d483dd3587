// The plan of an album that comes as tracks: which samples are a track's, the pieces, what is read for a piece, and
// where its bytes go.
#![tactic(auto)]

mod cutting;
mod marking;
mod reading;
mod writing;

pub use cutting::{Piece, piece_of};
pub use marking::marks;
pub use reading::reads;
pub use writing::{Write, write_of, writes};
