// The calls about an album of tracks, as C has them. Where settings or lists are not understood, a call answers 255 and
// writes nothing; zeros stand for a part or a piece that is not there, as C has no `Option`.
#![tactic(auto)]

mod asked;
mod opening;
mod planning;
mod stepping;
mod telling;

pub use asked::Asked;
pub use opening::open;
pub use planning::{part, piece, writes};
pub use stepping::{frames, step};
