// Text put into a lent slice, text read, and lists of bytes cut.
#![tactic(auto)]

mod cutting;
mod putting;
mod reading;

pub use cutting::split_once;
pub use putting::Text;
pub use reading::number;
