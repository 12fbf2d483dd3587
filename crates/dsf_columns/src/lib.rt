// A channel of a frame out of a DSF file's blocks, in our bit order.
#![tactic(auto)]

mod bits;
mod columns;

pub use bits::order_table;
pub use columns::{Channel, Stretch, column, spread};
