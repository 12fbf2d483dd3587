// The gain call, and module 6 of document 01: scaling.
#![tactic(auto)]

mod db;
mod scale;

pub use db::{db_to_linear, from_db, right_gain};
pub use scale::scale_block;
