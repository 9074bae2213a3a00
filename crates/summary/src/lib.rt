//! The summary of a list of documents: how many have each size, how many bytes their texts have, and the sum of these bytes. Also the lines
//! of a size and a number.
#![tactic(auto)]

mod lines;
mod sending;
mod states;
mod tally;

pub use states::write_state_line;
pub use tally::Tally;
