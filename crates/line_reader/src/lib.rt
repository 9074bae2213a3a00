//! Skeletons read from their text, line by line.
#![tactic(auto)]

mod cuts;
mod escapes;
mod events;
mod names;
mod reading;
mod texts;

pub use reading::{LineFault, read_skeleton};
