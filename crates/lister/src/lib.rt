//! The walk through the listed documents of one size, in order, over the table of states.
#![tactic(auto)]

mod closing;
mod descent;
mod following;
mod lister;
mod next;
mod path;
mod standing;

pub use lister::Lister;
