//! Derivatives of patterns by the pieces of a document (Clark's algorithm for RELAX NG validation), over numbered patterns.
//!
//! Texts, attributes and ends of tags keep their results for each number within a step, so they visit a pattern once that stands in
//! several places. An element is ended without such results. What a pattern may open is kept for each number, for all names.
#![tactic(auto)]

mod attribute;
mod closing;
mod gathering;
mod grow;
mod more;
mod name_taken;
mod one_names;
mod opening;
mod remainder;
mod remainder_set;
mod remainder_sets;
mod results;
mod sides;
mod spine;
mod states;
mod stepper;
mod taking;
mod text;
mod text_results;
mod text_taken;
mod visits;

pub use states::{Place, State};
pub use stepper::Derivatives;
