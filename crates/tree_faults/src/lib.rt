//! Which fault of simplification the tree of a schema has (RELAX NG Specification, sections Simplification and Restrictions: name classes,
//! attribute names).
#![tactic(auto)]

mod entries;
mod fault;
mod first;
mod grammars;
mod keys;
mod laws;
mod names;

pub use fault::Fault;
pub use first::{bad_value, first_fault};
pub use laws::later_faults;
