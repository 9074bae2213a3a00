//! The codes of events over the names and texts of a schema.
#![tactic(auto)]

mod find;

pub use find::find_code;
