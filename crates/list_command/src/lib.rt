//! The commands: what a run is asked for, what it owes and how it ends.
#![tactic(auto)]

mod after_cursor;
mod answering;
mod cursor_file;
mod document_list;
mod fault_lines;
mod laws;
mod line;
mod outcome;
mod placing;
mod schema;
mod schema_faults;
mod schema_file;
mod seeded;
mod states;
mod table;
mod universe;
mod whole_run;

pub use fault_lines::write_fault_line;
pub use laws::{listing_owes_the_list, one_is_owed, resuming_goes_on};
pub use outcome::{CursorRefusal, Outcome, SchemaFault};
pub use whole_run::run;
