//! The table of a schema's states: those that codes with so many nodes reach, what follows each, and with how many nodes more it can
//! finish.
#![tactic(auto)]

mod explorer;
mod family;
mod fault;
mod filling;
mod finishing;
mod following;
mod growing;
mod known;
mod next_codes;
mod note;
mod rows;
mod starting;
mod states;
mod successors;
mod table;
mod trying;

pub use fault::TableFault;
pub use table::Table;
pub use transitions::StateId;
