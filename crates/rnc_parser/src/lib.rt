//! The parser of RELAX NG's compact syntax: the parts of a file as they are written, or the first token with which no part of
//! the grammar can go on.
#![tactic(auto)]

mod annotations;
mod classes;
mod cursor;
mod datatypes;
mod literals;
mod names;
mod nesting;
mod parser;
mod patterns;
mod prologue;
mod schema;
mod stop;

pub use classes::class;
pub use cursor::Cursor;
pub use parser::{ParseFault, parse};
pub use patterns::{items, pattern};
pub use prologue::declarations;
pub use schema::file;
pub use stop::Stop;
