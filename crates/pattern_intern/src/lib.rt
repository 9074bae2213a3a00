//! Patterns by number: equal numbers exactly for equal patterns, and every number keeps its pattern.
//!
//! `Pool::attribute` copies its class and `Pool::value` makes its text before they are looked up, also where they are there.
#![tactic(auto)]

mod attributes;
mod choice;
mod compare;
mod constructors;
mod facts;
mod gathering;
mod id;
mod intern;
mod literals;
mod node;
mod pool;
mod schema;

pub use facts::ContentType;
pub use id::{ClassId, LiteralId, PatternId};
pub use node::Node;
pub use pool::Pool;
pub use schema::{Definitions, Schema};
