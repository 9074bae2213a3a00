//! The parts of a schema's tree by number: prefixes and types are resolved, references lead to combined definitions.
#![tactic(auto)]

mod graph;
mod members;
mod node;

pub use graph::Graph;
pub use members::Members;
pub use node::Node;
