//! The graph of a schema's tree, which has each part of the tree by number: the walk that makes the nodes, the places of the tokens and their
//! numbers, the names that a grammar defines and what is combined of its definitions (RELAX NG Specification, section Simplification).
#![tactic(auto)]

mod combining;
mod defined_names;
mod entry;
mod parts;
mod places;
mod table;
mod tokens;
mod walk;
mod whole;

pub use whole::graph;
