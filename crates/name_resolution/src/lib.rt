//! What the declarations of a schema's files bind: namespaces, types and name classes resolved by them, and the faults that concern
//! names and name classes alone (RELAX NG Specification, section Simplification; Annex C, declarations).
#![tactic(auto)]

mod bindings;
mod class_faults;
mod classes;
mod declaration_faults;
mod file;
mod kinds;
mod laws;
mod least;
mod namespaces;
mod prefix_table;

pub use class_faults::ClassFaults;
pub use classes::Owner;
pub use laws::{least_is_least, least_of_both};
pub use least::lesser;
pub use namespaces::Namespaces;
