//! Names (Namespaces in XML, section 3) in their order, and name classes (RELAX NG, section Name classes of Semantics) with the
//! names in them and their order.
#![tactic(auto)]

mod class;
mod name;
mod part;

pub use class::NameClass;
pub use name::{Name, NotNcName};
pub use part::{Part, Sample};
pub use text_atoms::{is_name_char, is_name_start};
