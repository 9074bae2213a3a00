//! Overlaps of name classes, and the finite lists of names that a schema's name classes give.
#![tactic(auto)]

mod alike;
mod fresh;
mod gather;
mod mentions;
mod name_list;
mod names;
mod origin;
mod overlaps;
mod partition;
mod split;
mod universe;

pub use alike::{alike_attributes, alike_elements};
pub use name_list::NameList;
pub use origin::Origin;
pub use overlaps::overlap;
pub use universe::Universe;
