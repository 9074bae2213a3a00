//! The tree of a schema as it is written, with the files that it was read from, and the features in it that aren't taken.
#![tactic(auto)]

mod features;
mod files;
mod foreign;
mod full;
mod tree;

pub use features::{Feature, first_reference, refused_feature};
pub use files::FileList;
pub use full::{Full, Parts};
pub use tree::{Body, Class, Declaration, Item, Method, Parameter, Passed, Pattern, TypeName, Uri};
