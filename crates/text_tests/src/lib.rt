//! Tests of texts, kinds and atoms, and of names and name classes. They stand beside these, since a crate with tests is proved a second
//! time for them.
#![tactic(auto)]

#[cfg(test)]
mod atoms;
#[cfg(test)]
mod classes;
#[cfg(test)]
mod texts;
