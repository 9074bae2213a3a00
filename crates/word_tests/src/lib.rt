//! Tests of the words of a run, and of the schemas that are made for numbers. They stand beside these, since a crate with tests is proved a
//! second time for them.
#![tactic(auto)]

#[cfg(test)]
mod schemas;
#[cfg(test)]
mod words;
