//! Tests of overlaps and of the lists of names. They stand beside these, since a crate with tests is proved a second time for them.
#![tactic(auto)]

#[cfg(test)]
mod tests;
