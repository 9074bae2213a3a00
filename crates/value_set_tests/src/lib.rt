//! Tests of the sets of values. They stand beside these, since a crate with tests is proved a second time for them.
#![tactic(auto)]

#[cfg(test)]
mod tests;
