//! Tests of the restrictions over whole schemas. They stand beside these, since a crate with tests is proved a second time for them.
#![tactic(auto)]

#[cfg(test)]
mod tests;
