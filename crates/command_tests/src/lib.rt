//! Tests of whole runs. They stand beside the commands, since a crate with tests is proved a second time for them.
#![tactic(auto)]

#[cfg(test)]
mod tests;
