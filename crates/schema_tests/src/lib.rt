//! Tests of names, faults and forms of schemas' trees. They stand beside these, since a crate with tests is proved a second time for them.
#![tactic(auto)]

#[cfg(test)]
mod faults;
#[cfg(test)]
mod forms;
#[cfg(test)]
mod names;
#[cfg(test)]
mod numbers;
