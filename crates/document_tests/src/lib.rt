//! Tests of shelves and sinks, of documents as events and as lines, and of summaries. They stand beside these, since a crate with tests is
//! proved a second time for them.
#![tactic(auto)]

#[cfg(test)]
mod devices;
#[cfg(test)]
mod events;
#[cfg(test)]
mod lines;
#[cfg(test)]
mod summaries;
