//! Tests of lines: documents that are written, one by one and one after the other. They stand beside `event_lines`, since a crate with
//! tests is proved a second time for them.
#![tactic(auto)]

#[cfg(test)]
mod tests;
