//! Tests of derivatives over whole schemas. They stand beside the derivatives, since a crate with tests is proved a second time for them.
#![tactic(auto)]

#[cfg(test)]
mod samples;
#[cfg(test)]
mod schemas;
#[cfg(test)]
mod tests;
#[cfg(test)]
mod walks;
