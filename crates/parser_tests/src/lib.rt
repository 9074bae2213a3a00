//! Tests of the lexer and of the parser over texts. They stand beside these, since a crate with tests is proved a second time for them.
#![tactic(auto)]

#[cfg(test)]
mod lexing;
#[cfg(test)]
mod outlines;
#[cfg(test)]
mod tests;
