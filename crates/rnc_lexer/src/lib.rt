//! The lexer of RELAX NG's compact syntax: tokens with their places, or the first fault with its place.
#![tactic(auto)]

mod blanks;
mod characters;
mod escapes;
mod faults;
mod lexer;
mod literals;
mod names;
mod segments;
mod symbols;
mod tokens;
mod words;

pub use faults::LexFault;
pub use lexer::lex;
pub use tokens::{Keyword, Lexed, Symbol, Token, Tokens};
