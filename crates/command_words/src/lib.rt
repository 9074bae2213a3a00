//! The words of a run: the commands with their words, and the options behind them.
#![tactic(auto)]

mod command;
mod command_line;
mod extra_texts;
mod front;
mod laws;
mod number;
mod options;
mod reading;
mod size;
mod unread;

pub use command::Command;
pub use command_line::CommandLine;
pub use extra_texts::ExtraTexts;
pub use laws::one_form;
pub use reading::read_words;
pub use size::Size;
