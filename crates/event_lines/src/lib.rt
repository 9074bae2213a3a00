//! Skeletons, and codes of events, as text: one line for each event, and an empty line. Reading such a text is passed on from `line_reader`.
#![tactic(auto)]

mod closings;
mod codes;
mod collected;
mod counted;
mod document_lines;
mod escapes;
mod held_lines;
mod holding;
mod line_buffer;
mod lines;
mod measuring;
mod piece_list;
mod pieces;
mod spellings;
mod universe;
mod writing;

pub use codes::are_in_range;
pub use counted::Measure;
pub use document_lines::DocumentLines;
pub use line_reader::{LineFault, read_skeleton};
pub use measuring::measure;
pub use universe::write_universe;
pub use writing::{WriteFault, write_name_line, write_skeleton, write_text_line};
