//! What the program reads and writes, as the program sees it: shelves of files and sinks of bytes, in memory and real.
#![tactic(auto)]

mod devices;
mod file_shelf;
mod first_line;
mod lists;
mod memory_shelf;
mod memory_sink;
mod std_sink;
mod steps;
mod whole_file;
mod whole_piece;

pub use devices::{Failed, Shelf, Sink};
pub use file_shelf::FileShelf;
pub use lists::{Calls, Files};
pub use memory_shelf::MemShelf;
pub use memory_sink::MemSink;
pub use std_sink::StdSink;
pub use steps::Steps;
pub use whole_file::{ReadAllFault, read_all};
pub use whole_piece::write_all;
