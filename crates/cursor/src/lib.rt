//! Whether a document from which a listing is to go on is listed, and where it leaves what is.
#![tactic(auto)]

mod passing;
mod placing;

pub use placing::{CursorFault, place};
