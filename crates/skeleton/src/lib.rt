//! Skeletons, the documents that are listed, as lists of events.
#![tactic(auto)]

mod code;
mod document;
mod event;
mod walk;

pub use code::Code;
pub use document::{RefusedEvents, Skeleton, SkeletonFault};
pub use event::{Event, Events};
