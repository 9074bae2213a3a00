//! The listing of a schema's documents: which are written, size after size, and how it ends.
#![tactic(auto)]

mod counting;
mod listing_end;
mod sizes;
mod summing;
mod writing;

pub use counting::write_counts;
pub use listing_end::ListingEnd;
pub use sizes::write_listing;
pub use summing::sum_listing;
