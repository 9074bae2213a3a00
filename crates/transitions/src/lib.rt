//! What leads from the states of a schema to others: rows of arcs with their search, and the marks of which states can finish with how many
//! nodes.
#![tactic(auto)]

mod arc;
mod block;
mod mark_list;
mod mark_words;
mod marks;
mod row;
mod row_list;
mod row_lookup;
mod row_search;
mod state_id;

pub use arc::Arc;
pub use block::Block;
pub use marks::Marks;
pub use row::Row;
pub use row_list::RowList;
pub use row_lookup::after;
pub use row_search::next_marked;
pub use state_id::StateId;
