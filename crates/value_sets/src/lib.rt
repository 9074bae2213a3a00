//! Which texts the choices of values and datatypes in a pool take, by look-up: the literals of strings by their bytes, those of tokens
//! by their normal forms.
#![tactic(auto)]

mod by_number;
mod leaf;
mod text_set;
mod value_set;

pub use by_number::ValueSets;
pub use leaf::leaf_takes;
