//! Texts, the kinds of datatypes, and the atoms of a schema's literals.
#![tactic(auto)]

mod alike;
mod atoms;
mod canonical;
mod characters;
mod fresh;
mod groups;
mod integer;
mod kind;
mod literals;
mod origin;
mod origins;
mod parts;
mod rules;
mod signature;
mod text;
mod text_list;
mod white_space;

pub use alike::alike_atoms;
pub use atoms::Atoms;
pub use characters::{is_name_char, is_name_start, is_ncname};
pub use groups::Groups;
pub use kind::Kind;
pub use literals::Literals;
pub use origin::Origin;
pub use text::Text;
pub use text_list::TextList;
pub use white_space::{is_space, is_white, normal};
