// States: a place in a document, and what may follow it.

use pattern_intern::PatternId;

/// A place in a document.
#[derive(Clone, Copy, Debug, PartialEq, Eq, Hash)]
pub enum Place {
    /// In a tag, where the attributes of the names before this position have had their turn.
    Tag(usize),
    /// After a tag, and at the start of a document.
    Fresh,
    /// After a text.
    AfterText,
    /// After an element.
    AfterElement,
}

/// A place, and the pattern of what may follow.
#[derive(Clone, Copy, Debug, PartialEq, Eq, Hash)]
pub struct State {
    pub place: Place,
    pub pattern: PatternId,
}
