// What remains behind an element.

use pattern_intern::PatternId;

/// An element definition that may be opened, and what remains behind its element.
#[derive(Clone, Copy, Debug, PartialEq, Eq, Hash)]
pub(crate) struct Remainder {
    pub(crate) definition: usize,
    pub(crate) rest: PatternId,
}
