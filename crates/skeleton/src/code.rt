// Codes of events.
ghost use Rattle.std.specs.Prelude.{◌≡◌};
ghost use Rattle.rng_model.specs.Codes.{code_cmp};
ghost use Rattle.skeleton.specs.Views.{code_of};

use std::cmp::Ordering;

/// An event by positions: a name by its position among the element or the attribute names, a text by its position among the
/// atoms. Codes are ordered by kind, as the kinds stand here, and then by the positions.
#[derive(Clone, Copy, Debug, PartialEq, Eq, PartialOrd, Ord)]
pub enum Code {
    /// The end of a tag.
    Body,
    /// The end of an element.
    Closing,
    /// A text.
    Chars(usize),
    /// An attribute's name, and its text.
    Attr(usize, usize),
    /// The start of a tag, with the element's name.
    Opening(usize),
}

impl Code {
    /// The order of codes. Since the lists of names and atoms ascend, it is the order of the events.
    pub fn compare(&self, other: &Code) -> Ordering
        ensures { result ≡ code_cmp (code_of self.now) (code_of other.now) }
    {
        self.cmp(other)
    }
}
