// Codes that differ in one position.
ghost use Rattle.std.specs.Prelude.{◌≡◌, ℕ};
ghost use Rattle.skeleton.specs.Views.{code_of};
ghost use Rattle.table_laws.specs.Places.{place_after};
ghost use Rattle.derivatives.specs.Views.{place_of};
ghost use Rattle.feasibility.specs.Families.{family_code, IsSmall};

use derivatives::Place;
use skeleton::Code;

/// Codes that differ in one position: the texts between tags, those of an attribute name, or the openings.
#[derive(Clone, Copy, Debug, PartialEq, Eq)]
pub(crate) enum Family {
    Texts,
    Attribute(usize),
    Openings,
}

impl Family {
    /// The code of a position.
    pub(crate) fn code(self, position: usize) -> Code
        ensures { code_of result ≡ family_code self position }
    {
        match self {
            Family::Texts => Code::Chars(position),
            Family::Attribute(name) => Code::Attr(name, position),
            Family::Openings => Code::Opening(position),
        }
    }

    /// The place after each of them.
    pub(crate) fn place(self) -> Place
        requires { IsSmall self }
        ensures { (position : ℕ) → place_of result ≡ place_after (family_code self position) }
    {
        match self {
            Family::Texts => Place::AfterText,
            Family::Attribute(name) => Place::Tag(name + 1),
            Family::Openings => Place::Tag(0),
        }
    }
}
