// The kinds of datatypes.
ghost use Rattle.std.specs.Prelude.{◌≡◌, ◌&&◌};
ghost use Rattle.rng_model.specs.Kinds.{allows, allows_normal, equal, is_no, is_yes};
ghost use Rattle.text_atoms.specs.Kinds.{kind_of, same_normal};

use crate::characters::{is_ncname, is_nmtoken};
use crate::integer::{has_minus, is_integer, is_zero, same_integer};
use crate::white_space::{lone_word, normal_equal};

/// A datatype: `string` and `token` of RELAX NG's built-in datatype library (RELAX NG Specification, section 4.4), and six types of XML Schema
/// Part 2 without parameters, on normal forms. Kinds are ordered as they stand here.
#[derive(Clone, Copy, Debug, Drop, PartialEq, Eq, PartialOrd, Ord, Hash)]
pub enum Kind {
    /// `string`: equal texts are equal values.
    Str,
    /// `token`: texts with the same normal form are equal.
    Token,
    /// `boolean`: `true`, `false`, `1`, `0`.
    Boolean,
    /// `integer`: digits of any number, maybe with a sign.
    Integer,
    /// `nonNegativeInteger`: `-0` is one.
    NonNegative,
    /// `positiveInteger`.
    Positive,
    /// `NCName`: Namespaces in XML, section 3.
    NcName,
    /// `NMTOKEN`: name characters or colons.
    Nmtoken,
}

impl Kind {
    #[tactic(auto, unfolding(rng_model::specs::Kinds::allows))]
    /// Whether the kind allows the text. White space before, after and between words counts by the kind's normal form.
    pub fn allows(&self, text: &str) -> bool
        ensures { result ≡ allows (kind_of self.now) text.now }
    {
        match self {
            Kind::Str | Kind::Token => true,
            _ => match lone_word(text) {
                Some(word) => allows_word(*self, word),
                None => false,
            },
        }
    }

    #[tactic(auto, unfolding(rng_model::specs::Kinds::allows, rng_model::specs::Kinds::equal))]
    /// Whether the kind allows both texts and they are the same value.
    pub fn equal(&self, a: &str, b: &str) -> bool
        ensures { result ≡ equal (kind_of self.now) a.now b.now }
    {
        match self {
            Kind::Str => a == b,
            Kind::Token => normal_equal(a, b),
            _ => match (lone_word(a), lone_word(b)) {
                (Some(a), Some(b)) => equal_words(*self, a, b),
                _ => false,
            },
        }
    }
}

// Whether the kind allows the texts of this normal form.
fn allows_word(kind: Kind, word: &str) -> bool
    ensures { result ≡ allows_normal (kind_of kind) word.now }
{
    match kind {
        Kind::Str | Kind::Token => true,
        Kind::Boolean => is_yes(word) || is_no(word),
        Kind::Integer => is_integer(word),
        Kind::NonNegative => is_integer(word) && (!has_minus(word) || is_zero(word)),
        Kind::Positive => is_integer(word) && !has_minus(word) && !is_zero(word),
        Kind::NcName => is_ncname(word),
        Kind::Nmtoken => is_nmtoken(word),
    }
}

// Whether the kind, not a string's, allows the texts of these normal forms and they are the same value.
fn equal_words(kind: Kind, a: &str, b: &str) -> bool
    ensures { result ≡ (allows_normal (kind_of kind) a.now && allows_normal (kind_of kind) b.now && same_normal (kind_of kind) a.now b.now) }
{
    match kind {
        Kind::Boolean => (is_yes(a) && is_yes(b)) || (is_no(a) && is_no(b)),
        Kind::Integer | Kind::NonNegative | Kind::Positive => {
            allows_word(kind, a) && allows_word(kind, b) && same_integer(a, b)
        }
        _ => allows_word(kind, a) && a == b,
    }
}

pub(crate) fn is_yes(word: &str) -> bool
    ensures { result ≡ is_yes word.now }
{
    matches!(word, "true" | "1")
}

fn is_no(word: &str) -> bool
    ensures { result ≡ is_no word.now }
{
    matches!(word, "false" | "0")
}
