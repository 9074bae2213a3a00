// Sets of texts that the literals give.
ghost use Rattle.std.specs.Prelude.{◌≡◌, ◌⊎◌, ◌↔◌, [], ◌∷◌, ◌++◌, Some, Contains, IfOk, OnOk};
ghost use Rattle.rng_model.specs.Texts.{Text as TextValue};
ghost use Rattle.text_atoms.specs.Kinds.{kind_of};
ghost use Rattle.text_atoms.specs.Literals.{members_of};
ghost use Rattle.text_atoms.specs.Parts.{part_of, parts_of, IsLeastSpaced};

use crate::canonical::canonical;
use crate::kind::Kind;
use crate::text::Text;
use crate::white_space::normal;
use std::alloc::{AllocError, Global};
use std::collections::BTreeSet;

/// Which texts of the literals are wanted.
#[derive(Clone, Copy, Drop)]
pub(crate) enum Part {
    /// The texts of the kind `Str`.
    Strings,
    /// The normal forms of the kind `Token`.
    TokenForms,
    /// The normal forms of the other kinds.
    OtherForms,
    /// The texts of all kinds.
    Texts,
    /// The normal forms of all kinds.
    Forms,
    /// The canonical forms of a kind.
    Values(Kind),
}

/// Adds a text to a set.
pub(crate) fn add(texts: &mut BTreeSet<Text>, text: Text) -> Result<(), AllocError>
    ensures { OnOk result ((x : TextValue) → Contains texts.new.keys x ↔ (Contains texts.old.keys x ⊎ (x ≡ text))) }
{
    texts.insert(text)?;
    Ok(())
}

// What the part takes of one literal.
fn part_of(alloc: Global, part: Part, kind: Kind, text: &Text) -> Result<Option<Text>, AllocError>
    ensures { IfOk result (λ o. o ≡ part_of part (kind_of kind, text.now)) }
{
    Ok(match (part, kind) {
        (Part::Strings, Kind::Str) | (Part::Texts, _) => Some(text.copy(alloc)?),
        (Part::Strings, _) => None,
        (Part::TokenForms, Kind::Token) | (Part::Forms, _) => Some(normal(alloc, text.as_str())?),
        (Part::TokenForms, _) => None,
        (Part::OtherForms, Kind::Str | Kind::Token) => None,
        (Part::OtherForms, _) => Some(normal(alloc, text.as_str())?),
        (Part::Values(wanted), _) if kind == wanted => canonical(alloc, kind, text.as_str())?,
        (Part::Values(_), _) => None,
    })
}

// Adds the part of one literal to a set.
fn add_part(
    alloc: Global,
    texts: &mut BTreeSet<Text>,
    part: Part,
    kind: Kind,
    text: &Text,
) -> Result<(), AllocError>
    ensures { OnOk result ((x : TextValue) → Contains texts.new.keys x ↔ (Contains texts.old.keys x ⊎ (part_of part (kind_of kind, text.now) ≡ Some x))) }
{
    let Some(text) = part_of(alloc, part, kind, text)? else {
        return Ok(());
    };
    add(texts, text)?;
    Ok(())
}

/// Adds the part of all literals to a set.
pub(crate) fn gather(
    alloc: Global,
    texts: &mut BTreeSet<Text>,
    part: Part,
    members: &[(Kind, Text)],
) -> Result<(), AllocError>
    ensures { OnOk result ((x : TextValue) → Contains texts.new.keys x ↔ (Contains texts.old.keys x ⊎ Contains (parts_of part (members_of members.now)) x)) }
{
    for member in members {
        add_part(alloc, texts, part, member.0, &member.1)?;
    }
    Ok(())
}

// The text with a space behind it.
fn with_space(alloc: Global, text: &Text) -> Result<Text, AllocError>
    ensures { IfOk result (λ t. t ≡ text.now ++ 32 ∷ []) }
{
    let mut string = String::from_str(alloc, text.as_str())?;
    string.push(' ')?;
    Ok(Text::from_string(string))
}

/// The text with the fewest spaces behind it that make none of `taken`.
pub(crate) fn spaced(alloc: Global, form: &Text, taken: &BTreeSet<Text>) -> Result<Text, AllocError>
    ensures { IfOk result (λ t. IsLeastSpaced (Contains taken.now.keys) form.now t) }
{
    let mut text = form.copy(alloc)?;
    'spaces: while taken.contains(&text) {
        text = with_space(alloc, &text)?;
    }
    Ok(text)
}
