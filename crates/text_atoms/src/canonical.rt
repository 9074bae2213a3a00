// Canonical forms: one text for the equal texts of a kind.
ghost use Rattle.std.specs.Prelude.{◌≡◌, IfOk};
ghost use Rattle.text_atoms.specs.Kinds.{kind_of};
ghost use Rattle.text_atoms.specs.Canonical.{boolean_form, canonical, form_of, integer_form};

use crate::integer::{has_minus, magnitude};
use crate::kind::{Kind, is_yes};
use crate::text::Text;
use crate::white_space::normal;
use std::alloc::{AllocError, Global};

// That of a boolean in normal form.
fn boolean_form(alloc: Global, word: &str) -> Result<Text, AllocError>
    ensures { IfOk result (λ t. t ≡ boolean_form word.now) }
{
    let form = if is_yes(word) { "true" } else { "false" };
    Ok(Text::from_string(String::from_str(alloc, form)?))
}

// That of an integer in normal form: the sign, and the digits without leading zeros. Zero has the sign `+`.
fn integer_form(alloc: Global, number: &str) -> Result<Text, AllocError>
    ensures { IfOk result (λ t. t ≡ integer_form number.now) }
{
    let digits = magnitude(number);
    let is_negative = has_minus(number) && !digits.is_empty();
    let mut form = String::with_capacity(alloc, digits.len())?;
    form.push(if is_negative { '-' } else { '+' })?;
    form.push_str(digits)?;
    Ok(Text::from_string(form))
}

// That of a text which the kind allows.
fn form_of(alloc: Global, kind: Kind, text: &str) -> Result<Text, AllocError>
    ensures { IfOk result (λ t. t ≡ form_of (kind_of kind) text.now) }
{
    if let Kind::Str = kind {
        return Ok(Text::from_string(String::from_str(alloc, text)?));
    }
    let form = normal(alloc, text)?;
    match kind {
        Kind::Boolean => boolean_form(alloc, form.as_str()),
        Kind::Integer | Kind::NonNegative | Kind::Positive => integer_form(alloc, form.as_str()),
        _ => Ok(form),
    }
}

/// The canonical form of a text in a kind, which is none where the kind doesn't allow the text. Equal texts, and no others, have the same.
#[tactic(auto, unfolding(crate::specs::Canonical::canonical))]
pub(crate) fn canonical(alloc: Global, kind: Kind, text: &str) -> Result<Option<Text>, AllocError>
    ensures { IfOk result (λ form. form ≡ canonical (kind_of kind) text.now) }
{
    if !kind.allows(text) {
        return Ok(None);
    }
    let form = form_of(alloc, kind, text)?;
    Ok(Some(form))
}
