// The texts that each rule for atoms gives.
ghost use Rattle.std.specs.Prelude.{◌≡◌, ◌⊎◌, ◌↔◌, Contains, IfOk, OnOk};
ghost use Rattle.rng_model.specs.Texts.{Text as TextValue};
ghost use Rattle.rng_model.specs.Atoms.{IsStringLiteral, IsTokenForm, IsTokenAtom, IsNormalAtom, IsSample, IsFreshText};
ghost use Rattle.text_atoms.specs.Kinds.{kind_of};
ghost use Rattle.text_atoms.specs.Parts.{IsLeastSpaced, IsOfMarkedKinds};

use crate::fresh::first_free;
use crate::kind::Kind;
use crate::literals::Literals;
use crate::parts::{Part, add, gather, spaced};
use crate::text::Text;
use std::alloc::{AllocError, Global};
use std::collections::BTreeSet;

/// First rule: the literals of the kind `Str`, as written.
pub(crate) fn string_literals(
    alloc: Global,
    literals: &Literals,
) -> Result<BTreeSet<Text>, AllocError>
    ensures { IfOk result (λ s. (x : TextValue) → Contains s.keys x ↔ IsStringLiteral literals.now x) }
{
    let mut texts = BTreeSet::new(alloc);
    gather(alloc, &mut texts, Part::Strings, literals.members())?;
    Ok(texts)
}

// The normal forms of the literals of the kind `Token`, and the empty text where an `empty` stands inside an attribute.
fn token_forms(alloc: Global, literals: &Literals) -> Result<BTreeSet<Text>, AllocError>
    ensures { IfOk result (λ s. (x : TextValue) → Contains s.keys x ↔ IsTokenForm literals.now x) }
{
    let mut texts = BTreeSet::new(alloc);
    gather(alloc, &mut texts, Part::TokenForms, literals.members())?;
    if !literals.has_empty() {
        return Ok(texts);
    }
    add(&mut texts, Text::from_string(String::new(alloc)))?;
    Ok(texts)
}

// Each form with the fewest spaces behind it that make none of `taken`.
fn all_spaced(
    alloc: Global,
    mut forms: BTreeSet<Text>,
    taken: &BTreeSet<Text>,
) -> Result<BTreeSet<Text>, AllocError>
    ensures { IfOk result (λ s. (x : TextValue) → Contains s.keys x ↔ ((n : TextValue) × Contains forms.keys n × IsLeastSpaced (Contains taken.now.keys) n x)) }
{
    let mut texts = BTreeSet::new(alloc);
    'forms: while let Some(form) = forms.pop_first() {
        let text = spaced(alloc, &form, taken)?;
        add(&mut texts, text)?;
    }
    Ok(texts)
}

/// Second rule: each token form with the fewest spaces behind it that make no string literal.
pub(crate) fn token_atoms(
    alloc: Global,
    literals: &Literals,
    strings: &BTreeSet<Text>,
) -> Result<BTreeSet<Text>, AllocError>
    requires { (x : TextValue) → Contains strings.now.keys x ↔ IsStringLiteral literals.now x }
    ensures { IfOk result (λ s. (x : TextValue) → Contains s.keys x ↔ IsTokenAtom literals.now x) }
{
    let forms = token_forms(alloc, literals)?;
    let texts = all_spaced(alloc, forms, strings)?;
    Ok(texts)
}

/// Third rule: the normal forms of the literals of the other kinds.
pub(crate) fn other_forms(alloc: Global, literals: &Literals) -> Result<BTreeSet<Text>, AllocError>
    ensures { IfOk result (λ s. (x : TextValue) → Contains s.keys x ↔ IsNormalAtom literals.now x) }
{
    let mut texts = BTreeSet::new(alloc);
    gather(alloc, &mut texts, Part::OtherForms, literals.members())?;
    Ok(texts)
}

// Adds the text, if the kind stands in the simple form.
fn add_if_marked(
    alloc: Global,
    texts: &mut BTreeSet<Text>,
    literals: &Literals,
    kind: Kind,
    text: &str,
) -> Result<(), AllocError>
    ensures { OnOk result ((x : TextValue) → Contains texts.new.keys x ↔ (Contains texts.old.keys x ⊎ (Contains literals.now.kinds (kind_of kind) × (text.now ≡ x)))) }
{
    if !literals.has_kind(kind) {
        return Ok(());
    }
    let string = String::from_str(alloc, text)?;
    add(texts, Text::from_string(string))?;
    Ok(())
}

// The texts beside the kinds that stand in the simple form.
fn of_marked_kinds(
    alloc: Global,
    literals: &Literals,
    table: &[(Kind, &str)],
) -> Result<BTreeSet<Text>, AllocError>
    ensures { IfOk result (λ s. (x : TextValue) → Contains s.keys x ↔ IsOfMarkedKinds literals.now.kinds table.now x) }
{
    let mut texts = BTreeSet::new(alloc);
    for sample in table {
        add_if_marked(alloc, &mut texts, literals, sample.0, sample.1)?;
    }
    Ok(texts)
}

/// Fourth rule: the samples of each kind that stands in the simple form.
pub(crate) fn samples(alloc: Global, literals: &Literals) -> Result<BTreeSet<Text>, AllocError>
    ensures { IfOk result (λ s. (x : TextValue) → Contains s.keys x ↔ IsSample literals.now x) }
{
    let texts = of_marked_kinds(
        alloc,
        literals,
        &[
            (Kind::Boolean, "false"),
            (Kind::Boolean, "true"),
            (Kind::Integer, "-1"),
            (Kind::Integer, "0"),
            (Kind::Integer, "1"),
            (Kind::NonNegative, "0"),
            (Kind::NonNegative, "1"),
            (Kind::Positive, "1"),
            (Kind::NcName, "n"),
            (Kind::Nmtoken, "-n"),
        ],
    )?;
    Ok(texts)
}

/// Fifth rule: the first of `t`, `t1`, `t2`, .. that is neither the text nor the normal form of a literal.
pub(crate) fn fresh_text(alloc: Global, literals: &Literals) -> Result<Text, AllocError>
    ensures { IfOk result (λ t. IsFreshText literals.now t) }
{
    let members = literals.members();
    let mut taken = BTreeSet::new(alloc);
    gather(alloc, &mut taken, Part::Texts, members)?;
    gather(alloc, &mut taken, Part::Forms, members)?;
    let text = first_free(alloc, &taken)?;
    Ok(text)
}
