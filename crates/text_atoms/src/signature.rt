// What the literals see of a text.
ghost use Rattle.std.specs.Prelude.{◌≡◌, [], ◌∷◌, ◌++◌, IfOk, OnOk};
ghost use Rattle.text_atoms.specs.Signatures.{AreValuesOf, AreAllValues, IsSignature, mark_of};

use crate::canonical::canonical;
use crate::kind::Kind;
use crate::literals::Literals;
use crate::parts::{Part, gather};
use crate::text::Text;
use crate::white_space::is_white;
use std::alloc::{AllocError, Global};
use std::collections::BTreeSet;

/// What the literals say of a kind: whether it stands in the simple form, and the canonical forms of its values.
#[derive(Drop)]
pub(crate) struct KindValues {
    kind: Kind,
    is_marked: bool,
    values: BTreeSet<Text>,
}

/// What they see of a text by one kind: whether the kind, if it stands in the simple form, allows the text, and the canonical form of the value that
/// the text equals.
#[derive(Drop, PartialEq, Eq, Hash)]
pub(crate) struct Mark {
    is_allowed: bool,
    value: Option<Text>,
}

/// What they see of a text: whether it is white space alone, and its mark for each kind.
#[derive(Drop, PartialEq, Eq, Hash)]
pub(crate) struct Signature {
    is_white: bool,
    marks: Vec<Mark>,
}

// What the literals say of one kind.
fn values_of(alloc: Global, literals: &Literals, kind: Kind) -> Result<KindValues, AllocError>
    ensures { IfOk result (λ s. AreValuesOf literals.now kind s) }
{
    let mut values = BTreeSet::new(alloc);
    gather(alloc, &mut values, Part::Values(kind), literals.members())?;
    Ok(KindValues {
        kind,
        is_marked: literals.has_kind(kind),
        values,
    })
}

/// What the literals say of each of the kinds.
pub(crate) fn all_values(
    alloc: Global,
    literals: &Literals,
    kinds: &[Kind],
) -> Result<Vec<KindValues>, AllocError>
    ensures { IfOk result (λ all. AreAllValues literals.now kinds.now all.items) }
{
    let mut all = Vec::new(alloc);
    for kind in kinds {
        all.push(values_of(alloc, literals, *kind)?)?;
    }
    Ok(all)
}

impl Mark {
    // The mark of a text for one kind.
    fn of(alloc: Global, values: &KindValues, text: &str) -> Result<Mark, AllocError>
        ensures { IfOk result (λ m. m ≡ mark_of values.now text.now) }
    {
        let form = canonical(alloc, values.kind, text)?;
        let is_allowed = values.is_marked && form.is_some();
        let value = match form {
            Some(form) if values.values.contains(&form) => Some(form),
            _ => None,
        };
        Ok(Mark { is_allowed, value })
    }
}

// Adds the mark of a text for one kind.
fn push_mark(
    alloc: Global,
    marks: &mut Vec<Mark>,
    values: &KindValues,
    text: &str,
) -> Result<(), AllocError>
    ensures { OnOk result (marks.new.items ≡ marks.old.items ++ mark_of values.now text.now ∷ []) }
{
    let mark = Mark::of(alloc, values, text)?;
    marks.push(mark)?;
    Ok(())
}

impl Signature {
    /// The signature of a text.
    pub(crate) fn of(alloc: Global, all: &[KindValues], text: &str) -> Result<Signature, AllocError>
        ensures { IfOk result (λ s. IsSignature all.now text.now s) }
    {
        let mut marks = Vec::with_capacity(alloc, all.len())?;
        for values in all {
            push_mark(alloc, &mut marks, values, text)?;
        }
        Ok(Signature {
            is_white: is_white(text),
            marks,
        })
    }
}
