// The atoms with their origins, while they are gathered.
ghost use Rattle.std.specs.Prelude.{◌≡◌, List, Some, Contains, IfOk, OnOk};
ghost use Rattle.rng_model.specs.Texts.{Text as TextValue};
ghost use Rattle.text_atoms.specs.Origins.{origin_in, Extends, HasRules, HasFresh};
ghost use Rattle.text_atoms.specs.declared.origin.Origin.TheVariants.{Fresh, Extra};

use crate::literals::Literals;
use crate::origin::Origin;
use crate::rules::{fresh_text, other_forms, samples, string_literals, token_atoms};
use crate::text::Text;
use crate::text_list::TextList;
use std::alloc::{AllocError, Global};
use std::collections::{BTreeMap, BTreeSet};

// Adds a text with its origin; a text that is there keeps the one that it has.
fn put(atoms: &mut BTreeMap<Text, Origin>, text: Text, origin: Origin) -> Result<(), AllocError>
    ensures { OnOk result (Extends (origin_in atoms.old) (origin_in atoms.new) origin (λ x. x ≡ text)) }
{
    if !atoms.contains_key(&text) {
        atoms.insert(text, origin)?;
    }
    Ok(())
}

// Adds the texts of a set.
fn put_all(
    atoms: &mut BTreeMap<Text, Origin>,
    mut texts: BTreeSet<Text>,
    origin: Origin,
) -> Result<(), AllocError>
    ensures { OnOk result (Extends (origin_in atoms.old) (origin_in atoms.new) origin (Contains texts.keys)) }
{
    'texts: while let Some(text) = texts.pop_first() {
        put(atoms, text, origin)?;
    }
    Ok(())
}

// Adds copies of the extra texts.
fn put_extra(
    alloc: Global,
    atoms: &mut BTreeMap<Text, Origin>,
    extra: &[Text],
) -> Result<(), AllocError>
    ensures { OnOk result (Extends (origin_in atoms.old) (origin_in atoms.new) Extra (Contains extra.now)) }
{
    for text in extra {
        put(atoms, text.copy(alloc)?, Origin::Extra)?;
    }
    Ok(())
}

// Adds the string literals and the atoms of the token forms.
fn put_literals(
    alloc: Global,
    atoms: &mut BTreeMap<Text, Origin>,
    literals: &Literals,
) -> Result<(), AllocError>
    ensures { OnOk result ((extra : List TextValue) → HasRules literals.now extra 0 (origin_in atoms.old) → HasRules literals.now extra 2 (origin_in atoms.new)) }
{
    let strings = string_literals(alloc, literals)?;
    let tokens = token_atoms(alloc, literals, &strings)?;
    put_all(atoms, strings, Origin::StringLiteral)?;
    put_all(atoms, tokens, Origin::TokenForm)?;
    Ok(())
}

// Adds what the rules behind these give.
fn put_others(
    alloc: Global,
    atoms: &mut BTreeMap<Text, Origin>,
    literals: &Literals,
) -> Result<(), AllocError>
    ensures { OnOk result ((extra : List TextValue) → HasRules literals.now extra 2 (origin_in atoms.old) → HasFresh literals.now extra 5 (origin_in atoms.new)) }
{
    put_all(atoms, other_forms(alloc, literals)?, Origin::NormalForm)?;
    put_all(atoms, samples(alloc, literals)?, Origin::Sample)?;
    put(atoms, fresh_text(alloc, literals)?, Origin::Fresh)?;
    Ok(())
}

// Adds what all rules give, and the extra texts.
fn put_rules(
    alloc: Global,
    atoms: &mut BTreeMap<Text, Origin>,
    literals: &Literals,
    extra: &TextList,
) -> Result<(), AllocError>
    ensures { OnOk result (HasRules literals.now extra.now 0 (origin_in atoms.old) → HasFresh literals.now extra.now 6 (origin_in atoms.new)) }
{
    put_literals(alloc, atoms, literals)?;
    put_others(alloc, atoms, literals)?;
    put_extra(alloc, atoms, extra.as_slice())?;
    Ok(())
}

/// The atoms and the extra texts, each with the first rule that gives it.
pub(crate) fn origins(
    alloc: Global,
    literals: &Literals,
    extra: &TextList,
) -> Result<BTreeMap<Text, Origin>, AllocError>
    ensures rules { IfOk result (λ m. HasRules literals.now extra.now 6 (origin_in m)) }
    ensures fresh { IfOk result (λ m. (x : TextValue) × (origin_in m x ≡ Some Fresh)) }
{
    let mut atoms = BTreeMap::new(alloc);
    put_rules(alloc, &mut atoms, literals, extra)?;
    Ok(atoms)
}
