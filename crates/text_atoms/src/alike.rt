// Atoms that the literals don't tell apart.
ghost use Rattle.std.specs.Prelude.{◌≡◌, [], IfOk, OnOk};
ghost use Rattle.rng_model.specs.Texts.{Text as TextValue};
ghost use Rattle.rng_model.specs.Atoms.{Literals as LiteralsValue};
ghost use Rattle.rng_model.specs.Alike.{AreAlikeTexts, AreGroups};
ghost use Rattle.text_atoms.specs.Origins.{texts_of};
ghost use Rattle.text_atoms.specs.Signatures.{AreAllValues, all_variants, IsPut};

use crate::atoms::Atoms;
use crate::groups::Groups;
use crate::kind::Kind;
use crate::literals::Literals;
use crate::signature::{KindValues, Signature, all_values};
use indexmap::IndexSet;
use std::alloc::{AllocError, Global};

const KINDS: [Kind; 8] = [
    Kind::Str,
    Kind::Token,
    Kind::Boolean,
    Kind::Integer,
    Kind::NonNegative,
    Kind::Positive,
    Kind::NcName,
    Kind::Nmtoken,
];

// The place of a text's signature among those that were seen, where it is put if it is new.
fn place_of(
    alloc: Global,
    all: &[KindValues],
    seen: &mut IndexSet<Signature>,
    text: &str,
) -> Result<usize, AllocError>
    ensures { IfOk result (λ place. IsPut all.now text.now seen.old.keys seen.new.keys place) }
{
    let signature = Signature::of(alloc, all, text)?;
    let (place, _) = seen.insert_full(signature)?;
    Ok(place)
}

// Puts each atom's text into the group of its signature.
fn group_all(
    alloc: Global,
    all: &[KindValues],
    atoms: &Atoms,
    seen: &mut IndexSet<Signature>,
    groups: &mut Groups,
) -> Result<(), AllocError>
    requires values { (literals : LiteralsValue) × AreAllValues literals all_variants all.now }
    requires unseen { seen.old.keys ≡ [] }
    requires ungrouped { groups.old ≡ [] }
    ensures { OnOk result ((literals : LiteralsValue) → AreAllValues literals all_variants all.now → AreGroups TextValue (AreAlikeTexts literals) (texts_of atoms.now) groups.new) }
{
    for position in 0..atoms.len() {
        let text = atoms.get(position).as_str();
        let group = place_of(alloc, all, seen, text)?;
        groups.push(group)?;
    }
    Ok(())
}

// The groups of the atoms by what the literals say of each kind.
fn grouped(alloc: Global, all: &[KindValues], atoms: &Atoms) -> Result<Groups, AllocError>
    requires { (literals : LiteralsValue) × AreAllValues literals all_variants all.now }
    ensures { IfOk result (λ groups. (literals : LiteralsValue) → AreAllValues literals all_variants all.now → AreGroups TextValue (AreAlikeTexts literals) (texts_of atoms.now) groups) }
{
    let mut seen = IndexSet::new(alloc);
    let mut groups = Groups::new(alloc);
    group_all(alloc, all, atoms, &mut seen, &mut groups)?;
    Ok(groups)
}

/// The groups of the atoms that the literals don't tell apart: both are white space or neither, each value equals both or neither, and each kind
/// allows both or neither. Groups are numbered by their first members.
pub fn alike_atoms(alloc: Global, literals: &Literals, atoms: &Atoms) -> Result<Groups, AllocError>
    ensures { IfOk result (λ groups. AreGroups TextValue (AreAlikeTexts literals.now) (texts_of atoms.now) groups) }
{
    let all = all_values(alloc, literals, &KINDS)?;
    grouped(alloc, all.as_slice(), atoms)
}
