// The names and namespaces that stand in name classes.
ghost use Rattle.std.specs.Prelude.{[], ◌∷◌, OnOk};
ghost use Rattle.rng_model.specs.Texts.{Text as TextValue};
ghost use Rattle.rng_model.specs.Names.{Name as NameValue};
ghost use Rattle.name_classes.specs.Views.{class_of};
ghost use Rattle.universe_laws.specs.Overlaps.{names_in, spaces_in};
ghost use Rattle.name_universe.specs.PartNames.{part_names, part_spaces};
ghost use Rattle.name_universe.specs.Sets.{Adds};

use name_classes::{Name, NameClass, Part};
use std::alloc::{AllocError, Global};
use std::collections::BTreeSet;
use text_atoms::Text;

// Adds a copy of a name to a set.
fn add_name(alloc: Global, names: &mut BTreeSet<Name>, name: &Name) -> Result<(), AllocError>
    ensures { OnOk result (Adds NameValue names.old.keys names.new.keys (name.now ∷ [])) }
{
    if !names.contains(name) {
        names.insert(name.copy(alloc)?)?;
    }
    Ok(())
}

// Adds a copy of a namespace to a set.
fn add_space(alloc: Global, spaces: &mut BTreeSet<Text>, ns: &Text) -> Result<(), AllocError>
    ensures { OnOk result (Adds TextValue spaces.old.keys spaces.new.keys (ns.now ∷ [])) }
{
    if !spaces.contains(ns) {
        spaces.insert(ns.copy(alloc)?)?;
    }
    Ok(())
}

// Adds the name that stands in the part.
#[tactic(auto, using(crate::proofs::NameSets::adds_nil))]
fn add_part_name(alloc: Global, names: &mut BTreeSet<Name>, part: &Part) -> Result<(), AllocError>
    ensures { OnOk result (Adds NameValue names.old.keys names.new.keys (part_names part.now)) }
{
    match part {
        Part::One(name) => add_name(alloc, names, name),
        Part::Any { .. } | Part::Namespace { .. } | Part::Choice => Ok(()),
    }
}

// Adds the namespace that stands in the part.
#[tactic(auto, using(crate::proofs::NameSets::adds_nil))]
fn add_part_space(alloc: Global, spaces: &mut BTreeSet<Text>, part: &Part) -> Result<(), AllocError>
    ensures { OnOk result (Adds TextValue spaces.old.keys spaces.new.keys (part_spaces part.now)) }
{
    match part {
        Part::Namespace { ns, .. } => add_space(alloc, spaces, ns),
        Part::One(name) => add_space(alloc, spaces, name.ns()),
        Part::Any { .. } | Part::Choice => Ok(()),
    }
}

/// Adds the names that stand in a class, inside excepts too.
pub(crate) fn add_names(
    alloc: Global,
    names: &mut BTreeSet<Name>,
    class: &NameClass,
) -> Result<(), AllocError>
    ensures { OnOk result (Adds NameValue names.old.keys names.new.keys (names_in (class_of class.now))) }
{
    for part in class.parts() {
        add_part_name(alloc, names, part)?;
    }
    Ok(())
}

/// Adds the namespaces of these names, and those that a namespace class names.
pub(crate) fn add_spaces(
    alloc: Global,
    spaces: &mut BTreeSet<Text>,
    class: &NameClass,
) -> Result<(), AllocError>
    ensures { OnOk result (Adds TextValue spaces.old.keys spaces.new.keys (spaces_in (class_of class.now))) }
{
    for part in class.parts() {
        add_part_space(alloc, spaces, part)?;
    }
    Ok(())
}
