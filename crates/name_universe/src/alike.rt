// Names that a schema's name classes don't tell apart.
ghost use Rattle.std.specs.Prelude.{IfOk};
ghost use Rattle.rng_model.specs.Alike.{AreAlikeNames, AreGroups};
ghost use Rattle.rng_model.specs.Names.{Name as NameValue};
ghost use Rattle.rng_model.specs.Universe.{IsElementClass, IsAttributeClass};

use crate::partition::Partition;
use crate::universe::Universe;
use pattern_intern::Schema;
use std::alloc::{AllocError, Global};
use text_atoms::Groups;

/// The groups of the element names that the schema doesn't tell apart: each name class of an element definition contains both or neither. Groups
/// are numbered by their first members; refused for want of memory alone.
pub fn alike_elements(
    alloc: Global,
    schema: &Schema,
    universe: &Universe,
) -> Result<Groups, AllocError>
    ensures { IfOk result (λ groups. AreGroups NameValue (AreAlikeNames (IsElementClass schema.now.schema)) universe.now.elements.names groups) }
{
    let names = universe.element_names();
    let count = names.list().len();
    let mut partition = Partition::new(alloc, count)?;
    for element in 0..schema.element_count() {
        let class = schema.element_class(element);
        partition.split(alloc, names, class, element)?;
    }
    let groups = partition.groups(alloc)?;
    Ok(groups)
}

/// The groups of the attribute names that the schema doesn't tell apart: each name class of an attribute in the start and the contents contains
/// both or neither. Groups are numbered by their first members; refused for want of memory alone.
pub fn alike_attributes(
    alloc: Global,
    schema: &Schema,
    universe: &Universe,
) -> Result<Groups, AllocError>
    ensures { IfOk result (λ groups. AreGroups NameValue (AreAlikeNames (IsAttributeClass schema.now.schema)) universe.now.attributes.names groups) }
{
    let names = universe.attribute_names();
    let count = names.list().len();
    let classes = schema.attribute_classes(alloc)?;
    let mut partition = Partition::new(alloc, count)?;
    for number in 0..classes.len() {
        let class = schema.pool().class(classes[number]);
        partition.split(alloc, names, class, number)?;
    }
    let groups = partition.groups(alloc)?;
    Ok(groups)
}
