// The names and namespaces that the name classes of a schema mention.
ghost use Rattle.std.specs.Prelude.{◌<◌, IfOk};
ghost use Rattle.rng_model.specs.Universe.{IsElementClass, IsAttributeClass};
ghost use Rattle.pattern_intern.specs.Attributes.{AreClasses, HasClass};
ghost use Rattle.name_universe.specs.Tables.{AreMentions};

use crate::mentions::{add_names, add_spaces};
use name_classes::Name;
use pattern_intern::{ClassId, Schema};
use std::alloc::{AllocError, Global};
use std::collections::BTreeSet;
use text_atoms::Text;

/// What the classes of element definitions mention.
pub(crate) fn element_mentions(
    alloc: Global,
    schema: &Schema,
) -> Result<(BTreeSet<Name>, BTreeSet<Text>), AllocError>
    ensures { IfOk result (λ r. AreMentions (IsElementClass schema.now.schema) r.0.keys r.1.keys) }
{
    let mut names = BTreeSet::new(alloc);
    let mut spaces = BTreeSet::new(alloc);
    for element in 0..schema.element_count() {
        let class = schema.element_class(element);
        add_names(alloc, &mut names, class)?;
        add_spaces(alloc, &mut spaces, class)?;
    }
    Ok((names, spaces))
}

// What the classes of these numbers mention.
fn mentions_of(
    alloc: Global,
    schema: &Schema,
    classes: &[ClassId],
) -> Result<(BTreeSet<Name>, BTreeSet<Text>), AllocError>
    requires { AreClasses schema.now.pool classes.now }
    ensures { IfOk result (λ r. AreMentions (HasClass schema.now.pool classes.now) r.0.keys r.1.keys) }
{
    let mut names = BTreeSet::new(alloc);
    let mut spaces = BTreeSet::new(alloc);
    for id in classes {
        let class = schema.pool().class(*id);
        add_names(alloc, &mut names, class)?;
        add_spaces(alloc, &mut spaces, class)?;
    }
    Ok((names, spaces))
}

/// What the classes of attributes in the start and the contents mention.
pub(crate) fn attribute_mentions(
    alloc: Global,
    schema: &Schema,
) -> Result<(BTreeSet<Name>, BTreeSet<Text>), AllocError>
    ensures { IfOk result (λ r. AreMentions (IsAttributeClass schema.now.schema) r.0.keys r.1.keys) }
{
    let classes = schema.attribute_classes(alloc)?;
    let mentions = mentions_of(alloc, schema, classes.as_slice())?;
    Ok(mentions)
}
