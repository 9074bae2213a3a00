// The name classes of a schema's attributes, each number of its pool visited once, from the greatest down.
ghost use Rattle.std.specs.Prelude.{◌≡◌, ◌+◌, ◌<◌, ◌⊎◌, ◌↔◌, length, OnOk};
ghost use Rattle.rng_model.specs.Classes.{Class};
ghost use Rattle.rng_model.specs.Patterns.{Schema as SchemaValue};
ghost use Rattle.rng_model.specs.Inside.{IsAttributeOf};
ghost use Rattle.pattern_intern.specs.Attributes.{AreClasses, HasClass, IsClassSearch};
ghost use Rattle.pattern_intern.specs.Stored.{count};
ghost use Rattle.pattern_intern.specs.Trees.{PartsBelow, node_tree};

use crate::id::{ClassId, PatternId};
use crate::literals::mark_parts;
use crate::node::Node;
use crate::pool::Pool;
use std::alloc::AllocError;

// Notes the class of an attribute.
fn note_class(pool: &Pool, node: Node, classes: &mut Vec<ClassId>) -> Result<(), AllocError>
    requires { PartsBelow (count pool.now) pool.now node }
    ensures within { OnOk result (AreClasses pool.now classes.old.items → AreClasses pool.now classes.new.items) }
    ensures each { OnOk result ((c : Class) → HasClass pool.now classes.new.items c ↔ (HasClass pool.now classes.old.items c ⊎ IsAttributeOf c (node_tree pool.now node))) }
{
    if let Node::Attribute(class, _) = node {
        classes.push(class)?;
    }
    Ok(())
}

/// Visits a pattern, if it is marked: its class is noted, and its parts marked as it is.
pub(crate) fn visit_class(
    pool: &Pool,
    id: PatternId,
    reached: &mut Vec<bool>,
    classes: &mut Vec<ClassId>,
) -> Result<(), AllocError>
    requires within { id.0 < count pool.now }
    requires reached { length reached.old.items ≡ count pool.now }
    ensures { OnOk result ((g : SchemaValue) → IsClassSearch g pool.now reached.old.items classes.old.items (id.0 + 1) → IsClassSearch g pool.now reached.new.items classes.new.items id.0) }
{
    if !reached[id.0] {
        return Ok(());
    }
    let node = pool.node(id);
    mark_parts(reached, node);
    note_class(pool, node, classes)
}
