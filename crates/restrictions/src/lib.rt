//! The restrictions on the simple form: the least rule that a schema breaks (section Restrictions).
//!
//! Each number of the pool is described once, from what is known of its parts, so patterns that share parts cost no more than others.
#![tactic(auto)]

ghost use Rattle.std.specs.Prelude.{IfOk};
ghost use Rattle.restrictions.specs.Rules.{IsLeastBroken};

mod class_set;
mod described;
mod loose;
mod name_set;
mod paths;
mod rule;
mod rules;
mod shared;
mod standing;
mod texts;

use crate::described::describe_all;
use crate::rules::least_broken;
use name_universe::Universe;
use pattern_intern::Schema;
pub use rule::Rule;
use std::alloc::{AllocError, Global};

/// The least rule that the schema breaks, none where it breaks none (section Restrictions); refused for want of memory alone.
pub fn broken(alloc: Global, schema: &Schema) -> Result<Option<Rule>, AllocError>
    ensures { IfOk result (IsLeastBroken schema.now.schema) }
{
    let universe = Universe::of(alloc, schema, 1)?;
    let known = describe_all(alloc, schema.pool())?;
    least_broken(alloc, schema, &universe, &known)
}
