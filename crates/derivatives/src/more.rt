// Repetition.
ghost use Rattle.std.specs.Prelude.{◌≡◌, ◌<◌, IfOk};
ghost use Rattle.rng_model.specs.Derivatives.{more};
ghost use Rattle.pattern_intern.specs.Stored.{Extends, count, tree_at};

use pattern_intern::{PatternId, Schema};
use std::alloc::AllocError;

/// Any number of times, as what is left of a repetition.
pub(crate) fn more(schema: &mut Schema, id: PatternId) -> Result<PatternId, AllocError>
    requires { id.0 < count schema.old.pool }
    ensures within { IfOk result (λ r. r.0 < count schema.new.pool) }
    ensures made { IfOk result (λ r. tree_at schema.new.pool r.0 ≡ more (tree_at schema.old.pool id.0)) }
    ensures kept { Extends schema.old.pool schema.new.pool }
    ensures schema { schema.new.schema ≡ schema.old.schema }
{
    let empty = schema.pool().empty();
    let repeated = schema.one_or_more(id)?;
    schema.choice(repeated, empty)
}
