// What a step makes of what its parts have become.
ghost use Rattle.std.specs.Prelude.{◌≡◌, ◌<◌, IfOk};
ghost use Rattle.rng_model.specs.Constructors.{choice_of, group_of, interleave_of};
ghost use Rattle.rng_model.specs.Derivatives.{more, where_true};
ghost use Rattle.rng_model.specs.Patterns as pattern;
ghost use Rattle.pattern_intern.specs.Stored.{Extends, count, tree_at};

use crate::more::more;
use pattern_intern::{PatternId, Pool, Schema};
use std::alloc::AllocError;

/// Empty where the test passes, else notAllowed.
pub(crate) fn empty_where(pool: &Pool, test: bool) -> PatternId
    ensures within { result.0 < count pool.now }
    ensures tree { tree_at pool.now result.0 ≡ where_true test pattern.empty }
{
    if test {
        pool.empty()
    } else {
        pool.not_allowed()
    }
}

/// A oneOrMore of which one time has become `left`.
pub(crate) fn repeated(
    schema: &mut Schema,
    left: PatternId,
    part: PatternId,
) -> Result<PatternId, AllocError>
    requires left { left.0 < count schema.old.pool }
    requires part { part.0 < count schema.old.pool }
    ensures within { IfOk result (λ r. r.0 < count schema.new.pool) }
    ensures made { IfOk result (λ r. tree_at schema.new.pool r.0 ≡ group_of (tree_at schema.old.pool left.0) (more (tree_at schema.old.pool part.0))) }
    ensures kept { Extends schema.old.pool schema.new.pool }
    ensures schema { schema.new.schema ≡ schema.old.schema }
{
    let others = more(schema, part)?;
    schema.group(left, others)
}

/// A group whose first side has become `left`, or else, where the first side is passed over, its second side `back`.
pub(crate) fn passed(
    schema: &mut Schema,
    left: PatternId,
    second: PatternId,
    back: PatternId,
) -> Result<PatternId, AllocError>
    requires left { left.0 < count schema.old.pool }
    requires second { second.0 < count schema.old.pool }
    requires back { back.0 < count schema.old.pool }
    ensures within { IfOk result (λ r. r.0 < count schema.new.pool) }
    ensures made { IfOk result (λ r. tree_at schema.new.pool r.0 ≡ choice_of (group_of (tree_at schema.old.pool left.0) (tree_at schema.old.pool second.0)) (tree_at schema.old.pool back.0)) }
    ensures kept { Extends schema.old.pool schema.new.pool }
    ensures schema { schema.new.schema ≡ schema.old.schema }
{
    let front = schema.group(left, second)?;
    schema.choice(front, back)
}

/// A group of which either side has become another: the first one `left`, or the second one `right`.
pub(crate) fn grouped(
    schema: &mut Schema,
    sides: (PatternId, PatternId),
    left: PatternId,
    right: PatternId,
) -> Result<PatternId, AllocError>
    requires first { sides.0.0 < count schema.old.pool }
    requires second { sides.1.0 < count schema.old.pool }
    requires left { left.0 < count schema.old.pool }
    requires right { right.0 < count schema.old.pool }
    ensures within { IfOk result (λ r. r.0 < count schema.new.pool) }
    ensures made { IfOk result (λ r. tree_at schema.new.pool r.0 ≡ choice_of (group_of (tree_at schema.old.pool left.0) (tree_at schema.old.pool sides.1.0)) (group_of (tree_at schema.old.pool sides.0.0) (tree_at schema.old.pool right.0))) }
    ensures kept { Extends schema.old.pool schema.new.pool }
    ensures schema { schema.new.schema ≡ schema.old.schema }
{
    let front = schema.group(left, sides.1)?;
    let back = schema.group(sides.0, right)?;
    schema.choice(front, back)
}

/// An interleave of which either side has become another: the first one `left`, or the second one `right`.
pub(crate) fn interleaved(
    schema: &mut Schema,
    sides: (PatternId, PatternId),
    left: PatternId,
    right: PatternId,
) -> Result<PatternId, AllocError>
    requires first { sides.0.0 < count schema.old.pool }
    requires second { sides.1.0 < count schema.old.pool }
    requires left { left.0 < count schema.old.pool }
    requires right { right.0 < count schema.old.pool }
    ensures within { IfOk result (λ r. r.0 < count schema.new.pool) }
    ensures made { IfOk result (λ r. tree_at schema.new.pool r.0 ≡ choice_of (interleave_of (tree_at schema.old.pool left.0) (tree_at schema.old.pool sides.1.0)) (interleave_of (tree_at schema.old.pool sides.0.0) (tree_at schema.old.pool right.0))) }
    ensures kept { Extends schema.old.pool schema.new.pool }
    ensures schema { schema.new.schema ≡ schema.old.schema }
{
    let front = schema.interleave(left, sides.1)?;
    let back = schema.interleave(sides.0, right)?;
    schema.choice(front, back)
}
