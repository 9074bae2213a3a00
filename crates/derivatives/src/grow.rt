// What follows an element grows, as what stands before or beside the element is opened.
ghost use Rattle.std.specs.Prelude.{◌≡◌, ◌<◌, IfOk};
ghost use Rattle.pattern_intern.specs.Stored.{Extends, count, tree_at};
ghost use Rattle.derivatives.specs.Grown.{grown, part};

use pattern_intern::{PatternId, Schema};
use std::alloc::AllocError;

/// What becomes of what follows an element.
#[derive(Clone, Copy)]
pub(crate) enum Grow {
    /// It is followed by the other pattern.
    InGroup(PatternId),
    /// It is interleaved with the other pattern, which is the right side.
    Before(PatternId),
    /// It is interleaved with the other pattern, which is the left side.
    Behind(PatternId),
    /// It stands in an element that the other pattern follows.
    InAfter(PatternId),
}

impl Grow {
    /// What follows an element, grown.
    pub(crate) fn one(self, schema: &mut Schema, id: PatternId) -> Result<PatternId, AllocError>
        requires inside { id.0 < count schema.old.pool }
        requires part { part self < count schema.old.pool }
        ensures within { IfOk result (λ r. r.0 < count schema.new.pool) }
        ensures made { IfOk result (λ r. tree_at schema.new.pool r.0 ≡ grown self (tree_at schema.old.pool (part self)) (tree_at schema.old.pool id.0)) }
        ensures kept { Extends schema.old.pool schema.new.pool }
        ensures schema { schema.new.schema ≡ schema.old.schema }
    {
        match self {
            Grow::InGroup(other) => schema.group(id, other),
            Grow::Before(other) => schema.interleave(id, other),
            Grow::Behind(other) => schema.interleave(other, id),
            Grow::InAfter(other) => schema.after(id, other),
        }
    }
}
