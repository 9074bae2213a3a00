// The members of a choice.
ghost use Rattle.std.specs.Prelude.{◌≡◌, ◌<◌, IfOk};
ghost use Rattle.rng_model.specs.Patterns.{choice};
ghost use Rattle.pattern_intern.specs.Stored.{count, tree_at};
ghost use Rattle.derivatives.specs.Spines.{IsSpine};

use pattern_intern::{Node, PatternId, Pool};
use std::alloc::AllocError;

/// The members of the choice of two patterns, from the left, and the last of its patterns, which is no choice.
pub(crate) fn spine(
    pool: &Pool,
    id: PatternId,
    first: PatternId,
    others: PatternId,
) -> Result<(Vec<PatternId>, PatternId), AllocError>
    requires inside { id.0 < count pool.now }
    requires first { first.0 < id.0 }
    requires others { others.0 < id.0 }
    requires tree { tree_at pool.now id.0 ≡ choice (tree_at pool.now first.0) (tree_at pool.now others.0) }
    ensures { IfOk result (λ r. IsSpine pool.now id.0 r.0.items r.1) }
{
    let mut firsts = Vec::new(pool.allocator());
    firsts.push(first)?;
    let mut last = others;
    while let Node::Choice(member, rest) = pool.node(last) {
        firsts.push(member)?;
        last = rest;
    }
    Ok((firsts, last))
}
