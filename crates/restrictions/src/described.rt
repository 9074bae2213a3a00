// What is known of each pattern of a pool, each from what is known of its parts.
ghost use Rattle.std.specs.Prelude.{◌<◌, IfOk};
ghost use Rattle.pattern_intern.specs.Stored.{count, tree_at};
ghost use Rattle.restrictions.specs.Described.{AreDescribed, IsDescribed};

use crate::loose::is_loose;
use crate::paths::{Paths, paths_of};
use crate::texts::{Texts, texts_of};
use pattern_intern::{PatternId, Pool, Schema};
use std::alloc::{AllocError, Global};

/// What is known of a pattern.
#[derive(Clone, Copy, Debug)]
pub(crate) struct Described {
    /// What stands inside it.
    pub(crate) paths: Paths,
    /// The text in it.
    pub(crate) texts: Texts,
    /// An attribute with infinitely many names stands in it outside each oneOrMore.
    pub(crate) loose: bool,
}

/// What is known of a part of the pattern of a number.
pub(crate) fn known_at(
    pool: &Pool,
    id: PatternId,
    known: &[Described],
    part: PatternId,
) -> Described
    requires known { AreDescribed pool.now id.0 known.now }
    requires part { part.0 < id.0 }
    ensures { IsDescribed (tree_at pool.now part.0) result }
{
    known[part.0]
}

/// What is known of a pattern.
pub(crate) fn description(schema: &Schema, known: &[Described], id: PatternId) -> Described
    requires known { AreDescribed schema.now.pool (count schema.now.pool) known.now }
    requires within { id.0 < count schema.now.pool }
    ensures { IsDescribed (tree_at schema.now.pool id.0) result }
{
    known[id.0]
}

// What is known of the pattern of a number, from what is known of those before it.
fn describe(pool: &Pool, id: PatternId, known: &[Described]) -> Described
    requires within { id.0 < count pool.now }
    requires known { AreDescribed pool.now id.0 known.now }
    ensures { IsDescribed (tree_at pool.now id.0) result }
{
    Described {
        paths: paths_of(pool, id, known),
        texts: texts_of(pool, id, known),
        loose: is_loose(pool, id, known),
    }
}

/// What is known of each pattern of the pool. Each number is visited once.
pub(crate) fn describe_all(alloc: Global, pool: &Pool) -> Result<Vec<Described>, AllocError>
    ensures { IfOk result (λ known. AreDescribed pool.now (count pool.now) known.items) }
{
    let mut known = Vec::new(alloc);
    for id in 0..pool.len() {
        let next = describe(pool, PatternId(id), &known);
        known.push(next)?;
    }
    Ok(known)
}
