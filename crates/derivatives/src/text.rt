// The pattern after a text (James Clark's derivatives of patterns).
ghost use Rattle.std.specs.Prelude.{◌≡◌, ◌<◌, IfOk, IfSome};
ghost use Rattle.rng_model.specs.Derivatives.{text_step, where_true};
ghost use Rattle.rng_model.specs.Matching.{nullable};
ghost use Rattle.rng_model.specs.Patterns.{choice};
ghost use Rattle.pattern_intern.specs.Stored.{Extends, count, tree_at};
ghost use Rattle.derivatives.specs.KeptTexts.{AreTextResults};

use crate::sides::{empty_where, interleaved, passed, repeated};
use crate::spine::spine;
use crate::text_results::TextResults;
use pattern_intern::{Node, PatternId, Pool, Schema};
use std::alloc::AllocError;
use text_atoms::Text;
use value_sets::leaf_takes;

// The pattern after a text, where it can be told without a step of a part.
#[tactic(auto, unfolding(rng_model::specs::Derivatives::text_step))]
fn text_of_leaf(pool: &Pool, text: &Text, id: PatternId) -> Option<PatternId>
    requires { id.0 < count pool.now }
    ensures within { IfSome result (λ r. r.0 < count pool.now) }
    ensures made { IfSome result (λ r. tree_at pool.now r.0 ≡ text_step text.now (tree_at pool.now id.0)) }
{
    if let Node::AnyText = pool.node(id) {
        return Some(id);
    }
    match leaf_takes(pool, text, id) {
        Some(taken) => Some(empty_where(pool, taken)),
        None => None,
    }
}

/// The pattern after a text. Its parts' results are kept by number.
#[cycle(text)]
pub(crate) fn text_step(
    schema: &mut Schema,
    kept: &mut TextResults,
    text: &Text,
    id: PatternId,
) -> Result<PatternId, AllocError>
    requires inside { id.0 < count schema.old.pool }
    requires right { AreTextResults text.now schema.old.pool kept.old }
    ensures within { IfOk result (λ r. r.0 < count schema.new.pool) }
    ensures made { IfOk result (λ r. tree_at schema.new.pool r.0 ≡ text_step text.now (tree_at schema.old.pool id.0)) }
    ensures kept { Extends schema.old.pool schema.new.pool }
    ensures right { AreTextResults text.now schema.new.pool kept.new }
    ensures schema { schema.new.schema ≡ schema.old.schema }
{
    if let Some(made) = text_of_leaf(schema.pool(), text, id) {
        return Ok(made);
    }
    if let Some(made) = kept.results.get(id) {
        return Ok(made);
    }
    let made = text_of(schema, kept, text, id)?;
    kept.results.put(id, made)?;
    Ok(made)
}

// The pattern after a text, from what its parts are after it.
#[cycle(text)]
#[tactic(auto, unfolding(rng_model::specs::Derivatives::text_step))]
fn text_of(
    schema: &mut Schema,
    kept: &mut TextResults,
    text: &Text,
    id: PatternId,
) -> Result<PatternId, AllocError>
    requires inside { id.0 < count schema.old.pool }
    requires right { AreTextResults text.now schema.old.pool kept.old }
    ensures within { IfOk result (λ r. r.0 < count schema.new.pool) }
    ensures made { IfOk result (λ r. tree_at schema.new.pool r.0 ≡ text_step text.now (tree_at schema.old.pool id.0)) }
    ensures kept { Extends schema.old.pool schema.new.pool }
    ensures right { AreTextResults text.now schema.new.pool kept.new }
    ensures schema { schema.new.schema ≡ schema.old.schema }
{
    match schema.pool().node(id) {
        Node::DataType(kind, Some(except)) => {
            let excepted = text_step(schema, kept, text, except)?;
            let pool = schema.pool();
            let allowed = kind.allows(text.as_str()) && !pool.nullable(excepted);
            Ok(empty_where(pool, allowed))
        }
        Node::OneOrMore(part) => {
            let left = text_step(schema, kept, text, part)?;
            repeated(schema, left, part)
        }
        Node::Choice(first, others) => match kept.choices.takes(schema.pool(), text, id)? {
            Some(taken) => Ok(empty_where(schema.pool(), taken)),
            None => text_members(schema, kept, text, id, first, others),
        },
        Node::Group(first, second) => {
            let left = text_step(schema, kept, text, first)?;
            let back = text_passed(schema, kept, text, first, second)?;
            passed(schema, left, second, back)
        }
        Node::Interleave(first, second) => {
            let left = text_step(schema, kept, text, first)?;
            let right = text_step(schema, kept, text, second)?;
            interleaved(schema, (first, second), left, right)
        }
        Node::After(first, second) => {
            let left = text_step(schema, kept, text, first)?;
            schema.after(left, second)
        }
        Node::DataType(kind, None) => Ok(empty_where(schema.pool(), kind.allows(text.as_str()))),
        Node::Value(kind, literal) => {
            let pool = schema.pool();
            let same = kind.equal(text.as_str(), pool.literal(literal).as_str());
            Ok(empty_where(pool, same))
        }
        Node::AnyText => Ok(id),
        Node::NotAllowed | Node::Empty | Node::Ref(_) | Node::Attribute(_, _) => {
            Ok(schema.pool().not_allowed())
        }
    }
}

// What the second side of a group is after a text, where the first side is passed over.
#[cycle(text)]
fn text_passed(
    schema: &mut Schema,
    kept: &mut TextResults,
    text: &Text,
    first: PatternId,
    second: PatternId,
) -> Result<PatternId, AllocError>
    requires first { first.0 < count schema.old.pool }
    requires second { second.0 < count schema.old.pool }
    requires right { AreTextResults text.now schema.old.pool kept.old }
    ensures within { IfOk result (λ r. r.0 < count schema.new.pool) }
    ensures made { IfOk result (λ r. tree_at schema.new.pool r.0 ≡ where_true (nullable (tree_at schema.old.pool first.0)) (text_step text.now (tree_at schema.old.pool second.0))) }
    ensures kept { Extends schema.old.pool schema.new.pool }
    ensures right { AreTextResults text.now schema.new.pool kept.new }
    ensures schema { schema.new.schema ≡ schema.old.schema }
{
    if schema.pool().nullable(first) {
        text_step(schema, kept, text, second)
    } else {
        Ok(schema.pool().not_allowed())
    }
}

// The choice of what the members are after a text, joined from the last on.
#[cycle(text)]
fn text_members(
    schema: &mut Schema,
    kept: &mut TextResults,
    text: &Text,
    id: PatternId,
    first: PatternId,
    others: PatternId,
) -> Result<PatternId, AllocError>
    requires inside { id.0 < count schema.old.pool }
    requires first { first.0 < id.0 }
    requires others { others.0 < id.0 }
    requires tree { tree_at schema.old.pool id.0 ≡ choice (tree_at schema.old.pool first.0) (tree_at schema.old.pool others.0) }
    requires right { AreTextResults text.now schema.old.pool kept.old }
    ensures within { IfOk result (λ r. r.0 < count schema.new.pool) }
    ensures made { IfOk result (λ r. tree_at schema.new.pool r.0 ≡ text_step text.now (tree_at schema.old.pool id.0)) }
    ensures kept { Extends schema.old.pool schema.new.pool }
    ensures right { AreTextResults text.now schema.new.pool kept.new }
    ensures schema { schema.new.schema ≡ schema.old.schema }
{
    let (mut firsts, last) = spine(schema.pool(), id, first, others)?;
    let mut rest = text_step(schema, kept, text, last)?;
    while let Some(member) = firsts.pop() {
        let made = text_step(schema, kept, text, member)?;
        rest = schema.choice(made, rest)?;
    }
    Ok(rest)
}
