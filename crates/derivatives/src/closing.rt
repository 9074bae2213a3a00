// The pattern after a tag, and after the end of an element (James Clark's derivatives of patterns).
ghost use Rattle.std.specs.Prelude.{◌≡◌, ◌<◌, [], IfOk, IfSome};
ghost use Rattle.rng_model.specs.Constructors.{choice_of};
ghost use Rattle.rng_model.specs.Derivatives.{close, ending, text_step, where_true};
ghost use Rattle.rng_model.specs.Matching.{nullable};
ghost use Rattle.rng_model.specs.Patterns.{choice};
ghost use Rattle.pattern_intern.specs.Stored.{Extends, count, tree_at};
ghost use Rattle.value_sets.specs.Numbers.{AreSets};
ghost use Rattle.derivatives.specs.Kept.{AreRight};
ghost use Rattle.derivatives.specs.KeptTexts.{AreTextResults};

use crate::results::Results;
use crate::spine::spine;
use crate::text::text_step;
use crate::text_results::TextResults;
use pattern_intern::{Node, PatternId, Pool, Schema};
use std::alloc::AllocError;
use text_atoms::Text;

// The pattern after a tag, where it has no parts that count.
#[tactic(auto, unfolding(rng_model::specs::Derivatives::close))]
fn close_of_leaf(pool: &Pool, id: PatternId) -> Option<PatternId>
    requires { id.0 < count pool.now }
    ensures within { IfSome result (λ r. r.0 < count pool.now) }
    ensures made { IfSome result (λ r. tree_at pool.now r.0 ≡ close (tree_at pool.now id.0)) }
{
    match pool.node(id) {
        Node::Attribute(_, _) => Some(pool.not_allowed()),
        Node::DataType(_, None) | Node::DataType(_, Some(_)) => Some(id),
        Node::NotAllowed | Node::Empty | Node::AnyText | Node::Ref(_) | Node::Value(_, _) => Some(
            id,
        ),
        _ => None,
    }
}

/// The pattern after a tag, without the attributes that may be left out. Its parts' results are kept by number.
#[cycle(close)]
pub(crate) fn close(
    schema: &mut Schema,
    kept: &mut Results,
    id: PatternId,
) -> Result<PatternId, AllocError>
    requires inside { id.0 < count schema.old.pool }
    requires right { AreRight close schema.old.pool kept.old }
    ensures within { IfOk result (λ r. r.0 < count schema.new.pool) }
    ensures made { IfOk result (λ r. tree_at schema.new.pool r.0 ≡ close (tree_at schema.old.pool id.0)) }
    ensures kept { Extends schema.old.pool schema.new.pool }
    ensures right { AreRight close schema.new.pool kept.new }
    ensures schema { schema.new.schema ≡ schema.old.schema }
{
    if let Some(made) = close_of_leaf(schema.pool(), id) {
        return Ok(made);
    }
    if let Some(made) = kept.get(id) {
        return Ok(made);
    }
    let made = close_of(schema, kept, id)?;
    kept.put(id, made)?;
    Ok(made)
}

// The pattern after a tag, from what its parts are after it.
#[cycle(close)]
#[tactic(auto, unfolding(rng_model::specs::Derivatives::close))]
fn close_of(schema: &mut Schema, kept: &mut Results, id: PatternId) -> Result<PatternId, AllocError>
    requires inside { id.0 < count schema.old.pool }
    requires right { AreRight close schema.old.pool kept.old }
    ensures within { IfOk result (λ r. r.0 < count schema.new.pool) }
    ensures made { IfOk result (λ r. tree_at schema.new.pool r.0 ≡ close (tree_at schema.old.pool id.0)) }
    ensures kept { Extends schema.old.pool schema.new.pool }
    ensures right { AreRight close schema.new.pool kept.new }
    ensures schema { schema.new.schema ≡ schema.old.schema }
{
    match schema.pool().node(id) {
        Node::OneOrMore(part) => {
            let part = close(schema, kept, part)?;
            schema.one_or_more(part)
        }
        Node::Choice(first, others) => close_members(schema, kept, id, first, others),
        Node::Group(first, second) => {
            let left = close(schema, kept, first)?;
            let right = close(schema, kept, second)?;
            schema.group(left, right)
        }
        Node::Interleave(first, second) => {
            let left = close(schema, kept, first)?;
            let right = close(schema, kept, second)?;
            schema.interleave(left, right)
        }
        Node::After(first, second) => {
            let left = close(schema, kept, first)?;
            schema.after(left, second)
        }
        Node::Attribute(_, _) => Ok(schema.pool().not_allowed()),
        Node::DataType(_, None) | Node::DataType(_, Some(_)) => Ok(id),
        Node::NotAllowed | Node::Empty | Node::AnyText | Node::Ref(_) | Node::Value(_, _) => Ok(id),
    }
}

// The choice of what the members are after a tag, joined from the last on.
#[cycle(close)]
fn close_members(
    schema: &mut Schema,
    kept: &mut Results,
    id: PatternId,
    first: PatternId,
    others: PatternId,
) -> Result<PatternId, AllocError>
    requires inside { id.0 < count schema.old.pool }
    requires first { first.0 < id.0 }
    requires others { others.0 < id.0 }
    requires tree { tree_at schema.old.pool id.0 ≡ choice (tree_at schema.old.pool first.0) (tree_at schema.old.pool others.0) }
    requires right { AreRight close schema.old.pool kept.old }
    ensures within { IfOk result (λ r. r.0 < count schema.new.pool) }
    ensures made { IfOk result (λ r. tree_at schema.new.pool r.0 ≡ close (tree_at schema.old.pool id.0)) }
    ensures kept { Extends schema.old.pool schema.new.pool }
    ensures right { AreRight close schema.new.pool kept.new }
    ensures schema { schema.new.schema ≡ schema.old.schema }
{
    let (mut firsts, last) = spine(schema.pool(), id, first, others)?;
    let mut rest = close(schema, kept, last)?;
    while let Some(member) = firsts.pop() {
        let made = close(schema, kept, member)?;
        rest = schema.choice(made, rest)?;
    }
    Ok(rest)
}

// What follows an open element, where what is inside takes nothing more.
fn left_behind(pool: &Pool, inside: PatternId, behind: PatternId) -> PatternId
    requires inside { inside.0 < count pool.now }
    requires behind { behind.0 < count pool.now }
    ensures within { result.0 < count pool.now }
    ensures tree { tree_at pool.now result.0 ≡ where_true (nullable (tree_at pool.now inside.0)) (tree_at pool.now behind.0) }
{
    if pool.nullable(inside) {
        behind
    } else {
        pool.not_allowed()
    }
}

/// The pattern after the end of an element.
#[cycle(ending)]
#[tactic(auto, unfolding(rng_model::specs::Derivatives::ending))]
pub(crate) fn ending(schema: &mut Schema, id: PatternId) -> Result<PatternId, AllocError>
    requires { id.0 < count schema.old.pool }
    ensures within { IfOk result (λ r. r.0 < count schema.new.pool) }
    ensures made { IfOk result (λ r. tree_at schema.new.pool r.0 ≡ ending (tree_at schema.old.pool id.0)) }
    ensures kept { Extends schema.old.pool schema.new.pool }
    ensures schema { schema.new.schema ≡ schema.old.schema }
{
    match schema.pool().node(id) {
        Node::After(inside, behind) => Ok(left_behind(schema.pool(), inside, behind)),
        Node::Choice(first, others) => ending_members(schema, id, first, others),
        Node::DataType(_, None) | Node::DataType(_, Some(_)) => Ok(schema.pool().not_allowed()),
        _ => Ok(schema.pool().not_allowed()),
    }
}

// The choice of what the members are after the end of an element, joined from the last on.
#[cycle(ending)]
fn ending_members(
    schema: &mut Schema,
    id: PatternId,
    first: PatternId,
    others: PatternId,
) -> Result<PatternId, AllocError>
    requires inside { id.0 < count schema.old.pool }
    requires first { first.0 < id.0 }
    requires others { others.0 < id.0 }
    requires tree { tree_at schema.old.pool id.0 ≡ choice (tree_at schema.old.pool first.0) (tree_at schema.old.pool others.0) }
    ensures within { IfOk result (λ r. r.0 < count schema.new.pool) }
    ensures made { IfOk result (λ r. tree_at schema.new.pool r.0 ≡ ending (tree_at schema.old.pool id.0)) }
    ensures kept { Extends schema.old.pool schema.new.pool }
    ensures schema { schema.new.schema ≡ schema.old.schema }
{
    let (mut firsts, last) = spine(schema.pool(), id, first, others)?;
    let mut rest = ending(schema, last)?;
    while let Some(member) = firsts.pop() {
        let made = ending(schema, member)?;
        rest = schema.choice(made, rest)?;
    }
    Ok(rest)
}

/// The pattern after the end of an element in which no text or element was read: an empty text may have stood there. Results after the
/// empty text are kept by number.
#[tactic(auto, using(crate::proofs::KeepingTexts::sets_extend))]
pub(crate) fn fresh_ending(
    schema: &mut Schema,
    texts: &mut TextResults,
    id: PatternId,
) -> Result<PatternId, AllocError>
    requires inside { id.0 < count schema.old.pool }
    requires texts { AreTextResults [] schema.old.pool texts.old }
    ensures within { IfOk result (λ r. r.0 < count schema.new.pool) }
    ensures made { IfOk result (λ r. tree_at schema.new.pool r.0 ≡ ending (choice_of (tree_at schema.old.pool id.0) (text_step [] (tree_at schema.old.pool id.0)))) }
    ensures kept { Extends schema.old.pool schema.new.pool }
    ensures sets { AreSets schema.new.pool texts.new.choices }
    ensures schema { schema.new.schema ≡ schema.old.schema }
{
    let nothing = Text::from_string(String::new(schema.allocator()));
    let after = text_step(schema, texts, &nothing, id)?;
    let either = schema.choice(id, after)?;
    ending(schema, either)
}
