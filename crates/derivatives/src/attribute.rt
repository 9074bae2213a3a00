// The pattern after an attribute (James Clark's derivatives of patterns).
ghost use Rattle.std.specs.Prelude.{◌≡◌, ◌<◌, ◌&&◌, ◌||◌, length, IfOk, IfSome};
ghost use Rattle.rng_model.specs.Classes.{in_class};
ghost use Rattle.rng_model.specs.Derivatives.{attribute_step, text_step, where_true};
ghost use Rattle.rng_model.specs.Matching.{nullable};
ghost use Rattle.rng_model.specs.Patterns as pattern;
ghost use Rattle.rng_model.specs.Patterns.{choice};
ghost use Rattle.rng_model.specs.Texts.{is_white};
ghost use Rattle.pattern_intern.specs.Stored.{Extends, class_at, count, tree_at};
ghost use Rattle.derivatives.specs.Kept.{AreRight};
ghost use Rattle.derivatives.specs.KeptTexts.{AreTextResults};

use crate::results::Results;
use crate::sides::{empty_where, grouped, interleaved, repeated};
use crate::spine::spine;
use crate::text::text_step;
use crate::text_results::TextResults;
use name_classes::Name;
use pattern_intern::{ClassId, Node, PatternId, Pool, Schema};
use std::alloc::AllocError;
use text_atoms::{Text, is_white};

// Whether the content of an attribute takes the text: white space may stand for nothing.
fn takes(
    schema: &mut Schema,
    texts: &mut TextResults,
    text: &Text,
    content: PatternId,
) -> Result<bool, AllocError>
    requires inside { content.0 < count schema.old.pool }
    requires texts { AreTextResults text.now schema.old.pool texts.old }
    ensures taken { IfOk result (λ b. b ≡ ((nullable (tree_at schema.old.pool content.0) && is_white text.now) || nullable (text_step text.now (tree_at schema.old.pool content.0)))) }
    ensures kept { Extends schema.old.pool schema.new.pool }
    ensures texts { AreTextResults text.now schema.new.pool texts.new }
    ensures schema { schema.new.schema ≡ schema.old.schema }
{
    let white = schema.pool().nullable(content) && is_white(text.as_str());
    let after = text_step(schema, texts, text, content)?;
    Ok(white || schema.pool().nullable(after))
}

// An attribute after one: empty where the name is in its class and its content takes the text.
fn after_attribute(
    schema: &mut Schema,
    texts: &mut TextResults,
    name: &Name,
    text: &Text,
    class: ClassId,
    content: PatternId,
) -> Result<PatternId, AllocError>
    requires class { class.0 < length schema.old.pool.classes }
    requires inside { content.0 < count schema.old.pool }
    requires texts { AreTextResults text.now schema.old.pool texts.old }
    ensures within { IfOk result (λ r. r.0 < count schema.new.pool) }
    ensures made { IfOk result (λ r. tree_at schema.new.pool r.0 ≡ where_true (in_class name.now (class_at schema.old.pool class.0) && ((nullable (tree_at schema.old.pool content.0) && is_white text.now) || nullable (text_step text.now (tree_at schema.old.pool content.0)))) pattern.empty) }
    ensures kept { Extends schema.old.pool schema.new.pool }
    ensures texts { AreTextResults text.now schema.new.pool texts.new }
    ensures schema { schema.new.schema ≡ schema.old.schema }
{
    if !schema.pool().class(class).contains(name) {
        return Ok(schema.pool().not_allowed());
    }
    let taken = takes(schema, texts, text, content)?;
    Ok(empty_where(schema.pool(), taken))
}

// The pattern after an attribute, where no attribute can stand in it.
#[tactic(auto, unfolding(rng_model::specs::Derivatives::attribute_step))]
fn attribute_of_leaf(pool: &Pool, name: &Name, text: &Text, id: PatternId) -> Option<PatternId>
    requires { id.0 < count pool.now }
    ensures within { IfSome result (λ r. r.0 < count pool.now) }
    ensures made { IfSome result (λ r. tree_at pool.now r.0 ≡ attribute_step name.now text.now (tree_at pool.now id.0)) }
{
    let (_name, _text) = (name, text);
    match pool.node(id) {
        Node::DataType(_, None) | Node::DataType(_, Some(_)) => Some(pool.not_allowed()),
        Node::NotAllowed | Node::Empty | Node::AnyText | Node::Ref(_) | Node::Value(_, _) => {
            Some(pool.not_allowed())
        }
        _ => None,
    }
}

/// The pattern after an attribute. Its parts' results are kept by number, and in `texts` those of contents after the text.
#[cycle(attribute)]
pub(crate) fn attribute_step(
    schema: &mut Schema,
    kept: &mut Results,
    texts: &mut TextResults,
    name: &Name,
    text: &Text,
    id: PatternId,
) -> Result<PatternId, AllocError>
    requires inside { id.0 < count schema.old.pool }
    requires right { AreRight (attribute_step name.now text.now) schema.old.pool kept.old }
    requires texts { AreTextResults text.now schema.old.pool texts.old }
    ensures within { IfOk result (λ r. r.0 < count schema.new.pool) }
    ensures made { IfOk result (λ r. tree_at schema.new.pool r.0 ≡ attribute_step name.now text.now (tree_at schema.old.pool id.0)) }
    ensures kept { Extends schema.old.pool schema.new.pool }
    ensures right { AreRight (attribute_step name.now text.now) schema.new.pool kept.new }
    ensures texts { AreTextResults text.now schema.new.pool texts.new }
    ensures schema { schema.new.schema ≡ schema.old.schema }
{
    if let Some(made) = attribute_of_leaf(schema.pool(), name, text, id) {
        return Ok(made);
    }
    if let Some(made) = kept.get(id) {
        return Ok(made);
    }
    let made = attribute_of(schema, kept, texts, name, text, id)?;
    kept.put(id, made)?;
    Ok(made)
}

// The pattern after an attribute, from what its parts are after it.
#[cycle(attribute)]
#[tactic(auto, unfolding(rng_model::specs::Derivatives::attribute_step))]
fn attribute_of(
    schema: &mut Schema,
    kept: &mut Results,
    texts: &mut TextResults,
    name: &Name,
    text: &Text,
    id: PatternId,
) -> Result<PatternId, AllocError>
    requires inside { id.0 < count schema.old.pool }
    requires right { AreRight (attribute_step name.now text.now) schema.old.pool kept.old }
    requires texts { AreTextResults text.now schema.old.pool texts.old }
    ensures within { IfOk result (λ r. r.0 < count schema.new.pool) }
    ensures made { IfOk result (λ r. tree_at schema.new.pool r.0 ≡ attribute_step name.now text.now (tree_at schema.old.pool id.0)) }
    ensures kept { Extends schema.old.pool schema.new.pool }
    ensures right { AreRight (attribute_step name.now text.now) schema.new.pool kept.new }
    ensures texts { AreTextResults text.now schema.new.pool texts.new }
    ensures schema { schema.new.schema ≡ schema.old.schema }
{
    match schema.pool().node(id) {
        Node::Attribute(class, content) => {
            after_attribute(schema, texts, name, text, class, content)
        }
        Node::OneOrMore(part) => {
            let left = attribute_step(schema, kept, texts, name, text, part)?;
            repeated(schema, left, part)
        }
        Node::Choice(first, others) => {
            attribute_members(schema, kept, texts, name, text, id, first, others)
        }
        Node::Group(first, second) => {
            let left = attribute_step(schema, kept, texts, name, text, first)?;
            let right = attribute_step(schema, kept, texts, name, text, second)?;
            grouped(schema, (first, second), left, right)
        }
        Node::Interleave(first, second) => {
            let left = attribute_step(schema, kept, texts, name, text, first)?;
            let right = attribute_step(schema, kept, texts, name, text, second)?;
            interleaved(schema, (first, second), left, right)
        }
        Node::After(first, second) => {
            let left = attribute_step(schema, kept, texts, name, text, first)?;
            schema.after(left, second)
        }
        Node::DataType(_, None) | Node::DataType(_, Some(_)) => Ok(schema.pool().not_allowed()),
        Node::NotAllowed | Node::Empty | Node::AnyText | Node::Ref(_) | Node::Value(_, _) => {
            Ok(schema.pool().not_allowed())
        }
    }
}

// The choice of what the members are after an attribute, joined from the last on.
#[cycle(attribute)]
fn attribute_members(
    schema: &mut Schema,
    kept: &mut Results,
    texts: &mut TextResults,
    name: &Name,
    text: &Text,
    id: PatternId,
    first: PatternId,
    others: PatternId,
) -> Result<PatternId, AllocError>
    requires inside { id.0 < count schema.old.pool }
    requires first { first.0 < id.0 }
    requires others { others.0 < id.0 }
    requires tree { tree_at schema.old.pool id.0 ≡ choice (tree_at schema.old.pool first.0) (tree_at schema.old.pool others.0) }
    requires right { AreRight (attribute_step name.now text.now) schema.old.pool kept.old }
    requires texts { AreTextResults text.now schema.old.pool texts.old }
    ensures within { IfOk result (λ r. r.0 < count schema.new.pool) }
    ensures made { IfOk result (λ r. tree_at schema.new.pool r.0 ≡ attribute_step name.now text.now (tree_at schema.old.pool id.0)) }
    ensures kept { Extends schema.old.pool schema.new.pool }
    ensures right { AreRight (attribute_step name.now text.now) schema.new.pool kept.new }
    ensures texts { AreTextResults text.now schema.new.pool texts.new }
    ensures schema { schema.new.schema ≡ schema.old.schema }
{
    let (mut firsts, last) = spine(schema.pool(), id, first, others)?;
    let mut rest = attribute_step(schema, kept, texts, name, text, last)?;
    while let Some(member) = firsts.pop() {
        let made = attribute_step(schema, kept, texts, name, text, member)?;
        rest = schema.choice(made, rest)?;
    }
    Ok(rest)
}
