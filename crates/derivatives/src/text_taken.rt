// Whether a text may be taken next.
ghost use Rattle.std.specs.Prelude.{◌≡◌, ◌<◌, false, IfOk, IfSome};
ghost use Rattle.rng_model.specs.Derivatives.{text_step};
ghost use Rattle.rng_model.specs.Patterns.{choice, not_allowed};
ghost use Rattle.rng_model.specs.Texts.{Text};
ghost use Rattle.pattern_intern.specs.Stored.{count, tree_at};
ghost use Rattle.derivatives.specs.Takes.{has_text};
ghost use Rattle.derivatives.specs.Visits.{AreBare};

use crate::visits::Visits;
use pattern_intern::{Node, PatternId, Pool};
use std::alloc::AllocError;

// The answer, where it can be told without looking into parts.
#[tactic(auto, unfolding(crate::specs::Takes::has_text))]
fn text_of_leaf(pool: &Pool, id: PatternId) -> Option<bool>
    requires { id.0 < count pool.now }
    ensures { IfSome result (λ b. b ≡ has_text (tree_at pool.now id.0)) }
{
    match pool.node(id) {
        Node::DataType(_, None) | Node::DataType(_, Some(_)) => Some(true),
        Node::AnyText | Node::Value(_, _) => Some(true),
        Node::NotAllowed | Node::Empty | Node::Ref(_) | Node::Attribute(_, _) => Some(false),
        _ => None,
    }
}

// Whether it may be taken: a number that was looked into in vain isn't looked into again.
#[cycle(text)]
fn text_in(pool: &Pool, bare: &mut Visits, id: PatternId) -> Result<bool, AllocError>
    requires inside { id.0 < count pool.now }
    requires bare { AreBare has_text pool.now bare.old }
    ensures taken { IfOk result (λ b. b ≡ has_text (tree_at pool.now id.0)) }
    ensures bare { AreBare has_text pool.now bare.new }
{
    if let Some(taken) = text_of_leaf(pool, id) {
        return Ok(taken);
    }
    if bare.has(id) {
        return Ok(false);
    }
    if text_in_parts(pool, bare, id)? {
        return Ok(true);
    }
    bare.note(id)?;
    Ok(false)
}

// Whether a part may take it.
#[cycle(text)]
#[tactic(auto, unfolding(crate::specs::Takes::has_text))]
fn text_in_parts(pool: &Pool, bare: &mut Visits, id: PatternId) -> Result<bool, AllocError>
    requires inside { id.0 < count pool.now }
    requires bare { AreBare has_text pool.now bare.old }
    ensures taken { IfOk result (λ b. b ≡ has_text (tree_at pool.now id.0)) }
    ensures bare { AreBare has_text pool.now bare.new }
{
    match pool.node(id) {
        Node::Choice(first, others) => text_in_members(pool, bare, id, first, others),
        Node::Group(first, second) => {
            if text_in(pool, bare, first)? {
                return Ok(true);
            }
            if !pool.nullable(first) {
                return Ok(false);
            }
            text_in(pool, bare, second)
        }
        Node::Interleave(first, second) => {
            if text_in(pool, bare, first)? {
                return Ok(true);
            }
            text_in(pool, bare, second)
        }
        Node::OneOrMore(part) | Node::After(part, _) => text_in(pool, bare, part),
        Node::DataType(_, None) | Node::DataType(_, Some(_)) => Ok(true),
        Node::AnyText | Node::Value(_, _) => Ok(true),
        Node::NotAllowed | Node::Empty | Node::Ref(_) | Node::Attribute(_, _) => Ok(false),
    }
}

// Whether a member may take it.
#[cycle(text)]
#[tactic(auto, unfolding(crate::specs::Takes::has_text))]
fn text_in_members(
    pool: &Pool,
    bare: &mut Visits,
    id: PatternId,
    first: PatternId,
    others: PatternId,
) -> Result<bool, AllocError>
    requires inside { id.0 < count pool.now }
    requires first { first.0 < id.0 }
    requires others { others.0 < id.0 }
    requires tree { tree_at pool.now id.0 ≡ choice (tree_at pool.now first.0) (tree_at pool.now others.0) }
    requires bare { AreBare has_text pool.now bare.old }
    ensures taken { IfOk result (λ b. b ≡ has_text (tree_at pool.now id.0)) }
    ensures bare { AreBare has_text pool.now bare.new }
{
    if text_in(pool, bare, first)? {
        return Ok(true);
    }
    let mut rest = others;
    while let Node::Choice(member, more) = pool.node(rest) {
        if text_in(pool, bare, member)? {
            return Ok(true);
        }
        rest = more;
    }
    text_in(pool, bare, rest)
}

/// Whether a text may be taken next, if it is the right one. A number that was ever looked into in vain isn't looked into again.
pub(crate) fn takes_text(pool: &Pool, bare: &mut Visits, id: PatternId) -> Result<bool, AllocError>
    requires inside { id.0 < count pool.now }
    requires bare { AreBare has_text pool.now bare.old }
    ensures has_text { IfOk result (λ b. b ≡ has_text (tree_at pool.now id.0)) }
    ensures nowhere { IfOk result (λ b. b ≡ false → (s : Text) → text_step s (tree_at pool.now id.0) ≡ not_allowed) }
    ensures bare { AreBare has_text pool.now bare.new }
{
    text_in(pool, bare, id)
}
