// Whether an attribute of the name may be taken next.
ghost use Rattle.std.specs.Prelude.{◌≡◌, ◌<◌, IfOk, IfSome};
ghost use Rattle.rng_model.specs.Patterns.{choice};
ghost use Rattle.pattern_intern.specs.Stored.{count, tree_at};
ghost use Rattle.table_laws.specs.Remainders.{takes_name};
ghost use Rattle.derivatives.specs.Visits.{AreBare};

use crate::visits::Visits;
use name_classes::Name;
use pattern_intern::{Node, PatternId, Pool};
use std::alloc::AllocError;

// The answer, where it can be told without looking into parts.
#[tactic(auto, unfolding(table_laws::specs::Remainders::takes_name))]
fn name_of_leaf(pool: &Pool, name: &Name, id: PatternId) -> Option<bool>
    requires { id.0 < count pool.now }
    ensures { IfSome result (λ b. b ≡ takes_name name.now (tree_at pool.now id.0)) }
{
    match pool.node(id) {
        Node::Attribute(class, _) => Some(pool.class(class).contains(name)),
        Node::DataType(_, None) | Node::DataType(_, Some(_)) => Some(false),
        Node::NotAllowed | Node::Empty | Node::AnyText | Node::Ref(_) | Node::Value(_, _) => {
            Some(false)
        }
        _ => None,
    }
}

// Whether it may be taken: a number that was looked into in vain isn't looked into again.
#[cycle(name)]
fn name_in(pool: &Pool, bare: &mut Visits, name: &Name, id: PatternId) -> Result<bool, AllocError>
    requires inside { id.0 < count pool.now }
    requires bare { AreBare (takes_name name.now) pool.now bare.old }
    ensures taken { IfOk result (λ b. b ≡ takes_name name.now (tree_at pool.now id.0)) }
    ensures bare { AreBare (takes_name name.now) pool.now bare.new }
{
    if let Some(taken) = name_of_leaf(pool, name, id) {
        return Ok(taken);
    }
    if bare.has(id) {
        return Ok(false);
    }
    if name_in_parts(pool, bare, name, id)? {
        return Ok(true);
    }
    bare.note(id)?;
    Ok(false)
}

// Whether a part may take it.
#[cycle(name)]
#[tactic(auto, unfolding(table_laws::specs::Remainders::takes_name))]
fn name_in_parts(
    pool: &Pool,
    bare: &mut Visits,
    name: &Name,
    id: PatternId,
) -> Result<bool, AllocError>
    requires inside { id.0 < count pool.now }
    requires bare { AreBare (takes_name name.now) pool.now bare.old }
    ensures taken { IfOk result (λ b. b ≡ takes_name name.now (tree_at pool.now id.0)) }
    ensures bare { AreBare (takes_name name.now) pool.now bare.new }
{
    match pool.node(id) {
        Node::Choice(first, others) => name_in_members(pool, bare, name, id, first, others),
        Node::Group(first, second) | Node::Interleave(first, second) => {
            if name_in(pool, bare, name, first)? {
                return Ok(true);
            }
            name_in(pool, bare, name, second)
        }
        Node::OneOrMore(part) | Node::After(part, _) => name_in(pool, bare, name, part),
        Node::Attribute(class, _) => Ok(pool.class(class).contains(name)),
        Node::DataType(_, None) | Node::DataType(_, Some(_)) => Ok(false),
        Node::NotAllowed | Node::Empty | Node::AnyText | Node::Ref(_) | Node::Value(_, _) => {
            Ok(false)
        }
    }
}

// Whether a member may take it.
#[cycle(name)]
#[tactic(auto, unfolding(table_laws::specs::Remainders::takes_name))]
fn name_in_members(
    pool: &Pool,
    bare: &mut Visits,
    name: &Name,
    id: PatternId,
    first: PatternId,
    others: PatternId,
) -> Result<bool, AllocError>
    requires inside { id.0 < count pool.now }
    requires first { first.0 < id.0 }
    requires others { others.0 < id.0 }
    requires tree { tree_at pool.now id.0 ≡ choice (tree_at pool.now first.0) (tree_at pool.now others.0) }
    requires bare { AreBare (takes_name name.now) pool.now bare.old }
    ensures taken { IfOk result (λ b. b ≡ takes_name name.now (tree_at pool.now id.0)) }
    ensures bare { AreBare (takes_name name.now) pool.now bare.new }
{
    if name_in(pool, bare, name, first)? {
        return Ok(true);
    }
    let mut rest = others;
    while let Node::Choice(member, more) = pool.node(rest) {
        if name_in(pool, bare, name, member)? {
            return Ok(true);
        }
        rest = more;
    }
    name_in(pool, bare, name, rest)
}

/// Whether an attribute of the name may be taken next, if its text is right. Each number is looked into once; `bare` is for its memory
/// alone.
pub(crate) fn takes_name(
    pool: &Pool,
    bare: &mut Visits,
    name: &Name,
    id: PatternId,
) -> Result<bool, AllocError>
    requires { id.0 < count pool.now }
    ensures { IfOk result (λ b. b ≡ takes_name name.now (tree_at pool.now id.0)) }
{
    bare.clear();
    name_in(pool, bare, name, id)
}
