// The remainders of patterns, from those of their parts.
ghost use Rattle.std.specs.Prelude.{◌≡◌, ◌<◌, All, IsSome, OnOk, length, map};
ghost use Rattle.rng_model.specs.Matching.{nullable};
ghost use Rattle.rng_model.specs.Patterns.{choice, ref};
ghost use Rattle.table_laws.specs.Remainders.{if_nullable, remainders, with_rest};
ghost use Rattle.pattern_intern.specs.Stored.{Extends, count, tree_at};
ghost use Rattle.derivatives.specs.Grown.{grown, part};
ghost use Rattle.derivatives.specs.Remainders.{AreSets, Gathers, IsWithin, remainders_of, set_of};

use crate::grow::Grow;
use crate::more::more;
use crate::remainder::Remainder;
use crate::remainder_set::RemainderSet;
use crate::remainder_sets::RemainderSets;
use pattern_intern::{Node, PatternId, Schema};
use std::alloc::AllocError;

/// Makes the set of a number and those of its parts, as far as they aren't kept.
#[cycle(gathers)]
pub(crate) fn make_set(
    schema: &mut Schema,
    sets: &mut RemainderSets,
    id: PatternId,
) -> Result<(), AllocError>
    requires inside { id.0 < count schema.old.pool }
    requires sets { AreSets schema.old sets.old }
    ensures made { OnOk result (IsSome (set_of sets.new id)) }
    ensures kept { Extends schema.old.pool schema.new.pool }
    ensures sets { AreSets schema.new sets.new }
    ensures schema { schema.new.schema ≡ schema.old.schema }
{
    if sets.has(id) {
        return Ok(());
    }
    let mut made = sets.spare(schema.allocator());
    gather(schema, sets, id, &mut made)?;
    sets.put(id, made.as_slice())?;
    sets.give_back(made)
}

// Adds the remainders of a pattern, from those of its parts.
#[cycle(gathers)]
#[tactic(auto, unfolding(table_laws::specs::Remainders::remainders))]
fn gather(
    schema: &mut Schema,
    sets: &mut RemainderSets,
    id: PatternId,
    made: &mut RemainderSet,
) -> Result<(), AllocError>
    requires inside { id.0 < count schema.old.pool }
    requires sets { AreSets schema.old sets.old }
    ensures gathers { OnOk result (Gathers schema.old schema.new made.old (remainders (tree_at schema.old.pool id.0)) made.new) }
    ensures kept { Extends schema.old.pool schema.new.pool }
    ensures sets { AreSets schema.new sets.new }
    ensures schema { schema.new.schema ≡ schema.old.schema }
{
    schema.holds();
    match schema.pool().node(id) {
        Node::Ref(definition) => add_opened(schema, definition, made),
        Node::OneOrMore(part) => {
            let again = more(schema, part)?;
            gather_grown(schema, sets, part, Grow::InGroup(again), made)
        }
        Node::Choice(first, others) => gather_members(schema, sets, id, first, others, made),
        Node::Group(first, second) => {
            gather_grown(schema, sets, first, Grow::InGroup(second), made)?;
            gather_passed(schema, sets, first, second, made)
        }
        Node::Interleave(first, second) => {
            gather_grown(schema, sets, first, Grow::Before(second), made)?;
            gather_grown(schema, sets, second, Grow::Behind(first), made)
        }
        Node::After(inside, behind) => {
            gather_grown(schema, sets, inside, Grow::InAfter(behind), made)
        }
        Node::DataType(_, None) | Node::DataType(_, Some(_)) => Ok(()),
        Node::NotAllowed | Node::Empty | Node::AnyText => Ok(()),
        Node::Value(_, _) | Node::Attribute(_, _) => Ok(()),
    }
}

// Adds the remainders of the members of the choice of two patterns.
#[cycle(gathers)]
fn gather_members(
    schema: &mut Schema,
    sets: &mut RemainderSets,
    id: PatternId,
    first: PatternId,
    others: PatternId,
    made: &mut RemainderSet,
) -> Result<(), AllocError>
    requires inside { id.0 < count schema.old.pool }
    requires sets { AreSets schema.old sets.old }
    requires first { first.0 < id.0 }
    requires others { others.0 < id.0 }
    requires tree { tree_at schema.old.pool id.0 ≡ choice (tree_at schema.old.pool first.0) (tree_at schema.old.pool others.0) }
    ensures gathers { OnOk result (Gathers schema.old schema.new made.old (remainders (tree_at schema.old.pool id.0)) made.new) }
    ensures kept { Extends schema.old.pool schema.new.pool }
    ensures sets { AreSets schema.new sets.new }
    ensures schema { schema.new.schema ≡ schema.old.schema }
{
    gather_part(schema, sets, first, made)?;
    let mut rest = others;
    while let Node::Choice(member, more) = schema.pool().node(rest) {
        gather_part(schema, sets, member, made)?;
        rest = more;
    }
    gather_part(schema, sets, rest, made)
}

// Adds the remainders of the second side of a group, where the first side is passed over.
#[cycle(gathers)]
fn gather_passed(
    schema: &mut Schema,
    sets: &mut RemainderSets,
    first: PatternId,
    second: PatternId,
    made: &mut RemainderSet,
) -> Result<(), AllocError>
    requires first { first.0 < count schema.old.pool }
    requires second { second.0 < count schema.old.pool }
    requires sets { AreSets schema.old sets.old }
    ensures gathers { OnOk result (Gathers schema.old schema.new made.old (if_nullable (nullable (tree_at schema.old.pool first.0)) (remainders (tree_at schema.old.pool second.0))) made.new) }
    ensures kept { Extends schema.old.pool schema.new.pool }
    ensures sets { AreSets schema.new sets.new }
    ensures schema { schema.new.schema ≡ schema.old.schema }
{
    if schema.pool().nullable(first) {
        gather_part(schema, sets, second, made)
    } else {
        Ok(())
    }
}

// Adds the remainders of a part, whose set is kept where it has parts of its own.
#[cycle(gathers)]
fn gather_part(
    schema: &mut Schema,
    sets: &mut RemainderSets,
    id: PatternId,
    made: &mut RemainderSet,
) -> Result<(), AllocError>
    requires inside { id.0 < count schema.old.pool }
    requires sets { AreSets schema.old sets.old }
    ensures gathers { OnOk result (Gathers schema.old schema.new made.old (remainders (tree_at schema.old.pool id.0)) made.new) }
    ensures kept { Extends schema.old.pool schema.new.pool }
    ensures sets { AreSets schema.new sets.new }
    ensures schema { schema.new.schema ≡ schema.old.schema }
{
    match schema.pool().node(id) {
        Node::OneOrMore(_)
        | Node::Choice(_, _)
        | Node::Group(_, _)
        | Node::Interleave(_, _)
        | Node::After(_, _) => {
            make_set(schema, sets, id)?;
            made.add_all(sets.get(id))
        }
        _ => gather(schema, sets, id, made),
    }
}

// Adds the remainders of a part, grown.
#[cycle(gathers)]
fn gather_grown(
    schema: &mut Schema,
    sets: &mut RemainderSets,
    id: PatternId,
    by: Grow,
    made: &mut RemainderSet,
) -> Result<(), AllocError>
    requires inside { id.0 < count schema.old.pool }
    requires part { part by < count schema.old.pool }
    requires sets { AreSets schema.old sets.old }
    ensures gathers { OnOk result (Gathers schema.old schema.new made.old (map (with_rest (grown by (tree_at schema.old.pool (part by)))) (remainders (tree_at schema.old.pool id.0))) made.new) }
    ensures kept { Extends schema.old.pool schema.new.pool }
    ensures sets { AreSets schema.new sets.new }
    ensures schema { schema.new.schema ≡ schema.old.schema }
{
    make_set(schema, sets, id)?;
    grow_all(schema, sets.get(id), by, made)
}

// Adds remainders, each grown.
fn grow_all(
    schema: &mut Schema,
    remainders: &[Remainder],
    by: Grow,
    made: &mut RemainderSet,
) -> Result<(), AllocError>
    requires within { All (IsWithin schema.old) remainders.now }
    requires part { part by < count schema.old.pool }
    ensures gathers { OnOk result (Gathers schema.old schema.new made.old (map (with_rest (grown by (tree_at schema.old.pool (part by)))) (remainders_of schema.old.pool remainders.now)) made.new) }
    ensures kept { Extends schema.old.pool schema.new.pool }
    ensures schema { schema.new.schema ≡ schema.old.schema }
{
    for remainder in remainders {
        let rest = by.one(schema, remainder.rest)?;
        let definition = remainder.definition;
        made.add(Remainder { definition, rest })?;
    }
    Ok(())
}

// Adds what remains of a reference: nothing.
fn add_opened(schema: &Schema, definition: usize, made: &mut RemainderSet) -> Result<(), AllocError>
    requires { definition < length schema.now.schema.elements }
    ensures { OnOk result (Gathers schema.now schema.now made.old (remainders (ref definition)) made.new) }
{
    let rest = schema.pool().empty();
    made.add(Remainder { definition, rest })
}
