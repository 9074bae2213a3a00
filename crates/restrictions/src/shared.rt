// Names that both sides of a group or interleave have (sections Restrictions on attributes and on interleave).
ghost use Rattle.std.specs.Prelude.{◌≡◌, ℕ, ◌<◌, Some, false, true, length, slice_get, IfOk};
ghost use Rattle.std.specs.Bool.{OnFalse, OnTrue};
ghost use Rattle.std.specs.List.Sorted.{IsStrictlySortedBy};
ghost use Rattle.rng_model.specs.Names.{IsName, Name as NameValue, name_cmp};
ghost use Rattle.pattern_intern.specs.Stored.{count, tree_at};
ghost use Rattle.pattern_intern.specs.Trees.{PartsBelow, node_tree};
ghost use Rattle.restrictions.specs.NameSets.{IsSetOf, IsWindow, has};
ghost use Rattle.restrictions.specs.Shared.{AreMet, AreStanding, IsShared, IsStanding, named, shared};
ghost use Rattle.restrictions.specs.Truths.{within};

use crate::class_set::class_set;
use crate::name_set::{MOST, NameSet};
use crate::standing::Standing;
use name_classes::Name;
use pattern_intern::{Node, PatternId, Schema};
use std::alloc::{AllocError, Global};

/// What is looked for.
#[derive(Clone, Copy, Debug, PartialEq, Eq)]
pub(crate) enum Sought {
    /// Attributes, which may not meet in a group or an interleave.
    Attributes,
    /// Elements, which may not meet in an interleave.
    Elements,
}

// The names that the node itself can have.
fn named_set(schema: &Schema, sought: Sought, names: &[Name], node: Node) -> NameSet
    requires names { IsWindow names.now }
    requires node { PartsBelow (count schema.now.pool) schema.now.pool node }
    ensures { IsSetOf names.now (λ n. named schema.now.schema sought n (node_tree schema.now.pool node)) result }
{
    match (sought, node) {
        (Sought::Attributes, Node::Attribute(class, _)) => {
            class_set(names, schema.pool().class(class))
        }
        (Sought::Elements, Node::Ref(element)) if element < schema.element_count() => {
            class_set(names, schema.element_class(element))
        }
        (_, Node::DataType(_, None)) => NameSet::none(),
        (_, Node::DataType(_, Some(_))) => NameSet::none(),
        _ => NameSet::none(),
    }
}

// Where the names stand in a part.
fn part_at(
    schema: &Schema,
    sought: Sought,
    names: &[Name],
    id: PatternId,
    known: &[Standing],
    part: PatternId,
) -> Standing
    requires known { AreStanding schema.now.schema sought names.now schema.now.pool id.0 known.now }
    requires part { part.0 < id.0 }
    ensures { IsStanding schema.now.schema sought names.now (tree_at schema.now.pool part.0) result }
{
    known[part.0]
}

// Where the names stand in a pattern, from where they stand in its parts.
fn stand(
    schema: &Schema,
    sought: Sought,
    names: &[Name],
    id: PatternId,
    known: &[Standing],
) -> Standing
    requires names { IsWindow names.now }
    requires within { id.0 < count schema.now.pool }
    requires known { AreStanding schema.now.schema sought names.now schema.now.pool id.0 known.now }
    ensures { IsStanding schema.now.schema sought names.now (tree_at schema.now.pool id.0) result }
{
    let node = schema.pool().node(id);
    let own = named_set(schema, sought, names, node);
    match node {
        Node::NotAllowed | Node::Empty | Node::AnyText | Node::Ref(_) | Node::Value(_, _) =>
            Standing::alone(own),
        Node::DataType(_, None) => Standing::alone(own),
        Node::DataType(_, Some(part)) => {
            part_at(schema, sought, names, id, known, part).around(own)
        }
        Node::Attribute(_, part) => part_at(schema, sought, names, id, known, part).around(own),
        Node::OneOrMore(part) => part_at(schema, sought, names, id, known, part).around(own),
        Node::Choice(left, right) | Node::After(left, right) => {
            let left = part_at(schema, sought, names, id, known, left);
            left.beside(part_at(schema, sought, names, id, known, right))
        }
        Node::Group(left, right) => {
            let left = part_at(schema, sought, names, id, known, left);
            let right = part_at(schema, sought, names, id, known, right);
            match sought {
                Sought::Attributes => left.apart(right),
                Sought::Elements => left.beside(right),
            }
        }
        Node::Interleave(left, right) => {
            let left = part_at(schema, sought, names, id, known, left);
            left.apart(part_at(schema, sought, names, id, known, right))
        }
    }
}

// Where the names stand in each pattern of the schema's pool. Each number is visited once.
fn stand_all(
    alloc: Global,
    schema: &Schema,
    sought: Sought,
    names: &[Name],
) -> Result<Vec<Standing>, AllocError>
    requires { IsWindow names.now }
    ensures { IfOk result (λ known. AreStanding schema.now.schema sought names.now schema.now.pool (count schema.now.pool) known.items) }
{
    let mut known = Vec::new(alloc);
    for id in 0..schema.pool().len() {
        let next = stand(schema, sought, names, PatternId(id), &known);
        known.push(next)?;
    }
    Ok(known)
}

// The names that meet in the pattern of a number.
fn met_at(
    schema: &Schema,
    sought: Sought,
    names: &[Name],
    known: &[Standing],
    id: PatternId,
) -> NameSet
    requires known { AreStanding schema.now.schema sought names.now schema.now.pool (count schema.now.pool) known.now }
    requires within { id.0 < count schema.now.pool }
    ensures { IsSetOf names.now (λ n. within (shared schema.now.schema sought n) (tree_at schema.now.pool id.0)) result }
{
    known[id.0].meets
}

// The names that meet in the start or in a content.
fn met(schema: &Schema, sought: Sought, names: &[Name], known: &[Standing]) -> NameSet
    requires { AreStanding schema.now.schema sought names.now schema.now.pool (count schema.now.pool) known.now }
    ensures { AreMet schema.now.schema sought names.now (length schema.now.schema.elements) result }
{
    let mut met = met_at(schema, sought, names, known, schema.start());
    for element in 0..schema.element_count() {
        let content = schema.element_content(element);
        met = met.union(met_at(schema, sought, names, known, content));
    }
    met
}

// A name is one.
fn is_name(name: &Name)
    ensures { IsName name.now }
{
    let _local = name.local();
}

// Whether one of the names is in the set.
fn has_any(names: &[Name], set: NameSet) -> bool
    requires { IsWindow names.now }
    ensures yes { OnTrue result ((k : ℕ) × (n : NameValue) × (slice_get names.now k ≡ Some n) × IsName n × (has set k ≡ true)) }
    ensures no { OnFalse result ((k : ℕ) (n : NameValue) → slice_get names.now k ≡ Some n → has set k ≡ true → ⊥) }
{
    for position in 0..names.len() {
        is_name(&names[position]);
        if set.has(position) {
            return true;
        }
    }
    false
}

// Whether one of the names meets in the start or in a content.
fn window_meets(
    alloc: Global,
    schema: &Schema,
    sought: Sought,
    names: &[Name],
) -> Result<bool, AllocError>
    requires { IsWindow names.now }
    ensures yes { IfOk result (λ b. b ≡ true → (n : NameValue) × IsName n × IsShared schema.now.schema sought n) }
    ensures no { IfOk result (λ b. b ≡ false → (k : ℕ) (n : NameValue) → slice_get names.now k ≡ Some n → IsShared schema.now.schema sought n → ⊥) }
{
    let known = stand_all(alloc, schema, sought, names)?;
    Ok(has_any(names, met(schema, sought, names, &known)))
}

/// Whether one of the ascending names stands in both sides of a group or interleave, in the start or in a content. The pool is passed once
/// for 64 names.
pub(crate) fn some_name_meets(
    alloc: Global,
    schema: &Schema,
    sought: Sought,
    names: &[Name],
) -> Result<bool, AllocError>
    requires { IsStrictlySortedBy name_cmp names.now }
    ensures yes { IfOk result (λ b. b ≡ true → (n : NameValue) × IsName n × IsShared schema.now.schema sought n) }
    ensures no { IfOk result (λ b. b ≡ false → (k : ℕ) (n : NameValue) → slice_get names.now k ≡ Some n → IsShared schema.now.schema sought n → ⊥) }
{
    let mut rest = names;
    while !rest.is_empty() {
        let (window, behind) = rest.split_at(rest.len().min(MOST));
        if window_meets(alloc, schema, sought, window)? {
            return Ok(true);
        }
        rest = behind;
    }
    Ok(false)
}
