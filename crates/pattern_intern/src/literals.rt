// The literals of a schema, each number of its pool visited once, from the greatest down: parts have smaller numbers.
ghost use Rattle.std.specs.Prelude.{◌≡◌, ℕ, ◌+◌, ◌<◌, ◌⊎◌, ◌↔◌, Bool, List, false, ◌∷◌, length, map, replicate, Contains, IfOk, OnOk};
ghost use Rattle.std.specs.List.{AllByRecursion};
ghost use Rattle.rng_model.specs.Kinds.{Kind as KindValue};
ghost use Rattle.rng_model.specs.Patterns.{Schema as SchemaValue, value};
ghost use Rattle.rng_model.specs.Texts.{Text as TextValue};
ghost use Rattle.rng_model.specs.Universe.{IsOfKind};
ghost use Rattle.pattern_intern.specs.Marks.{IsSearch, content_of, parts_of, with_marks};
ghost use Rattle.pattern_intern.specs.Schemas.{AreBelow};
ghost use Rattle.pattern_intern.specs.Stored.{count};
ghost use Rattle.pattern_intern.specs.Trees.{IsNode, PartsBelow, node_tree};

use crate::id::PatternId;
use crate::node::Node;
use crate::pool::Pool;
use crate::schema::Definitions;
use std::alloc::{AllocError, Global};
use text_atoms::Literals;

/// No mark among so many numbers.
pub(crate) fn unmarked(alloc: Global, len: usize) -> Result<Vec<bool>, AllocError>
    ensures { IfOk result (λ marks. marks.items ≡ replicate len false) }
{
    Ok(vec![in alloc; false; len]?)
}

/// Marks of the start and the contents, among so many numbers.
pub(crate) fn roots(
    alloc: Global,
    len: usize,
    start: PatternId,
    elements: &Definitions,
) -> Result<Vec<bool>, AllocError>
    requires start { start.0 < len }
    requires contents { AreBelow len elements.now }
    ensures { IfOk result (λ marks. marks.items ≡ with_marks (replicate len false) (start.0 ∷ map (λ x. x.1) elements.now)) }
{
    let mut marks = unmarked(alloc, len)?;
    marks[start.0] = true;
    for k in 0..elements.len() {
        marks[elements.content(k).0] = true;
    }
    Ok(marks)
}

/// Marks the parts of a node.
pub(crate) fn mark_parts(marks: &mut Vec<bool>, node: Node)
    requires { AllByRecursion (λ id. id < length marks.old.items) (parts_of node) }
    ensures { marks.new.items ≡ with_marks marks.old.items (parts_of node) }
{
    match node {
        Node::NotAllowed | Node::Empty | Node::AnyText | Node::Ref(_) | Node::Value(_, _) => {}
        Node::DataType(_, None) => {}
        Node::DataType(_, Some(part)) | Node::Attribute(_, part) | Node::OneOrMore(part) => {
            marks[part.0] = true;
        }
        Node::Choice(left, right)
        | Node::Group(left, right)
        | Node::Interleave(left, right)
        | Node::After(left, right) => {
            marks[left.0] = true;
            marks[right.0] = true;
        }
    }
}

// Marks the content of an attribute.
fn mark_content(marks: &mut Vec<bool>, node: Node)
    requires { AllByRecursion (λ id. id < length marks.old.items) (parts_of node) }
    ensures { marks.new.items ≡ with_marks marks.old.items (content_of node) }
{
    match node {
        Node::Attribute(_, content) => marks[content.0] = true,
        Node::DataType(_, None) => {}
        Node::DataType(_, Some(_)) => {}
        _ => {}
    }
}

// Notes the literal of a value, and the kind of a value or datatype.
fn note(alloc: Global, pool: &Pool, node: Node, literals: &mut Literals) -> Result<(), AllocError>
    requires { PartsBelow (count pool.now) pool.now node }
    ensures members { OnOk result ((x : KindValue × TextValue) → Contains literals.new.members x ↔ (Contains literals.old.members x ⊎ (node_tree pool.now node ≡ value x.0 x.1))) }
    ensures kinds { OnOk result ((k : KindValue) → Contains literals.new.kinds k ↔ (Contains literals.old.kinds k ⊎ IsOfKind k (node_tree pool.now node))) }
    ensures has_empty { OnOk result (literals.new.has_empty ≡ literals.old.has_empty) }
{
    match node {
        Node::Value(kind, literal) => {
            literals.push(kind, pool.literal(literal).copy(alloc)?)?;
            literals.mark_kind(kind);
        }
        Node::DataType(kind, None) => literals.mark_kind(kind),
        Node::DataType(kind, Some(_)) => literals.mark_kind(kind),
        _ => {}
    }
    Ok(())
}

// Visits a pattern as one that stands inside an attribute, if it is marked so.
fn visit_inside(
    pool: &Pool,
    id: PatternId,
    node: Node,
    inside: &mut Vec<bool>,
    literals: &mut Literals,
)
    requires within { id.0 < count pool.now }
    requires node { IsNode pool.now id.0 node }
    requires length { length inside.old.items ≡ count pool.now }
    ensures length { length inside.new.items ≡ count pool.now }
    ensures search { (g : SchemaValue) (reached : List Bool) (n : ℕ) → IsSearch g pool.now reached inside.old.items literals.old n (id.0 + 1) → IsSearch g pool.now reached inside.new.items literals.new n id.0 }
{
    if !inside[id.0] {
        return;
    }
    match node {
        Node::Empty => literals.mark_empty(),
        Node::DataType(_, None) => mark_parts(inside, node),
        Node::DataType(_, Some(_)) => mark_parts(inside, node),
        _ => mark_parts(inside, node),
    }
}

// Visits a pattern that is reached, if it is marked so.
fn visit_reached(
    alloc: Global,
    pool: &Pool,
    id: PatternId,
    node: Node,
    reached: &mut Vec<bool>,
    inside: &mut Vec<bool>,
    literals: &mut Literals,
) -> Result<(), AllocError>
    requires within { id.0 < count pool.now }
    requires node { IsNode pool.now id.0 node }
    requires reached { length reached.old.items ≡ count pool.now }
    requires inside { length inside.old.items ≡ count pool.now }
    ensures { OnOk result ((g : SchemaValue) → IsSearch g pool.now reached.old.items inside.old.items literals.old (id.0 + 1) id.0 → IsSearch g pool.now reached.new.items inside.new.items literals.new id.0 id.0) }
{
    if !reached[id.0] {
        return Ok(());
    }
    mark_parts(reached, node);
    mark_content(inside, node);
    note(alloc, pool, node, literals)
}

/// Visits a pattern: its literal and kind are noted, and its parts marked as it is.
pub(crate) fn visit(
    alloc: Global,
    pool: &Pool,
    id: PatternId,
    reached: &mut Vec<bool>,
    inside: &mut Vec<bool>,
    literals: &mut Literals,
) -> Result<(), AllocError>
    requires within { id.0 < count pool.now }
    requires reached { length reached.old.items ≡ count pool.now }
    requires inside { length inside.old.items ≡ count pool.now }
    ensures { OnOk result ((g : SchemaValue) → IsSearch g pool.now reached.old.items inside.old.items literals.old (id.0 + 1) (id.0 + 1) → IsSearch g pool.now reached.new.items inside.new.items literals.new id.0 id.0) }
{
    let node = pool.node(id);
    visit_inside(pool, id, node, inside, literals);
    visit_reached(alloc, pool, id, node, reached, inside, literals)
}
