// Whether something in the schema is deeper than 1,024 levels.
ghost use Rattle.std.specs.Prelude.{◌≡◌, ℕ, ◌<◌, ◌≤◌, ◌++◌, List, Some, length, slice_get, IsTrue, MatchOption};
ghost use Rattle.rng_model.specs.Depths.{class_depth};
ghost use Rattle.name_classes.specs.Views.{class_of};
ghost use Rattle.rng_model.specs.Classes.{Class as ClassValue};
ghost use Rattle.name_classes.specs.declared.class.NameClass.{NameClass as Class};
ghost use Rattle.name_classes.specs.declared.part.Part.{Part as Listed};
ghost use Rattle.name_classes.specs.Parts.{parts_of};
ghost use Rattle.pattern_intern.specs.Stored.{count, tree_at};
ghost use Rattle.pattern_intern.specs.declared.id.PatternId.{PatternId as Id};
ghost use Rattle.kept_elements.specs.Marking.{AreWanted, IsMarked};
ghost use Rattle.kept_elements.specs.Outcomes.{AreKept, IsDeep, IsDeepAttribute, IsDeepElement};
ghost use Rattle.kept_elements.specs.Wanted.{HasContent, IsReady};

use crate::element::{content_form, element_class, form_at};
use name_classes::{NameClass, Part};
use pattern_forms::Forms;
use pattern_intern::{Node, PatternId, Pool};
use schema_graph::Graph;

/// The levels that a pattern or a name class may have.
const MAX_DEPTH: usize = 1024;

// The parts behind the class that the parts begin with; none where that class has more levels. It looks no deeper.
fn behind_class(parts: &[Part], levels: usize) -> Option<&[Part]>
    ensures { (c : ClassValue) (more : List Listed) → parts.now ≡ parts_of c ++ more → MatchOption result (levels < class_depth c) (λ rest. (rest.now ≡ more) × (class_depth c ≤ levels)) }
{
    if levels == 0 {
        return None;
    }
    let (part, rest) = parts.split_first()?;
    if part.is_choice() {
        let rest = behind_class(rest, levels - 1)?;
        behind_class(rest, levels - 1)
    } else if part.excepts() {
        behind_class(rest, levels - 1)
    } else {
        Some(rest)
    }
}

// Whether the class has more levels than that.
fn is_deeper(class: &NameClass, levels: usize) -> bool
    ensures deeper { IsTrue result → levels < class_depth (class_of class.now) }
    ensures others { levels < class_depth (class_of class.now) → IsTrue result }
{
    behind_class(class.parts(), levels).is_none()
}

// Whether the element's name class or its content is too deep.
fn element_is_deep(graph: &Graph, forms: &Forms, number: usize) -> bool
    requires ready { IsReady graph.now forms.now.pool forms.now.forms.items }
    requires content { (d : Class) × (id : Id) × HasContent graph.now forms.now.forms.items number d id }
    ensures deep { IsTrue result → IsDeepElement graph.now forms.now.pool forms.now.forms.items number }
    ensures others { IsDeepElement graph.now forms.now.pool forms.now.forms.items number → IsTrue result }
{
    forms.pool.depth(content_form(graph, &forms.forms, number)) > MAX_DEPTH
        || is_deeper(element_class(graph, &forms.forms, number), MAX_DEPTH)
}

// Whether the pattern is an attribute whose name class is too deep.
fn attribute_is_deep(pool: &Pool, id: PatternId) -> bool
    requires { id.0 < count pool.now }
    ensures deep { IsTrue result → IsDeepAttribute (tree_at pool.now id.0) }
    ensures others { IsDeepAttribute (tree_at pool.now id.0) → IsTrue result }
{
    match pool.node(id) {
        Node::Attribute(class, _) => is_deeper(pool.class(class), MAX_DEPTH),
        Node::DataType(_, None) => false,
        Node::DataType(_, Some(_)) => false,
        _ => false,
    }
}

// Whether one of the elements is too deep.
fn elements_are_deep(graph: &Graph, forms: &Forms, kept: &[usize]) -> bool
    requires ready { IsReady graph.now forms.now.pool forms.now.forms.items }
    requires kept { AreKept graph.now forms.now.pool forms.now.forms.items kept.now }
    ensures deep { IsTrue result → (k : ℕ) × (n : ℕ) × (slice_get kept.now k ≡ Some n) × IsDeepElement graph.now forms.now.pool forms.now.forms.items n }
    ensures others { (k n : ℕ) → slice_get kept.now k ≡ Some n → IsDeepElement graph.now forms.now.pool forms.now.forms.items n → IsTrue result }
{
    for k in 0..kept.len() {
        if element_is_deep(graph, forms, kept[k]) {
            return true;
        }
    }
    false
}

// Whether one of the marked patterns is an attribute whose name class is too deep.
fn attributes_are_deep(pool: &Pool, marks: &[bool]) -> bool
    requires { length marks.now ≡ count pool.now }
    ensures deep { IsTrue result → (i : ℕ) × IsMarked marks.now i × IsDeepAttribute (tree_at pool.now i) }
    ensures others { (i : ℕ) → IsMarked marks.now i → IsDeepAttribute (tree_at pool.now i) → IsTrue result }
{
    for id in 0..marks.len() {
        if marks[id] && attribute_is_deep(pool, PatternId(id)) {
            return true;
        }
    }
    false
}

/// Whether the form of the root, the form of a kept element's content, a kept element's name class or an attribute's is too deep.
pub(crate) fn is_too_deep(graph: &Graph, forms: &Forms, marks: &[bool], kept: &[usize]) -> bool
    requires ready { IsReady graph.now forms.now.pool forms.now.forms.items }
    requires wanted { AreWanted graph.now forms.now.pool forms.now.forms.items marks.now }
    requires kept { AreKept graph.now forms.now.pool forms.now.forms.items kept.now }
    ensures deep { IsTrue result → IsDeep graph.now forms.now.pool forms.now.forms.items }
    ensures others { IsDeep graph.now forms.now.pool forms.now.forms.items → IsTrue result }
{
    forms.pool.depth(form_at(&forms.forms, graph.root)) > MAX_DEPTH
        || elements_are_deep(graph, forms, kept)
        || attributes_are_deep(&forms.pool, marks)
}
