// The forms that a search begins with and goes on with.
ghost use Rattle.std.specs.Prelude.{◌≡◌, ◌<◌};
ghost use Rattle.name_classes.specs.Views.{class_of};
ghost use Rattle.name_classes.specs.declared.class.NameClass.{NameClass as Class};
ghost use Rattle.pattern_forms.specs.Outcomes.{HasForm, IsMade};
ghost use Rattle.pattern_intern.specs.declared.id.PatternId.{PatternId as Id};
ghost use Rattle.kept_elements.specs.Wanted.{HasContent};

use name_classes::NameClass;
use pattern_intern::PatternId;
use schema_graph::{Graph, Node};

/// The form of a node that has one.
pub(crate) fn form_at(forms: &[Option<PatternId>], node: usize) -> PatternId
    requires { IsMade forms.now node }
    ensures { HasForm forms.now node result }
{
    match forms[node] {
        Some(id) => id,
        None => unreachable!(),
    }
}

/// The form of the content of an element.
pub(crate) fn content_form(graph: &Graph, forms: &[Option<PatternId>], number: usize) -> PatternId
    requires { (d : Class) × (id : Id) × HasContent graph.now forms.now number d id }
    ensures { (d : Class) × HasContent graph.now forms.now number d result }
{
    match &graph.nodes[graph.elements[number]] {
        Node::Element { content, .. } => form_at(forms, *content),
        _ => unreachable!(),
    }
}

/// The name class of an element.
pub(crate) fn element_class<'a>(
    graph: &'a Graph,
    forms: &[Option<PatternId>],
    number: usize,
) -> &'a NameClass
    requires { (d : Class) × (id : Id) × HasContent graph.now forms.now number d id }
    ensures { (d : Class) (id : Id) → HasContent graph.now forms.now number d id → class_of result.now ≡ class_of d }
{
    let _forms = forms;
    match &graph.nodes[graph.elements[number]] {
        Node::Element { class, .. } => class,
        _ => unreachable!(),
    }
}
