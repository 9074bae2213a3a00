//! The schema of a graph's forms: the elements that the start leads to are kept, numbered by the places of their tokens.
#![tactic(auto)]

ghost use Rattle.std.specs.Prelude.{IfOk, IfErr};
ghost use Rattle.kept_elements.specs.Outcomes.{AreEntries, AreFormsOfGraph, AreKept, IsCause, IsSchemaOf};
ghost use Rattle.kept_elements.specs.Marking.{AreWanted};
ghost use Rattle.kept_elements.specs.Renumbering.{AreRemade};
ghost use Rattle.kept_elements.specs.Wanted.{IsReady};

mod depth;
mod element;
mod fault;
mod kept;
mod renumber;
mod search;

use crate::depth::is_too_deep;
use crate::element::{content_form, element_class, form_at};
use crate::kept::kept_numbers;
use crate::renumber::{Remade, made_at, remake_all};
use crate::search::wanted;
pub use fault::SchemaFault;
use pattern_forms::Forms;
use pattern_intern::{Definitions, Schema};
use schema_graph::Graph;
use std::alloc::{AllocError, Global};

// What is wanted has forms.
fn are_ready(graph: &Graph, forms: &Forms)
    requires { AreFormsOfGraph graph.now forms.now.pool forms.now.forms.items }
    ensures { IsReady graph.now forms.now.pool forms.now.forms.items }
{
    let (_graph, _forms) = (graph, forms);
}

// The definitions of the kept elements, in their order.
fn definitions(
    alloc: Global,
    graph: &Graph,
    forms: &Forms,
    kept: &[usize],
    marks: &[bool],
    remade: &Remade,
) -> Result<Definitions, AllocError>
    requires ready { IsReady graph.now forms.now.pool forms.now.forms.items }
    requires wanted { AreWanted graph.now forms.now.pool forms.now.forms.items marks.now }
    requires kept { AreKept graph.now forms.now.pool forms.now.forms.items kept.now }
    requires remade { AreRemade forms.now.pool remade.now.pool kept.now marks.now remade.now.made.items }
    ensures { IfOk result (AreEntries graph.now forms.now.pool remade.now.pool forms.now.forms.items kept.now) }
{
    let _marks = marks;
    let mut definitions = Definitions::new(alloc);
    for k in 0..kept.len() {
        let class = element_class(graph, &forms.forms, kept[k]).copy(alloc)?;
        let content = content_form(graph, &forms.forms, kept[k]);
        definitions.push(class, made_at(&remade.made, content))?;
    }
    Ok(definitions)
}

/// The schema of a graph's forms (section Simplification): its start is the form of the root, and of the elements those are kept
/// that stand in the start or in a kept element's content, numbered from 0 in the order of their old numbers. A start, a content or a
/// name class deeper than 1,024 levels is refused.
pub fn schema(alloc: Global, graph: &Graph, forms: Forms) -> Result<Schema, SchemaFault>
    requires { AreFormsOfGraph graph.now forms.pool forms.forms.items }
    ensures ok { IfOk result (λ r. IsSchemaOf graph.now r.schema) }
    ensures err { IfErr result (IsCause graph.now) }
{
    are_ready(graph, &forms);
    let marks = wanted(alloc, graph, &forms)?;
    let kept = kept_numbers(alloc, graph, &forms, &marks)?;
    if is_too_deep(graph, &forms, &marks, &kept) {
        return Err(SchemaFault::ExpandedTooDeep);
    }
    let remade = remake_all(alloc, &forms.pool, &marks, &kept)?;
    let definitions = definitions(alloc, graph, &forms, &kept, &marks, &remade)?;
    let Remade { pool, made } = remade;
    let start = made_at(&made, form_at(&forms.forms, graph.root));
    Ok(Schema::new(pool, start, definitions))
}
