// Which patterns of the pool are wanted.
ghost use Rattle.std.specs.Prelude.{◌≡◌, ◌<◌, ◌⊎◌, length, IfOk, OnOk};
ghost use Rattle.pattern_intern.specs.Stored.{count};
ghost use Rattle.kept_elements.specs.Marking.{AreWanted, Grown, IsFresh, IsMarked, IsWantedAt, Spread};
ghost use Rattle.kept_elements.specs.Wanted.{IsReady};

use crate::element::{content_form, form_at};
use pattern_forms::Forms;
use pattern_intern::{Node, PatternId};
use schema_graph::Graph;
use std::alloc::{AllocError, Global};

/// The patterns that are found, by number, and those of them whose parts are still to be looked at.
#[derive(Drop)]
pub(crate) struct Search {
    pub(crate) marks: Vec<bool>,
    pub(crate) stack: Vec<usize>,
}

impl Search {
    // A search among so many patterns, of which none is found.
    fn new(alloc: Global, count: usize) -> Result<Search, AllocError>
        ensures { IfOk result (IsFresh count) }
    {
        Ok(Search {
            marks: vec![in alloc; false; count]?,
            stack: Vec::new(alloc),
        })
    }

    // Marks a pattern, unless it is marked, and lets it wait.
    fn visit(&mut self, id: PatternId) -> Result<(), AllocError>
        requires { id.0 < length self.old.marks.items }
        ensures grown { OnOk result (Grown (λ i. i ≡ id.0) self.old self.new) }
        ensures marked { OnOk result (IsMarked self.new.marks.items id.0) }
    {
        if !self.marks[id.0] {
            self.marks[id.0] = true;
            self.stack.push(id.0)?;
        }
        Ok(())
    }

    // Marks two patterns.
    fn visit_both(&mut self, a: PatternId, b: PatternId) -> Result<(), AllocError>
        requires left { a.0 < length self.old.marks.items }
        requires right { b.0 < length self.old.marks.items }
        ensures grown { OnOk result (Grown (λ i. (i ≡ a.0) ⊎ (i ≡ b.0)) self.old self.new) }
        ensures left { OnOk result (IsMarked self.new.marks.items a.0) }
        ensures right { OnOk result (IsMarked self.new.marks.items b.0) }
    {
        self.visit(a)?;
        self.visit(b)
    }

    // Marks the parts of a pattern that is wanted, and for a reference the form of the element's content.
    fn spread(&mut self, graph: &Graph, forms: &Forms, id: usize) -> Result<(), AllocError>
        requires ready { IsReady graph.now forms.now.pool forms.now.forms.items }
        requires each { length self.old.marks.items ≡ count forms.now.pool }
        requires within { id < count forms.now.pool }
        requires wanted { IsWantedAt graph.now forms.now.pool forms.now.forms.items id }
        ensures { OnOk result (Spread graph.now forms.now.pool forms.now.forms.items id self.old self.new) }
    {
        match forms.pool.node(PatternId(id)) {
            Node::NotAllowed => Ok(()),
            Node::Empty => Ok(()),
            Node::AnyText => Ok(()),
            Node::Value(_, _) => Ok(()),
            Node::DataType(_, None) => Ok(()),
            Node::Ref(number) => self.visit(content_form(graph, &forms.forms, number)),
            Node::DataType(_, Some(except)) => self.visit(except),
            Node::Attribute(_, content) => self.visit(content),
            Node::OneOrMore(part) => self.visit(part),
            Node::Choice(left, right) => self.visit_both(left, right),
            Node::Group(left, right) => self.visit_both(left, right),
            Node::Interleave(left, right) => self.visit_both(left, right),
            Node::After(left, right) => self.visit_both(left, right),
        }
    }
}

/// Marks the patterns of the pool that are wanted: the form of the root, the forms of the contents of elements that are referred to,
/// and all parts of these. Each is looked at once.
pub(crate) fn wanted(alloc: Global, graph: &Graph, forms: &Forms) -> Result<Vec<bool>, AllocError>
    requires { IsReady graph.now forms.now.pool forms.now.forms.items }
    ensures { IfOk result (λ r. AreWanted graph.now forms.now.pool forms.now.forms.items r.items) }
{
    let mut search = Search::new(alloc, forms.pool.len())?;
    search.visit(form_at(&forms.forms, graph.root))?;
    while let Some(id) = search.stack.pop() {
        search.spread(graph, forms, id)?;
    }
    let Search { marks, stack: _ } = search;
    Ok(marks)
}
