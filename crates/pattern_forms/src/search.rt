// What can be reached in the graph.
ghost use Rattle.std.specs.Prelude.{◌≡◌, ◌<◌, length, IfOk, OnOk};
ghost use Rattle.schema_graph.specs.Shown.{IsClosed};
ghost use Rattle.pattern_forms.specs.Searching.{AreReachedMarked, Grown, IsMarked, IsSearch, Spread};

use crate::leads::{step, step_count};
use schema_graph::Graph;
use std::alloc::{AllocError, Global};

/// The nodes that are found, and those of them whose steps are still to be taken.
#[derive(Drop)]
pub(crate) struct Search {
    pub(crate) marks: Vec<bool>,
    pub(crate) stack: Vec<usize>,
}

impl Search {
    // A search that begins at a node.
    fn new(alloc: Global, graph: &Graph, start: usize, contents: bool) -> Result<Search, AllocError>
        requires closed { IsClosed graph.now }
        requires start { start < length graph.now.nodes.items }
        ensures { IfOk result (IsSearch graph.now contents start) }
    {
        let mut search = Search {
            marks: vec![in alloc; false; graph.nodes.len()]?,
            stack: Vec::new(alloc),
        };
        search.visit(start)?;
        let _contents = contents;
        Ok(search)
    }

    // Marks a node, unless it is marked, and lets it wait.
    fn visit(&mut self, node: usize) -> Result<(), AllocError>
        requires { node < length self.old.marks.items }
        ensures grown { OnOk result (Grown (λ i. i ≡ node) self.old self.new) }
        ensures marked { OnOk result (IsMarked self.new.marks.items node) }
    {
        if !self.marks[node] {
            self.marks[node] = true;
            self.stack.push(node)?;
        }
        Ok(())
    }

    // Takes all steps of a node.
    fn spread(&mut self, graph: &Graph, node: usize, contents: bool) -> Result<(), AllocError>
        requires closed { IsClosed graph.now }
        requires each { length self.old.marks.items ≡ length graph.now.nodes.items }
        requires node { node < length graph.now.nodes.items }
        ensures { OnOk result (Spread graph.now contents node self.old self.new) }
    {
        for k in 0..step_count(graph, contents, node) {
            self.visit(step(graph, contents, node, k))?;
        }
        Ok(())
    }
}

/// The nodes that can be reached from one through parts and definitions, and also through contents of elements where that is asked
/// for.
pub(crate) fn reached_from(
    alloc: Global,
    graph: &Graph,
    start: usize,
    contents: bool,
) -> Result<Vec<bool>, AllocError>
    requires closed { IsClosed graph.now }
    requires start { start < length graph.now.nodes.items }
    ensures { IfOk result (λ r. AreReachedMarked graph.now contents start r.items) }
{
    let mut search = Search::new(alloc, graph, start, contents)?;
    while let Some(node) = search.stack.pop() {
        search.spread(graph, node, contents)?;
    }
    let Search { marks, stack: _ } = search;
    Ok(marks)
}
