// The least place of a reference that leads back to itself.
ghost use Rattle.std.specs.Prelude.{◌≡◌, ℕ, true, ◌<◌, ◌↔◌, length, slice_get, IfOk};
ghost use Rattle.schema_graph.specs.Shown.{IsClosed};
ghost use Rattle.schema_graph.specs.declared.node.Node.{Node};
ghost use Rattle.pattern_forms.specs.Reaching.{IsCycle};
ghost use Rattle.pattern_forms.specs.Searching.{AreReachedMarked, IsLeast, IsLesser};

use crate::leads::step;
use crate::search::reached_from;
use schema_graph::{Graph, Node};
use std::alloc::{AllocError, Global};

// Whether a reference leads back to itself.
fn leads_back(alloc: Global, graph: &Graph, node: usize) -> Result<bool, AllocError>
    requires closed { IsClosed graph.now }
    requires reference { (at : ℕ) × (d : ℕ) × (slice_get graph.now.nodes.items node ≡ Some (Node.Reference at d)) }
    ensures { IfOk result (λ b. (b ≡ true) ↔ IsCycle graph.now node) }
{
    let marks = reached_from(alloc, graph, step(graph, false, node, 0), false)?;
    Ok(marks[node])
}

// The least place so far, or that of the node where it is a reference at a lesser place that leads back to itself.
fn lesser(
    alloc: Global,
    graph: &Graph,
    node: usize,
    least: Option<usize>,
) -> Result<Option<usize>, AllocError>
    requires closed { IsClosed graph.now }
    requires node { node < length graph.now.nodes.items }
    ensures { IfOk result (IsLesser graph.now node least) }
{
    let Node::Reference { at, .. } = &graph.nodes[node] else {
        return Ok(least);
    };
    if let Some(place) = least {
        if place <= *at {
            return Ok(least);
        }
    }
    if leads_back(alloc, graph, node)? {
        Ok(Some(*at))
    } else {
        Ok(least)
    }
}

/// The least place of a reference that can be reached and leads back to itself.
pub(crate) fn least_loop(
    alloc: Global,
    graph: &Graph,
    reached: &[bool],
) -> Result<Option<usize>, AllocError>
    requires closed { IsClosed graph.now }
    requires reached { AreReachedMarked graph.now true graph.now.root reached.now }
    ensures { IfOk result (IsLeast graph.now) }
{
    let mut least: Option<usize> = None;
    for node in 0..reached.len() {
        if reached[node] {
            least = lesser(alloc, graph, node, least)?;
        }
    }
    Ok(least)
}
