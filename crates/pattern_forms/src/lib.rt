//! The simple forms of a graph's nodes: patterns in a pool, each made once.
#![tactic(auto)]

ghost use Rattle.std.specs.Prelude.{◌≡◌, true, length, IfOk, IfErr, IfNone, IfSome};
ghost use Rattle.schema_graph.specs.Shown.{HasMembers, IsClosed};
ghost use Rattle.pattern_intern.specs.Schemas.{AreRefsBelow};
ghost use Rattle.pattern_forms.specs.Making.{AllMade};
ghost use Rattle.pattern_forms.specs.Searching.{AreReachedMarked, HasCycle};
ghost use Rattle.pattern_forms.specs.Outcomes.{AreForms, AreReached, HasNoLoop, IsCause};

mod fault;
mod joining;
mod leads;
mod loops;
mod making;
mod search;
mod walk;

pub use fault::FormsFault;
use loops::least_loop;
use making::Making;
use pattern_intern::{PatternId, Pool};
use schema_graph::Graph;
use search::reached_from;
use std::alloc::{AllocError, Global};

/// Patterns, and by number of node the form of each node that can be reached.
#[derive(Drop)]
pub struct Forms {
    pub pool: Pool,
    pub forms: Vec<Option<PatternId>>,
}

// Makes the forms of all nodes that can be reached, unless one of them leads back to itself.
fn make_all(alloc: Global, graph: &Graph, reached: &[bool]) -> Result<Option<Making>, AllocError>
    requires closed { IsClosed graph.now }
    requires members { HasMembers graph.now }
    requires reached { AreReachedMarked graph.now true graph.now.root reached.now }
    ensures made { IfOk result (λ r. IfSome r (AllMade graph.now)) }
    ensures cycle { IfOk result (λ r. IfNone r (HasCycle graph.now)) }
{
    let mut making = Making::new(alloc, graph)?;
    for node in 0..reached.len() {
        if reached[node] && !making.walk(alloc, graph, node)? {
            return Ok(None);
        }
    }
    Ok(Some(making))
}

/// Makes the simple form of each node that can be reached from the root through parts, definitions and contents of elements
/// (section Simplification). An element stands as a reference to its number. Where a reference leads back to itself without an
/// element between, the least place of such a reference is the answer.
pub fn forms_of(alloc: Global, graph: &Graph) -> Result<Forms, FormsFault>
    requires closed { IsClosed graph.now }
    requires members { HasMembers graph.now }
    ensures each { IfOk result (λ r. length r.forms.items ≡ length graph.now.nodes.items) }
    ensures forms { IfOk result (λ r. AreForms graph.now r.pool r.forms.items) }
    ensures reached { IfOk result (λ r. AreReached graph.now r.forms.items) }
    ensures refs { IfOk result (λ r. AreRefsBelow (length graph.now.elements.items) r.pool) }
    ensures no_loop { IfOk result (λ r. HasNoLoop graph.now) }
    ensures fault { IfErr result (IsCause graph.now) }
{
    let reached = reached_from(alloc, graph, graph.root, true)?;
    let Some(making) = make_all(alloc, graph, reached.as_slice())? else {
        // A cycle of a tree's graph has a reference.
        let at = least_loop(alloc, graph, reached.as_slice())?.unwrap_or(0);
        return Err(FormsFault::Loop { at });
    };
    let Making {
        pool,
        forms,
        entered: _,
    } = making;
    Ok(Forms { pool, forms })
}
