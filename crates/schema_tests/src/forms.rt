// The forms of graphs of one node.
ghost use Rattle.schema_graph.specs.Shown.{HasMembers, IsClosed};

use pattern_forms::{FormsFault, forms_of};
use schema_graph::{Graph, Node};
use std::alloc::{AllocError, Global};

/// Whether the graph's forms are one, that of `empty`.
fn is_empty(alloc: Global, graph: &Graph) -> bool
    requires closed { IsClosed graph.now }
    requires members { HasMembers graph.now }
{
    match forms_of(alloc, graph) {
        Ok(made) => made.forms.len() == 1 && made.forms[0] == Some(made.pool.empty()),
        Err(_) => false,
    }
}

// A node alone has its form.
#[test]
fn one_node_has_its_form(rt: HostRuntime) -> Result<(), AllocError> {
    let alloc = rt.alloc();
    let graph = Graph {
        nodes: vec![in alloc; Node::Empty]?,
        definitions: vec![in alloc; 0]?,
        elements: Vec::new(alloc),
        root: 0,
    };
    assert!(rt; is_empty(alloc, &graph));
    Ok(())
}

/// Why the graph has no forms, if it has none.
fn fault_of(alloc: Global, graph: &Graph) -> Option<FormsFault>
    requires closed { IsClosed graph.now }
    requires members { HasMembers graph.now }
{
    match forms_of(alloc, graph) {
        Ok(_) => None,
        Err(fault) => Some(fault),
    }
}

// A reference that is its own definition is a loop at its place.
#[test]
fn a_reference_to_itself_is_a_loop(rt: HostRuntime) -> Result<(), AllocError> {
    let alloc = rt.alloc();
    let graph = Graph {
        nodes: vec![in alloc;
            Node::Reference {
                at: 8,
                definition: 0
            },
        ]?,
        definitions: vec![in alloc; 0]?,
        elements: Vec::new(alloc),
        root: 0,
    };
    assert_eq!(rt; fault_of(alloc, &graph), Some(FormsFault::Loop { at: 8 }));
    Ok(())
}
