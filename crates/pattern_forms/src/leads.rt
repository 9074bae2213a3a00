// The nodes that a node leads to: its parts, or its combined definition, and where contents count to an element's content too.
ghost use Rattle.std.specs.Prelude.{◌≡◌, ◌<◌, length, slice_get, IfSome};
ghost use Rattle.schema_graph.specs.Shown.{IsClosed, definition_of};
ghost use Rattle.pattern_forms.specs.Reaching.{steps_at, steps_of};

use schema_graph::{Graph, Node};

// How many nodes a node leads to.
fn count_of(graph: &Graph, contents: bool, node: &Node) -> usize
    requires { IfSome (definition_of node.now) (λ d. d < length graph.now.definitions.items) }
    ensures { result ≡ length (steps_of graph.now contents node.now) }
{
    match node {
        Node::Group(members) | Node::Choice(members) | Node::Interleave(members) => {
            members.as_slice().len()
        }
        Node::Attribute { .. }
        | Node::Optional(_)
        | Node::ZeroOrMore(_)
        | Node::OneOrMore(_)
        | Node::Mixed(_)
        | Node::DataType {
            except: Some(_),
            ..
        } => 1,
        Node::Reference { definition, .. } | Node::Grammar { definition } => {
            let _node = graph.definitions[*definition];
            1
        }
        Node::DataType { except: None, .. } => 0,
        Node::Element { .. } => usize::from(contents),
        Node::Empty | Node::AnyText | Node::NotAllowed | Node::Value { .. } => 0,
    }
}

// One of the nodes that a node leads to.
fn step_of(graph: &Graph, contents: bool, node: &Node, k: usize) -> usize
    requires definition { IfSome (definition_of node.now) (λ d. d < length graph.now.definitions.items) }
    requires k { k < length (steps_of graph.now contents node.now) }
    ensures { slice_get (steps_of graph.now contents node.now) k ≡ Some result }
{
    match node {
        Node::Group(members) | Node::Choice(members) | Node::Interleave(members) => {
            members.as_slice()[k]
        }
        Node::Attribute { content, .. } => *content,
        Node::Optional(part)
        | Node::ZeroOrMore(part)
        | Node::OneOrMore(part)
        | Node::Mixed(part)
        | Node::DataType {
            except: Some(part),
            ..
        } => *part,
        Node::Reference { definition, .. } | Node::Grammar { definition } => {
            graph.definitions[*definition]
        }
        Node::DataType { except: None, .. } => unreachable!(),
        Node::Element { content, .. } => *content,
        Node::Empty | Node::AnyText | Node::NotAllowed | Node::Value { .. } => unreachable!(),
    }
}

/// How many nodes a node leads to.
pub(crate) fn step_count(graph: &Graph, contents: bool, node: usize) -> usize
    requires closed { IsClosed graph.now }
    requires node { node < length graph.now.nodes.items }
    ensures { result ≡ length (steps_at graph.now contents node) }
{
    count_of(graph, contents, &graph.nodes[node])
}

/// One of the nodes that a node leads to.
pub(crate) fn step(graph: &Graph, contents: bool, node: usize, k: usize) -> usize
    requires closed { IsClosed graph.now }
    requires node { node < length graph.now.nodes.items }
    requires k { k < length (steps_at graph.now contents node) }
    ensures step { slice_get (steps_at graph.now contents node) k ≡ Some result }
    ensures within { result < length graph.now.nodes.items }
{
    step_of(graph, contents, &graph.nodes[node], k)
}
