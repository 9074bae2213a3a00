// The graph.
use crate::node::Node;

/// The parts of a schema's tree by number: `root` is the whole, `definitions` has the part of each combined definition or start, and
/// `elements` that of each `element` token, by the token's number.
#[derive(Drop)]
pub struct Graph {
    pub nodes: Vec<Node>,
    pub definitions: Vec<usize>,
    pub elements: Vec<usize>,
    pub root: usize,
}
