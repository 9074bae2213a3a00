// The nodes that are made.
ghost use Rattle.std.specs.Prelude.{◌≡◌, [], ◌∷◌, ◌++◌, ◌<◌, length, slice_set, IfOk, OnOk};
ghost use Rattle.tree_graph.specs.States.{AreNodesIn, IsBegun, IsNodeIn};

use schema_graph::Node;
use std::alloc::{AllocError, Global};
use std::marker::Model;

/// The nodes so far. What is there stays, but for the numbers that are set later.
#[derive(Drop)]
pub struct Parts {
    nodes: Vec<Node>,
    definitions: Vec<usize>,
    elements: Vec<usize>,
    tokens: usize,
}

impl Model for Parts {
    ghost use Rattle.std.specs.Prelude.{length};
    ghost use Rattle.tree_graph.specs.States.{State, AreNodesIn};
    ghost use Rattle.name_classes.specs.contracts.class.NameClass as e;
    ghost use Rattle.std.specs.Coded.{codes};

    ghost Value = { State };

    ghost coded = { Prim.hlevel (codes, e.the_row.coded) };

    ghost view = { λ p. record { nodes = p.nodes.items; definitions = p.definitions.items; elements = p.elements.items; tokens = p.tokens } };

    ghost invariant = { λ p. AreNodesIn p.nodes.items (length p.definitions.items) p.tokens };
}

impl Parts {
    /// No node, of a tree that has so many tokens.
    pub fn new(alloc: Global, tokens: usize) -> Parts
        ensures { result ≡ record { nodes = []; definitions = []; elements = []; tokens = tokens } }
    {
        Parts {
            nodes: Vec::new(alloc),
            definitions: Vec::new(alloc),
            elements: Vec::new(alloc),
            tokens,
        }
    }

    /// Adds a node and gives its number.
    pub fn push(&mut self, node: Node) -> Result<usize, AllocError>
        requires { IsNodeIn (length self.old.nodes) (length self.old.definitions) self.old.tokens node }
        ensures number { IfOk result (λ i. i ≡ length self.old.nodes) }
        ensures added { OnOk result (self.new ≡ record self.old { nodes = self.old.nodes ++ node ∷ [] }) }
    {
        let number = self.nodes.len();
        self.nodes.push(node)?;
        Ok(number)
    }

    /// How many combined definitions have a number.
    pub fn definition_count(&self) -> usize
        ensures { result ≡ length self.now.definitions }
    {
        self.definitions.len()
    }

    /// Gives a combined definition the next number.
    pub fn begin_definition(&mut self) -> Result<usize, AllocError>
        ensures number { IfOk result (λ d. d ≡ length self.old.definitions) }
        ensures added { OnOk result (self.new ≡ record self.old { definitions = self.old.definitions ++ 0 ∷ [] }) }
    {
        let number = self.definitions.len();
        self.definitions.push(0)?;
        Ok(number)
    }

    /// The node of the combined definition.
    pub fn set_definition(&mut self, definition: usize, node: usize)
        requires { definition < length self.old.definitions }
        ensures { self.new ≡ record self.old { definitions = slice_set self.old.definitions definition node } }
    {
        self.definitions[definition] = node;
    }

    /// Gives the next token its position in the order of the tree.
    pub fn begin_element(&mut self) -> Result<usize, AllocError>
        ensures position { IfOk result (λ k. k ≡ length self.old.elements) }
        ensures begun { OnOk result (IsBegun self.old self.new) }
    {
        let position = self.elements.len();
        self.elements.push(0)?;
        Ok(position)
    }

    /// The node of the token at the position is the next one that is added.
    pub fn set_element_to_next(&mut self, position: usize)
        requires { position < length self.old.elements }
        ensures { self.new ≡ record self.old { elements = slice_set self.old.elements position (length self.old.nodes) } }
    {
        self.elements[position] = self.nodes.len();
    }

    /// The nodes, the combined definitions' and the tokens'.
    pub fn into_lists(self) -> (Vec<Node>, Vec<usize>, Vec<usize>)
        ensures nodes { result.0.items ≡ self.nodes }
        ensures definitions { result.1.items ≡ self.definitions }
        ensures elements { result.2.items ≡ self.elements }
        ensures within { AreNodesIn self.nodes (length self.definitions) self.tokens }
    {
        (self.nodes, self.definitions, self.elements)
    }
}
