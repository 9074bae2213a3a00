// The walk that makes the forms of all that a node leads to, and its own.
ghost use Rattle.std.specs.Prelude.{◌≡◌, true, false, ◌<◌, [], ◌∷◌, ◌++◌, length, IfOk, IfNone, IfSome, OnOk};
ghost use Rattle.schema_graph.specs.Shown.{HasMembers, IsClosed};
ghost use Rattle.pattern_forms.specs.Making.{Advances, AreMade, AreMadeFrom, Grows, IsFirstUnmade, IsMaking, IsPath, Leaves};
ghost use Rattle.pattern_forms.specs.Outcomes.{IsMade};
ghost use Rattle.pattern_forms.specs.Reaching.{Reaches, leads_at};
ghost use Rattle.pattern_forms.specs.Searching.{HasCycle};

use crate::leads::{step, step_count};
use crate::making::{Making, make};
use pattern_intern::PatternId;
use schema_graph::Graph;
use std::alloc::{AllocError, Global};

/// A node that is being made, and which of the nodes that it leads to is the next to look at.
#[derive(Clone, Copy)]
pub(crate) struct Frame {
    pub(crate) node: usize,
    pub(crate) next: usize,
}

// The first of the nodes that a node leads to, from the next one on, that has no form.
fn first_unmade(graph: &Graph, forms: &[Option<PatternId>], frame: Frame) -> Option<usize>
    requires closed { IsClosed graph.now }
    requires node { frame.node < length graph.now.nodes.items }
    requires each { length forms.now ≡ length graph.now.nodes.items }
    ensures some { IfSome result (IsFirstUnmade graph.now forms.now frame.node frame.next) }
    ensures none { IfNone result (AreMadeFrom graph.now forms.now frame.node frame.next (length (leads_at graph.now frame.node))) }
{
    for k in frame.next..step_count(graph, false, frame.node) {
        if forms[step(graph, false, frame.node, k)].is_none() {
            return Some(k);
        }
    }
    None
}

impl Making {
    // Makes the form of a node, where all that it leads to has one.
    fn leave(&mut self, graph: &Graph, node: usize) -> Result<(), AllocError>
        requires closed { IsClosed graph.now }
        requires members { HasMembers graph.now }
        requires making { IsMaking graph.now self.old }
        requires node { node < length graph.now.nodes.items }
        requires ready { AreMade self.old.forms.items (leads_at graph.now node) }
        requires reached { Reaches graph.now true graph.now.root node }
        ensures { OnOk result (Leaves graph.now node self.old self.new) }
    {
        let id = make(
            &mut self.pool,
            self.forms.as_slice(),
            graph,
            &graph.nodes[node],
        )?;
        self.forms[node] = Some(id);
        Ok(())
    }

    // Enters the next node, or leaves the one on top of the path. Where the next node is on the path, it leads back to itself, and
    // the answer is false.
    fn advance(
        &mut self,
        graph: &Graph,
        path: &mut Vec<Frame>,
        frame: Frame,
    ) -> Result<bool, AllocError>
        requires closed { IsClosed graph.now }
        requires members { HasMembers graph.now }
        requires making { IsMaking graph.now self.old }
        requires way { IsPath graph.now self.old (path.old.items ++ frame ∷ []) }
        ensures goes { IfOk result (λ b. b ≡ true → Advances graph.now self.old self.new (path.old.items ++ frame ∷ []) path.new.items) }
        ensures cycle { IfOk result (λ b. b ≡ false → HasCycle graph.now) }
    {
        let Some(k) = first_unmade(graph, self.forms.as_slice(), frame) else {
            self.leave(graph, frame.node)?;
            return Ok(true);
        };
        let part = step(graph, false, frame.node, k);
        if self.entered[part] {
            return Ok(false);
        }
        self.entered[part] = true;
        path.push(Frame {
            node: frame.node,
            next: k,
        })?;
        path.push(Frame {
            node: part,
            next: 0,
        })?;
        Ok(true)
    }

    /// Makes the forms of a node and of all that it leads to. The answer is false where a node leads back to itself.
    pub(crate) fn walk(
        &mut self,
        alloc: Global,
        graph: &Graph,
        start: usize,
    ) -> Result<bool, AllocError>
        requires closed { IsClosed graph.now }
        requires members { HasMembers graph.now }
        requires making { IsMaking graph.now self.old }
        requires settled { IsPath graph.now self.old [] }
        requires reached { Reaches graph.now true graph.now.root start }
        ensures making { IfOk result (λ b. b ≡ true → IsMaking graph.now self.new) }
        ensures settled { IfOk result (λ b. b ≡ true → IsPath graph.now self.new []) }
        ensures grows { IfOk result (λ b. b ≡ true → Grows self.old self.new) }
        ensures made { IfOk result (λ b. b ≡ true → IsMade self.new.forms.items start) }
        ensures cycle { IfOk result (λ b. b ≡ false → HasCycle graph.now) }
    {
        if self.entered[start] {
            return Ok(true);
        }
        self.entered[start] = true;
        let mut path = Vec::new(alloc);
        path.push(Frame {
            node: start,
            next: 0,
        })?;
        while let Some(frame) = path.pop() {
            if !self.advance(graph, &mut path, frame)? {
                return Ok(false);
            }
        }
        Ok(true)
    }
}
