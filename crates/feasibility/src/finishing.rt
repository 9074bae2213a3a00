// Which of the states that are found can finish with how many nodes.
ghost use Rattle.std.specs.Prelude.{◌≡◌, ◌+◌, ◌<◌, ◌≤◌, IfOk, OnOk, length};
ghost use Rattle.rng_model.specs.Matching.{nullable};
ghost use Rattle.transitions.specs.Automata.{AreAlive, Automaton};
ghost use Rattle.transitions.specs.Marked.{AreReady, AreRight, HasMarks, IsBlock, IsClosed, KeepsMarks, Stay, end_of};
ghost use Rattle.feasibility.specs.Exploring.{IsExploring, at, automaton, found};
ghost use Rattle.feasibility.specs.Grown.{IsGrown};
ghost use Rattle.feasibility.specs.Marking.{AreMarked};

use crate::explorer::Explorer;
use std::alloc::AllocError;
use transitions::{Block, Marks, RowList, StateId};

impl Explorer {
    // Whether a state accepts.
    fn accepts(&self, id: usize) -> bool
        requires exploring { IsExploring self.now }
        requires held { id < length (found self.now) }
        ensures { result ≡ nullable (at self.now id).pattern }
    {
        self.derivatives.accepts(self.states.as_slice()[id])
    }

    // The block of the states from a number to another, for no node: those that accept.
    fn accepting(&self, start: usize, count: usize) -> Result<Block, AllocError>
        requires exploring { IsExploring self.now }
        requires some { start < count }
        requires most { count ≤ length (found self.now) }
        ensures rest { IfOk result (λ b. b.rest ≡ 0) }
        ensures start { IfOk result (λ b. b.start ≡ start) }
        ensures end { IfOk result (λ b. end_of b ≡ count) }
        ensures block { IfOk result (IsBlock (automaton self.now)) }
    {
        let mut block = Block::new(self.derivatives.allocator(), 0, start);
        for id in start..count {
            block.push(self.accepts(id))?;
        }
        Ok(block)
    }

    // The block of the states from a number to another.
    fn block(
        &self,
        rows: &RowList,
        marks: &Marks,
        rest: usize,
        start: usize,
        count: usize,
    ) -> Result<Block, AllocError>
        ghost of: { Automaton }
        requires is { of ≡ automaton self.now }
        requires exploring { IsExploring self.now }
        requires alive { AreAlive of }
        requires ready { AreReady of rows.now rest count marks.now }
        requires some { start < count }
        requires most { count ≤ length of.states }
        ensures rest { IfOk result (λ b. b.rest ≡ rest) }
        ensures start { IfOk result (λ b. b.start ≡ start) }
        ensures end { IfOk result (λ b. end_of b ≡ count) }
        ensures block { IfOk result (IsBlock of) }
    {
        if rest == 0 {
            self.accepting(start, count)
        } else {
            marks.block(self.derivatives.allocator(), rows, rest, start, count)
        }
    }

    // Adds the marks of the states below the number.
    fn mark_list(
        &self,
        frees: &[Option<StateId>],
        rows: &RowList,
        rest: usize,
        count: usize,
        marks: &mut Marks,
    ) -> Result<(), AllocError>
        ghost of: { Automaton }
        requires is { of ≡ automaton self.now }
        requires exploring { IsExploring self.now }
        requires alive { AreAlive of }
        requires closed { IsClosed of frees.now count }
        requires most { count ≤ length of.states }
        requires ready { AreReady of rows.now rest count marks.old }
        requires right { AreRight of marks.old }
        requires listed { rest ≤ length marks.old }
        ensures right { AreRight of marks.new }
        ensures stay { Stay rest marks.old marks.new }
        ensures kept { KeepsMarks marks.old marks.new }
        ensures all { OnOk result (HasMarks marks.new rest count) }
    {
        marks.begin(self.derivatives.allocator(), rest)?;
        let start = marks.len(rest);
        if start >= count {
            return Ok(());
        }
        let block = self.block(rows, marks, rest, start, count)?;
        marks.settle(frees, &block)
    }

    /// Adds the marks of the states that are found: of those that so many nodes reach, for each number of nodes that are left to the size. After an
    /// error each mark is right, too.
    pub(crate) fn mark(
        &self,
        frees: &[Option<StateId>],
        rows: &RowList,
        levels: &[usize],
        marks: &mut Marks,
    ) -> Result<(), AllocError>
        requires grown { IsGrown self.now frees.now rows.now levels.now }
        requires right { AreRight (automaton self.now) marks.old }
        ensures right { AreRight (automaton self.now) marks.new }
        ensures kept { KeepsMarks marks.old marks.new }
        ensures all { OnOk result (AreMarked self.now levels.now (self.now.level + 1) marks.new) }
    {
        for rest in 0..levels.len() {
            self.mark_list(frees, rows, rest, levels[self.level - rest], marks)?;
        }
        Ok(())
    }
}
