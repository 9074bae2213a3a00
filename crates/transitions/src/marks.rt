// Which states can finish with how many nodes.
ghost use Rattle.std.specs.Prelude.{◌≡◌, ◌+◌, ◌-◌, ◌<◌, ◌≤◌, ◌↔◌, [], ◌∷◌, ◌++◌, Bool, List, Some, IsTrue, length, slice_get, slice_set, take, map, IfOk, OnErr, OnOk};
ghost use Rattle.transitions.specs.Bits.{list_of};
ghost use Rattle.transitions.specs.Automata.{AreAlive, Automaton};
ghost use Rattle.transitions.specs.Marked.{AreMarks, AreReady, AreRight, Finishes, FinishesFirst, HasMarks, KeepsMarks, Stay, IsBlock, IsClosed, IsReadyNode, IsWithin, LeadsOn, end_of};

use crate::arc::Arc;
use crate::block::Block;
use crate::mark_list::MarkList;
use crate::mark_words::{BITS, MarkWords};
use crate::row_list::RowList;
use crate::state_id::StateId;
use std::alloc::{AllocError, Global};
use std::marker::Model;

/// For each number of nodes, from 0 on, which states can finish with exactly so many: a bit in the word of a state while the bits last, and
/// a list for each further number.
#[derive(Drop)]
pub struct Marks {
    words: MarkWords,
    lists: Vec<MarkList>,
}

impl Model for Marks {
    ghost use Rattle.std.specs.Prelude.{Bool, List, ◌++◌};
    ghost use Rattle.transitions.specs.Bits.{AreParts};

    ghost Value = { List (List Bool) };

    ghost view = { λ m. m.words ++ m.lists.items };

    ghost invariant = { λ m. AreParts m.words m.lists.items };
}

// Whether an arc leads to a state with a mark.
fn leads_on(row: &[Arc], marks: &Marks, rest: usize) -> bool
    requires listed { rest < length marks.now }
    requires within { IsWithin row.now (length (list_of marks.now rest)) }
    ensures { IsTrue result ↔ LeadsOn row.now (list_of marks.now rest) }
{
    for place in 0..row.len() {
        if marks.get(rest, row[place].next.0) {
            return true;
        }
    }
    false
}

// Whether a state can finish: by the mark in its block, or by that of one to which codes without a node lead from it.
fn finishes(frees: &[Option<StateId>], marks: &Marks, block: &Block, from: usize) -> bool
    ghost of: { Automaton }
    requires alive { AreAlive of }
    requires closed { IsClosed of frees.now (end_of block.now) }
    requires listed { block.now.rest < length marks.now }
    requires right { AreMarks of block.now.rest (list_of marks.now block.now.rest) }
    requires block { IsBlock of block.now }
    requires start { block.now.start ≤ length (list_of marks.now block.now.rest) }
    requires from { from < end_of block.now }
    ensures { IsTrue result ↔ Finishes of block.now.rest from }
{
    let mut id = from;
    'walk: while id >= marks.len(block.rest) {
        if block.mark(id) {
            return true;
        }
        match frees[id] {
            Some(next) => id = next.0,
            None => return false,
        }
    }
    marks.get(block.rest, id)
}

impl Marks {
    /// No marks.
    pub fn new(alloc: Global) -> Marks
        ensures { result ≡ [] }
    {
        Marks {
            words: MarkWords::new(alloc),
            lists: Vec::new(alloc),
        }
    }

    // How many lists there are.
    fn count(&self) -> usize
        ensures { result ≡ length self.now }
    {
        self.words.count() + self.lists.len()
    }

    /// How many states the list of `rest` marks.
    pub fn len(&self, rest: usize) -> usize
        requires { rest < length self.now }
        ensures { result ≡ length (list_of self.now rest) }
    {
        if rest < BITS {
            self.words.len(rest)
        } else {
            self.lists[rest - BITS].len()
        }
    }

    // The mark of a state in the list of `rest`.
    fn get(&self, rest: usize, id: usize) -> bool
        requires listed { rest < length self.now }
        requires marked { id < length (list_of self.now rest) }
        ensures { slice_get (list_of self.now rest) id ≡ Some result }
    {
        if rest < BITS {
            self.words.mark(rest, id)
        } else {
            self.lists[rest - BITS].mark(id)
        }
    }

    /// Whether a state can finish with exactly `rest` nodes.
    pub fn mark(&self, rest: usize, id: StateId) -> bool
        requires { HasMarks self.now rest (id.0 + 1) }
        ensures { (list : List Bool) → slice_get self.now rest ≡ Some list → slice_get list id.0 ≡ Some result }
    {
        self.get(rest, id.0)
    }

    // Whether a code with a node leads from a state to one that can finish with exactly `left` nodes.
    fn node_mark(&self, rows: &RowList, left: usize, id: usize) -> bool
        ghost of: { Automaton }
        requires alive { AreAlive of }
        requires row { id < length rows.now }
        requires list { left < length self.now }
        requires ready { IsReadyNode of rows.now left id self.now }
        ensures { IsTrue result ↔ FinishesFirst of (left + 1) id }
    {
        leads_on(rows.get(id), self, left)
    }

    /// The block of the states from a number to another, for at least one node.
    pub fn block(
        &self,
        alloc: Global,
        rows: &RowList,
        rest: usize,
        start: usize,
        count: usize,
    ) -> Result<Block, AllocError>
        ghost of: { Automaton }
        requires alive { AreAlive of }
        requires node { 0 < rest }
        requires ready { AreReady of rows.now rest count self.now }
        requires some { start < count }
        requires few { start ≤ length of.states }
        ensures rest { IfOk result (λ b. b.rest ≡ rest) }
        ensures start { IfOk result (λ b. b.start ≡ start) }
        ensures end { IfOk result (λ b. end_of b ≡ count) }
        ensures block { IfOk result (IsBlock of) }
    {
        let mut block = Block::new(alloc, rest, start);
        for id in start..count {
            block.push(self.node_mark(rows, rest - 1, id))?;
        }
        Ok(block)
    }

    // Adds an empty list.
    fn add(&mut self, alloc: Global) -> Result<(), AllocError>
        ensures ok { OnOk result (self.new ≡ self.old ++ [] ∷ []) }
        ensures err { OnErr result (self.new ≡ self.old) }
    {
        if self.words.count() < BITS {
            self.words.begin()
        } else {
            self.lists.push(MarkList::new(alloc))?;
            Ok(())
        }
    }

    // Adds the mark of the next state to the list of `rest`.
    fn push(&mut self, rest: usize, mark: bool) -> Result<(), AllocError>
        requires { rest < length self.old }
        ensures ok { OnOk result (self.new ≡ slice_set self.old rest (list_of self.old rest ++ mark ∷ [])) }
        ensures err { OnErr result (self.new ≡ self.old) }
    {
        if rest < BITS {
            self.words.push(rest, mark)
        } else {
            self.lists[rest - BITS].push(mark)
        }
    }

    /// Begins the list of `rest`, unless it is there.
    pub fn begin(&mut self, alloc: Global, rest: usize) -> Result<(), AllocError>
        requires { rest ≤ length self.old }
        ensures stay { Stay rest self.old self.new }
        ensures kept { KeepsMarks self.old self.new }
        ensures right { (of : Automaton) → AreRight of self.old → AreRight of self.new }
        ensures listed { OnOk result (rest < length self.new) }
    {
        if rest == self.count() {
            self.add(alloc)?;
        }
        Ok(())
    }

    /// Adds the marks of a block.
    pub fn settle(&mut self, frees: &[Option<StateId>], block: &Block) -> Result<(), AllocError>
        ghost of: { Automaton }
        requires alive { AreAlive of }
        requires closed { IsClosed of frees.now (end_of block.now) }
        requires block { IsBlock of block.now }
        requires listed { block.now.rest < length self.old }
        requires right { AreMarks of block.now.rest (list_of self.old block.now.rest) }
        requires start { block.now.start ≡ length (list_of self.old block.now.rest) }
        ensures alone { self.new ≡ slice_set self.old block.now.rest (list_of self.new block.now.rest) }
        ensures right { AreMarks of block.now.rest (list_of self.new block.now.rest) }
        ensures longer { length (list_of self.old block.now.rest) ≤ length (list_of self.new block.now.rest) }
        ensures all { OnOk result (end_of block.now ≤ length (list_of self.new block.now.rest)) }
    {
        for id in block.start..block.start + block.marks.len() {
            let mark = finishes(frees, self, block, id);
            self.push(block.rest, mark)?;
        }
        Ok(())
    }

    /// Keeps the marks of the states below the number.
    pub fn cut(&mut self, count: usize)
        ensures { self.new ≡ map (take count) self.old }
    {
        self.words.truncate(count);
        for place in 0..self.lists.len() {
            self.lists[place].truncate(count);
        }
    }
}
