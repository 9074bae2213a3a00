// Marks of states for fewer than 64 nodes, in a word for each state.
ghost use Rattle.std.specs.Prelude.{◌≡◌, ◌≢◌, ℕ, ◌<◌, ◌≤◌, [], ◌∷◌, ◌++◌, Some, map, take, length, slice_get, slice_set, OnErr, OnOk};
ghost use Rattle.transitions.specs.Bits.{has_bit, list_of};

use std::alloc::{AllocError, Global};
use std::marker::Model;

/// How many numbers of nodes have a bit in the word of a state.
pub(crate) const BITS: usize = 64;

/// For each number of nodes from 0 on, but fewer than 64, which states can finish with exactly so many: bit `rest` of the word of a
/// state is its mark, if it is below the number of states that are marked for `rest`.
#[derive(Drop)]
pub(crate) struct MarkWords {
    words: Vec<u64>,
    lens: Vec<usize>,
}

impl Model for MarkWords {
    ghost use Rattle.std.specs.Prelude.{Bool, List};
    ghost use Rattle.transitions.specs.Bits.{AreColumns, columns};

    ghost Value = { List (List Bool) };

    ghost view = { λ m. columns 0 m.words.items m.lens.items };

    ghost invariant = { λ m. AreColumns m.words.items m.lens.items };
}

// Whether a bit is set.
fn has_bit(word: u64, rest: usize) -> bool
    requires { rest < 64 }
    ensures { result ≡ has_bit rest word }
{
    (word >> rest) & 1 == 1
}

// The word with the bit set or cleared.
fn with_bit(word: u64, rest: usize, mark: bool) -> u64
    requires { rest < 64 }
    ensures itself { has_bit rest result ≡ mark }
    ensures others { (k : ℕ) → k < 64 → k ≢ rest → has_bit k result ≡ has_bit k word }
{
    if mark {
        word | 1 << rest
    } else {
        word & !(1 << rest)
    }
}

// Adds the word of a state where the state is the next one.
fn hold(words: &mut Vec<u64>, id: usize) -> Result<(), AllocError>
    requires { id ≤ length words.old.items }
    ensures longer { length words.old.items ≤ length words.new.items }
    ensures stay { (n : ℕ) → n ≤ length words.old.items → take n words.new.items ≡ take n words.old.items }
    ensures held { OnOk result (id < length words.new.items) }
{
    if id == words.len() {
        words.push(0)?;
    }
    Ok(())
}

impl MarkWords {
    /// No lists.
    pub(crate) fn new(alloc: Global) -> MarkWords
        ensures { result ≡ [] }
    {
        MarkWords {
            words: Vec::new(alloc),
            lens: Vec::new(alloc),
        }
    }

    /// How many numbers of nodes there are.
    pub(crate) fn count(&self) -> usize
        ensures { result ≡ length self.now }
    {
        self.lens.len()
    }

    /// How many states are marked for a number of nodes.
    pub(crate) fn len(&self, rest: usize) -> usize
        requires { rest < length self.now }
        ensures { result ≡ length (list_of self.now rest) }
    {
        self.lens[rest]
    }

    /// The mark of a state.
    pub(crate) fn mark(&self, rest: usize, id: usize) -> bool
        requires listed { rest < length self.now }
        requires marked { id < length (list_of self.now rest) }
        ensures { slice_get (list_of self.now rest) id ≡ Some result }
    {
        has_bit(self.words[id], rest)
    }

    /// Begins the list of the next number of nodes.
    pub(crate) fn begin(&mut self) -> Result<(), AllocError>
        requires { length self.old < 64 }
        ensures ok { OnOk result (self.new ≡ self.old ++ [] ∷ []) }
        ensures err { OnErr result (self.new ≡ self.old) }
    {
        self.lens.push(0)?;
        Ok(())
    }

    /// Adds the mark of the next state to the list of a number of nodes.
    pub(crate) fn push(&mut self, rest: usize, mark: bool) -> Result<(), AllocError>
        requires { rest < length self.old }
        ensures ok { OnOk result (self.new ≡ slice_set self.old rest (list_of self.old rest ++ mark ∷ [])) }
        ensures err { OnErr result (self.new ≡ self.old) }
    {
        let id = self.lens[rest];
        hold(&mut self.words, id)?;
        self.words[id] = with_bit(self.words[id], rest, mark);
        self.lens[rest] = id + 1;
        Ok(())
    }

    /// Keeps the marks of the states below the number.
    pub(crate) fn truncate(&mut self, count: usize)
        ensures { self.new ≡ map (take count) self.old }
    {
        for rest in 0..self.lens.len() {
            self.lens[rest] = self.lens[rest].min(count);
        }
        self.words.truncate(count);
    }
}
