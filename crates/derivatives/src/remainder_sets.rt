// Sets of remainders, kept by number.
ghost use Rattle.std.specs.Prelude.{◌≡◌, [], cond, is_some, IsSome, Some, OnErr, OnOk};
ghost use Rattle.pattern_intern.specs.Gathered.{same_number};
ghost use Rattle.pattern_intern.specs.Schemas.{Numbered};
ghost use Rattle.pattern_intern.specs.declared.id.PatternId.{PatternId as Id};
ghost use Rattle.derivatives.specs.Remainders.{AreSets, set_of};

use crate::remainder::Remainder;
use crate::remainder_set::RemainderSet;
use indexmap::IndexMap;
use pattern_intern::PatternId;
use std::alloc::{AllocError, Global};
use std::marker::Model;

// How many numbers and remainders may always be kept.
const LEAST_BOUND: usize = 65_536;

// The memory of a set of more remainders isn't used again: it takes longer to clear than smaller sets are worth.
const SPARE_LEN: usize = 64;

/// Where the remainders of a set stand among those of all sets: the position of the first, and that behind the last.
#[derive(Clone, Copy)]
pub(crate) struct Span {
    start: usize,
    end: usize,
}

/// The remainders of patterns, by their numbers. They stay right as the pool grows.
#[derive(Drop)]
pub(crate) struct RemainderSets {
    /// The remainders of all sets, one set behind the other.
    remainders: Vec<Remainder>,
    spans: IndexMap<PatternId, Span>,
    /// Sets that were given back, whose memory is used again.
    spare: Vec<RemainderSet>,
    /// With more numbers and remainders, all sets are forgotten before another one is made.
    bound: usize,
}

impl Model for RemainderSets {
    ghost use Rattle.derivatives.specs.Remainders.{AreInside, KeptSets, kept_sets};

    ghost Value = { KeptSets };

    ghost view = { λ s. kept_sets s.remainders.items s.spans.entries };

    ghost invariant = { λ s. AreInside (kept_sets s.remainders.items s.spans.entries) };
}

impl RemainderSets {
    /// No set. It takes its memory from `alloc` as it grows.
    pub(crate) fn new(alloc: Global) -> RemainderSets
        ensures { (g : Numbered) → AreSets g result }
    {
        RemainderSets {
            remainders: Vec::new(alloc),
            spans: IndexMap::new(alloc),
            spare: Vec::new(alloc),
            bound: LEAST_BOUND,
        }
    }

    /// Whether the set of a number is kept.
    pub(crate) fn has(&self, id: PatternId) -> bool
        ensures { result ≡ is_some (set_of self.now id) }
    {
        self.spans.contains_key(&id)
    }

    /// The remainders of a number whose set is kept.
    pub(crate) fn get(&self, id: PatternId) -> &[Remainder]
        requires { IsSome (set_of self.now id) }
        ensures { set_of self.now id ≡ Some result.now }
    {
        let span = self.spans.get(&id).copied().unwrap();
        &self.remainders.as_slice()[span.start..span.end]
    }

    /// A set with no remainder, to be given back once it is put.
    pub(crate) fn spare(&mut self, alloc: Global) -> RemainderSet
        ensures none { result ≡ [] }
        ensures same { self.new ≡ self.old }
    {
        match self.spare.pop() {
            Some(mut set) => {
                set.clear();
                set
            }
            None => RemainderSet::new(alloc),
        }
    }

    /// Takes a set back, for its memory.
    pub(crate) fn give_back(&mut self, set: RemainderSet) -> Result<(), AllocError>
        ensures { self.new ≡ self.old }
    {
        if set.len() <= SPARE_LEN {
            self.spare.push(set)?;
        }
        Ok(())
    }

    /// Keeps the remainders as the set of a number. Where memory is wanting, the sets stay as before.
    pub(crate) fn put(&mut self, id: PatternId, set: &[Remainder]) -> Result<(), AllocError>
        ensures kept { OnOk result ((q : Id) → set_of self.new q ≡ cond (same_number id q) (Some set.now) (set_of self.old q)) }
        ensures unchanged { OnErr result ((q : Id) → set_of self.new q ≡ set_of self.old q) }
    {
        let start = self.remainders.len();
        self.remainders.extend_from_slice(set)?;
        let end = self.remainders.len();
        self.spans.insert(id, Span { start, end })?;
        Ok(())
    }

    // How many numbers and remainders are kept.
    fn held(&self) -> usize {
        self.spans.len().saturating_add(self.remainders.len())
    }

    /// Forgets all sets where more are kept than the bound allows, and keeps the memory. Whether none is kept.
    pub(crate) fn make_room(&mut self) -> bool
        ensures { (g : Numbered) → AreSets g self.old → AreSets g self.new }
    {
        if self.held() <= self.bound {
            return self.spans.is_empty();
        }
        self.spans.clear();
        self.remainders.clear();
        true
    }

    /// Allows twice what is kept: what one pattern needs doesn't fill the bound.
    pub(crate) fn widen(&mut self)
        ensures { self.new ≡ self.old }
    {
        self.bound = self.held().saturating_mul(2).max(LEAST_BOUND);
    }
}
