// The choice of many patterns: the members of all are gathered, and the choice is made from its greatest member down.
ghost use Rattle.std.specs.Prelude.{◌≡◌, ℕ, ◌+◌, ◌<◌, length, filter, List, IfOk, OnErr, OnOk, IsPermutation, IsSorted};
ghost use Rattle.rng_model.specs.Patterns.{pattern_cmp};
ghost use Rattle.pattern_intern.specs.Gathered.{AreAllMembers, IsGathered, IsGathering, choice_of_each, is_member};
ghost use Rattle.pattern_intern.specs.Members.{AreIn, trees_at};
ghost use Rattle.pattern_intern.specs.Schemas.{AreRefsBelow};
ghost use Rattle.pattern_intern.specs.Stored.{Extends, count, tree_at};
ghost use Rattle.pattern_intern.specs.declared.id.PatternId.{PatternId as Id};

use crate::id::PatternId;
use crate::node::Node;
use crate::pool::Pool;
use indexmap::IndexSet;
use std::alloc::AllocError;
use std::cmp::Ordering;

impl Pool {
    // The number, or that of notAllowed where it isn't a number of the pool.
    fn number(&self, id: PatternId) -> PatternId
        ensures within { result.0 < count self.now }
        ensures tree { tree_at self.now result.0 ≡ tree_at self.now id.0 }
    {
        self.first_three();
        if id.0 < self.len() {
            id
        } else {
            self.not_allowed()
        }
    }

    // The order of two numbers: that of their patterns.
    fn order(&self, a: PatternId, b: PatternId) -> Ordering
        ensures { result ≡ pattern_cmp (tree_at self.now a.0) (tree_at self.now b.0) }
    {
        self.compare(self.number(a), self.number(b))
    }

    // Sorts numbers by their patterns.
    fn sort(&self, ids: &mut Vec<PatternId>) -> Result<(), AllocError>
        ensures same { IsPermutation ids.old.items ids.new.items }
        ensures sorted { OnOk result (IsSorted (λ (a b : Id). pattern_cmp (tree_at self.now a.0) (tree_at self.now b.0)) ids.new.items) }
    {
        ids.sort_by(|a, b| self.order(*a, *b))
    }

    // Whether the pattern is neither a choice nor notAllowed.
    fn is_member(&self, id: PatternId) -> bool
        requires { id.0 < count self.now }
        ensures { result ≡ is_member (tree_at self.now id.0) }
    {
        match self.node(id) {
            Node::NotAllowed | Node::Choice(_, _) => false,
            Node::DataType(_, None) => true,
            Node::DataType(_, Some(_)) => true,
            _ => true,
        }
    }

    // The patterns, each once.
    fn begin(&self, patterns: &[PatternId]) -> Result<IndexSet<PatternId>, AllocError>
        requires { AreIn self.now patterns.now }
        ensures { IfOk result (λ r. IsGathering self.now patterns.now 0 r.keys) }
    {
        let mut found = IndexSet::new(self.allocator());
        for k in 0..patterns.len() {
            found.insert(patterns[k])?;
        }
        Ok(found)
    }

    // Adds the first member of a pattern and the pattern of the others.
    fn spread(&self, found: &mut IndexSet<PatternId>, next: usize) -> Result<(), AllocError>
        requires within { AreIn self.now found.old.keys }
        requires next { next < length found.old.keys }
        ensures { OnOk result ((patterns : List Id) → IsGathering self.now patterns next found.old.keys → IsGathering self.now patterns (next + 1) found.new.keys) }
    {
        if let Some((first, others)) = self.split(found.as_slice()[next]) {
            found.insert(first)?;
            found.insert(others)?;
        }
        Ok(())
    }

    // The patterns and the lists of members that begin in them, each once: a list that several share is walked once.
    fn gather(&self, patterns: &[PatternId]) -> Result<IndexSet<PatternId>, AllocError>
        requires { AreIn self.now patterns.now }
        ensures { IfOk result (λ r. IsGathered self.now patterns.now r.keys) }
    {
        let mut found = self.begin(patterns)?;
        let mut next = 0;
        while next < found.len() {
            self.spread(&mut found, next)?;
            next += 1;
        }
        Ok(found)
    }

    // Those that are neither choices nor notAllowed.
    fn members_among(&self, found: &[PatternId]) -> Result<Vec<PatternId>, AllocError>
        requires { AreIn self.now found.now }
        ensures { IfOk result (λ r. r.items ≡ filter (λ (id : Id). is_member (tree_at self.now id.0)) found.now) }
    {
        let mut taken = Vec::new(self.allocator());
        for k in 0..found.len() {
            if self.is_member(found[k]) {
                taken.push(found[k])?;
            }
        }
        Ok(taken)
    }

    // The members of all patterns in ascending order, each once.
    fn all_members(&self, patterns: &[PatternId]) -> Result<Vec<PatternId>, AllocError>
        requires { AreIn self.now patterns.now }
        ensures { IfOk result (λ r. AreAllMembers self.now patterns.now r.items) }
    {
        self.all_ordered();
        let _apart = self.len();
        let found = self.gather(patterns)?;
        let mut taken = self.members_among(found.as_slice())?;
        self.sort(&mut taken)?;
        Ok(taken)
    }

    // The choice of the members of all. After want of memory some of its last members may be made.
    fn merge_members(&mut self, patterns: &[PatternId]) -> Result<PatternId, AllocError>
        requires { AreIn self.old patterns.now }
        ensures within { IfOk result (λ id. id.0 < count self.new) }
        ensures made { IfOk result (λ id. tree_at self.new id.0 ≡ choice_of_each (trees_at self.old patterns.now)) }
        ensures kept { Extends self.old self.new }
        ensures refs { (n : ℕ) → AreRefsBelow n self.old → AreRefsBelow n self.new }
        ensures same { (self.new.classes ≡ self.old.classes) × (self.new.literals ≡ self.old.literals) }
    {
        self.first_three();
        let taken = self.all_members(patterns)?;
        let nothing = self.not_allowed();
        self.join_all(taken, nothing)
    }

    // The choice of all: two are merged, so that a list is kept from where the other side ends. After want of memory some of its last
    // members may be made.
    fn merge_all(&mut self, patterns: &[PatternId]) -> Result<PatternId, AllocError>
        requires { AreIn self.old patterns.now }
        ensures within { IfOk result (λ id. id.0 < count self.new) }
        ensures made { IfOk result (λ id. tree_at self.new id.0 ≡ choice_of_each (trees_at self.old patterns.now)) }
        ensures kept { Extends self.old self.new }
        ensures refs { (n : ℕ) → AreRefsBelow n self.old → AreRefsBelow n self.new }
        ensures same { (self.new.classes ≡ self.old.classes) × (self.new.literals ≡ self.old.literals) }
    {
        if patterns.len() == 2 {
            self.merge(patterns[0], patterns[1])
        } else {
            self.merge_members(patterns)
        }
    }

    /// One of many patterns (section Patterns of Semantics): the members of all in ascending order, each once, as if they were joined from
    /// the left; notAllowed for none. It is made from its greatest member down, so that it takes a node for each member but the last, and
    /// as many comparisons as sorting them. Where memory is wanting, the pool stays as before.
    pub fn choice_of_all(&mut self, patterns: &[PatternId]) -> Result<PatternId, AllocError>
        requires { AreIn self.old patterns.now }
        ensures within { IfOk result (λ id. id.0 < count self.new) }
        ensures made { IfOk result (λ id. tree_at self.new id.0 ≡ choice_of_each (trees_at self.old patterns.now)) }
        ensures kept { Extends self.old self.new }
        ensures refs { (n : ℕ) → AreRefsBelow n self.old → AreRefsBelow n self.new }
        ensures unchanged { OnErr result (self.new ≡ self.old) }
    {
        self.first_three();
        let before = self.len();
        match self.merge_all(patterns) {
            Ok(id) => Ok(id),
            Err(error) => {
                self.cut(before);
                Err(error)
            }
        }
    }
}
