// Choices: the ascending list of the members, each once.
ghost use Rattle.std.specs.Prelude.{◌≡◌, ℕ, ◌<◌, ◌⊎◌, ◌∷◌, ◌++◌, IfOk, IfNone, IfSome, OnErr};
ghost use Rattle.rng_model.specs.Constructors.{choice_of, members, of_members};
ghost use Rattle.rng_model.specs.Patterns as pattern;
ghost use Rattle.pattern_intern.specs.Ordered.{IsBelow, IsMember, IsOrdered, IsSplit};
ghost use Rattle.pattern_intern.specs.Schemas.{AreRefsBelow};
ghost use Rattle.pattern_intern.specs.Stored.{Extends, count, tree_at};
ghost use Rattle.pattern_intern.specs.Members.{AreIn, AreMembers, IsLeast, IsMerged, trees_at};

use crate::id::PatternId;
use crate::node::Node;
use crate::pool::Pool;
use std::alloc::AllocError;
use std::cmp::Ordering;

impl Pool {
    // The first member and the others, none for notAllowed.
    pub(crate) fn split(&self, id: PatternId) -> Option<(PatternId, PatternId)>
        requires { id.0 < count self.now }
        ensures ordered { IsOrdered (tree_at self.now id.0) }
        ensures none { IfNone result (tree_at self.now id.0 ≡ pattern.not_allowed) }
        ensures first { IfSome result (λ r. r.0.0 < count self.now) }
        ensures others { IfSome result (λ r. r.1.0 < count self.now) }
        ensures list { IfSome result (λ r. IsSplit (tree_at self.now id.0) (tree_at self.now r.0.0) (tree_at self.now r.1.0)) }
        ensures rest { IfSome result (λ r. IsOrdered (tree_at self.now r.1.0)) }
    {
        self.all_ordered();
        match self.node(id) {
            Node::NotAllowed => None,
            Node::Choice(first, others) => Some((first, others)),
            Node::DataType(_, None) => Some((id, self.not_allowed())),
            Node::DataType(_, Some(_)) => Some((id, self.not_allowed())),
            _ => Some((id, self.not_allowed())),
        }
    }

    // A choice of a member and those that are greater.
    fn join(&mut self, first: PatternId, others: PatternId) -> Result<PatternId, AllocError>
        requires left { first.0 < count self.old }
        requires right { others.0 < count self.old }
        requires member { IsMember (tree_at self.old first.0) }
        requires below { IsBelow (tree_at self.old first.0) (members (tree_at self.old others.0)) }
        ensures within { IfOk result (λ id. id.0 < count self.new) }
        ensures made { IfOk result (λ id. tree_at self.new id.0 ≡ of_members (tree_at self.old first.0 ∷ members (tree_at self.old others.0))) }
        ensures kept { Extends self.old self.new }
        ensures refs { (n : ℕ) → AreRefsBelow n self.old → AreRefsBelow n self.new }
        ensures same { (self.new.classes ≡ self.old.classes) × (self.new.literals ≡ self.old.literals) }
    {
        self.all_ordered();
        match self.node(others) {
            Node::NotAllowed => Ok(first),
            Node::DataType(_, None) => self.make(Node::Choice(first, others)),
            Node::DataType(_, Some(_)) => self.make(Node::Choice(first, others)),
            _ => self.make(Node::Choice(first, others)),
        }
    }

    // The least member of both, and both without it.
    fn least(&self, a: PatternId, b: PatternId) -> Option<(PatternId, PatternId, PatternId)>
        requires left { a.0 < count self.now }
        requires right { b.0 < count self.now }
        ensures none { IfNone result ((tree_at self.now a.0 ≡ pattern.not_allowed) ⊎ (tree_at self.now b.0 ≡ pattern.not_allowed)) }
        ensures least { IfSome result (λ r. IsLeast self.now a.0 b.0 r.0.0 r.1.0 r.2.0) }
    {
        match (self.split(a), self.split(b)) {
            (None, _) => None,
            (_, None) => None,
            (Some((p, ps)), Some((q, qs))) => match self.compare(p, q) {
                Ordering::Less => Some((p, ps, b)),
                Ordering::Equal => Some((p, ps, qs)),
                Ordering::Greater => Some((q, a, qs)),
            },
        }
    }

    // The least members of both, and a side whose members are the others.
    fn merged(&self, a: PatternId, b: PatternId) -> Result<(Vec<PatternId>, PatternId), AllocError>
        requires left { a.0 < count self.now }
        requires right { b.0 < count self.now }
        ensures { IfOk result (λ r. IsMerged self.now (tree_at self.now a.0) (tree_at self.now b.0) r.0.items r.1.0) }
    {
        self.all_ordered();
        let mut taken = Vec::new(self.allocator());
        let (mut left, mut right) = (a, b);
        while let Some((first, lefts, rights)) = self.least(left, right) {
            taken.push(first)?;
            left = lefts;
            right = rights;
        }
        let rest = match self.split(left) {
            None => right,
            Some(_) => left,
        };
        Ok((taken, rest))
    }

    // The choice of ascending members and the members of a pattern, from the greatest on. After want of memory some of its last
    // members may be made.
    pub(crate) fn join_all(
        &mut self,
        taken: Vec<PatternId>,
        others: PatternId,
    ) -> Result<PatternId, AllocError>
        requires taken { AreIn self.old taken.items }
        requires others { others.0 < count self.old }
        requires members { AreMembers (trees_at self.old taken.items ++ members (tree_at self.old others.0)) }
        ensures within { IfOk result (λ id. id.0 < count self.new) }
        ensures made { IfOk result (λ id. tree_at self.new id.0 ≡ of_members (trees_at self.old taken.items ++ members (tree_at self.old others.0))) }
        ensures kept { Extends self.old self.new }
        ensures refs { (n : ℕ) → AreRefsBelow n self.old → AreRefsBelow n self.new }
        ensures same { (self.new.classes ≡ self.old.classes) × (self.new.literals ≡ self.old.literals) }
    {
        let (mut taken, mut rest) = (taken, others);
        while let Some(first) = taken.pop() {
            rest = self.join(first, rest)?;
        }
        self.all_ordered();
        Ok(rest)
    }

    // The choice of both. After want of memory some of its last members may be made.
    pub(crate) fn merge(&mut self, a: PatternId, b: PatternId) -> Result<PatternId, AllocError>
        requires left { a.0 < count self.old }
        requires right { b.0 < count self.old }
        ensures within { IfOk result (λ id. id.0 < count self.new) }
        ensures made { IfOk result (λ id. tree_at self.new id.0 ≡ choice_of (tree_at self.old a.0) (tree_at self.old b.0)) }
        ensures kept { Extends self.old self.new }
        ensures refs { (n : ℕ) → AreRefsBelow n self.old → AreRefsBelow n self.new }
        ensures same { (self.new.classes ≡ self.old.classes) × (self.new.literals ≡ self.old.literals) }
    {
        self.all_ordered();
        let (taken, rest) = self.merged(a, b)?;
        self.join_all(taken, rest)
    }

    /// Either of two patterns (section Patterns of Semantics): the members of both in ascending order, each once. It costs as many steps as
    /// both have members. Where memory is wanting, the pool stays as before.
    pub fn choice(&mut self, a: PatternId, b: PatternId) -> Result<PatternId, AllocError>
        requires left { a.0 < count self.old }
        requires right { b.0 < count self.old }
        ensures within { IfOk result (λ id. id.0 < count self.new) }
        ensures made { IfOk result (λ id. tree_at self.new id.0 ≡ choice_of (tree_at self.old a.0) (tree_at self.old b.0)) }
        ensures kept { Extends self.old self.new }
        ensures refs { (n : ℕ) → AreRefsBelow n self.old → AreRefsBelow n self.new }
        ensures unchanged { OnErr result (self.new ≡ self.old) }
    {
        self.first_three();
        let before = self.len();
        match self.merge(a, b) {
            Ok(id) => Ok(id),
            Err(error) => {
                self.cut(before);
                Err(error)
            }
        }
    }
}
