// The order of patterns.
ghost use Rattle.std.specs.Prelude.{◌≡◌, ◌+◌, ◌*◌, ◌<◌};
ghost use Rattle.std.specs.Bool.{OnFalse, OnTrue};
ghost use Rattle.std.specs.declared.cmp.Ordering.{Ordering as Order};
ghost use Rattle.std.specs.Ordering.{ordering_then};
ghost use Rattle.rng_model.specs.Kinds.{kind_number};
ghost use Rattle.rng_model.specs.Patterns.{pattern_cmp};
ghost use Rattle.text_atoms.specs.Kinds.{kind_of};
ghost use Rattle.pattern_intern.specs.Comparisons.{tail_cmp};
ghost use Rattle.pattern_intern.specs.Steps.{IsStep, size};
ghost use Rattle.pattern_intern.specs.Stored.{count, tree_at};
ghost use Rattle.pattern_intern.specs.Trees.{PartsBelow, node_tree};
ghost use Rattle.pattern_intern.specs.declared.node.Node.TheVariants.{DataType};

use crate::id::PatternId;
use crate::node::{Node, rank};
use crate::pool::Pool;
use std::cmp::Ordering;
use text_atoms::Kind;

/// Where a comparison has come to: the order is found, or is that of two parts, or that of two last members of choices.
pub(crate) enum Step {
    Found(Ordering),
    Parts(PatternId, PatternId),
    Tails(PatternId, PatternId),
}

// The place of a kind of datatypes in their order.
fn kind_place(kind: Kind) -> u8
    ensures { result ≡ kind_number (kind_of kind) }
{
    match kind {
        Kind::Str => 1,
        Kind::Token => 2,
        Kind::Boolean => 3,
        Kind::Integer => 4,
        Kind::NonNegative => 5,
        Kind::Positive => 6,
        Kind::NcName => 7,
        Kind::Nmtoken => 8,
    }
}

impl Pool {
    /// The order of two patterns: the kind first, then the parts from the left. It descends only to the first parts that differ, and takes
    /// no memory.
    pub fn compare(&self, a: PatternId, b: PatternId) -> Ordering
        requires left { a.0 < count self.now }
        requires right { b.0 < count self.now }
        ensures { result ≡ pattern_cmp (tree_at self.now a.0) (tree_at self.now b.0) }
    {
        let mut step = Step::Parts(a, b);
        loop {
            step = match step {
                Step::Found(order) => return order,
                Step::Parts(left, right) => self.compare_nodes(left, right),
                Step::Tails(left, right) => self.compare_tails(left, right),
            };
        }
    }

    // Whether two patterns are one.
    #[tactic(auto, using(crate::proofs::Comparing::itself))]
    fn same(&self, a: PatternId, b: PatternId) -> bool
        requires left { a.0 < count self.now }
        requires right { b.0 < count self.now }
        ensures yes { OnTrue result ((o : Order) → ordering_then (pattern_cmp (tree_at self.now a.0) (tree_at self.now b.0)) o ≡ o) }
        ensures no { OnFalse result ((o : Order) → ordering_then (pattern_cmp (tree_at self.now a.0) (tree_at self.now b.0)) o ≡ pattern_cmp (tree_at self.now a.0) (tree_at self.now b.0)) }
    {
        let _apart = self.len();
        a.0 == b.0
    }

    // The first parts that differ, of two pairs below a and b.
    fn compare_pairs(
        &self,
        a: PatternId,
        b: PatternId,
        left: (PatternId, PatternId),
        right: (PatternId, PatternId),
    ) -> Step
        requires a { a.0 < count self.now }
        requires b { b.0 < count self.now }
        requires left { (left.0.0 < a.0) × (left.1.0 < a.0) }
        requires right { (right.0.0 < b.0) × (right.1.0 < b.0) }
        ensures order { IsStep self.now (ordering_then (pattern_cmp (tree_at self.now left.0.0) (tree_at self.now right.0.0)) (pattern_cmp (tree_at self.now left.1.0) (tree_at self.now right.1.0))) result }
        ensures smaller { size result < 2 * (a.0 + b.0) + 1 }
    {
        if self.same(left.0, right.0) {
            Step::Parts(left.1, right.1)
        } else {
            Step::Parts(left.0, right.0)
        }
    }

    // Datatypes by their kinds, and then none before an except.
    fn compare_data(
        &self,
        a: PatternId,
        b: PatternId,
        kinds: (Kind, Kind),
        excepts: (Option<PatternId>, Option<PatternId>),
    ) -> Step
        requires a { a.0 < count self.now }
        requires b { b.0 < count self.now }
        requires left { PartsBelow a.0 self.now (DataType kinds.0 excepts.0) }
        requires right { PartsBelow b.0 self.now (DataType kinds.1 excepts.1) }
        ensures order { IsStep self.now (pattern_cmp (node_tree self.now (DataType kinds.0 excepts.0)) (node_tree self.now (DataType kinds.1 excepts.1))) result }
        ensures smaller { size result < 2 * (a.0 + b.0) + 1 }
    {
        match kind_place(kinds.0).cmp(&kind_place(kinds.1)) {
            Ordering::Equal => match excepts {
                (None, None) => Step::Found(Ordering::Equal),
                (None, Some(_)) => Step::Found(Ordering::Less),
                (Some(_), None) => Step::Found(Ordering::Greater),
                (Some(left), Some(right)) => Step::Parts(left, right),
            },
            order => match excepts {
                (None, None) => Step::Found(order),
                (None, Some(_)) => Step::Found(order),
                (Some(_), None) => Step::Found(order),
                (Some(_), Some(_)) => Step::Found(order),
            },
        }
    }

    // One step of the comparison of two patterns.
    #[tactic(auto, using(crate::proofs::Comparing::parts, crate::proofs::Comparing::itself, crate::proofs::Comparing::values, crate::proofs::Comparing::attributes))]
    fn compare_nodes(&self, a: PatternId, b: PatternId) -> Step
        requires left { a.0 < count self.now }
        requires right { b.0 < count self.now }
        ensures order { IsStep self.now (pattern_cmp (tree_at self.now a.0) (tree_at self.now b.0)) result }
        ensures smaller { size result < 2 * (a.0 + b.0) + 1 }
    {
        if a.0 == b.0 {
            return Step::Found(Ordering::Equal);
        }
        let (node, other_node) = (self.node(a), self.node(b));
        match rank(node).cmp(&rank(other_node)) {
            Ordering::Equal => match (node, other_node) {
                (Node::Ref(left), Node::Ref(right)) => Step::Found(left.cmp(&right)),
                (Node::Value(kind, left), Node::Value(other, right)) => {
                    Step::Found(match kind_place(kind).cmp(&kind_place(other)) {
                        Ordering::Equal => self.literal(left).cmp(self.literal(right)),
                        order => order,
                    })
                }
                (Node::DataType(kind, left), Node::DataType(other, right)) => {
                    self.compare_data(a, b, (kind, other), (left, right))
                }
                (Node::Attribute(class, left), Node::Attribute(other, right)) => {
                    match self.class(class).compare(self.class(other)) {
                        Ordering::Equal => Step::Parts(left, right),
                        order => Step::Found(order),
                    }
                }
                (Node::OneOrMore(left), Node::OneOrMore(right)) => Step::Parts(left, right),
                (Node::Choice(left, lefts), Node::Choice(right, rights)) => {
                    if self.same(left, right) {
                        Step::Tails(lefts, rights)
                    } else {
                        Step::Parts(left, right)
                    }
                }
                (Node::Group(left, lefts), Node::Group(right, rights))
                | (Node::Interleave(left, lefts), Node::Interleave(right, rights))
                | (Node::After(left, lefts), Node::After(right, rights)) => {
                    self.compare_pairs(a, b, (left, lefts), (right, rights))
                }
                _ => Step::Found(Ordering::Equal),
            },
            order => Step::Found(order),
        }
    }

    // One step of the comparison of two patterns as the last members of choices.
    #[tactic(auto, using(crate::proofs::Comparing::parts, crate::proofs::Comparing::itself, crate::proofs::Comparing::tail_left, crate::proofs::Comparing::tail_right, crate::proofs::Comparing::tail_both))]
    fn compare_tails(&self, a: PatternId, b: PatternId) -> Step
        requires left { a.0 < count self.now }
        requires right { b.0 < count self.now }
        ensures order { IsStep self.now (tail_cmp (tree_at self.now a.0) (tree_at self.now b.0)) result }
        ensures smaller { size result < 2 * (a.0 + b.0) + 2 }
    {
        match (self.two(a), self.two(b)) {
            (Some((left, lefts)), Some((right, rights))) => {
                if self.same(left, right) {
                    Step::Tails(lefts, rights)
                } else {
                    Step::Parts(left, right)
                }
            }
            (Some((left, _)), None) => {
                if self.same(left, b) {
                    Step::Found(Ordering::Greater)
                } else {
                    Step::Parts(left, b)
                }
            }
            (None, Some((right, _))) => {
                if self.same(a, right) {
                    Step::Found(Ordering::Less)
                } else {
                    Step::Parts(a, right)
                }
            }
            (None, None) => Step::Parts(a, b),
        }
    }
}
