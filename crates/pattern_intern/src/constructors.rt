// How patterns are made: notAllowed and empty are taken away as the section Simplification says.
ghost use Rattle.std.specs.Prelude.{◌≡◌, ℕ, ◌+◌, ◌<◌, IfOk, IfSome, IfNone, OnErr};
ghost use Rattle.rng_model.specs.Classes.{Class};
ghost use Rattle.rng_model.specs.Patterns as pattern;
ghost use Rattle.rng_model.specs.Constructors.{after_of, data_of, group_of, interleave_of, one_or_more_of};
ghost use Rattle.pattern_intern.specs.Comparisons.{IsPlain};
ghost use Rattle.rng_model.specs.Depths.{depth, in_choice};
ghost use Rattle.pattern_intern.specs.Facts.{IsFacts};
ghost use Rattle.pattern_intern.specs.Ordered.{IsOrdered};
ghost use Rattle.pattern_intern.specs.Schemas.{AreRefsBelow, HasRefsBelow};
ghost use Rattle.pattern_intern.specs.Stored.{Extends, count, tree_at};
ghost use Rattle.pattern_intern.specs.Trees.{PartsBelow, except_tree, node_tree};
ghost use Rattle.text_atoms.specs.Kinds.{kind_of};

use crate::facts::{ContentType, Facts, chosen, grouped, leaf};
use crate::id::PatternId;
use crate::node::Node;
use crate::pool::Pool;
use std::alloc::AllocError;
use text_atoms::Kind;

impl Pool {
    /// The two parts of a choice.
    pub(crate) fn two(&self, id: PatternId) -> Option<(PatternId, PatternId)>
        requires { id.0 < count self.now }
        ensures first { IfSome result (λ r. r.0.0 < id.0) }
        ensures others { IfSome result (λ r. r.1.0 < id.0) }
        ensures tree { IfSome result (λ r. tree_at self.now id.0 ≡ pattern.choice (tree_at self.now r.0.0) (tree_at self.now r.1.0)) }
        ensures plain { IfNone result (IsPlain (tree_at self.now id.0)) }
    {
        match self.node(id) {
            Node::Choice(first, others) => Some((first, others)),
            Node::DataType(_, None) => None,
            Node::DataType(_, Some(_)) => None,
            _ => None,
        }
    }

    // The depth that a choice has from its last members.
    #[tactic(auto, using(crate::proofs::Describing::in_plain))]
    fn depth_in_choice(&self, others: PatternId) -> usize
        requires { others.0 < count self.now }
        ensures { result ≡ in_choice (tree_at self.now others.0) (depth (tree_at self.now others.0)) }
    {
        let _small = self.len();
        let known = self.facts_at(others);
        match self.two(others) {
            Some(_) => known.depth,
            None => known.depth + 1,
        }
    }

    // What is known of a node whose parts are in the pool.
    #[tactic(auto, unfolding(rng_model::specs::Matching::nullable))]
    fn facts(&self, node: Node) -> Facts
        requires { PartsBelow (count self.now) self.now node }
        ensures { IsFacts (node_tree self.now node) result }
    {
        let _small = self.len();
        match node {
            Node::NotAllowed => leaf(false, None),
            Node::Empty => leaf(true, Some(ContentType::Empty)),
            Node::AnyText => leaf(true, Some(ContentType::Complex)),
            Node::Ref(_) => leaf(false, Some(ContentType::Complex)),
            Node::Value(_, _) => leaf(false, Some(ContentType::Simple)),
            Node::DataType(_, None) => leaf(false, Some(ContentType::Simple)),
            Node::DataType(_, Some(except)) => Facts {
                nullable: false,
                depth: self.facts_at(except).depth + 1,
                content_type: Some(ContentType::Simple),
            },
            Node::Attribute(_, content) => self.facts_of_attribute(content),
            Node::OneOrMore(part) => {
                let known = self.facts_at(part);
                Facts {
                    nullable: known.nullable,
                    depth: known.depth + 1,
                    content_type: grouped(known.content_type, known.content_type),
                }
            }
            Node::Choice(first, others) => self.facts_of_choice(first, others),
            Node::Group(left, right) | Node::Interleave(left, right) => {
                self.facts_of_two(left, right)
            }
            Node::After(left, right) => Facts {
                nullable: false,
                depth: self.facts_at(left).depth.max(self.facts_at(right).depth) + 1,
                content_type: None,
            },
        }
    }

    // What is known of an attribute.
    #[tactic(auto, unfolding(rng_model::specs::Matching::nullable))]
    pub(crate) fn facts_of_attribute(&self, content: PatternId) -> Facts
        requires { content.0 < count self.now }
        ensures { (c : Class) → IsFacts (pattern.attribute c (tree_at self.now content.0)) result }
    {
        let _small = self.len();
        let known = self.facts_at(content);
        let content_type = match known.content_type {
            Some(_) => Some(ContentType::Empty),
            None => None,
        };
        Facts {
            nullable: false,
            depth: known.depth + 1,
            content_type,
        }
    }

    // What is known of a group and of an interleave.
    #[tactic(auto, unfolding(rng_model::specs::Matching::nullable))]
    fn facts_of_two(&self, left: PatternId, right: PatternId) -> Facts
        requires left { left.0 < count self.now }
        requires right { right.0 < count self.now }
        ensures group { IsFacts (pattern.group (tree_at self.now left.0) (tree_at self.now right.0)) result }
        ensures interleave { IsFacts (pattern.interleave (tree_at self.now left.0) (tree_at self.now right.0)) result }
    {
        let _small = self.len();
        let (left, right) = (self.facts_at(left), self.facts_at(right));
        Facts {
            nullable: left.nullable && right.nullable,
            depth: left.depth.max(right.depth) + 1,
            content_type: grouped(left.content_type, right.content_type),
        }
    }

    // What is known of a choice.
    #[tactic(auto, unfolding(rng_model::specs::Matching::nullable))]
    fn facts_of_choice(&self, first: PatternId, others: PatternId) -> Facts
        requires first { first.0 < count self.now }
        requires others { others.0 < count self.now }
        ensures { IsFacts (pattern.choice (tree_at self.now first.0) (tree_at self.now others.0)) result }
    {
        let _small = self.len();
        let (known, rest) = (self.facts_at(first), self.facts_at(others));
        Facts {
            nullable: known.nullable || rest.nullable,
            depth: (known.depth + 1).max(self.depth_in_choice(others)),
            content_type: chosen(known.content_type, rest.content_type),
        }
    }

    /// Makes a node, unless it is there. Where memory is wanting, the pool stays as before.
    pub(crate) fn make(&mut self, node: Node) -> Result<PatternId, AllocError>
        requires below { PartsBelow (count self.old) self.old node }
        requires ordered { IsOrdered (node_tree self.old node) }
        ensures within { IfOk result (λ id. id.0 < count self.new) }
        ensures made { IfOk result (λ id. tree_at self.new id.0 ≡ node_tree self.old node) }
        ensures kept { Extends self.old self.new }
        ensures refs { (n : ℕ) → AreRefsBelow n self.old → HasRefsBelow n (node_tree self.old node) → AreRefsBelow n self.new }
        ensures same { (self.new.classes ≡ self.old.classes) × (self.new.literals ≡ self.old.literals) }
        ensures unchanged { OnErr result (self.new ≡ self.old) }
    {
        let fact = self.facts(node);
        self.add(node, fact)
    }

    // What stands for a group or an interleave of two: notAllowed where a side is, the other side where one is empty.
    fn alone(&self, a: PatternId, b: PatternId) -> Option<PatternId>
        requires left { a.0 < count self.now }
        requires right { b.0 < count self.now }
        ensures within { IfSome result (λ id. id.0 < count self.now) }
        ensures group { IfSome result (λ id. tree_at self.now id.0 ≡ group_of (tree_at self.now a.0) (tree_at self.now b.0)) }
        ensures interleave { IfSome result (λ id. tree_at self.now id.0 ≡ interleave_of (tree_at self.now a.0) (tree_at self.now b.0)) }
        ensures group_of_both { IfNone result (group_of (tree_at self.now a.0) (tree_at self.now b.0) ≡ pattern.group (tree_at self.now a.0) (tree_at self.now b.0)) }
        ensures interleave_of_both { IfNone result (interleave_of (tree_at self.now a.0) (tree_at self.now b.0) ≡ pattern.interleave (tree_at self.now a.0) (tree_at self.now b.0)) }
    {
        match (self.node(a), self.node(b)) {
            (Node::NotAllowed, _) => Some(a),
            (_, Node::NotAllowed) => Some(b),
            (Node::Empty, _) => Some(b),
            (_, Node::Empty) => Some(a),
            _ => None,
        }
    }

    /// One after the other (section Patterns of Semantics). Where memory is wanting, the pool stays as before, as for all that follow.
    pub fn group(&mut self, a: PatternId, b: PatternId) -> Result<PatternId, AllocError>
        requires left { a.0 < count self.old }
        requires right { b.0 < count self.old }
        ensures within { IfOk result (λ id. id.0 < count self.new) }
        ensures made { IfOk result (λ id. tree_at self.new id.0 ≡ group_of (tree_at self.old a.0) (tree_at self.old b.0)) }
        ensures kept { Extends self.old self.new }
        ensures refs { (n : ℕ) → AreRefsBelow n self.old → AreRefsBelow n self.new }
        ensures unchanged { OnErr result (self.new ≡ self.old) }
    {
        match self.alone(a, b) {
            Some(id) => Ok(id),
            None => self.make(Node::Group(a, b)),
        }
    }

    /// In any order, children mixed (section Patterns of Semantics).
    pub fn interleave(&mut self, a: PatternId, b: PatternId) -> Result<PatternId, AllocError>
        requires left { a.0 < count self.old }
        requires right { b.0 < count self.old }
        ensures within { IfOk result (λ id. id.0 < count self.new) }
        ensures made { IfOk result (λ id. tree_at self.new id.0 ≡ interleave_of (tree_at self.old a.0) (tree_at self.old b.0)) }
        ensures kept { Extends self.old self.new }
        ensures refs { (n : ℕ) → AreRefsBelow n self.old → AreRefsBelow n self.new }
        ensures unchanged { OnErr result (self.new ≡ self.old) }
    {
        match self.alone(a, b) {
            Some(id) => Ok(id),
            None => self.make(Node::Interleave(a, b)),
        }
    }

    /// What is to be matched inside the open element, and what follows it.
    pub fn after(&mut self, a: PatternId, b: PatternId) -> Result<PatternId, AllocError>
        requires left { a.0 < count self.old }
        requires right { b.0 < count self.old }
        ensures within { IfOk result (λ id. id.0 < count self.new) }
        ensures made { IfOk result (λ id. tree_at self.new id.0 ≡ after_of (tree_at self.old a.0) (tree_at self.old b.0)) }
        ensures kept { Extends self.old self.new }
        ensures refs { (n : ℕ) → AreRefsBelow n self.old → AreRefsBelow n self.new }
        ensures unchanged { OnErr result (self.new ≡ self.old) }
    {
        match (self.node(a), self.node(b)) {
            (Node::NotAllowed, _) => Ok(a),
            (_, Node::NotAllowed) => Ok(b),
            _ => self.make(Node::After(a, b)),
        }
    }

    /// One or more times (section Patterns of Semantics).
    pub fn one_or_more(&mut self, a: PatternId) -> Result<PatternId, AllocError>
        requires { a.0 < count self.old }
        ensures within { IfOk result (λ id. id.0 < count self.new) }
        ensures made { IfOk result (λ id. tree_at self.new id.0 ≡ one_or_more_of (tree_at self.old a.0)) }
        ensures kept { Extends self.old self.new }
        ensures refs { (n : ℕ) → AreRefsBelow n self.old → AreRefsBelow n self.new }
        ensures unchanged { OnErr result (self.new ≡ self.old) }
    {
        match self.node(a) {
            Node::NotAllowed | Node::Empty => Ok(a),
            _ => self.make(Node::OneOrMore(a)),
        }
    }

    /// The element definition of this number.
    pub fn reference(&mut self, element: usize) -> Result<PatternId, AllocError>
        ensures within { IfOk result (λ id. id.0 < count self.new) }
        ensures made { IfOk result (λ id. tree_at self.new id.0 ≡ pattern.ref element) }
        ensures kept { Extends self.old self.new }
        ensures refs { (n : ℕ) → AreRefsBelow n self.old → element < n → AreRefsBelow n self.new }
        ensures unchanged { OnErr result (self.new ≡ self.old) }
    {
        self.make(Node::Ref(element))
    }

    /// The texts of the kind that the except doesn't match. An except that is notAllowed is left out.
    pub fn data_type(
        &mut self,
        kind: Kind,
        except: Option<PatternId>,
    ) -> Result<PatternId, AllocError>
        requires { IfSome except (λ e. e.0 < count self.old) }
        ensures within { IfOk result (λ id. id.0 < count self.new) }
        ensures made { IfOk result (λ id. tree_at self.new id.0 ≡ data_of (kind_of kind) (except_tree self.old except)) }
        ensures kept { Extends self.old self.new }
        ensures refs { (n : ℕ) → AreRefsBelow n self.old → AreRefsBelow n self.new }
        ensures unchanged { OnErr result (self.new ≡ self.old) }
    {
        let Some(id) = except else {
            return self.make(Node::DataType(kind, None));
        };
        match self.node(id) {
            Node::NotAllowed => self.make(Node::DataType(kind, None)),
            _ => self.make(Node::DataType(kind, Some(id))),
        }
    }

    /// The number of notAllowed.
    pub fn not_allowed(&self) -> PatternId
        ensures within { result.0 < count self.now }
        ensures tree { tree_at self.now result.0 ≡ pattern.not_allowed }
    {
        self.first_three();
        PatternId(0)
    }

    /// The number of empty.
    pub fn empty(&self) -> PatternId
        ensures within { result.0 < count self.now }
        ensures tree { tree_at self.now result.0 ≡ pattern.empty }
    {
        self.first_three();
        PatternId(1)
    }

    /// The number of text.
    pub fn any_text(&self) -> PatternId
        ensures within { result.0 < count self.now }
        ensures tree { tree_at self.now result.0 ≡ pattern.text }
    {
        self.first_three();
        PatternId(2)
    }
}
