// The pool: nodes in an index set, with what is known of each.
ghost use Rattle.std.specs.Prelude.{◌≡◌, ℕ, ◌+◌, ◌<◌, ◌≤◌, ◌^◌, [], ◌∷◌, length, option_map, take, IfOk, OnErr};
ghost use Rattle.rng_model.specs.Constructors.{attribute_of};
ghost use Rattle.rng_model.specs.Patterns as pattern;
ghost use Rattle.rng_model.specs.Matching.{nullable};
ghost use Rattle.rng_model.specs.Restrictions.{content_type};
ghost use Rattle.text_atoms.specs.Kinds.{kind_of};
ghost use Rattle.name_classes.specs.Views.{class_of};
ghost use Rattle.rng_model.specs.Depths.{depth};
ghost use Rattle.pattern_intern.specs.Facts.{IsFacts, type_of};
ghost use Rattle.pattern_intern.specs.Ordered.{IsOrdered};
ghost use Rattle.pattern_intern.specs.Schemas.{AreRefsBelow, HasRefsBelow};
ghost use Rattle.pattern_intern.specs.Stored.{AreApart, Extends, class_at, count, literal_at, stored, tree_at};
ghost use Rattle.pattern_intern.specs.Trees.{IsNode, PartsBelow, node_tree};

use crate::facts::{ContentType, Facts, leaf};
use crate::id::{ClassId, LiteralId, PatternId};
use crate::intern::{intern_attribute, intern_node, intern_value};
use crate::node::Node;
use indexmap::IndexSet;
use name_classes::NameClass;
use std::alloc::{AllocError, Global};
use std::marker::Model;
use text_atoms::{Kind, Text};

/// Patterns by number. Contracts see the patterns that the numbers stand for, and the name classes and literals by number.
#[derive(Drop)]
pub struct Pool {
    nodes: IndexSet<Node>,
    facts: Vec<Facts>,
    classes: IndexSet<NameClass>,
    literals: IndexSet<Text>,
}

impl Model for Pool {
    ghost use Rattle.std.specs.Prelude.{map};
    ghost use Rattle.name_classes.specs.Views.{class_of};
    ghost use Rattle.pattern_intern.specs.Stored.{Stored, stored_code};
    ghost use Rattle.pattern_intern.specs.Trees.{IsPool, stored_of};

    ghost Value = { Stored };

    ghost coded = { stored_code };

    ghost view = { λ p. stored_of p.nodes.keys (map class_of p.classes.keys) p.literals.keys };

    ghost invariant = { λ p. IsPool p.nodes.keys p.facts.items (stored_of p.nodes.keys (map class_of p.classes.keys) p.literals.keys) };
}

impl Pool {
    /// A pool of notAllowed, empty and text. It takes its memory from `alloc`.
    pub fn new(alloc: Global) -> Result<Pool, AllocError>
        ensures three { IfOk result (λ p. p ≡ stored (pattern.not_allowed ∷ pattern.empty ∷ pattern.text ∷ []) [] []) }
        ensures refs { IfOk result (λ p. (n : ℕ) → AreRefsBelow n p) }
    {
        let mut nodes = IndexSet::new(alloc);
        let mut facts = Vec::new(alloc);
        let not_allowed = Facts {
            nullable: false,
            depth: 1,
            content_type: None,
        };
        let empty = Facts {
            nullable: true,
            depth: 1,
            content_type: Some(ContentType::Empty),
        };
        let any_text = Facts {
            nullable: true,
            depth: 1,
            content_type: Some(ContentType::Complex),
        };
        intern_node(&mut nodes, &mut facts, Node::NotAllowed, not_allowed)?;
        intern_node(&mut nodes, &mut facts, Node::Empty, empty)?;
        intern_node(&mut nodes, &mut facts, Node::AnyText, any_text)?;
        Ok(Pool {
            nodes,
            facts,
            classes: IndexSet::new(alloc),
            literals: IndexSet::new(alloc),
        })
    }

    /// The number of patterns. Two numbers below it are equal exactly where their patterns are.
    pub fn len(&self) -> usize
        ensures count { result ≡ count self.now }
        ensures small { result < 2 ^ 63 }
        ensures apart { AreApart self.now }
    {
        self.nodes.len()
    }

    /// The first three patterns.
    pub(crate) fn first_three(&self)
        ensures not_allowed { (0 < count self.now) × (tree_at self.now 0 ≡ pattern.not_allowed) }
        ensures empty { (1 < count self.now) × (tree_at self.now 1 ≡ pattern.empty) }
        ensures any_text { (2 < count self.now) × (tree_at self.now 2 ≡ pattern.text) }
    {
        let _nodes = &self.nodes;
    }

    /// The choices of the patterns are ascending lists.
    pub(crate) fn all_ordered(&self)
        ensures { (id : ℕ) → id < count self.now → IsOrdered (tree_at self.now id) }
    {
        let _nodes = &self.nodes;
    }

    /// Cuts the pool back to its first patterns.
    pub(crate) fn cut(&mut self, len: usize)
        requires { (2 < len) × (len ≤ count self.old) }
        ensures { self.new ≡ stored (take len self.old.trees) self.old.classes self.old.literals }
    {
        self.nodes.truncate(len);
        self.facts.truncate(len);
    }

    /// The node of a pattern.
    pub fn node(&self, id: PatternId) -> Node
        requires { id.0 < count self.now }
        ensures { IsNode self.now id.0 result }
    {
        self.nodes.as_slice()[id.0]
    }

    /// What is known of a pattern.
    pub(crate) fn facts_at(&self, id: PatternId) -> Facts
        requires { id.0 < count self.now }
        ensures facts { IsFacts (tree_at self.now id.0) result }
        ensures shallow { result.depth ≤ id.0 + 1 }
    {
        self.facts.as_slice()[id.0]
    }

    /// Whether the pattern matches no attributes and no children.
    pub fn nullable(&self, id: PatternId) -> bool
        requires { id.0 < count self.now }
        ensures { result ≡ nullable (tree_at self.now id.0) }
    {
        self.facts_at(id).nullable
    }

    /// The depth of the pattern: 1 for a leaf, for a choice 1 more than the greatest of its members, for another 1 more than the
    /// greatest of its parts.
    pub fn depth(&self, id: PatternId) -> usize
        requires { id.0 < count self.now }
        ensures { result ≡ depth (tree_at self.now id.0) }
    {
        self.facts_at(id).depth
    }

    /// The content type of the pattern, if it has one (section String sequences).
    pub fn content_type(&self, id: PatternId) -> Option<ContentType>
        requires { id.0 < count self.now }
        ensures { option_map type_of result ≡ content_type (tree_at self.now id.0) }
    {
        self.facts_at(id).content_type
    }

    /// The name class of a number that a node of this pool has.
    pub fn class(&self, id: ClassId) -> &NameClass
        requires { id.0 < length self.now.classes }
        ensures { class_of result.now ≡ class_at self.now id.0 }
    {
        &self.classes.as_slice()[id.0]
    }

    /// The literal of a number that a node of this pool has.
    pub fn literal(&self, id: LiteralId) -> &Text
        requires { id.0 < length self.now.literals }
        ensures { result.now ≡ literal_at self.now id.0 }
    {
        &self.literals.as_slice()[id.0]
    }

    /// Adds a node, unless it is there. Where memory is wanting, the pool stays as before.
    pub(crate) fn add(&mut self, node: Node, fact: Facts) -> Result<PatternId, AllocError>
        requires below { PartsBelow (count self.old) self.old node }
        requires facts { IsFacts (node_tree self.old node) fact }
        requires ordered { IsOrdered (node_tree self.old node) }
        ensures within { IfOk result (λ id. id.0 < count self.new) }
        ensures made { IfOk result (λ id. tree_at self.new id.0 ≡ node_tree self.old node) }
        ensures kept { Extends self.old self.new }
        ensures refs { (n : ℕ) → AreRefsBelow n self.old → HasRefsBelow n (node_tree self.old node) → AreRefsBelow n self.new }
        ensures same { (self.new.classes ≡ self.old.classes) × (self.new.literals ≡ self.old.literals) }
        ensures unchanged { OnErr result (self.new ≡ self.old) }
    {
        intern_node(&mut self.nodes, &mut self.facts, node, fact)
    }

    // An attribute whose content isn't notAllowed.
    fn make_attribute(
        &mut self,
        class: NameClass,
        content: PatternId,
        fact: Facts,
    ) -> Result<PatternId, AllocError>
        requires below { content.0 < count self.old }
        requires facts { IsFacts (pattern.attribute (class_of class) (tree_at self.old content.0)) fact }
        ensures within { IfOk result (λ id. id.0 < count self.new) }
        ensures made { IfOk result (λ id. tree_at self.new id.0 ≡ pattern.attribute (class_of class) (tree_at self.old content.0)) }
        ensures kept { Extends self.old self.new }
        ensures refs { (n : ℕ) → AreRefsBelow n self.old → AreRefsBelow n self.new }
        ensures unchanged { OnErr result (self.new ≡ self.old) }
    {
        intern_attribute(
            &mut self.classes,
            &mut self.nodes,
            &mut self.facts,
            class,
            content,
            fact,
        )
    }

    // A value of a kind.
    fn make_value(
        &mut self,
        kind: Kind,
        literal: Text,
        fact: Facts,
    ) -> Result<PatternId, AllocError>
        requires facts { IsFacts (pattern.value (kind_of kind) literal) fact }
        ensures within { IfOk result (λ id. id.0 < count self.new) }
        ensures made { IfOk result (λ id. tree_at self.new id.0 ≡ pattern.value (kind_of kind) literal) }
        ensures kept { Extends self.old self.new }
        ensures refs { (n : ℕ) → AreRefsBelow n self.old → AreRefsBelow n self.new }
        ensures unchanged { OnErr result (self.new ≡ self.old) }
    {
        intern_value(
            &mut self.literals,
            &mut self.nodes,
            &mut self.facts,
            kind,
            literal,
            fact,
        )
    }

    /// An attribute whose name is in the class and whose text matches the content (section Patterns of Semantics).
    pub fn attribute(
        &mut self,
        class: &NameClass,
        content: PatternId,
    ) -> Result<PatternId, AllocError>
        requires { content.0 < count self.old }
        ensures within { IfOk result (λ id. id.0 < count self.new) }
        ensures made { IfOk result (λ id. tree_at self.new id.0 ≡ attribute_of (class_of class.now) (tree_at self.old content.0)) }
        ensures kept { Extends self.old self.new }
        ensures refs { (n : ℕ) → AreRefsBelow n self.old → AreRefsBelow n self.new }
        ensures unchanged { OnErr result (self.new ≡ self.old) }
    {
        match self.node(content) {
            Node::NotAllowed => Ok(content),
            _ => {
                let fact = self.facts_of_attribute(content);
                let class = class.copy(self.allocator())?;
                self.make_attribute(class, content, fact)
            }
        }
    }

    /// The texts that are equal to the literal in the kind.
    #[tactic(auto, unfolding(rng_model::specs::Matching::nullable))]
    pub fn value(&mut self, kind: Kind, text: &str) -> Result<PatternId, AllocError>
        ensures within { IfOk result (λ id. id.0 < count self.new) }
        ensures made { IfOk result (λ id. tree_at self.new id.0 ≡ pattern.value (kind_of kind) text.now) }
        ensures kept { Extends self.old self.new }
        ensures refs { (n : ℕ) → AreRefsBelow n self.old → AreRefsBelow n self.new }
        ensures unchanged { OnErr result (self.new ≡ self.old) }
    {
        let fact = leaf(false, Some(ContentType::Simple));
        let literal = Text::from_string(String::from_str(self.allocator(), text)?);
        self.make_value(kind, literal, fact)
    }

    /// The allocator that the pool takes its memory from.
    pub fn allocator(&self) -> Global {
        *self.nodes.allocator()
    }
}
