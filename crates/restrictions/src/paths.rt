// What stands inside a pattern, and below what: the paths `x//y` of the section Restrictions.
ghost use Rattle.std.specs.Prelude.{◌≡◌, ◌<◌};
ghost use Rattle.rng_model.specs.Kinds.{Kind as KindValue};
ghost use Rattle.rng_model.specs.Classes.{Class};
ghost use Rattle.rng_model.specs.Patterns.{Pattern, after, attribute, choice, data_except, group, interleave, one_or_more};
ghost use Rattle.pattern_intern.specs.Stored.{count, tree_at};
ghost use Rattle.restrictions.specs.Described.{AreDescribed, ArePaths};
ghost use Rattle.restrictions.specs.Truths.{IsLeaf, is_no_data, is_no_start, is_ref};

use crate::described::{Described, known_at};
use pattern_intern::{Node, PatternId, Pool};

/// What stands anywhere inside a pattern.
#[derive(Clone, Copy, Debug)]
pub(crate) struct Paths {
    /// A reference.
    pub(crate) refs: bool,
    /// An attribute.
    pub(crate) attributes: bool,
    /// A group with an attribute inside.
    pub(crate) group_attributes: bool,
    /// An interleave with an attribute inside.
    pub(crate) interleave_attributes: bool,
    /// What may not stand in the except of a datatype.
    pub(crate) no_data: bool,
    /// What may not stand in the start pattern.
    pub(crate) no_start: bool,
    /// An attribute with a reference inside.
    pub(crate) attribute_refs: bool,
    /// An attribute with an attribute inside.
    pub(crate) attribute_attributes: bool,
    /// A oneOrMore with a group inside that has an attribute inside.
    pub(crate) repeated_groups: bool,
    /// A oneOrMore with an interleave inside that has an attribute inside.
    pub(crate) repeated_interleaves: bool,
    /// An except of a datatype with something inside that may not stand there.
    pub(crate) excepts: bool,
}

impl Paths {
    /// Of a pattern without parts, by whether it is a reference, and may not stand in an except or in the start.
    fn leaf(refs: bool, no_data: bool, no_start: bool) -> Paths
        ensures { (p : Pattern) → IsLeaf p → is_ref p ≡ refs → is_no_data p ≡ no_data → is_no_start p ≡ no_start → ArePaths p result }
    {
        Paths {
            refs,
            attributes: false,
            group_attributes: false,
            interleave_attributes: false,
            no_data,
            no_start,
            attribute_refs: false,
            attribute_attributes: false,
            repeated_groups: false,
            repeated_interleaves: false,
            excepts: false,
        }
    }

    /// Of a choice of two patterns.
    fn either(self, other: Paths) -> Paths
        ensures choice { (p q : Pattern) → ArePaths p self → ArePaths q other → ArePaths (choice p q) result }
        ensures after { (p q : Pattern) → ArePaths p self → ArePaths q other → ArePaths (after p q) result }
    {
        Paths {
            refs: self.refs || other.refs,
            attributes: self.attributes || other.attributes,
            group_attributes: self.group_attributes || other.group_attributes,
            interleave_attributes: self.interleave_attributes || other.interleave_attributes,
            no_data: self.no_data || other.no_data,
            no_start: self.no_start || other.no_start,
            attribute_refs: self.attribute_refs || other.attribute_refs,
            attribute_attributes: self.attribute_attributes || other.attribute_attributes,
            repeated_groups: self.repeated_groups || other.repeated_groups,
            repeated_interleaves: self.repeated_interleaves || other.repeated_interleaves,
            excepts: self.excepts || other.excepts,
        }
    }

    /// Of a group, from what stands inside its sides.
    fn in_group(self) -> Paths
        ensures { (p q : Pattern) → ArePaths (choice p q) self → ArePaths (group p q) result }
    {
        Paths {
            group_attributes: self.attributes || self.group_attributes,
            no_data: true,
            no_start: true,
            ..self
        }
    }

    /// Of an interleave, from what stands inside its sides.
    fn in_interleave(self) -> Paths
        ensures { (p q : Pattern) → ArePaths (choice p q) self → ArePaths (interleave p q) result }
    {
        Paths {
            interleave_attributes: self.attributes || self.interleave_attributes,
            no_data: true,
            no_start: true,
            ..self
        }
    }

    /// Of a oneOrMore, from what stands inside it.
    fn in_one_or_more(self) -> Paths
        ensures { (p : Pattern) → ArePaths p self → ArePaths (one_or_more p) result }
    {
        Paths {
            no_data: true,
            no_start: true,
            repeated_groups: self.group_attributes || self.repeated_groups,
            repeated_interleaves: self.interleave_attributes || self.repeated_interleaves,
            ..self
        }
    }

    /// Of an attribute, from what stands inside its content.
    fn in_attribute(self) -> Paths
        ensures { (c : Class) (p : Pattern) → ArePaths p self → ArePaths (attribute c p) result }
    {
        Paths {
            attributes: true,
            no_data: true,
            no_start: true,
            attribute_refs: self.refs || self.attribute_refs,
            attribute_attributes: self.attributes || self.attribute_attributes,
            ..self
        }
    }

    /// Of a datatype, from what stands inside its except.
    fn in_except(self) -> Paths
        ensures { (k : KindValue) (p : Pattern) → ArePaths p self → ArePaths (data_except k p) result }
    {
        Paths {
            no_start: true,
            excepts: self.no_data || self.excepts,
            ..self
        }
    }
}

/// What stands inside a pattern, from what stands inside its parts.
pub(crate) fn paths_of(pool: &Pool, id: PatternId, known: &[Described]) -> Paths
    requires within { id.0 < count pool.now }
    requires known { AreDescribed pool.now id.0 known.now }
    ensures { ArePaths (tree_at pool.now id.0) result }
{
    match pool.node(id) {
        Node::NotAllowed => Paths::leaf(false, false, false),
        Node::Empty => Paths::leaf(false, true, true),
        Node::AnyText => Paths::leaf(false, true, true),
        Node::Ref(_) => Paths::leaf(true, true, false),
        Node::Value(_, _) => Paths::leaf(false, false, true),
        Node::DataType(_, None) => Paths::leaf(false, false, true),
        Node::DataType(_, Some(except)) => known_at(pool, id, known, except).paths.in_except(),
        Node::Attribute(_, content) => known_at(pool, id, known, content).paths.in_attribute(),
        Node::OneOrMore(part) => known_at(pool, id, known, part).paths.in_one_or_more(),
        Node::Choice(left, right) | Node::After(left, right) => {
            let left = known_at(pool, id, known, left).paths;
            left.either(known_at(pool, id, known, right).paths)
        }
        Node::Group(left, right) => {
            let left = known_at(pool, id, known, left).paths;
            left.either(known_at(pool, id, known, right).paths)
                .in_group()
        }
        Node::Interleave(left, right) => {
            let left = known_at(pool, id, known, left).paths;
            left.either(known_at(pool, id, known, right).paths)
                .in_interleave()
        }
    }
}
