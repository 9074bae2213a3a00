// Attributes with infinitely many names outside each oneOrMore (section Restrictions on attributes).
ghost use Rattle.std.specs.Prelude.{◌≡◌, ◌<◌};
ghost use Rattle.pattern_intern.specs.Stored.{count, tree_at};
ghost use Rattle.restrictions.specs.Described.{AreDescribed};
ghost use Rattle.restrictions.specs.Truths.{has_loose_attribute};

use crate::described::{Described, known_at};
use pattern_intern::{Node, PatternId, Pool};

/// Whether such an attribute stands in a pattern, from whether one stands in its parts.
pub(crate) fn is_loose(pool: &Pool, id: PatternId, known: &[Described]) -> bool
    requires within { id.0 < count pool.now }
    requires known { AreDescribed pool.now id.0 known.now }
    ensures { result ≡ has_loose_attribute (tree_at pool.now id.0) }
{
    match pool.node(id) {
        Node::NotAllowed
        | Node::Empty
        | Node::AnyText
        | Node::Ref(_)
        | Node::Value(_, _)
        | Node::DataType(_, None)
        | Node::After(_, _) => false,
        Node::OneOrMore(_) => false,
        Node::DataType(_, Some(except)) => known_at(pool, id, known, except).loose,
        Node::Attribute(class, content) => {
            let content = known_at(pool, id, known, content).loose;
            pool.class(class).is_infinite() || content
        }
        Node::Choice(left, right) | Node::Group(left, right) | Node::Interleave(left, right) => {
            let left = known_at(pool, id, known, left).loose;
            left || known_at(pool, id, known, right).loose
        }
    }
}
