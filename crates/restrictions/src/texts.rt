// Text in both sides of an interleave (section Restrictions on interleave).
ghost use Rattle.std.specs.Prelude.{◌≡◌, ◌<◌, false};
ghost use Rattle.rng_model.specs.Patterns.{Pattern, choice, group, interleave};
ghost use Rattle.pattern_intern.specs.Stored.{count, tree_at};
ghost use Rattle.restrictions.specs.Described.{AreDescribed, AreTexts};

use crate::described::{Described, known_at};
use pattern_intern::{Node, PatternId, Pool};

/// Text in a pattern.
#[derive(Clone, Copy, Debug)]
pub(crate) struct Texts {
    /// Text stands in the pattern outside each attribute.
    pub(crate) stands: bool,
    /// An interleave stands inside the pattern that has such text in both sides.
    pub(crate) meets: bool,
}

impl Texts {
    /// Of a pattern without parts, by whether it is text.
    fn leaf(stands: bool) -> Texts
        ensures { result ≡ record { stands = stands; meets = false } }
    {
        Texts {
            stands,
            meets: false,
        }
    }

    /// Of an attribute, from its content, whose text doesn't count.
    fn hidden(self) -> Texts
        ensures { result ≡ record { stands = false; meets = self.meets } }
    {
        Texts {
            stands: false,
            meets: self.meets,
        }
    }

    /// Of two patterns side by side.
    fn beside(self, other: Texts) -> Texts
        ensures choice { (p q : Pattern) → AreTexts p self → AreTexts q other → AreTexts (choice p q) result }
        ensures group { (p q : Pattern) → AreTexts p self → AreTexts q other → AreTexts (group p q) result }
    {
        Texts {
            stands: self.stands || other.stands,
            meets: self.meets || other.meets,
        }
    }

    /// Of an interleave, from its sides.
    fn interleaved(self, other: Texts) -> Texts
        ensures { (p q : Pattern) → AreTexts p self → AreTexts q other → AreTexts (interleave p q) result }
    {
        Texts {
            stands: self.stands || other.stands,
            meets: (self.stands && other.stands) || (self.meets || other.meets),
        }
    }
}

/// The text in a pattern, from that in its parts.
pub(crate) fn texts_of(pool: &Pool, id: PatternId, known: &[Described]) -> Texts
    requires within { id.0 < count pool.now }
    requires known { AreDescribed pool.now id.0 known.now }
    ensures { AreTexts (tree_at pool.now id.0) result }
{
    match pool.node(id) {
        Node::NotAllowed
        | Node::Empty
        | Node::Ref(_)
        | Node::Value(_, _)
        | Node::DataType(_, None) => Texts::leaf(false),
        Node::AnyText => Texts::leaf(true),
        Node::DataType(_, Some(part)) | Node::OneOrMore(part) => {
            known_at(pool, id, known, part).texts
        }
        Node::Attribute(_, content) => known_at(pool, id, known, content).texts.hidden(),
        Node::Choice(left, right) | Node::Group(left, right) => {
            let left = known_at(pool, id, known, left).texts;
            left.beside(known_at(pool, id, known, right).texts)
        }
        Node::Interleave(left, right) => {
            let left = known_at(pool, id, known, left).texts;
            left.interleaved(known_at(pool, id, known, right).texts)
        }
        Node::After(left, right) => {
            let left = known_at(pool, id, known, left).texts;
            left.beside(known_at(pool, id, known, right).texts).hidden()
        }
    }
}
