// Nodes, their parts by number.
ghost use Rattle.std.specs.Prelude.{◌≡◌};
ghost use Rattle.pattern_intern.specs.Trees.{node_rank};

use crate::id::{ClassId, LiteralId, PatternId};
use text_atoms::Kind;

/// A pattern's node, its parts by number.
#[derive(Clone, Copy, Debug, PartialEq, Eq, Hash)]
pub enum Node {
    /// notAllowed: matches nothing.
    NotAllowed,
    /// empty: matches no attributes and no children.
    Empty,
    /// text: matches any texts.
    AnyText,
    /// ref: the element definition of this number.
    Ref(usize),
    /// value: the texts that are equal to the literal.
    Value(Kind, LiteralId),
    /// data: the texts of the kind that the except doesn't match.
    DataType(Kind, Option<PatternId>),
    /// attribute: one whose name is in the class and whose text matches the content.
    Attribute(ClassId, PatternId),
    /// oneOrMore.
    OneOrMore(PatternId),
    /// choice: a member, which is no choice, and the choice of the greater ones.
    Choice(PatternId, PatternId),
    /// group.
    Group(PatternId, PatternId),
    /// interleave.
    Interleave(PatternId, PatternId),
    /// What is to be matched inside the open element, and what follows it.
    After(PatternId, PatternId),
}

/// The place of the node's kind in the order of patterns.
pub(crate) fn rank(node: Node) -> u8
    ensures { result ≡ node_rank node }
{
    match node {
        Node::NotAllowed => 1,
        Node::Empty => 2,
        Node::AnyText => 3,
        Node::Ref(_) => 4,
        Node::Value(_, _) => 5,
        Node::DataType(_, _) => 6,
        Node::Attribute(_, _) => 7,
        Node::OneOrMore(_) => 8,
        Node::Choice(_, _) => 9,
        Node::Group(_, _) => 10,
        Node::Interleave(_, _) => 11,
        Node::After(_, _) => 12,
    }
}
