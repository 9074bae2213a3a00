// The nodes of the graph.
use crate::members::Members;
use name_classes::NameClass;
use text_atoms::{Kind, Text};

/// What a part of a schema's tree is, with its own parts by number.
#[derive(Drop)]
pub enum Node {
    /// An `element` token with its number among those of the tree.
    Element {
        number: usize,
        class: NameClass,
        content: usize,
    },
    Attribute {
        class: NameClass,
        content: usize,
    },
    Group(Members),
    Choice(Members),
    Interleave(Members),
    Optional(usize),
    ZeroOrMore(usize),
    OneOrMore(usize),
    Mixed(usize),
    /// A reference to a name of its grammar, or of the next one outwards, at its place: the number of the combined definition.
    Reference {
        at: usize,
        definition: usize,
    },
    /// A grammar in the place of a pattern: the number of its combined start.
    Grammar {
        definition: usize,
    },
    Empty,
    AnyText,
    NotAllowed,
    Value {
        kind: Kind,
        literal: Text,
    },
    DataType {
        kind: Kind,
        except: Option<usize>,
    },
}
