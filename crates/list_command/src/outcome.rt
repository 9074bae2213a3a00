// How a run ends.
ghost use Rattle.std.specs.Prelude.{◌≡◌, ◌⊎◌};
ghost use Rattle.list_command.specs.Status.{status_of};

use std::alloc::Global;
use text_atoms::Text;

/// Why a schema is refused. A place counts the bytes before it.
#[derive(Debug, Drop)]
pub enum SchemaFault {
    /// Its bytes aren't UTF-8; the place of the first ill-formed sequence.
    BadUtf8 { at: usize },
    /// A character that isn't allowed, or one that begins no token.
    BadCharacter { at: usize },
    /// A segment of a literal that isn't closed; the place of its first quote.
    OpenLiteral { at: usize },
    /// An escape in a literal that isn't valid; the place of its backslash.
    BadEscape { at: usize },
    /// An escape outside literals, or one that stands for a quote; the place of its backslash.
    EscapeRefused { at: usize },
    /// A literal of more than 4,096 bytes; the place of the segment with which it passes the limit.
    LiteralTooLong { at: usize },
    /// A name of more than 1,024 bytes; the place of its first byte, without the backslash.
    NameTooLong { at: usize },
    /// It has over 1,048,576 bytes.
    TooLong,
    /// The first token with which no schema goes on; the end of the file is a last token.
    Syntax { at: usize },
    /// The first `{` or `(` of nesting level 129.
    TooDeep { at: usize },
    /// An `include`.
    Include { at: usize },
    /// An `external`.
    External { at: usize },
    /// An `inherit` that takes a namespace from a referring file, or hands one over.
    Inherit { at: usize },
    /// A `list`.
    List { at: usize },
    /// A type of a library that isn't taken, or that its library doesn't have.
    ForeignType { at: usize },
    /// The first parameter of a datatype.
    Parameter { at: usize },
    /// A prefix of a name class or of a datatype that isn't bound.
    UnboundPrefix { at: usize },
    /// A declaration that binds what an earlier one binds.
    PrefixTwice { at: usize },
    /// A declaration of `xml`, `xmlns` or `xsd`, or of their namespaces, that isn't theirs.
    ReservedPrefix { at: usize },
    /// A wildcard in an except that may not have it.
    ClassConstraint { at: usize },
    /// An attribute whose name class has `xmlns` or a name of its namespace.
    XmlnsAttribute { at: usize },
    /// A grammar without a start.
    NoStart,
    /// A reference to a name that its grammar doesn't define.
    UndefinedName { at: usize },
    /// A `parent` where there is no grammar outside.
    ParentOutside { at: usize },
    /// A start or a name whose definitions are combined in both ways.
    CombineMixed { at: usize },
    /// A start or a name that `=` defines twice.
    DefinedTwice { at: usize },
    /// A reference that leads back to itself without an element between.
    Loop { at: usize },
    /// A pattern or a name class of the simple form that is deeper than 1,024 levels.
    ExpandedTooDeep,
    /// The least of the rules that the simple form breaks, by its number from 1 to 11 (section Restrictions).
    Restriction { rule: usize },
    /// A value that its type doesn't allow; the place of the type.
    BadValue { at: usize },
}

/// Why a cursor is refused. Lines are counted from 1.
#[derive(Clone, Copy, Debug, PartialEq, Eq)]
pub enum CursorRefusal {
    /// It has over 2,097,152 bytes.
    TooLong,
    /// The first line through which its lines begin no document's text.
    BadLine { line: usize },
    /// It begins a document's text, and more would have to follow.
    Unfinished,
    /// A document's text, and more behind it; the first line behind it.
    Trailing { line: usize },
    /// As BadLine, where the line is an attribute's behind another attribute's, and its name isn't greater.
    NotOrdered { line: usize },
    /// A document of more nodes than are asked for.
    CursorTooLarge,
    /// A document that isn't listed; the first line through which its events begin no listed document of its size.
    CursorStray { line: usize },
}

/// How a run ends.
#[derive(Debug, Drop)]
pub enum Outcome {
    /// All that was asked for is done.
    Done,
    /// The words have no form.
    Words,
    /// The schema is refused; the text is the name of its file.
    SchemaRefused(SchemaFault, Text),
    /// The cursor is refused.
    CursorRefused(CursorRefusal),
    /// More states than the limit are reached with so many nodes; the count is the limit and one.
    StateLimit { size: usize, count: usize },
    /// A file couldn't be read, or isn't there.
    ReadFault,
    /// The output couldn't be written.
    WriteFault,
    OutOfMemory,
    /// As many documents as the page limit says are listed.
    Page,
}

impl Outcome {
    /// The exit status.
    pub fn status(&self) -> u8
        ensures { result ≡ status_of self.now }
    {
        match self {
            Outcome::Done => 0,
            Outcome::Words => 2,
            Outcome::SchemaRefused(_, _) => 3,
            Outcome::CursorRefused(_) => 4,
            Outcome::StateLimit { .. } => 5,
            Outcome::ReadFault => 6,
            Outcome::WriteFault => 7,
            Outcome::OutOfMemory => 8,
            Outcome::Page => 9,
        }
    }
}

/// The refusal of the schema in the file, or want of memory.
pub(crate) fn refused(alloc: Global, fault: SchemaFault, file: &str) -> Outcome
    ensures { (result ≡ Outcome.SchemaRefused fault file.now) ⊎ (result ≡ Outcome.OutOfMemory) }
{
    match String::from_str(alloc, file) {
        Ok(file) => Outcome::SchemaRefused(fault, Text::from_string(file)),
        Err(_) => Outcome::OutOfMemory,
    }
}
