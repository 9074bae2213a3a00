// The full tree of a schema, as it is written. Places are byte offsets from the beginning of the file.
use sqlite_items::{Boxed, Items};
use text_atoms::Text;

/// The URI of a declaration.
#[derive(Drop)]
pub enum Uri {
    Literal(Text),
    /// The URI that the referring file hands over; `at` is the place of `inherit`.
    Inherit { at: usize },
}

/// A declaration, and the place of its first keyword.
#[derive(Drop)]
pub enum Declaration {
    Namespace {
        prefix: Text,
        uri: Uri,
        at: usize,
    },
    DefaultNamespace {
        prefix: Option<Text>,
        uri: Uri,
        at: usize,
    },
    Datatypes {
        prefix: Text,
        literal: Text,
        at: usize,
    },
}

/// The type of a value or datatype.
#[derive(Drop)]
pub enum TypeName {
    BuiltString {
        at: usize,
    },
    BuiltToken {
        at: usize,
    },
    Prefixed {
        prefix: Text,
        local: Text,
        at: usize,
    },
}

/// A parameter of a datatype, and the place of its name.
#[derive(Drop)]
pub struct Parameter {
    pub name: Text,
    pub literal: Text,
    pub at: usize,
}

/// The namespace that a reference to another file hands over, `inherit = prefix`, and the place of `inherit`.
#[derive(Drop)]
pub struct Passed {
    pub prefix: Text,
    pub at: usize,
}

/// How definitions of one name are combined: `=`, `|=` and `&=`.
#[derive(Clone, Copy, PartialEq, Eq)]
pub enum Method {
    Plain,
    Choice,
    Interleave,
}

/// A name class.
#[derive(Drop)]
pub enum Class {
    Plain {
        local: Text,
        at: usize,
    },
    Prefixed {
        prefix: Text,
        local: Text,
        at: usize,
    },
    Any {
        except: Option<Boxed<Class>>,
        at: usize,
    },
    Namespace {
        prefix: Text,
        except: Option<Boxed<Class>>,
        at: usize,
    },
    Choice(Items<Class>),
}

/// A pattern. The lists of a group, a choice and an interleave have two members or more.
#[cycle(tree)]
#[derive(Drop)]
pub enum Pattern {
    Element {
        class: Class,
        content: Boxed<Pattern>,
        at: usize,
    },
    Attribute {
        class: Class,
        content: Boxed<Pattern>,
        at: usize,
    },
    Group(Items<Pattern>),
    Choice(Items<Pattern>),
    Interleave(Items<Pattern>),
    Optional(Boxed<Pattern>),
    ZeroOrMore(Boxed<Pattern>),
    OneOrMore(Boxed<Pattern>),
    List {
        content: Boxed<Pattern>,
        at: usize,
    },
    Mixed(Boxed<Pattern>),
    Ref {
        name: Text,
        at: usize,
    },
    Parent {
        name: Text,
        at: usize,
    },
    Empty,
    AnyText,
    NotAllowed,
    Value {
        of: Option<TypeName>,
        literal: Text,
    },
    DataType {
        of: TypeName,
        parameters: Items<Parameter>,
        except: Option<Boxed<Pattern>>,
    },
    External {
        literal: Text,
        passed: Option<Passed>,
        at: usize,
    },
    Grammar(Items<Item>),
}

/// An item of a grammar.
#[cycle(tree)]
#[derive(Drop)]
pub enum Item {
    Start {
        method: Method,
        pattern: Pattern,
        at: usize,
    },
    Define {
        name: Text,
        method: Method,
        pattern: Pattern,
        at: usize,
    },
    Div(Items<Item>),
    Include {
        literal: Text,
        passed: Option<Passed>,
        inner: Items<Item>,
        at: usize,
    },
}

/// What a schema consists of besides its declarations.
#[derive(Drop)]
pub enum Body {
    Pattern(Pattern),
    Items(Items<Item>),
}
