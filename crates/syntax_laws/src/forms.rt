// What the next token begins.

/// The form of a bare pattern, by its first token.
#[derive(Clone, Copy)]
pub enum PatternForm {
    Element,
    Attribute,
    List,
    Mixed,
    Reference,
    Parent,
    Empty,
    Text,
    NotAllowed,
    Literal,
    Typed,
    External,
    Grammar,
    Parentheses,
    Other,
}

/// The form of a bare name class, by its first token.
#[derive(Clone, Copy)]
pub enum ClassForm {
    Plain,
    Prefixed,
    Parentheses,
    Any,
    Namespace,
    Other,
}

/// The form of an item, by its first token.
#[derive(Clone, Copy)]
pub enum ItemForm {
    Start,
    Div,
    Include,
    Named,
    Prefixed,
    Annotated,
    End,
    Other,
}

/// The form of a declaration, by its first token.
#[derive(Clone, Copy)]
pub enum DeclarationForm {
    Namespace,
    Default,
    Datatypes,
    Other,
}
