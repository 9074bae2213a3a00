// Why a text is among the atoms.

/// The first of the rules that gives an atom, in the order of the rules; an extra text that none of them gives comes last.
#[derive(Clone, Copy, Debug, PartialEq, Eq, Drop)]
pub enum Origin {
    /// A literal of the kind `Str`, as written.
    StringLiteral,
    /// The normal form of a literal of the kind `Token`, with the fewest spaces behind it that make no string literal.
    TokenForm,
    /// The normal form of a literal of another kind.
    NormalForm,
    /// A sample of a kind that stands in the simple form.
    Sample,
    /// The first of `t`, `t1`, `t2`, .. that is neither the text nor the normal form of a literal.
    Fresh,
    /// None of the rules: an extra text.
    Extra,
}
