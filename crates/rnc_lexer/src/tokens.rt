// Tokens with their places.
ghost use Rattle.std.specs.Prelude.{◌≡◌, ◌<◌, ◌^◌, ◌==◌, length, map};
ghost use Rattle.rnc_lexer.specs.Views.{token_of, placed_of, IsTokenAt, IsPlaceAt};
ghost use Rattle.rnc_lexer.specs.Sound.{AreSound};

use std::marker::Model;
use text_atoms::Text;

/// The keywords of the compact syntax: Annex C of RELAX NG.
#[derive(Clone, Copy, Debug, PartialEq, Eq)]
pub enum Keyword {
    Attribute,
    Default,
    Datatypes,
    Div,
    Element,
    Empty,
    External,
    Grammar,
    Include,
    Inherit,
    List,
    Mixed,
    Namespace,
    NotAllowed,
    Parent,
    Start,
    String,
    Text,
    Token,
}

/// The symbols `{` `}` `(` `)` `[` `]` `=` `|=` `&=` `,` `&` `|` `?` `*` `+` `-` `~` and `>>`.
#[derive(Clone, Copy, Debug, PartialEq, Eq)]
pub enum Symbol {
    OpenBrace,
    CloseBrace,
    OpenParen,
    CloseParen,
    OpenBracket,
    CloseBracket,
    Equals,
    BarEquals,
    AmpersandEquals,
    Comma,
    Ampersand,
    Bar,
    Question,
    Star,
    Plus,
    Minus,
    Tilde,
    Follows,
}

/// A token. Names stand without a backslash; a segment is its text, with what each escape stands for.
#[derive(Debug, Drop)]
pub enum Token {
    Keyword(Keyword),
    Ident(Text),
    CName(Text, Text),
    NsName(Text),
    Segment(Text),
    Symbol(Symbol),
}

/// A token and the place of its first byte, in bytes from the beginning of the text.
#[derive(Drop)]
pub struct Lexed {
    pub token: Token,
    pub place: usize,
}

/// The tokens of a text, with the places of their first bytes. Contracts see them with the text's length.
#[derive(Drop)]
pub struct Tokens {
    lexed: Vec<Lexed>,
    end: usize,
}

impl Model for Tokens {
    ghost use Rattle.std.specs.Prelude.{map};
    ghost use Rattle.rnc_lexer.specs.Values.{TokensValue};
    ghost use Rattle.rnc_lexer.specs.Views.{placed_of};

    ghost Value = { TokensValue };

    ghost view = { λ t. record { tokens = map placed_of t.lexed.items; end = t.end } };

    ghost use Rattle.std.specs.Prelude.{◌<◌, ◌^◌};
    ghost use Rattle.rnc_lexer.specs.Sound.{AreSound};

    ghost invariant = { λ t. (t.end < 2 ^ 63) × AreSound t.end (map placed_of t.lexed.items) };
}

impl Tokens {
    pub(crate) fn new(lexed: Vec<Lexed>, end: usize) -> Tokens
        requires fits { end < 2 ^ 63 }
        requires sound { AreSound end (map placed_of lexed.items) }
        ensures tokens { result.tokens ≡ map placed_of lexed.items }
        ensures end { result.end ≡ end }
    {
        Tokens { lexed, end }
    }

    /// How many tokens there are.
    pub fn len(&self) -> usize
        ensures { result ≡ length self.now.tokens }
    {
        self.lexed.len()
    }

    /// Whether there are none.
    pub fn is_empty(&self) -> bool
        ensures { result ≡ (length self.now.tokens == 0) }
    {
        self.lexed.is_empty()
    }

    /// The token with the number, counted from 0.
    pub fn token(&self, i: usize) -> &Token
        requires { i < length self.now.tokens }
        ensures { IsTokenAt self.now.tokens i (token_of result.now) }
    {
        &self.lexed[i].token
    }

    /// The place of the token's first byte.
    pub fn at(&self, i: usize) -> usize
        requires { i < length self.now.tokens }
        ensures { IsPlaceAt self.now.tokens i result }
    {
        self.lexed[i].place
    }

    /// The tokens in their order. Their places are within the text, and their names are NCNames (Namespaces in XML, section 3).
    pub fn as_slice(&self) -> &[Lexed]
        ensures tokens { map placed_of result.now ≡ self.now.tokens }
        ensures sound { AreSound self.now.end self.now.tokens }
    {
        self.lexed.as_slice()
    }

    /// The length of the text in bytes.
    pub fn end_place(&self) -> usize
        ensures place { result ≡ self.now.end }
        ensures fits { result < 2 ^ 63 }
    {
        self.end
    }
}
