// How deep braces and parentheses are nested.
ghost use Rattle.std.specs.Prelude.{◌≡◌, ◌<◌, ◌^◌, suc, ℕ, [], IfSome, IfNone};
ghost use Rattle.grammar_laws.specs.Nesting.{opens, closes, opens_block, closes_block, TooDeep};
ghost use Rattle.rnc_lexer.specs.Views.{token_of};
ghost use Rattle.rnc_parser.specs.Depth.{AreCounts, counts_here, behind, is_too_deep};

use rnc_lexer::{Symbol, Token, Tokens};

/// How many `[` and `]` were passed, and how many opening and closing braces and parentheses outside blocks.
#[derive(Clone, Copy)]
struct Counts {
    blocks_opened: usize,
    blocks_closed: usize,
    opened: usize,
    closed: usize,
}

impl Counts {
    /// Nothing was passed.
    fn new() -> Counts
        ensures { AreCounts [] result }
    {
        Counts {
            blocks_opened: 0,
            blocks_closed: 0,
            opened: 0,
            closed: 0,
        }
    }

    /// Whether no block holds what comes next.
    fn counts_here(self) -> bool
        ensures { result ≡ counts_here self }
    {
        self.blocks_opened == self.blocks_closed
    }

    /// The counts behind the token.
    fn behind(self, token: &Token) -> Counts
        requires blocks_opened { suc self.blocks_opened < 2 ^ 64 }
        requires blocks_closed { suc self.blocks_closed < 2 ^ 64 }
        requires opened { suc self.opened < 2 ^ 64 }
        requires closed { suc self.closed < 2 ^ 64 }
        ensures { result ≡ behind self (token_of token.now) }
    {
        let counts = self.counts_here();
        Counts {
            blocks_opened: self.blocks_opened + usize::from(opens_block(token)),
            blocks_closed: self.blocks_closed + usize::from(closes_block(token)),
            opened: self.opened + usize::from(counts && opens(token)),
            closed: self.closed + usize::from(counts && closes(token)),
        }
    }

    /// Whether the token is a `{` or `(` of nesting level 129.
    fn is_too_deep(self, token: &Token) -> bool
        ensures { result ≡ is_too_deep self (token_of token.now) }
    {
        opens(token) && self.counts_here() && self.opened.checked_sub(128) == Some(self.closed)
    }
}

fn opens(token: &Token) -> bool
    ensures { result ≡ opens (token_of token.now) }
{
    matches!(token, Token::Symbol(Symbol::OpenBrace | Symbol::OpenParen))
}

fn closes(token: &Token) -> bool
    ensures { result ≡ closes (token_of token.now) }
{
    matches!(
        token,
        Token::Symbol(Symbol::CloseBrace | Symbol::CloseParen)
    )
}

fn opens_block(token: &Token) -> bool
    ensures { result ≡ opens_block (token_of token.now) }
{
    matches!(token, Token::Symbol(Symbol::OpenBracket))
}

fn closes_block(token: &Token) -> bool
    ensures { result ≡ closes_block (token_of token.now) }
{
    matches!(token, Token::Symbol(Symbol::CloseBracket))
}

/// The place of the first `{` or `(` of nesting level 129. What blocks hold doesn't count.
pub(crate) fn too_deep(tokens: &Tokens) -> Option<usize>
    ensures some { IfSome result (TooDeep tokens.now.tokens) }
    ensures none { IfNone result ((a : ℕ) → TooDeep tokens.now.tokens a → ⊥) }
{
    let _length = tokens.len();
    let mut counts = Counts::new();
    let mut rest = tokens.as_slice();
    while let Some((first, others)) = rest.split_first() {
        if counts.is_too_deep(&first.token) {
            return Some(first.place);
        }
        counts = counts.behind(&first.token);
        rest = others;
    }
    None
}
