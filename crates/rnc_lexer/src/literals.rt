// Segments as tokens, and the size of the literal that segments joined by `~` make.
ghost use Rattle.std.specs.Prelude.{◌≡◌, ◌≤◌, ◌+◌, ◌<◌, ◌^◌, Some, slice_get, length, chars, true, IfOk, IfErr};
ghost use Rattle.token_laws.specs.Tokens.{◌at◌};
ghost use Rattle.token_laws.specs.Lexing.{start_of, at_quote, is_quote, after_symbol};
ghost use Rattle.rnc_lexer.specs.Views.{joined_of, symbol_of, token_of, IsFault};
ghost use Rattle.rnc_lexer.specs.Steps.{place, StopsAt, LeadsToken, after_token, joined_size, size_with};

use crate::faults::LexFault;
use crate::lexer::Lexer;
use crate::tokens::{Symbol, Token};
use std::alloc::Global;
use text_atoms::Text;

/// How many bytes the segments of a literal may have together.
const LITERAL_LIMIT: usize = 4096;

/// What the next segment is joined to: nothing, or a literal with so many bytes.
#[derive(Clone, Copy, Debug, PartialEq, Eq)]
pub(crate) enum Joined {
    Apart,
    Segment(usize),
    Tilde(usize),
}

impl Joined {
    // How many bytes the literal has with a segment of so many.
    fn size_with(self, len: usize) -> usize
        requires { size_with (joined_of self) len < 2 ^ 64 }
        ensures { result ≡ size_with (joined_of self) len }
    {
        match self {
            Joined::Tilde(size) => size + len,
            _ => len,
        }
    }

    // What the next segment is joined to behind the symbol.
    fn after_symbol(self, symbol: Symbol) -> Joined
        ensures { joined_of result ≡ after_symbol (joined_of self) (symbol_of symbol) }
    {
        match (self, symbol) {
            (Joined::Segment(size), Symbol::Tilde) => Joined::Tilde(size),
            _ => Joined::Apart,
        }
    }

    /// What the next segment is joined to behind the token.
    pub(crate) fn after(self, token: &Token) -> Joined
        requires { joined_size (after_token (joined_of self) (token_of token.now)) ≤ 4096 }
        ensures { joined_of result ≡ after_token (joined_of self) (token_of token.now) }
    {
        match token {
            Token::Segment(text) => Joined::Segment(self.size_with(text.as_str().len())),
            Token::Symbol(symbol) => self.after_symbol(*symbol),
            _ => Joined::Apart,
        }
    }
}

impl<'a> Lexer<'a> {
    /// The segment with the quote that begins here, as a token.
    pub(crate) fn literal(
        &mut self,
        alloc: Global,
        mark: char,
        joined: Joined,
    ) -> Result<Token, LexFault>
        requires starts { start_of (chars self.old.rest.now) ≡ at_quote }
        requires mark { slice_get (chars self.old.rest.now) 0 ≡ Some mark }
        requires quote { is_quote mark ≡ true }
        requires fits { joined_size (joined_of joined) ≤ 4096 }
        ensures end { self.new.end ≡ self.old.end }
        ensures leads { IfOk result (λ token. LeadsToken self.old.end (joined_of joined) self.old.rest.now (token_of token) self.new.rest.now) }
        ensures fits { IfOk result (λ token. joined_size (after_token (joined_of joined) (token_of token)) ≤ 4096) }
        ensures shorter { IfOk result (λ token. length self.new.rest.now < length self.old.rest.now) }
        ensures refused { IfErr result (λ fault. IsFault (StopsAt self.old.end (joined_of joined) self.old.rest.now) fault) }
    {
        let at = self.place();
        let text = self.segment(alloc, mark)?;
        if joined.size_with(text.as_str().len()) > LITERAL_LIMIT {
            return Err(LexFault::LiteralTooLong { at });
        }
        Ok(Token::Segment(Text::from_string(text)))
    }
}
