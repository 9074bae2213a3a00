// The lexer: tokens read from the left.
ghost use Rattle.std.specs.Prelude.{◌≡◌, ◌≤◌, ◌<◌, ◌-◌, List, map, length, chars, slice_get, Some, false, IfOk, IfErr};
ghost use Rattle.token_laws.specs.Tokens.{Placed, ◌at◌};
ghost use Rattle.token_laws.specs.Lexing as lexing;
ghost use Rattle.token_laws.specs.Lexing.{start_of, apart, done, LexRefusal};
ghost use Rattle.rnc_lexer.specs.Views.{joined_of, token_of, placed_of, IsFault};
ghost use Rattle.rnc_lexer.specs.Sound.{AreWithin};
ghost use Rattle.rnc_lexer.specs.Steps.{place, is_gap, Takes, BeginsText, ReadsRest, StopsAt, LeadsToken, after_token, joined_size};

use crate::characters::{is_quote, text_of};
use crate::faults::LexFault;
use crate::literals::Joined;
use crate::tokens::{Lexed, Token, Tokens};
use std::alloc::Global;
use token_laws::names_are_ncnames;

/// What is still to be read of a text with `end` bytes.
#[derive(Drop)]
pub(crate) struct Lexer<'a> {
    pub(crate) rest: &'a str,
    end: usize,
    ghost within: { length rest.now ≤ end },
}

impl<'a> Lexer<'a> {
    /// The whole text is left, but for a byte order mark.
    fn new(text: &'a str) -> Lexer<'a>
        ensures end { result.end ≡ length text.now }
        ensures rest { BeginsText text.now result.rest.now }
    {
        let mut lexer = Lexer {
            rest: text,
            end: text.len(),
        };
        lexer.take('\u{FEFF}');
        lexer
    }

    /// What is left.
    pub(crate) fn rest(&self) -> &'a str
        ensures { result.now ≡ self.now.rest.now }
    {
        self.rest
    }

    /// The length of the text.
    pub(crate) fn end(&self) -> usize
        ensures { result ≡ self.now.end }
    {
        self.end
    }

    /// How many bytes stand before the rest.
    pub(crate) fn place(&self) -> usize
        ensures { result ≡ place self.now.end self.now.rest.now }
    {
        self.end - self.rest.len()
    }

    /// The first character that is left.
    pub(crate) fn front(&self) -> Option<char>
        ensures { result ≡ slice_get (chars self.now.rest.now) 0 }
    {
        self.rest.chars().next()
    }

    /// Goes over the character, if it comes next.
    pub(crate) fn take(&mut self, wanted: char) -> bool
        ensures end { self.new.end ≡ self.old.end }
        ensures takes { Takes wanted self.old.rest.now result self.new.rest.now }
    {
        let mut chars = self.rest.chars();
        if chars.next() != Some(wanted) {
            return false;
        }
        self.rest = chars.as_str();
        true
    }

    // The token that begins here.
    fn token(&mut self, alloc: Global, first: char, joined: Joined) -> Result<Token, LexFault>
        requires starts { is_gap (start_of (chars self.old.rest.now)) ≡ false }
        requires first { slice_get (chars self.old.rest.now) 0 ≡ Some first }
        requires fits { joined_size (joined_of joined) ≤ 4096 }
        ensures end { self.new.end ≡ self.old.end }
        ensures leads { IfOk result (λ token. LeadsToken self.old.end (joined_of joined) self.old.rest.now (token_of token) self.new.rest.now) }
        ensures fits { IfOk result (λ token. joined_size (after_token (joined_of joined) (token_of token)) ≤ 4096) }
        ensures shorter { IfOk result (λ token. length self.new.rest.now < length self.old.rest.now) }
        ensures refused { IfErr result (λ fault. IsFault (StopsAt self.old.end (joined_of joined) self.old.rest.now) fault) }
    {
        if is_quote(first) {
            return self.literal(alloc, first, joined);
        }
        if self.opens_escape() {
            return Err(LexFault::EscapeRefused { at: self.place() });
        }
        self.word_token(alloc)
    }

    // The tokens up to the end.
    fn tokens(&mut self, alloc: Global) -> Result<Vec<Lexed>, LexFault>
        ensures reads { IfOk result (λ lexed. ReadsRest self.old.end apart self.old.rest.now (map placed_of lexed.items) done) }
        ensures within { IfOk result (λ lexed. AreWithin self.old.end (map placed_of lexed.items)) }
        ensures refused { IfErr result (λ fault. IsFault (λ f p. (ts : List Placed) × ReadsRest self.old.end apart self.old.rest.now ts (lexing.fault f p)) fault) }
    {
        let mut lexed = Vec::new(alloc);
        let mut joined = Joined::Apart;
        self.skip();
        while let Some(first) = self.front() {
            let place = self.place();
            let token = self.token(alloc, first, joined)?;
            joined = joined.after(&token);
            lexed.push(Lexed { token, place })?;
            self.skip();
        }
        Ok(lexed)
    }
}

/// The tokens of a schema in the compact syntax, or its first fault: Annex C of RELAX NG. A text has tokens or a fault, and
/// never both.
pub fn lex(alloc: Global, bytes: &[u8]) -> Result<Tokens, LexFault>
    ensures ok { IfOk result (λ tokens. lexing.Tokens bytes.now tokens.tokens) }
    ensures end { IfOk result (λ tokens. tokens.end ≡ length bytes.now) }
    ensures refused { IfErr result (λ fault. IsFault (LexRefusal bytes.now) fault) }
{
    let text = text_of(bytes)?;
    let lexed = Lexer::new(text).tokens(alloc)?;
    names_are_ncnames();
    Ok(Tokens::new(lexed, bytes.len()))
}
