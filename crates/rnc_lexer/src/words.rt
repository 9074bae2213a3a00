// Words: the tokens that are no segment, as parts of the text.
ghost use Rattle.std.specs.Prelude.{◌≡◌, ◌<◌, ◌≤◌, length, chars, IfOk, IfErr, IfSome, IfNone, OnOk};
ghost use Rattle.token_laws.specs.Lexing.{start_of, at_word, AreShort, HasNoWord};
ghost use Rattle.rnc_lexer.specs.declared.faults.LexFault.{LexFault};
ghost use Rattle.rnc_lexer.specs.Views.{word_of, token_of, IsFault};
ghost use Rattle.rnc_lexer.specs.Steps.{place, TakesWord, StopsAnywhere};

use crate::faults::LexFault;
use crate::lexer::Lexer;
use crate::tokens::{Keyword, Symbol, Token};
use std::alloc::{AllocError, Global};
use text_atoms::Text;

/// How many bytes a name may have.
const NAME_LIMIT: usize = 1024;

/// A token that is no segment. Its names are parts of the text.
#[derive(Clone, Copy, Debug)]
pub(crate) enum Word<'a> {
    Keyword(Keyword),
    Ident(&'a str),
    CName(&'a str, &'a str),
    NsName(&'a str),
    Symbol(Symbol),
}

// A text of its own.
fn owned(alloc: Global, name: &str) -> Result<Text, AllocError>
    ensures { IfOk result (λ text. text ≡ name.now) }
{
    Ok(Text::from_string(String::from_str(alloc, name)?))
}

// Refuses a name that is too long.
fn check_name(name: &str, at: usize) -> Result<(), LexFault>
    ensures ok { OnOk result (length name.now ≤ 1024) }
    ensures refused { IfErr result (λ fault. (fault ≡ LexFault.NameTooLong at) × (1024 < length name.now)) }
{
    if name.len() > NAME_LIMIT {
        return Err(LexFault::NameTooLong { at });
    }
    Ok(())
}

impl<'a> Word<'a> {
    /// The token, with texts of its own.
    fn into_token(self, alloc: Global) -> Result<Token, AllocError>
        ensures { IfOk result (λ token. token_of token ≡ word_of self.entry) }
    {
        Ok(match self {
            Word::Keyword(keyword) => Token::Keyword(keyword),
            Word::Ident(name) => Token::Ident(owned(alloc, name)?),
            Word::CName(prefix, name) => Token::CName(owned(alloc, prefix)?, owned(alloc, name)?),
            Word::NsName(prefix) => Token::NsName(owned(alloc, prefix)?),
            Word::Symbol(symbol) => Token::Symbol(symbol),
        })
    }
}

impl<'a> Lexer<'a> {
    /// The word with the longest spelling that begins here.
    fn word(&mut self) -> Option<Word<'a>>
        ensures end { self.new.end ≡ self.old.end }
        ensures word { IfSome result (λ word. TakesWord self.old.rest.now (word_of word) self.new.rest.now) }
        ensures none { IfNone result (HasNoWord (chars self.old.rest.now)) }
    {
        let before = self.rest();
        if self.at_name() {
            return Some(self.name());
        }
        if self.take('\\') {
            return self.escaped_name(before);
        }
        match self.symbol() {
            Some(symbol) => Some(Word::Symbol(symbol)),
            None => None,
        }
    }

    // Refuses a word, which has just been read from `before` on, if a name in it is too long. The last name ends where the word
    // ends, so a backslash doesn't count.
    fn check_names(&self, before: &str, word: &Word<'a>) -> Result<(), LexFault>
        requires starts { start_of (chars before.now) ≡ at_word }
        requires word { TakesWord before.now (word_of word.now) self.now.rest.now }
        requires within { length before.now ≤ self.now.end }
        ensures ok { OnOk result (AreShort (word_of word.now)) }
        ensures refused { IfErr result (λ fault. IsFault (StopsAnywhere self.now.end before.now) fault) }
    {
        let start = self.end() - before.len();
        match word {
            Word::Keyword(_) | Word::Symbol(_) => Ok(()),
            Word::Ident(name) => check_name(name, self.place() - name.len()),
            Word::NsName(prefix) => check_name(prefix, start),
            Word::CName(prefix, name) => {
                check_name(prefix, start)?;
                check_name(name, self.place() - name.len())
            }
        }
    }

    /// The token of the word that begins here.
    pub(crate) fn word_token(&mut self, alloc: Global) -> Result<Token, LexFault>
        requires starts { start_of (chars self.old.rest.now) ≡ at_word }
        ensures end { self.new.end ≡ self.old.end }
        ensures word { IfOk result (λ token. TakesWord self.old.rest.now (token_of token) self.new.rest.now) }
        ensures short { IfOk result (λ token. AreShort (token_of token)) }
        ensures refused { IfErr result (λ fault. IsFault (StopsAnywhere self.old.end self.old.rest.now) fault) }
    {
        let before = self.rest();
        let Some(word) = self.word() else {
            return Err(LexFault::BadCharacter {
                at: self.end() - before.len(),
            });
        };
        self.check_names(before, &word)?;
        Ok(word.into_token(alloc)?)
    }
}
