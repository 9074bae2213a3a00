// Names and keywords.
ghost use Rattle.std.specs.Prelude.{◌≡◌, true, chars, MatchOption, IfSome, IfNone};
ghost use Rattle.rng_model.specs.Names.{is_name_char};
ghost use Rattle.token_laws.specs.Spellings.{keyword_text};
ghost use Rattle.token_laws.specs.Beginnings.{begins_name};
ghost use Rattle.token_laws.specs.Lexing.{HasNoWord};
ghost use Rattle.rnc_lexer.specs.Views.{keyword_of, word_of, IsNoKeyword, IsPlain};
ghost use Rattle.rnc_lexer.specs.Steps.{TakesRun, TakesWord, Takes};

use crate::lexer::Lexer;
use crate::tokens::Keyword;
use crate::words::Word;
use text_atoms::{is_name_char, is_name_start};

// The keyword that is spelled so.
fn keyword_of(text: &str) -> Option<Keyword>
    ensures { MatchOption result (IsNoKeyword text.now) (λ k. text.now ≡ keyword_text (keyword_of k)) }
{
    match text {
        "attribute" => Some(Keyword::Attribute),
        "default" => Some(Keyword::Default),
        "datatypes" => Some(Keyword::Datatypes),
        "div" => Some(Keyword::Div),
        "element" => Some(Keyword::Element),
        "empty" => Some(Keyword::Empty),
        "external" => Some(Keyword::External),
        "grammar" => Some(Keyword::Grammar),
        "include" => Some(Keyword::Include),
        "inherit" => Some(Keyword::Inherit),
        "list" => Some(Keyword::List),
        "mixed" => Some(Keyword::Mixed),
        "namespace" => Some(Keyword::Namespace),
        "notAllowed" => Some(Keyword::NotAllowed),
        "parent" => Some(Keyword::Parent),
        "start" => Some(Keyword::Start),
        "string" => Some(Keyword::String),
        "text" => Some(Keyword::Text),
        "token" => Some(Keyword::Token),
        _ => None,
    }
}

// A keyword, or else a name.
fn plain<'a>(text: &'a str) -> Word<'a>
    ensures { IsPlain text.now (word_of result) }
{
    match keyword_of(text) {
        Some(keyword) => Word::Keyword(keyword),
        None => Word::Ident(text),
    }
}

impl<'a> Lexer<'a> {
    /// Whether a name begins here.
    pub(crate) fn at_name(&self) -> bool
        ensures { result ≡ begins_name (chars self.now.rest.now) }
    {
        match self.front() {
            Some(c) => is_name_start(c),
            None => false,
        }
    }

    // The longest run of name characters.
    fn name_run(&mut self) -> &'a str
        ensures end { self.new.end ≡ self.old.end }
        ensures run { TakesRun is_name_char self.old.rest.now result.now self.new.rest.now }
    {
        let start = self.rest;
        let mut chars = start.chars();
        let mut rest = start;
        while let Some(c) = chars.next() {
            if !is_name_char(c) {
                break;
            }
            rest = chars.as_str();
        }
        self.rest = rest;
        &start[..start.len() - rest.len()]
    }

    /// The word that begins with a name.
    pub(crate) fn name(&mut self) -> Word<'a>
        requires starts { begins_name (chars self.old.rest.now) ≡ true }
        ensures end { self.new.end ≡ self.old.end }
        ensures word { TakesWord self.old.rest.now (word_of result) self.new.rest.now }
    {
        let first = self.name_run();
        let behind = self.rest;
        if !self.take(':') {
            return plain(first);
        }
        if self.take('*') {
            return Word::NsName(first);
        }
        if self.at_name() {
            return Word::CName(first, self.name_run());
        }
        self.rest = behind;
        plain(first)
    }

    /// The word of a backslash, which has just been read from `before` on, and a name.
    pub(crate) fn escaped_name(&mut self, before: &str) -> Option<Word<'a>>
        requires backslash { Takes 92 before.now true self.old.rest.now }
        ensures end { self.new.end ≡ self.old.end }
        ensures word { IfSome result (λ word. TakesWord before.now (word_of word) self.new.rest.now) }
        ensures none { IfNone result (HasNoWord (chars before.now)) }
    {
        if self.at_name() {
            Some(Word::Ident(self.name_run()))
        } else {
            None
        }
    }
}
