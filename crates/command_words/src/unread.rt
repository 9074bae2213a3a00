// Words, read from the first on.
ghost use Rattle.std.specs.Prelude.{◌≡◌, ◌∷◌, [], map, string_bytes, ◌≤◌, length, MatchOption, IfSome, IfNone};
ghost use Rattle.command_words.specs.Words.{AreTexts};
ghost use Rattle.command_words.specs.Reading.{PassesNumber, PassesOption};
ghost use Rattle.command_words.specs.Extra.{AreNoTexts};

use crate::extra_texts::ExtraTexts;
use crate::front::behind;
use crate::number::read_number;
use std::marker::Model;

/// The words that are still to be read.
#[derive(Drop)]
pub(crate) struct Unread<'a> {
    rest: &'a [String],
}

impl<'a> Model for Unread<'a> {
    ghost use Rattle.std.specs.Prelude.{List, map, string_bytes};
    ghost use Rattle.rng_model.specs.Texts.{Text};

    ghost Value = { List Text };

    ghost view = { λ u. map string_bytes u.rest.now };
}

/// A word has an option's front, and behind it no number that the option may have.
#[derive(Clone, Copy, Debug, PartialEq, Eq)]
pub(crate) struct BadNumber;

impl<'a> Unread<'a> {
    /// All of the words are left.
    pub(crate) fn new(words: &'a [String]) -> Unread<'a>
        ensures { result ≡ map string_bytes words.now }
    {
        Unread { rest: words }
    }

    /// Passes the first word, where one is left.
    pub(crate) fn word(&mut self) -> Option<&'a str>
        ensures { MatchOption result (self.old ≡ []) (λ word. self.old ≡ word.now ∷ self.new) }
    {
        let (first, rest) = self.rest.split_first()?;
        self.rest = rest;
        Some(first.as_str())
    }

    /// Passes a number within the limits. Where the first word isn't one, what is left then has no meaning.
    pub(crate) fn number(&mut self, low: u64, high: u64) -> Option<u64>
        ensures { PassesNumber low high self.old result self.new }
    {
        let word = self.word()?;
        read_number(word, low, high)
    }

    /// Passes a front and a number within the limits, if a word with this front is the first.
    pub(crate) fn option(
        &mut self,
        front: &str,
        low: u64,
        high: u64,
    ) -> Result<Option<u64>, BadNumber>
        ensures { PassesOption front.now low high self.old result self.new }
    {
        let Some((first, rest)) = self.rest.split_first() else {
            return Ok(None);
        };
        let Some(digits) = behind(first.as_str(), front) else {
            return Ok(None);
        };
        let Some(number) = read_number(digits, low, high) else {
            return Err(BadNumber);
        };
        self.rest = rest;
        Ok(Some(number))
    }

    /// All that are left, where they are texts.
    pub(crate) fn texts(&self) -> Option<ExtraTexts<'a>>
        ensures texts { IfSome result (λ texts. AreTexts self.now texts) }
        ensures few { IfSome result (λ texts. length texts ≤ 8) }
        ensures none { IfNone result (AreNoTexts self.now) }
    {
        ExtraTexts::of(self.rest)
    }
}
