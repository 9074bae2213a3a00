// The extra texts of a run.
ghost use Rattle.std.specs.Prelude.{◌≡◌, ◌==◌, ◌↔◌, ◌<◌, ◌≤◌, IsTrue, Some, IfSome, IfNone, IfOk, All, map, string_bytes, length, slice_get};
ghost use Rattle.std.specs.List.{list_all};
ghost use Rattle.std.specs.Str.{chars};
ghost use Rattle.token_laws.specs.Lexing.{is_allowed};
ghost use Rattle.command_words.specs.Words.{AreTexts, IsExtraText};
ghost use Rattle.command_words.specs.Extra.{IsTextWord, AreNoTexts};

use crate::front::behind;
use std::alloc::{AllocError, Global};
use std::marker::Model;
use text_atoms::{Text, TextList};

/// The most words `text=T`.
const MOST_TEXTS: usize = 8;

/// The most bytes of a text.
const MOST_BYTES: usize = 4096;

/// The texts T of the words `text=T`: at most eight, each of at most 4,096 bytes, of characters that a schema may hold.
#[derive(Drop)]
pub struct ExtraTexts<'a> {
    words: &'a [String],
}

impl<'a> Model for ExtraTexts<'a> {
    ghost use Rattle.std.specs.Prelude.{List, map, string_bytes};
    ghost use Rattle.rng_model.specs.Texts.{Text};
    ghost use Rattle.command_words.specs.Extra.{texts_in, AreFewTexts};

    ghost Value = { List Text };

    ghost view = { λ e. texts_in (map string_bytes e.words.now) };

    ghost invariant = { λ e. AreFewTexts (map string_bytes e.words.now) };
}

/// Whether a schema may hold the character.
fn is_allowed(c: char) -> bool
    ensures { result ≡ is_allowed c }
{
    matches!(c, '\t' | '\n' | '\r' | ' '..='\u{D7FF}' | '\u{E000}'..='\u{FFFD}' | '\u{10000}'..='\u{10FFFF}')
}

/// Whether a schema may hold each of the characters.
fn are_allowed(text: &str) -> bool
    ensures { result ≡ list_all is_allowed (chars text.now) }
{
    text.chars().all(is_allowed)
}

/// Whether the text may stand behind `text=`.
fn is_extra_text(text: &str) -> bool
    ensures { IsTrue result ↔ IsExtraText text.now }
{
    text.len() <= MOST_BYTES && are_allowed(text)
}

/// Whether the word is `text=` and a text that may stand there.
fn is_text_word(word: &str) -> bool
    ensures { IsTrue result ↔ IsTextWord word.now }
{
    match behind(word, "text=") {
        Some(text) => is_extra_text(text),
        None => false,
    }
}

/// Whether each of the words is `text=` and a text that may stand there.
fn are_text_words(words: &[String]) -> bool
    ensures { IsTrue result ↔ All IsTextWord (map string_bytes words.now) }
{
    words.iter().all(|word| is_text_word(word.as_str()))
}

impl<'a> ExtraTexts<'a> {
    /// The texts of the words, where there are at most eight and each is one `text=T`.
    pub(crate) fn of(words: &'a [String]) -> Option<ExtraTexts<'a>>
        ensures texts { IfSome result (λ texts. AreTexts (map string_bytes words.now) texts) }
        ensures few { IfSome result (λ texts. length texts ≤ 8) }
        ensures none { IfNone result (AreNoTexts (map string_bytes words.now)) }
    {
        if MOST_TEXTS < words.len() {
            return None;
        }
        if are_text_words(words) {
            Some(ExtraTexts { words })
        } else {
            None
        }
    }

    /// How many there are.
    pub fn len(&self) -> usize
        ensures count { result ≡ length self.now }
        ensures few { result ≤ 8 }
    {
        self.words.len()
    }

    /// Whether there is none.
    pub fn is_empty(&self) -> bool
        ensures { result ≡ (length self.now == 0) }
    {
        self.words.is_empty()
    }

    /// The text at a position, counted from 0.
    pub fn get(&self, position: usize) -> &'a str
        requires { position < length self.now }
        ensures text { slice_get self.now position ≡ Some result.now }
        ensures extra { IsExtraText result.now }
    {
        let words = self.words;
        behind(words[position].as_str(), "text=").unwrap()
    }

    /// A list of them.
    pub fn to_list(&self, alloc: Global) -> Result<TextList, AllocError>
        ensures { IfOk result (λ list. list ≡ self.now) }
    {
        let mut list = TextList::new(alloc);
        for position in 0..self.len() {
            let text = String::from_str(alloc, self.get(position))?;
            list.push(Text::from_string(text))?;
        }
        Ok(list)
    }
}
