// White space and the normal form of a text: the built-in datatype library.
ghost use Rattle.std.specs.Prelude.{◌≡◌, ◌≢◌, [], ◌∷◌, IfOk, MatchOption, length};
ghost use Rattle.std.specs.List.{prefix_len, position_or_len};
ghost use Rattle.std.specs.Str.{bytes_eq};
ghost use Rattle.rng_model.specs.Texts.{is_space, is_white, normal, words};

use crate::text::Text;
use std::alloc::{AllocError, Global};

/// Whether the character is white space: a space, tab, carriage return or line feed (XML 1.0, production 3). No other character of Unicode is.
pub fn is_space(c: char) -> bool
    ensures { result ≡ is_space c }
{
    matches!(c, ' ' | '\t' | '\r' | '\n')
}

/// Whether the text is white space alone; the empty text is.
pub fn is_white(text: &str) -> bool
    ensures { result ≡ is_white text.now }
{
    text.bytes().all(|byte| is_space(char::from(byte)))
}

// How many white space characters begin the text. Each is one byte.
fn space_count(text: &str) -> usize
    ensures { result ≡ prefix_len is_space text.now }
{
    text.bytes()
        .take_while(|byte| is_space(char::from(*byte)))
        .count()
}

// How many bytes stand before the first white space character.
fn word_len(text: &str) -> usize
    ensures { result ≡ position_or_len is_space text.now }
{
    text.bytes()
        .take_while(|byte| !is_space(char::from(*byte)))
        .count()
}

/// The first word of the text, and what follows it.
pub(crate) fn first_word(text: &str) -> Option<(&str, &str)>
    ensures { MatchOption result (words text.now ≡ []) (λ r. words text.now ≡ r.0.now ∷ words r.1.now) }
{
    let text = &text[space_count(text)..];
    if text.is_empty() {
        return None;
    }
    Some(text.split_at(word_len(text)))
}

/// The one word of the text, where it has one and no other.
pub(crate) fn lone_word(text: &str) -> Option<&str>
    ensures { MatchOption result (length (words text.now) ≢ 1) (λ word. words text.now ≡ word.now ∷ []) }
{
    match first_word(text) {
        Some((word, rest)) if is_white(rest) => Some(word),
        _ => None,
    }
}

/// The normal form: the words, joined by single spaces.
#[tactic(auto, unfolding(rng_model::specs::Texts::normal))]
pub fn normal(alloc: Global, text: &str) -> Result<Text, AllocError>
    ensures { IfOk result (λ n. n ≡ normal text.now) }
{
    let mut form = String::with_capacity(alloc, text.len())?;
    let Some((word, mut rest)) = first_word(text) else {
        return Ok(Text::from_string(form));
    };
    form.push_str(word)?;
    while let Some((word, after)) = first_word(rest) {
        form.push(' ')?;
        form.push_str(word)?;
        rest = after;
    }
    Ok(Text::from_string(form))
}

/// Whether both texts have one normal form.
#[tactic(auto, unfolding(rng_model::specs::Texts::normal))]
pub(crate) fn normal_equal(a: &str, b: &str) -> bool
    ensures { result ≡ bytes_eq (normal a.now) (normal b.now) }
{
    let (mut left, mut right) = (a, b);
    while let Some((word, after)) = first_word(left) {
        let Some((other, rest)) = first_word(right) else {
            return false;
        };
        if word != other {
            return false;
        }
        left = after;
        right = rest;
    }
    is_white(right)
}
