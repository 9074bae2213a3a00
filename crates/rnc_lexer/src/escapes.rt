// Escapes: `\x{..}` with one to six hexadecimal digits.
ghost use Rattle.std.specs.Prelude.{◌≡◌, ◌<◌, chars, true, false, IfOk, IfErr, MatchOption};
ghost use Rattle.std.specs.List.{list_all};
ghost use Rattle.token_laws.specs.Lexing.{opens_escape, begins_code, is_quote};
ghost use Rattle.rnc_lexer.specs.Views.{IsFault};
ghost use Rattle.rnc_lexer.specs.Steps.{TakesEscape, HasNoEscape, FailsEscape, TakesRun, is_hexadecimal, IsNumber, HasNoNumber};

use crate::characters::{is_allowed, is_quote};
use crate::faults::LexFault;
use crate::lexer::Lexer;

/// How many digits an escape may have.
const DIGIT_LIMIT: usize = 6;

impl<'a> Lexer<'a> {
    /// Whether a backslash, one or more `x` and `{` come next.
    pub(crate) fn opens_escape(&self) -> bool
        ensures { result ≡ opens_escape (chars self.now.rest.now) }
    {
        let mut chars = self.rest.chars();
        if chars.next() != Some('\\') {
            return false;
        }
        begins_code(chars.as_str())
    }

    // The longest run of hexadecimal digits.
    fn digit_run(&mut self) -> &'a str
        ensures end { self.new.end ≡ self.old.end }
        ensures run { TakesRun is_hexadecimal self.old.rest.now result.now self.new.rest.now }
    {
        let start = self.rest;
        let mut chars = start.chars();
        let mut rest = start;
        while let Some(c) = chars.next() {
            if !c.is_digit(16) {
                break;
            }
            rest = chars.as_str();
        }
        self.rest = rest;
        &start[..start.len() - rest.len()]
    }

    // The character that a valid escape stands for.
    fn escaped(&mut self) -> Option<char>
        ensures end { self.new.end ≡ self.old.end }
        ensures escape { MatchOption result (HasNoEscape self.old.rest.now) (λ c. TakesEscape self.old.end self.old.rest.now c self.new.rest.now) }
    {
        if !self.take('\\') {
            return None;
        }
        if !self.take('x') {
            return None;
        }
        if !self.take('{') {
            return None;
        }
        let digits = self.digit_run();
        if !self.take('}') {
            return None;
        }
        character_of(digits)
    }

    /// The character that the escape here stands for.
    pub(crate) fn escape(&mut self) -> Result<char, LexFault>
        ensures end { self.new.end ≡ self.old.end }
        ensures takes { IfOk result (λ c. TakesEscape self.old.end self.old.rest.now c self.new.rest.now) }
        ensures no_quote { IfOk result (λ c. is_quote c ≡ false) }
        ensures refused { IfErr result (λ fault. IsFault (FailsEscape self.old.end self.old.rest.now) fault) }
    {
        let at = self.place();
        let Some(c) = self.escaped() else {
            return Err(LexFault::BadEscape { at });
        };
        if is_quote(c) {
            return Err(LexFault::EscapeRefused { at });
        }
        Ok(c)
    }
}

// Whether one or more `x` and `{` begin the text.
fn begins_code(text: &str) -> bool
    ensures { result ≡ begins_code (chars text.now) }
{
    let mut chars = text.chars();
    let Some(first) = chars.next() else {
        return false;
    };
    if first != 'x' {
        return false;
    }
    while let Some(c) = chars.next() {
        if c != 'x' {
            return c == '{';
        }
    }
    false
}

// The character with the hexadecimal number, if that is allowed and has one to six digits.
fn character_of(digits: &str) -> Option<char>
    requires { list_all is_hexadecimal digits.now ≡ true }
    ensures { MatchOption result (HasNoNumber digits.now) (λ c. IsNumber digits.now c) }
{
    if digits.len() > DIGIT_LIMIT {
        return None;
    }
    let Ok(number) = u32::from_str_radix(digits, 16) else {
        return None;
    };
    let Some(c) = char::from_u32(number) else {
        return None;
    };
    if is_allowed(c) { Some(c) } else { None }
}
