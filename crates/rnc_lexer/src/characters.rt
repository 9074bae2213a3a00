// Classes of characters, and the text of the input.
ghost use Rattle.std.specs.Prelude.{◌≡◌, true, chars, MatchOption, IfOk, IfErr};
ghost use Rattle.std.specs.List.{list_all};
ghost use Rattle.token_laws.specs.Lexing.{is_line_end, is_quote, is_allowed, LexRefusal};
ghost use Rattle.rnc_lexer.specs.Views.{IsFault};
ghost use Rattle.rnc_lexer.specs.Steps.{IsRefusedAt};

use crate::faults::LexFault;

pub(crate) fn is_line_end(c: char) -> bool
    ensures { result ≡ is_line_end c }
{
    c == '\r' || c == '\n'
}

pub(crate) fn is_quote(c: char) -> bool
    ensures { result ≡ is_quote c }
{
    c == '"' || c == '\''
}

/// Whether a schema may hold the character.
pub(crate) fn is_allowed(c: char) -> bool
    ensures { result ≡ is_allowed c }
{
    matches!(c, '\t' | '\n' | '\r' | ' '..='\u{D7FF}' | '\u{E000}'..='\u{FFFD}' | '\u{10000}'..='\u{10FFFF}')
}

/// The place of the first character that isn't allowed.
fn first_refused(text: &str) -> Option<usize>
    ensures { MatchOption result (list_all is_allowed (chars text.now) ≡ true) (λ at. IsRefusedAt text.now at) }
{
    let mut chars = text.chars();
    let mut rest = text;
    while let Some(c) = chars.next() {
        if !is_allowed(c) {
            return Some(text.len() - rest.len());
        }
        rest = chars.as_str();
    }
    None
}

/// The bytes as a text of allowed characters.
pub(crate) fn text_of(bytes: &[u8]) -> Result<&str, LexFault>
    ensures text { IfOk result (λ text. text.now ≡ bytes.now) }
    ensures allowed { IfOk result (λ text. list_all is_allowed (chars bytes.now) ≡ true) }
    ensures refused { IfErr result (λ fault. IsFault (LexRefusal bytes.now) fault) }
{
    let text = match str::from_utf8(bytes) {
        Ok(text) => text,
        Err(error) => {
            return Err(LexFault::BadUtf8 {
                at: error.valid_up_to(),
            });
        }
    };
    match first_refused(text) {
        Some(at) => Err(LexFault::BadCharacter { at }),
        None => Ok(text),
    }
}
