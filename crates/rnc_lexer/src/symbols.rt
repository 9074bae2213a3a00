// Symbols.
ghost use Rattle.std.specs.Prelude.{◌≡◌, false, [], ◌∷◌, chars, MatchOption};
ghost use Rattle.token_laws.specs.Tokens.{symbol};
ghost use Rattle.token_laws.specs.Spellings.{symbol_text};
ghost use Rattle.token_laws.specs.Beginnings.{begins_name, is_single, is_pair, begins_pair};
ghost use Rattle.token_laws.specs.Lexing.{begins_backslash, HasNoWord};
ghost use Rattle.rnc_lexer.specs.Views.{symbol_of};
ghost use Rattle.rnc_lexer.specs.Steps.{TakesWord};

use crate::lexer::Lexer;
use crate::tokens::Symbol;

// The symbol of one character.
fn single_of(c: char) -> Option<Symbol>
    ensures { MatchOption result (is_single c ≡ false) (λ s. symbol_text (symbol_of s) ≡ c ∷ []) }
{
    match c {
        '{' => Some(Symbol::OpenBrace),
        '}' => Some(Symbol::CloseBrace),
        '(' => Some(Symbol::OpenParen),
        ')' => Some(Symbol::CloseParen),
        '[' => Some(Symbol::OpenBracket),
        ']' => Some(Symbol::CloseBracket),
        '=' => Some(Symbol::Equals),
        ',' => Some(Symbol::Comma),
        '&' => Some(Symbol::Ampersand),
        '|' => Some(Symbol::Bar),
        '?' => Some(Symbol::Question),
        '*' => Some(Symbol::Star),
        '+' => Some(Symbol::Plus),
        '-' => Some(Symbol::Minus),
        '~' => Some(Symbol::Tilde),
        _ => None,
    }
}

// The symbol of two characters.
fn pair_of(c: char, d: char) -> Option<Symbol>
    ensures { MatchOption result (is_pair c d ≡ false) (λ s. symbol_text (symbol_of s) ≡ c ∷ d ∷ []) }
{
    if c == '|' && d == '=' {
        Some(Symbol::BarEquals)
    } else if c == '&' && d == '=' {
        Some(Symbol::AmpersandEquals)
    } else if c == '>' && d == '>' {
        Some(Symbol::Follows)
    } else {
        None
    }
}

impl<'a> Lexer<'a> {
    // A symbol of two characters.
    fn pair(&mut self) -> Option<Symbol>
        requires name { begins_name (chars self.old.rest.now) ≡ false }
        requires backslash { begins_backslash (chars self.old.rest.now) ≡ false }
        ensures end { self.new.end ≡ self.old.end }
        ensures pair { MatchOption result ((self.new.rest.now ≡ self.old.rest.now) × (begins_pair (chars self.old.rest.now) ≡ false)) (λ s. TakesWord self.old.rest.now (symbol (symbol_of s)) self.new.rest.now) }
    {
        let mut chars = self.rest.chars();
        let Some(c) = chars.next() else {
            return None;
        };
        let behind = chars.as_str();
        let mut more = behind.chars();
        let Some(d) = more.next() else {
            return None;
        };
        let Some(s) = pair_of(c, d) else {
            return None;
        };
        self.rest = more.as_str();
        Some(s)
    }

    /// The symbol that begins here, where neither a name nor a backslash stands.
    pub(crate) fn symbol(&mut self) -> Option<Symbol>
        requires name { begins_name (chars self.old.rest.now) ≡ false }
        requires backslash { begins_backslash (chars self.old.rest.now) ≡ false }
        ensures end { self.new.end ≡ self.old.end }
        ensures symbol { MatchOption result (HasNoWord (chars self.old.rest.now)) (λ s. TakesWord self.old.rest.now (symbol (symbol_of s)) self.new.rest.now) }
    {
        if let Some(s) = self.pair() {
            return Some(s);
        }
        let rest = self.rest;
        let mut chars = rest.chars();
        let Some(c) = chars.next() else {
            return None;
        };
        let Some(s) = single_of(c) else {
            return None;
        };
        self.rest = chars.as_str();
        Some(s)
    }
}
