// What stands between tokens.
ghost use Rattle.std.specs.Prelude.{◌≡◌, ℕ, ◌≤◌, false, List, length, chars};
ghost use Rattle.rng_model.specs.Texts.{is_space};
ghost use Rattle.token_laws.specs.Lexing.{start_of};
ghost use Rattle.rnc_lexer.specs.Steps.{TakesRun, Skips, in_line, is_gap};

use crate::characters::is_line_end;
use crate::lexer::Lexer;
use text_atoms::is_space;

impl<'a> Lexer<'a> {
    // Goes over blanks.
    fn skip_blanks(&mut self)
        ensures end { self.new.end ≡ self.old.end }
        ensures run { (text : List ℕ) × TakesRun is_space self.old.rest.now text self.new.rest.now }
    {
        let mut chars = self.rest.chars();
        let mut rest = self.rest;
        while let Some(c) = chars.next() {
            if !is_space(c) {
                break;
            }
            rest = chars.as_str();
        }
        self.rest = rest;
    }

    // Goes to the end of the line.
    fn skip_line(&mut self)
        ensures end { self.new.end ≡ self.old.end }
        ensures run { (text : List ℕ) × TakesRun in_line self.old.rest.now text self.new.rest.now }
    {
        let mut chars = self.rest.chars();
        let mut rest = self.rest;
        while let Some(c) = chars.next() {
            if is_line_end(c) {
                break;
            }
            rest = chars.as_str();
        }
        self.rest = rest;
    }

    /// Goes over blanks and comments.
    pub(crate) fn skip(&mut self)
        ensures end { self.new.end ≡ self.old.end }
        ensures skips { Skips self.old.end self.old.rest.now self.new.rest.now }
        ensures stops { is_gap (start_of (chars self.new.rest.now)) ≡ false }
        ensures shorter { length self.new.rest.now ≤ length self.old.rest.now }
    {
        self.skip_blanks();
        while self.front() == Some('#') {
            self.skip_line();
            self.skip_blanks();
        }
    }
}
