// Segments: literals in quotes.
ghost use Rattle.std.specs.Prelude.{◌≡◌, ◌<◌, ◌-◌, [], Some, None, slice_get, length, chars, true, false, string_bytes, IfOk, IfErr};
ghost use Rattle.token_laws.specs.Lexing.{is_quote, is_line_end, closed, ReadsSegment};
ghost use Rattle.rnc_lexer.specs.Views.{IsFault};
ghost use Rattle.rnc_lexer.specs.Steps.{place, TakesThree, SkipsFeed, LeadsSegment, Closes, TakesInside, FailsInside, FailsSegment};

use crate::characters::is_line_end;
use crate::faults::LexFault;
use crate::lexer::Lexer;
use std::alloc::Global;

impl<'a> Lexer<'a> {
    // Goes over the mark, if it comes next three times.
    fn take_three(&mut self, mark: char) -> bool
        ensures end { self.new.end ≡ self.old.end }
        ensures takes { TakesThree mark self.old.rest.now result self.new.rest.now }
    {
        let before = self.rest;
        if !self.take(mark) {
            return false;
        }
        if !self.take(mark) {
            self.rest = before;
            return false;
        }
        if !self.take(mark) {
            self.rest = before;
            return false;
        }
        true
    }

    // Goes over the opening quotes, and answers whether they are three.
    fn open(&mut self, mark: char) -> bool
        requires mark { slice_get (chars self.old.rest.now) 0 ≡ Some mark }
        requires quote { is_quote mark ≡ true }
        ensures end { self.new.end ≡ self.old.end }
        ensures opens { LeadsSegment self.old.end self.old.rest.now mark result [] self.new.rest.now }
        ensures shorter { length self.new.rest.now < length self.old.rest.now }
    {
        if self.take_three(mark) {
            return true;
        }
        self.take(mark);
        false
    }

    // Goes over the closing quotes, if they come next.
    fn close(&mut self, mark: char, long: bool) -> bool
        requires quote { is_quote mark ≡ true }
        ensures end { self.new.end ≡ self.old.end }
        ensures closes { Closes self.old.end mark long self.old.rest.now result self.new.rest.now }
    {
        if long {
            self.take_three(mark)
        } else {
            self.take(mark)
        }
    }

    // Goes over the line feed of CR LF, behind the first character of a line end.
    fn skip_feed(&mut self, first: char)
        requires { is_line_end first ≡ true }
        ensures end { self.new.end ≡ self.old.end }
        ensures skips { SkipsFeed first self.old.rest.now self.new.rest.now }
    {
        if first == '\r' {
            self.take('\n');
        }
    }

    // The next character of a segment, or none behind its closing quotes. A line end of a long segment is a line feed, CR LF too.
    fn inside(&mut self, mark: char, long: bool, start: usize) -> Result<Option<char>, LexFault>
        requires quote { is_quote mark ≡ true }
        ensures end { self.new.end ≡ self.old.end }
        ensures takes { IfOk result (λ next. TakesInside self.old.end mark long self.old.rest.now next self.new.rest.now) }
        ensures shorter { IfOk result (λ next. length self.new.rest.now < length self.old.rest.now) }
        ensures refused { IfErr result (λ fault. IsFault (FailsInside self.old.end mark long start self.old.rest.now) fault) }
    {
        if self.close(mark, long) {
            return Ok(None);
        }
        if self.opens_escape() {
            return Ok(Some(self.escape()?));
        }
        let mut chars = self.rest.chars();
        let Some(c) = chars.next() else {
            return Err(LexFault::OpenLiteral { at: start });
        };
        self.rest = chars.as_str();
        if !is_line_end(c) {
            return Ok(Some(c));
        }
        if !long {
            return Err(LexFault::OpenLiteral { at: start });
        }
        self.skip_feed(c);
        Ok(Some('\n'))
    }

    /// The text of the segment that begins here with the mark.
    pub(crate) fn segment(&mut self, alloc: Global, mark: char) -> Result<String, LexFault>
        requires mark { slice_get (chars self.old.rest.now) 0 ≡ Some mark }
        requires quote { is_quote mark ≡ true }
        ensures end { self.new.end ≡ self.old.end }
        ensures text { IfOk result (λ text. ReadsSegment (place self.old.end self.old.rest.now) (chars self.old.rest.now) (string_bytes text) (closed (place self.new.end self.new.rest.now) (chars self.new.rest.now))) }
        ensures shorter { IfOk result (λ text. length self.new.rest.now < length self.old.rest.now) }
        ensures refused { IfErr result (λ fault. IsFault (FailsSegment self.old.end self.old.rest.now) fault) }
    {
        let start = self.place();
        let long = self.open(mark);
        let mut text = String::new(alloc);
        while let Some(c) = self.inside(mark, long, start)? {
            text.push(c)?;
        }
        Ok(text)
    }
}
