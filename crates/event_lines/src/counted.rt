// How many bytes a text has, and their sum.
ghost use Rattle.std.specs.Prelude.{◌≡◌, ◌%◌, ◌^◌, flat_map, sum};
ghost use Rattle.rng_model.specs.Lines.{name_spelling};
ghost use Rattle.rng_model.specs.Codes.{IsInRange};
ghost use Rattle.skeleton.specs.Views.{code_of};
ghost use Rattle.event_lines.specs.Escapes.{spelling, qualified};
ghost use Rattle.event_lines.specs.Parts.{name_line, text_line, attribute_line};
ghost use Rattle.event_lines.specs.Coded.{AreInRange, code_line, lists_of, lines_of_codes, Counts};

use crate::escapes::Escapes;
use name_classes::Name;
use name_universe::Universe;
use skeleton::Code;
use text_atoms::{Atoms, Text};

/// The number of bytes of a text modulo 2^64, and the sum of these bytes modulo 2^32.
#[derive(Clone, Copy, Debug, PartialEq, Eq)]
pub struct Measure {
    pub bytes: u64,
    pub sum: u32,
}

/// The sum of bytes modulo 2^32.
fn sum_of(bytes: &[u8]) -> u32
    ensures { result ≡ sum bytes.now % 2 ^ 32 }
{
    let mut sum: u32 = 0;
    for byte in bytes {
        sum = sum.wrapping_add(u32::from(*byte));
    }
    sum
}

impl Measure {
    /// Counts bytes more.
    fn add(&mut self, bytes: &[u8])
        ensures { Counts self.old self.new bytes.now }
    {
        self.bytes = self.bytes.wrapping_add(bytes.len() as u64);
        self.sum = self.sum.wrapping_add(sum_of(bytes));
    }

    /// Counts a byte with its escape.
    fn add_byte(&mut self, escapes: Escapes, byte: u8)
        ensures { Counts self.old self.new (spelling escapes byte) }
    {
        match escapes.letter(byte) {
            Some(letter) => self.add(&[b'\\', letter]),
            None => self.add(&[byte]),
        }
    }

    /// Counts bytes with their escapes.
    fn add_escaped(&mut self, escapes: Escapes, bytes: &[u8])
        ensures { Counts self.old self.new (flat_map (spelling escapes) bytes.now) }
    {
        for byte in bytes {
            self.add_byte(escapes, *byte);
        }
    }

    /// Counts the namespace in braces, and the local name.
    fn add_qualified(&mut self, ns: &str, local: &str)
        ensures { Counts self.old self.new (qualified ns.now local.now) }
    {
        self.add(b"{");
        self.add_escaped(Escapes::Namespace, ns.as_bytes());
        self.add(b"}");
        self.add(local.as_bytes());
    }

    /// Counts a name.
    fn add_name(&mut self, name: &Name)
        ensures { Counts self.old self.new (name_spelling name.now) }
    {
        let ns = name.ns().as_str();
        if !ns.is_empty() {
            self.add_qualified(ns, name.local().as_str());
            return;
        }
        self.add(name.local().as_str().as_bytes());
    }

    /// Counts a line of a byte and a name.
    fn add_name_line(&mut self, first: u8, name: &Name)
        ensures { Counts self.old self.new (name_line first name.now) }
    {
        self.add(&[first]);
        self.add_name(name);
        self.add(b"\n");
    }

    /// Counts a line of a byte and a text.
    fn add_text_line(&mut self, first: u8, text: &Text)
        ensures { Counts self.old self.new (text_line first text.now) }
    {
        self.add(&[first]);
        self.add_escaped(Escapes::Text, text.as_str().as_bytes());
        self.add(b"\n");
    }

    /// Counts the line of an attribute.
    fn add_attribute_line(&mut self, name: &Name, text: &Text)
        ensures { Counts self.old self.new (attribute_line name.now text.now) }
    {
        self.add(b"A");
        self.add_name(name);
        self.add_text_line(b' ', text);
    }

    /// Counts the line of the event that a code is by position.
    fn add_code(&mut self, code: Code, universe: &Universe, atoms: &Atoms)
        requires { IsInRange (lists_of universe.now atoms.now) (code_of code) }
        ensures { Counts self.old self.new (code_line (lists_of universe.now atoms.now) code) }
    {
        match code {
            Code::Opening(name) => self.add_name_line(b'(', universe.elements().get(name)),
            Code::Attr(name, text) => {
                self.add_attribute_line(universe.attributes().get(name), atoms.get(text));
            }
            Code::Body => self.add(b">\n"),
            Code::Chars(text) => self.add_text_line(b'-', atoms.get(text)),
            Code::Closing => self.add(b")\n"),
        }
    }

    /// Counts the lines of the events that codes are by position, and an empty line.
    pub(crate) fn add_codes(&mut self, codes: &[Code], universe: &Universe, atoms: &Atoms)
        requires { AreInRange (lists_of universe.now atoms.now) codes.now }
        ensures { Counts self.old self.new (lines_of_codes (lists_of universe.now atoms.now) codes.now) }
    {
        for code in codes {
            self.add_code(*code, universe, atoms);
        }
        self.add(b"\n");
    }
}
