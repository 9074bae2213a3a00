// Names and texts that are spelled once for many documents.
ghost use Rattle.std.specs.Prelude.{◌≡◌, ◌<◌, [], drop, get_or, length, map, IfOk};
ghost use Rattle.text_atoms.specs.Origins.{texts_of};
ghost use Rattle.event_lines.specs.Parts.{name_line, text_line, attribute_front};
ghost use Rattle.event_lines.specs.Coded.{lists_of};
ghost use Rattle.event_lines.specs.Spelled.{AreSpellings};

use crate::collected::Collected;
use crate::line_buffer::LineBuffer;
use crate::lines::{put_attribute_front, put_name_line, put_text_line};
use crate::piece_list::PieceList;
use name_classes::Name;
use name_universe::Universe;
use outside::Failed;
use std::alloc::{AllocError, Global};
use text_atoms::{Atoms, Text};

/// The lines of the names and texts of a universe and its atoms, spelled once for many documents: for each element name the line of
/// its opening, for each attribute name the front of its line, and for each atom its line as a text.
#[derive(Drop)]
pub struct Spellings {
    openings: PieceList,
    fronts: PieceList,
    texts: PieceList,
}

impl Spellings {
    /// Spells the names and texts. Refused for want of memory alone.
    pub fn of(alloc: Global, universe: &Universe, atoms: &Atoms) -> Result<Spellings, AllocError>
        ensures { IfOk result (λ spellings. AreSpellings (lists_of universe.now atoms.now) spellings) }
    {
        let mut buffer = LineBuffer::new();
        let openings = openings_of(alloc, &mut buffer, universe.elements().as_slice())?;
        let fronts = fronts_of(alloc, &mut buffer, universe.attributes().as_slice())?;
        let texts = texts_of_atoms(alloc, &mut buffer, atoms)?;
        Ok(Spellings {
            openings,
            fronts,
            texts,
        })
    }

    /// The line of the opening of an element name.
    pub(crate) fn opening(&self, name: usize) -> &[u8]
        requires { name < length self.now.openings }
        ensures { result.now ≡ get_or self.now.openings name [] }
    {
        self.openings.get(name)
    }

    /// What stands in an attribute's line before its text.
    pub(crate) fn front(&self, name: usize) -> &[u8]
        requires { name < length self.now.fronts }
        ensures { result.now ≡ get_or self.now.fronts name [] }
    {
        self.fronts.get(name)
    }

    /// The line of a text.
    pub(crate) fn text(&self, text: usize) -> &[u8]
        requires { text < length self.now.texts }
        ensures { result.now ≡ get_or self.now.texts text [] }
    {
        self.texts.get(text)
    }

    /// What stands in an attribute's line from its text on.
    pub(crate) fn value(&self, text: usize) -> &[u8]
        requires { text < length self.now.texts }
        ensures { result.now ≡ drop 1 (get_or self.now.texts text []) }
    {
        match self.texts.get(text) {
            [_, value @ ..] => value,
            none => none,
        }
    }
}

/// The line of a byte and a name.
fn spelled_name(
    alloc: Global,
    buffer: &mut LineBuffer,
    first: u8,
    name: &Name,
) -> Result<Collected, AllocError>
    ensures { IfOk result (λ line. line.bytes.items ≡ name_line first name.now) }
{
    buffer.clear();
    let mut line = Collected::new(alloc);
    match put_name_line(buffer, &mut line, first, name) {
        Ok(()) => Ok(line),
        Err(Failed) => Err(AllocError),
    }
}

/// The front of the line of an attribute.
fn spelled_front(
    alloc: Global,
    buffer: &mut LineBuffer,
    name: &Name,
) -> Result<Collected, AllocError>
    ensures { IfOk result (λ line. line.bytes.items ≡ attribute_front name.now) }
{
    buffer.clear();
    let mut line = Collected::new(alloc);
    match put_attribute_front(buffer, &mut line, name) {
        Ok(()) => Ok(line),
        Err(Failed) => Err(AllocError),
    }
}

/// The line of a byte and a text.
fn spelled_text(
    alloc: Global,
    buffer: &mut LineBuffer,
    first: u8,
    text: &Text,
) -> Result<Collected, AllocError>
    ensures { IfOk result (λ line. line.bytes.items ≡ text_line first text.now) }
{
    buffer.clear();
    let mut line = Collected::new(alloc);
    match put_text_line(buffer, &mut line, first, text) {
        Ok(()) => Ok(line),
        Err(Failed) => Err(AllocError),
    }
}

/// The lines of the openings of element names.
fn openings_of(
    alloc: Global,
    buffer: &mut LineBuffer,
    names: &[Name],
) -> Result<PieceList, AllocError>
    ensures { IfOk result (λ lines. lines ≡ map (name_line 40) names.now) }
{
    let mut lines = PieceList::new(alloc);
    for name in names {
        let line = spelled_name(alloc, buffer, b'(', name)?;
        lines.push(line.as_slice())?;
    }
    Ok(lines)
}

/// The fronts of the lines of attributes.
fn fronts_of(
    alloc: Global,
    buffer: &mut LineBuffer,
    names: &[Name],
) -> Result<PieceList, AllocError>
    ensures { IfOk result (λ fronts. fronts ≡ map attribute_front names.now) }
{
    let mut fronts = PieceList::new(alloc);
    for name in names {
        let front = spelled_front(alloc, buffer, name)?;
        fronts.push(front.as_slice())?;
    }
    Ok(fronts)
}

/// The lines of the texts of atoms.
fn texts_of_atoms(
    alloc: Global,
    buffer: &mut LineBuffer,
    atoms: &Atoms,
) -> Result<PieceList, AllocError>
    ensures { IfOk result (λ lines. lines ≡ map (text_line 45) (texts_of atoms.now)) }
{
    let mut lines = PieceList::new(alloc);
    for position in 0..atoms.len() {
        let line = spelled_text(alloc, buffer, b'-', atoms.get(position))?;
        lines.push(line.as_slice())?;
    }
    Ok(lines)
}
