// The text of a skeleton, how many pieces it is handed over in, and documents one after the other.
ghost use Rattle.std.specs.Prelude.{◌≡◌, [], List, map, take, OnOk};
ghost use Rattle.rng_model.specs.Codes.{Code as CodeValue};
ghost use Rattle.skeleton.specs.Views.{code_of as value_of};
ghost use Rattle.event_lines.specs.Coded.{lists_of};
ghost use Rattle.event_lines.specs.Held.{BeginsWith};
ghost use Rattle.event_lines.specs.Spelled.{AreSpelled, AreSpellings};

use event_lines::{
    DocumentLines, Measure, are_in_range, measure, read_skeleton, write_name_line, write_skeleton,
    write_text_line,
};
use name_classes::Name;
use name_universe::Universe;
use outside::{Calls, MemSink};
use skeleton::Code;
use std::alloc::{AllocError, Global};
use std::test::Fail;
use test_schemas::{class, one_element};
use text_atoms::{Atoms, Literals, Text, TextList};

fn text(alloc: Global, characters: &str) -> Result<Text, AllocError> {
    Ok(Text::from_string(String::from_str(alloc, characters)?))
}

/// A sink with room for so many bytes that takes so many at a time, and of whose calls one fails.
fn sink(alloc: Global, failing: u64, most: usize, room: usize) -> Result<MemSink, AllocError> {
    let mut calls = Calls::new(alloc);
    calls.push(failing)?;
    MemSink::new(alloc, room, calls, most.max(1))
}

/// Whether the document with this text was written, and whether these bytes were taken.
fn written(
    alloc: Global,
    text: &str,
    failing: u64,
    most: usize,
    bytes: &[u8],
) -> Result<(bool, bool), Fail> {
    let mut sink = sink(alloc, failing, most, 40_000)?;
    let done = match read_skeleton(alloc, text.as_bytes()) {
        Ok(skeleton) => write_skeleton(&skeleton, &mut sink).is_ok(),
        Err(_) => false,
    };
    Ok((done, sink.taken() == bytes))
}

/// Whether each text is read and written again as it is.
fn are_kept(alloc: Global, texts: &[&str]) -> Result<bool, Fail> {
    for text in texts {
        if written(alloc, text, 1000, 1000, text.as_bytes())? != (true, true) {
            return Ok(false);
        }
    }
    Ok(true)
}

#[test]
fn texts(rt: HostRuntime) -> Result<(), Fail> {
    let rows = [
        "(a\n>\n)\n\n",
        "({a\\sb\\{}c\n>\n)\n\n",
        "(e\nAp  a \nAq \\nb\n>\n)\n\n",
        "({a\\sb\\{}c\nA{\\}\\\\}d \\\\\\n\\r \n>\n-x\\\\y\n(e\n>\n)\n- z\n)\n\n",
    ];
    assert!(rt; are_kept(rt.alloc(), &rows)?);
    Ok(())
}

#[test]
fn failing_writes(rt: HostRuntime) -> Result<(), Fail> {
    let alloc = rt.alloc();
    let text = "({a\\sb\\{}c\nAd \\\\\\n\\r \n>\n-x\\\\y\n)\n\n";
    let whole = text.as_bytes();
    // The number of the write that fails, counted from 0, and how many bytes a write takes. A line is one piece, and so is the empty line.
    let rows = [
        (6, 1000, whole, true),
        (5, 1000, &whole[..whole.len() - 1], false),
        (1, 1000, b"({a\\sb\\{}c\n".as_slice(), false),
        (1000, 1, whole, true),
    ];
    for (failing, most, bytes, done) in rows {
        assert!(rt; written(alloc, text, failing, most, bytes)? == (done, true));
    }
    Ok(())
}

/// Whether the line of the name is written.
fn puts_name(alloc: Global, ns: &str, local: &str, sink: &mut MemSink) -> Result<bool, Fail> {
    let ns = text(alloc, ns)?;
    match text(alloc, local) {
        Ok(local) => Ok(write_name_line(b'E', &Name::new(ns, local)?, sink).is_ok()),
        Err(fault) => {
            drop(ns);
            Err(Fail::from(fault))
        }
    }
}

/// Whether the line of the text is written.
fn puts_text(alloc: Global, characters: &str, sink: &mut MemSink) -> Result<bool, Fail> {
    let text = text(alloc, characters)?;
    Ok(write_text_line(b'T', &text, sink).is_ok())
}

/// Whether a name and a text are written one behind the other.
fn puts_both(alloc: Global, sink: &mut MemSink) -> Result<bool, Fail> {
    Ok(puts_name(alloc, "u", "a", sink)? && puts_text(alloc, "a b", sink)?)
}

#[test]
fn lines(rt: HostRuntime) -> Result<(), Fail> {
    let mut sink = sink(rt.alloc(), 2, 1000, 40_000)?;
    let done = puts_both(rt.alloc(), &mut sink)?;
    assert!(rt; done && sink.taken() == b"E{u}a\nTa b\n".as_slice());
    Ok(())
}

/// Whether a line of so many bytes is written by one call of the sink.
fn is_one_piece(alloc: Global, len: usize) -> Result<bool, Fail> {
    let mut sink = sink(alloc, 1, 40_000, 40_000)?;
    let text = Text::from_string("x".repeat(alloc, len.saturating_sub(2))?);
    Ok(write_text_line(b'T', &text, &mut sink).is_ok() && sink.taken().len() == len)
}

#[test]
fn long_lines(rt: HostRuntime) -> Result<(), Fail> {
    for (len, expected) in [(3, true), (32_768, true), (32_769, false)] {
        assert!(rt; is_one_piece(rt.alloc(), len)? == expected);
    }
    Ok(())
}

/// The names of a schema whose one element is `a`.
fn universe(alloc: Global) -> Result<Universe, Fail> {
    let class = class(alloc, "a")?;
    let Some(schema) = one_element(alloc, class)? else {
        return Err(Fail::new("no schema"));
    };
    let universe = Universe::of(alloc, &schema, 1);
    drop(schema);
    Ok(universe?)
}

/// The texts of a schema without literals, and one of so many letters.
fn atoms(alloc: Global, letters: usize) -> Result<Atoms, Fail> {
    let mut texts = TextList::new(alloc);
    texts.push(Text::from_string("y".repeat(alloc, letters)?))?;
    Ok(Atoms::of(alloc, &Literals::new(alloc), &texts)?)
}

/// The line of a code over these names, the text `t` and a long text whose line is given.
fn line_of<'a>(code: Code, long: &'a str) -> &'a str {
    match code {
        Code::Opening(_) => "(a\n",
        Code::Attr(_, _) => "A{urn:x}x t\n",
        Code::Body => ">\n",
        Code::Chars(0) => "-t\n",
        Code::Chars(_) => long,
        Code::Closing => ")\n",
    }
}

/// Adds a line, unless it is the piece that fails.
fn add_line(
    wanted: &mut Vec<u8>,
    line: &str,
    pieces: &mut u64,
    failing: u64,
) -> Result<bool, Fail> {
    let fails = *pieces == failing;
    *pieces = pieces.wrapping_add(1);
    if !fails {
        wanted.extend_from_slice(line.as_bytes())?;
    }
    Ok(!fails)
}

/// Adds the lines of codes, and an empty line, up to the piece that fails. False where there is one.
fn add_lines(
    wanted: &mut Vec<u8>,
    codes: &[Code],
    long: &str,
    pieces: &mut u64,
    failing: u64,
) -> Result<bool, Fail> {
    for code in codes {
        if !add_line(wanted, line_of(*code, long), pieces, failing)? {
            return Ok(false);
        }
    }
    add_line(wanted, "\n", pieces, failing)
}

/// The code that a letter stands for.
fn code_of(letter: u8) -> Code {
    match letter {
        b'(' => Code::Opening(0),
        b'[' => Code::Opening(1),
        b'A' => Code::Attr(0, 0),
        b'>' => Code::Body,
        b'-' => Code::Chars(0),
        b'+' => Code::Chars(1),
        b'?' => Code::Chars(2),
        _ => Code::Closing,
    }
}

/// The codes that letters stand for, so many times, and so many Closing codes behind them.
fn codes_of(
    alloc: Global,
    letters: &str,
    times: usize,
    closings: usize,
) -> Result<Vec<Code>, Fail> {
    let mut codes = Vec::new(alloc);
    for _ in 0..times {
        for letter in letters.as_bytes() {
            codes.push(code_of(*letter))?;
        }
    }
    for _ in 0..closings {
        codes.push(Code::Closing)?;
    }
    Ok(codes)
}

/// Whether codes are written as the bytes, whose measure is theirs.
fn is_coded(
    codes: &[Code],
    bytes: &[u8],
    measured: Measure,
    universe: &Universe,
    atoms: &Atoms,
    lines: &mut DocumentLines,
    sink: &mut MemSink,
) -> bool
    requires spelled { AreSpellings (lists_of universe.now atoms.now) lines.old.spellings }
    requires none { lines.old.codes ≡ [] }
{
    if !are_in_range(codes, universe, atoms) {
        return false;
    }
    let done = lines.write(codes, 0, sink).is_ok();
    done && measure(codes, universe, atoms) == measured && sink.taken() == bytes
}

/// The same where the write of this number, counted from 0, fails.
fn is_coded_to(
    alloc: Global,
    codes: &[Code],
    failing: u64,
    bytes: &str,
    sum: u32,
    universe: &Universe,
    atoms: &Atoms,
    lines: &mut DocumentLines,
) -> Result<bool, Fail>
    requires spelled { AreSpellings (lists_of universe.now atoms.now) lines.old.spellings }
    requires none { lines.old.codes ≡ [] }
{
    let mut sink = sink(alloc, failing, 1000, 40_000)?;
    let bytes = bytes.as_bytes();
    let measured = Measure {
        bytes: bytes.len() as u64,
        sum,
    };
    Ok(is_coded(codes, bytes, measured, universe, atoms, lines, &mut sink))
}

/// The same, over lines of which none is held.
fn is_coded_first(
    alloc: Global,
    codes: &[Code],
    failing: u64,
    bytes: &str,
    sum: u32,
    universe: &Universe,
    atoms: &Atoms,
) -> Result<bool, Fail> {
    let mut lines = DocumentLines::of(alloc, universe, atoms)?;
    is_coded_to(
        alloc, codes, failing, bytes, sum, universe, atoms, &mut lines,
    )
}

/// Letters of codes, the number of the write that fails, counted from 0, the bytes, their sum, and whether they are written so.
type CodesRow<'a> = (&'a str, u64, &'a str, u32, bool);

/// Whether each row is so.
fn are_coded(
    alloc: Global,
    rows: &[CodesRow],
    universe: &Universe,
    atoms: &Atoms,
) -> Result<bool, Fail> {
    for (letters, failing, bytes, sum, written) in rows {
        let codes = codes_of(alloc, *letters, 1, 0)?;
        let codes = codes.as_slice();
        if is_coded_first(alloc, codes, *failing, *bytes, *sum, universe, atoms)? != *written {
            return Ok(false);
        }
    }
    Ok(true)
}

/// The same over these names and the texts `t` and `y`.
fn are_coded_over(alloc: Global, rows: &[CodesRow], universe: &Universe) -> Result<bool, Fail> {
    let atoms = atoms(alloc, 1)?;
    are_coded(alloc, rows, universe, &atoms)
}

/// The same over the names of one element.
fn are_coded_all(alloc: Global, rows: &[CodesRow]) -> Result<bool, Fail> {
    let universe = universe(alloc)?;
    are_coded_over(alloc, rows, &universe)
}

#[test]
fn codes(rt: HostRuntime) -> Result<(), Fail> {
    let lines = "(x\nA{urn:x}x t\n>\n-t\n)\n\n";
    // A line is one piece, and so is the empty line.
    let rows = [
        ("(>)", 4, "(a\n>\n)\n\n", 280, true),
        ("[A>-)", 6, lines, 1584, true),
        ("[A>-)", 5, lines, 1584, false),
        ("-", 2, "-t\n\n", 181, true),
        ("?", 2, "-t\n\n", 181, false),
    ];
    let holds = are_coded_all(rt.alloc(), &rows)?;
    assert!(rt; holds);
    Ok(())
}

/// How many codes the two share at their front, up to so many.
fn common_len(last: &[Code], codes: &[Code], most: usize) -> usize
    ensures { take result last.now ≡ take result codes.now }
{
    for (i, code) in last.iter().enumerate() {
        if i == most || i == codes.len() || codes[i] != *code {
            return i;
        }
    }
    last.len()
}

/// How many codes of a document, up to so many, are unchanged since the last one.
fn shared_len(last: &[Code], codes: &[Code], most: usize) -> usize
    ensures { (held : List CodeValue) → BeginsWith (map value_of last.now) held → BeginsWith (map value_of codes.now) (take result held) }
{
    common_len(last, codes, most)
}

/// Whether a document is taken line by line, behind what was taken before, where the piece of this number, counted from 0, fails.
fn is_taken(
    codes: &[Code],
    unchanged: usize,
    long: &str,
    failing: u64,
    lines: &mut DocumentLines,
    pieces: &mut u64,
    wanted: &mut Vec<u8>,
    sink: &mut MemSink,
) -> Result<bool, Fail>
    requires spelled { AreSpelled lines.old.spellings codes.now }
    requires unchanged { BeginsWith (map value_of codes.now) (take unchanged lines.old.codes) }
    ensures spellings { lines.new.spellings ≡ lines.old.spellings }
    ensures held { OnOk result (BeginsWith (map value_of codes.now) lines.new.codes) }
{
    let whole = add_lines(wanted, codes, long, pieces, failing)?;
    let done = lines.write(codes, unchanged, sink).is_ok();
    Ok(done == whole && sink.taken() == wanted.as_slice())
}

/// Whether the documents, written one after the other, are taken line by line, where the piece of this number, counted from 0, fails.
/// Of the codes that a document shares with the last one as many are given as unchanged as there are, up to so many.
fn are_taken(
    alloc: Global,
    documents: &[(&str, usize, usize)],
    most: usize,
    failing: u64,
    universe: &Universe,
    atoms: &Atoms,
    lines: &mut DocumentLines,
    sink: &mut MemSink,
) -> Result<bool, Fail>
    requires spelled { AreSpellings (lists_of universe.now atoms.now) lines.old.spellings }
    requires none { lines.old.codes ≡ [] }
{
    let characters = "y".repeat(alloc, 1000)?;
    let long = format!(in alloc; "-{characters}\n")?;
    let mut wanted = Vec::new(alloc);
    let mut pieces = 0;
    let mut last = Vec::new(alloc);
    for (letters, times, closings) in documents {
        let codes = codes_of(alloc, letters, *times, *closings)?;
        if !are_in_range(codes.as_slice(), universe, atoms) {
            return Ok(false);
        }
        let is_right = is_taken(
            codes.as_slice(),
            shared_len(last.as_slice(), codes.as_slice(), most),
            long.as_str(),
            failing,
            lines,
            &mut pieces,
            &mut wanted,
            sink,
        )?;
        if !is_right {
            return Ok(false);
        }
        last = codes;
    }
    Ok(true)
}

/// The same by a sink of whose calls the one of this number fails.
fn are_taken_by_sink(
    alloc: Global,
    documents: &[(&str, usize, usize)],
    most: usize,
    failing: u64,
    universe: &Universe,
    atoms: &Atoms,
    lines: &mut DocumentLines,
) -> Result<bool, Fail>
    requires spelled { AreSpellings (lists_of universe.now atoms.now) lines.old.spellings }
    requires none { lines.old.codes ≡ [] }
{
    let mut sink = sink(alloc, failing, 40_000, 400_000)?;
    are_taken(
        alloc, documents, most, failing, universe, atoms, lines, &mut sink,
    )
}

/// The same over lines of which none is held.
fn are_taken_first(
    alloc: Global,
    documents: &[(&str, usize, usize)],
    most: usize,
    failing: u64,
    universe: &Universe,
    atoms: &Atoms,
) -> Result<bool, Fail> {
    let mut lines = DocumentLines::of(alloc, universe, atoms)?;
    are_taken_by_sink(alloc, documents, most, failing, universe, atoms, &mut lines)
}

/// The same for each number of a piece that fails, and of codes given as unchanged.
fn are_taken_each(
    alloc: Global,
    documents: &[(&str, usize, usize)],
    runs: &[(u64, usize)],
    universe: &Universe,
    atoms: &Atoms,
) -> Result<bool, Fail> {
    for (failing, most) in runs {
        if !are_taken_first(alloc, documents, *most, *failing, universe, atoms)? {
            return Ok(false);
        }
    }
    Ok(true)
}

/// The same over these names, the text `t` and a long one.
fn are_taken_over(
    alloc: Global,
    documents: &[(&str, usize, usize)],
    runs: &[(u64, usize)],
    universe: &Universe,
) -> Result<bool, Fail> {
    let atoms = atoms(alloc, 1000)?;
    are_taken_each(alloc, documents, runs, universe, &atoms)
}

/// The same over the names of one element.
fn in_turn(
    alloc: Global,
    documents: &[(&str, usize, usize)],
    runs: &[(u64, usize)],
) -> Result<bool, Fail> {
    let universe = universe(alloc)?;
    are_taken_over(alloc, documents, runs, &universe)
}

#[test]
fn documents_in_turn(rt: HostRuntime) -> Result<(), Fail> {
    // What is written, by a letter for each code, how many times over, and how many Closing codes more there are at the end. Among them
    // are more bytes than are held, as many codes, and more codes.
    let documents = [
        ("(>)", 1, 0),
        ("(A>)", 1, 0),
        ("(A>-)", 1, 0),
        ("(A>", 1, 0),
        ("(A>-)", 1, 0),
        ("(>)", 1, 0),
        ("(>)", 1, 1),
        ("", 1, 0),
        ("(>))", 1, 0),
        ("(>+)", 1, 0),
        ("+", 40, 0),
        ("(>+)", 1, 0),
        (">", 256, 0),
        (">", 257, 0),
        (">", 257, 0),
        ("+", 40, 0),
        ("+", 40, 0),
        ("(A>-)", 1, 0),
        ("(A>-)", 1, 0),
    ];
    // No piece fails; then one of the first documents, of the long ones, and of the last. Of the codes that a document shares with the
    // last one none are given as unchanged, or two, or all.
    let runs = [
        (10_000, 0),
        (10_000, 2),
        (10_000, 1000),
        (0, 1000),
        (4, 2),
        (6, 1000),
        (9, 1000),
        (15, 0),
        (60, 1000),
        (75, 1000),
        (90, 1000),
        (95, 1000),
        (330, 1000),
        (360, 2),
        (604, 1000),
        (900, 1000),
        (955, 1000),
    ];
    let taken = in_turn(rt.alloc(), &documents, &runs)?;
    assert!(rt; taken);
    Ok(())
}

#[test]
fn many_closings(rt: HostRuntime) -> Result<(), Fail> {
    // Documents that end in as many Closing codes as are handed over at once, in more, and in one more than there is room for.
    let documents = [
        ("(>", 40, 40),
        ("(>", 40, 33),
        ("(>", 40, 32),
        ("(>)", 1, 300),
        (">", 256, 32),
        (">", 257, 32),
        ("+A---", 32, 15),
        ("+A---", 32, 16),
    ];
    let runs = [
        (10_000, 0),
        (10_000, 1000),
        (120, 1000),
        (347, 1000),
        (1240, 1000),
        (1580, 1000),
    ];
    let taken = in_turn(rt.alloc(), &documents, &runs)?;
    assert!(rt; taken);
    Ok(())
}
