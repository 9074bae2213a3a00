// Runs over a shelf and sinks in memory: the bytes, the fault line and the status.
ghost use Rattle.std.specs.Prelude.{◌≡◌, ◌<◌, ◌≤◌};

use list_command::{Outcome, run};
use outside::{Calls, Files, MemShelf, MemSink, Steps};
use std::alloc::{AllocError, Global};
use std::marker::Brand;
use std::sync::ledger::{Blank, Ledger};

const SCHEMA: &str = "element a { empty }";

const TEXT: &str = "(a\n>\n)\n\n";

/// A run that counts its steps from 0.
fn counted<L: Ledger>(
    alloc: Global,
    blank: Blank,
    words: &Vec<String>,
    shelf: &mut MemShelf,
    out: &mut MemSink,
    err: &mut MemSink,
) -> Outcome
    requires name { blank.name ≡ L.name }
    requires parts { blank.parts ≡ L.parts }
    requires some { 0 < L.parts }
{
    let mut steps: Steps<L> = Steps::new(blank);
    run(alloc, words, shelf, out, err, &mut steps)
}

/// The words of a line, none where it is empty.
fn words_of(alloc: Global, line: &str) -> Result<Vec<String>, AllocError> {
    let mut words = Vec::new(alloc);
    for word in line.split_whitespace() {
        words.push(String::from_str(alloc, word)?)?;
    }
    Ok(words)
}

/// The numbers of the calls that fail: one or none.
fn calls_of(alloc: Global, failing: Option<u64>) -> Result<Calls, AllocError> {
    let mut calls = Calls::new(alloc);
    if let Some(call) = failing {
        calls.push(call)?;
    }
    Ok(calls)
}

/// What a run left behind.
#[derive(Drop)]
struct Ending {
    status: u8,
    out: MemSink,
    err: MemSink,
}

impl Ending {
    fn wrote(&self, out: &str, err: &str) -> bool {
        let taken = self.out.taken();
        let line = self.err.taken();
        taken == out.as_bytes() && line == err.as_bytes()
    }
}

/// The call of each device that fails, if one does, and how many bytes a call moves at most.
#[derive(Clone, Copy)]
struct Devices {
    shelf: Option<u64>,
    out: Option<u64>,
    err: Option<u64>,
    read: usize,
    piece: usize,
    room: usize,
}

/// Devices of which no call fails, with ample room.
const SOUND: Devices = Devices {
    shelf: None,
    out: None,
    err: None,
    read: 65_536,
    piece: 65_536,
    room: 65_536,
};

/// A run over the files `f` and `c` with these bytes.
fn run_over(
    alloc: Global,
    words: &str,
    schema: &[u8],
    cursor: &[u8],
    devices: Devices,
) -> Result<Ending, AllocError>
    requires read { 1 ≤ devices.read }
    requires piece { 1 ≤ devices.piece }
{
    let words = words_of(alloc, words)?;
    let mut files = Files::new(alloc);
    let name = String::from_str(alloc, "f")?;
    let bytes = Vec::from_slice(alloc, schema)?;
    files.push(name, bytes)?;
    let name = String::from_str(alloc, "c")?;
    let bytes = Vec::from_slice(alloc, cursor)?;
    files.push(name, bytes)?;
    let mut shelf = MemShelf::new(files, calls_of(alloc, devices.shelf)?, devices.read);
    let mut out = MemSink::new(
        alloc,
        devices.room,
        calls_of(alloc, devices.out)?,
        devices.piece,
    )?;
    let mut err = MemSink::new(alloc, 100, calls_of(alloc, devices.err)?, 65_536)?;
    let blank = Blank::new(1);
    let outcome = counted::<Brand>(alloc, blank, &words, &mut shelf, &mut out, &mut err);
    Ok(Ending {
        status: outcome.status(),
        out,
        err,
    })
}

/// Whether the run, with no call failing and ample room, ends so.
fn gives(
    alloc: Global,
    words: &str,
    schema: &[u8],
    status: u8,
    out: &str,
    err: &str,
) -> Result<bool, AllocError> {
    let ending = run_over(alloc, words, schema, b"", SOUND)?;
    Ok(ending.status == status && ending.wrote(out, err))
}

/// The same where the file `c` has this text.
fn gives_after(
    alloc: Global,
    words: &str,
    schema: &str,
    cursor: &str,
    status: u8,
    out: &str,
    err: &str,
) -> Result<bool, AllocError> {
    let ending = run_over(alloc, words, schema.as_bytes(), cursor.as_bytes(), SOUND)?;
    Ok(ending.status == status && ending.wrote(out, err))
}

#[test]
fn rows(rt: HostRuntime) -> Result<(), AllocError> {
    let rows = [
        ("list 1 f", SCHEMA, 0, TEXT, ""),
        ("list 64 f", " \nelement\n a{empty}\n \n", 0, TEXT, ""),
        (
            "list 1 f",
            "element Ab { \n empty\n}",
            0,
            "(Ab\n>\n)\n\n",
            "",
        ),
        ("list 1 f", "element a-1 { empty }", 0, "(a-1\n>\n)\n\n", ""),
        (
            "list 1 f",
            "element \\element { empty }",
            0,
            "(element\n>\n)\n\n",
            "",
        ),
        (
            "list 1 f",
            "\u{FEFF}## {\r\nelement#\n\ta {\r empty#}\n}#",
            0,
            TEXT,
            "",
        ),
        (
            "list 1 f",
            "(element token { (empty) })",
            0,
            "(token\n>\n)\n\n",
            "",
        ),
        (
            "list 1 f",
            "[ x = \"1\" ] element a { empty >> b [ \"(\" ] }",
            0,
            TEXT,
            "",
        ),
        ("list 1 f", "element a { text }", 0, TEXT, ""),
        (
            "list 1 f",
            "element a | b { empty }",
            0,
            "(a\n>\n)\n\n(b\n>\n)\n\n",
            "",
        ),
        ("list 1 f max=1", "element a | b { empty }", 9, TEXT, ""),
        ("list 1 f", "start = a a = element a { empty }", 0, TEXT, ""),
        (
            "list 1 f",
            "namespace b = \"u\" element b:a { empty }",
            0,
            "({u}a\n>\n)\n\n",
            "",
        ),
        ("list 1 g", SCHEMA, 6, "", "read\n"),
        ("list 0 f", SCHEMA, 2, "", "words\n"),
        ("list 65 f", SCHEMA, 2, "", "words\n"),
        ("list 01 f", SCHEMA, 2, "", "words\n"),
        ("list 1", SCHEMA, 2, "", "words\n"),
        ("universe g", SCHEMA, 6, "", "read\n"),
        ("universe 1 f", SCHEMA, 2, "", "words\n"),
        ("states 0 f", SCHEMA, 2, "", "words\n"),
        ("", SCHEMA, 2, "", "words\n"),
    ];
    for (words, schema, status, out, err) in rows {
        let holds = gives(rt.alloc(), words, schema.as_bytes(), status, out, err)?;
        assert!(rt; holds);
    }
    Ok(())
}

#[test]
fn lexing_faults(rt: HostRuntime) -> Result<(), AllocError> {
    let rows: [(&[u8], &str); 6] = [
        (b"element a\xFF", "schema 1 BadUtf8 at 9\n"),
        (b"element $ { empty }", "schema 2 BadCharacter at 8\n"),
        (b"element a { \"x", "schema 3 OpenLiteral at 12\n"),
        (
            b"element a { \"\\x{110000}\" }",
            "schema 4 BadEscape at 13\n",
        ),
        (
            b"element a { \"\\x{22}\" }",
            "schema 5 EscapeRefused at 13\n",
        ),
        (
            b"\\x{65}lement a { empty }",
            "schema 5 EscapeRefused at 0\n",
        ),
    ];
    for (schema, err) in rows {
        let holds = gives(rt.alloc(), "list 1 f", schema, 3, "", err)?;
        assert!(rt; holds);
    }
    Ok(())
}

#[test]
fn grammar_faults_and_features(rt: HostRuntime) -> Result<(), AllocError> {
    let rows = [
        ("elementa { empty }", "schema 11 Syntax at 9\n"),
        ("\\element a { empty }", "schema 11 Syntax at 9\n"),
        ("element a { empty } }", "schema 11 Syntax at 20\n"),
        ("element a {", "schema 11 Syntax at 11\n"),
        (
            "element a { empty , empty | empty }",
            "schema 11 Syntax at 26\n",
        ),
        ("[ a ] x [ b ]", "schema 11 Syntax at 8\n"),
        (
            "{{{{{{{{{{{{{{{{{{{{{{{{{{{{{{{{{{{{{{{{{{{{{{{{{{{{{{{{{{{{{{{{{{{{{{{{{{{{{{{{{{{{{{{{{{{{{{{{{{{{{{{{{{{{{{{{{{{{{{{{{{{{{{{{{",
            "schema 12 TooDeep at 128\n",
        ),
        ("include \"g\"", "schema 21 Include at 0\n"),
        ("external \"g\"", "schema 22 External at 0\n"),
        (
            "default namespace = inherit element a { list { \"x\" } }",
            "schema 23 Inherit at 20\n",
        ),
        ("element a { list { \"x\" } }", "schema 24 List at 12\n"),
        ("element a { xsd:date }", "schema 25 ForeignType at 12\n"),
        (
            "element a { token { minLength = \"1\" } }",
            "schema 26 Parameter at 20\n",
        ),
    ];
    for (schema, err) in rows {
        let holds = gives(rt.alloc(), "list 1 f", schema.as_bytes(), 3, "", err)?;
        assert!(rt; holds);
    }
    Ok(())
}

#[test]
fn simplification_faults(rt: HostRuntime) -> Result<(), AllocError> {
    let rows = [
        ("", "schema 36 NoStart\n"),
        ("element p:a { empty }", "schema 31 UnboundPrefix at 8\n"),
        (
            "namespace p = \"u\" namespace p = \"v\" element a { empty }",
            "schema 32 PrefixTwice at 18\n",
        ),
        (
            "namespace xml = \"u\" element a { empty }",
            "schema 33 ReservedPrefix at 0\n",
        ),
        (
            "element * - * { empty }",
            "schema 34 ClassConstraint at 12\n",
        ),
        (
            "element a { attribute xmlns { text } }",
            "schema 35 XmlnsAttribute at 22\n",
        ),
        ("start = a", "schema 37 UndefinedName at 8\n"),
        ("start = parent a", "schema 38 ParentOutside at 8\n"),
        (
            "start |= element a { empty } start &= element b { empty }",
            "schema 39 CombineMixed at 29\n",
        ),
        (
            "start = element a { empty } start = element b { empty }",
            "schema 40 DefinedTwice at 28\n",
        ),
        (
            "start = a a = b b = a | element c { empty }",
            "schema 41 Loop at 14\n",
        ),
        (
            "element a { xsd:positiveInteger \"0\" }",
            "schema 44 BadValue at 12\n",
        ),
        (
            "element a { text & text }",
            "schema 43 Restriction rule 11\n",
        ),
    ];
    for (schema, err) in rows {
        let holds = gives(rt.alloc(), "list 1 f", schema.as_bytes(), 3, "", err)?;
        assert!(rt; holds);
    }
    Ok(())
}

#[test]
fn universes(rt: HostRuntime) -> Result<(), AllocError> {
    let rows = [
        (
            "element * - a { empty }",
            "Ea\nEx\nE{urn:x}x\nA{urn:x}x\nTt\n",
        ),
        ("element x { empty }", "Ex\nEx1\nE{urn:x}x\nA{urn:x}x\nTt\n"),
        (
            "element a { xsd:integer }",
            "Ea\nEx\nE{urn:x}x\nA{urn:x}x\nT-1\nT0\nT1\nTt\n",
        ),
    ];
    for (schema, out) in rows {
        let holds = gives(rt.alloc(), "universe f", schema.as_bytes(), 0, out, "")?;
        assert!(rt; holds);
    }
    Ok(())
}

/// Elements `a` within one another.
const CHAIN: &str = "start = a a = element a { a? }";

const TWO: &str = "(a\n>\n(a\n>\n)\n)\n\n";

const THREE: &str = "(a\n>\n(a\n>\n(a\n>\n)\n)\n)\n\n";

#[test]
fn listings(rt: HostRuntime) -> Result<(), AllocError> {
    let rows = [
        (
            "list 2 f",
            "element a { text }",
            0,
            "(a\n>\n)\n\n(a\n>\n-t\n)\n\n",
            "",
        ),
        (
            "list 2 f",
            "element a { \"x\" | \"y\" }",
            0,
            "(a\n>\n-x\n)\n\n(a\n>\n-y\n)\n\n",
            "",
        ),
        (
            "list 3 f",
            "element a { element b {empty} & element c {empty} }",
            0,
            "(a\n>\n(b\n>\n)\n(c\n>\n)\n)\n\n(a\n>\n(c\n>\n)\n(b\n>\n)\n)\n\n",
            "",
        ),
        (
            "list 3 f",
            "element a { attribute * - b { text }* }",
            0,
            "(a\n>\n)\n\n(a\nAx t\n>\n)\n\n(a\nA{urn:x}x t\n>\n)\n\n(a\nAx t\nA{urn:x}x t\n>\n)\n\n",
            "",
        ),
        (
            "list 2 f",
            "element a { element b { empty } | element b { empty } }",
            0,
            "(a\n>\n(b\n>\n)\n)\n\n",
            "",
        ),
        ("list 64 f", "notAllowed", 0, "", ""),
        ("list 3 f max=1", CHAIN, 9, TEXT, ""),
        (
            "list 64 f states=5",
            CHAIN,
            5,
            TEXT,
            "states size 2 count 6\n",
        ),
        ("states 2 f", "notAllowed", 0, "1 0\n2 0\n", ""),
        ("states 3 f", CHAIN, 0, "1 4\n2 7\n3 10\n", ""),
        (
            "seeded 1 64",
            "",
            0,
            "size 43 count 64\nbytes 16256\nsum 806016\n",
            "",
        ),
        ("seeded 1 10", "", 0, "bytes 0\nsum 0\n", ""),
        ("seeded 1 10 states=1", "", 5, "", "states size 1 count 2\n"),
    ];
    for (words, schema, status, out, err) in rows {
        let holds = gives(rt.alloc(), words, schema.as_bytes(), status, out, err)?;
        assert!(rt; holds);
    }
    Ok(())
}

#[test]
fn cursors(rt: HostRuntime) -> Result<(), AllocError> {
    let rows = [
        ("resume 3 f c", TWO, 0, THREE, ""),
        ("resume 3 f c", THREE, 0, "", ""),
        ("resume 3 f c max=1", TEXT, 9, TWO, ""),
        (
            "resume 64 f c states=3",
            TEXT,
            5,
            "",
            "states size 1 count 4\n",
        ),
        ("resume 3 f c", "a\n", 4, "", "cursor 61 BadLine line 1\n"),
        (
            "resume 3 f c",
            "(a\n>\n-t\n-u\n",
            4,
            "",
            "cursor 61 BadLine line 4\n",
        ),
        ("resume 3 f c", "", 4, "", "cursor 62 Unfinished\n"),
        (
            "resume 3 f c",
            "(a\n>\n)\n",
            4,
            "",
            "cursor 62 Unfinished\n",
        ),
        (
            "resume 3 f c",
            "(a\n>\n)\n\n(a\n",
            4,
            "",
            "cursor 63 Trailing line 5\n",
        ),
        (
            "resume 3 f c",
            "(a\nAc t\nAb t\n>\n)\n\n",
            4,
            "",
            "cursor 64 NotOrdered line 3\n",
        ),
        ("resume 2 f c", THREE, 4, "", "cursor 71 CursorTooLarge\n"),
        (
            "resume 2 f c states=1",
            THREE,
            4,
            "",
            "cursor 71 CursorTooLarge\n",
        ),
        (
            "resume 3 f c",
            "(b\n>\n)\n\n",
            4,
            "",
            "cursor 72 CursorStray line 1\n",
        ),
        (
            "resume 3 f c states=1",
            "(b\n>\n)\n\n",
            5,
            "",
            "states size 1 count 2\n",
        ),
        ("resume 3 f d", TWO, 6, "", "read\n"),
        ("resume 3 d c", TWO, 6, "", "read\n"),
        ("resume 3 f", TWO, 2, "", "words\n"),
    ];
    for (words, cursor, status, out, err) in rows {
        let holds = gives_after(rt.alloc(), words, CHAIN, cursor, status, out, err)?;
        assert!(rt; holds);
    }
    Ok(())
}

#[test]
fn cursor_limit(rt: HostRuntime) -> Result<(), AllocError> {
    let alloc = rt.alloc();
    let cursor = "a".repeat(alloc, 2_097_153)?;
    let over = gives_after(
        alloc,
        "resume 3 f c",
        CHAIN,
        cursor.as_str(),
        4,
        "",
        "cursor 60 TooLong\n",
    )?;
    assert!(rt; over);
    Ok(())
}

const BOOK: &str =
    "element addressBook { element card { element name { text }, element email { text } }* }";

/// Its documents of at most four nodes: 17 lines, 67 bytes.
const TWO_BOOKS: &str =
    "(addressBook\n>\n)\n\n(addressBook\n>\n(card\n>\n(name\n>\n)\n(email\n>\n)\n)\n)\n\n";

/// Whether the bytes are the first lines of a text, so many.
fn are_lines(bytes: &[u8], text: &str, count: u64) -> bool {
    let mut lines: u64 = 0;
    for byte in bytes {
        if *byte == b'\n' {
            lines = lines.saturating_add(1);
        }
    }
    let is_whole = bytes.is_empty() || bytes.ends_with(b"\n");
    lines == count && is_whole && text.as_bytes().starts_with(bytes)
}

/// Whether the bytes are the first ones of a text, so many.
fn are_bytes(bytes: &[u8], text: &str, count: u64) -> bool {
    bytes.len() as u64 == count && text.as_bytes().starts_with(bytes)
}

// Each write for two documents: what was written before stands, and nothing behind it.
#[test]
fn failing_writes(rt: HostRuntime) -> Result<(), AllocError> {
    let alloc = rt.alloc();
    for call in 0..18 {
        let devices = Devices {
            out: Some(call),
            piece: 1000,
            ..SOUND
        };
        let ending = run_over(alloc, "list 4 f", BOOK.as_bytes(), b"", devices)?;
        let status = if call == 17 { 0 } else { 7 };
        assert!(rt; ending.status == status && are_lines(ending.out.taken(), TWO_BOOKS, call));
    }
    for call in 0..68 {
        let devices = Devices {
            out: Some(call),
            piece: 1,
            ..SOUND
        };
        let ending = run_over(alloc, "list 4 f", BOOK.as_bytes(), b"", devices)?;
        let status = if call == 67 { 0 } else { 7 };
        assert!(rt; ending.status == status && are_bytes(ending.out.taken(), TWO_BOOKS, call));
    }
    let devices = Devices { room: 3, ..SOUND };
    let cut = run_over(alloc, "list 1 f", SCHEMA.as_bytes(), b"", devices)?;
    assert!(rt; cut.status == 7 && cut.wrote("(a\n", "write\n"));
    let devices = Devices {
        err: Some(0),
        ..SOUND
    };
    let silent = run_over(alloc, "list 1 f", b"element a {", b"", devices)?;
    assert!(rt; silent.status == 3 && silent.wrote("", ""));
    Ok(())
}

// Each call for a schema of 19 bytes, and for one of 30 and a cursor of 15: an opening, a read for each byte, and the one that finds the end.
#[test]
fn failing_reads(rt: HostRuntime) -> Result<(), AllocError> {
    let alloc = rt.alloc();
    for call in 0..21 {
        let devices = Devices {
            shelf: Some(call),
            read: 1,
            ..SOUND
        };
        let ending = run_over(alloc, "list 1 f", SCHEMA.as_bytes(), b"", devices)?;
        assert!(rt; ending.status == 6 && ending.wrote("", "read\n"));
    }
    let devices = Devices {
        shelf: Some(21),
        read: 1,
        ..SOUND
    };
    let whole = run_over(alloc, "list 1 f", SCHEMA.as_bytes(), b"", devices)?;
    assert!(rt; whole.status == 0 && whole.wrote(TEXT, ""));
    for call in 0..49 {
        let devices = Devices {
            shelf: Some(call),
            read: 1,
            ..SOUND
        };
        let ending = run_over(
            alloc,
            "resume 3 f c",
            CHAIN.as_bytes(),
            TWO.as_bytes(),
            devices,
        )?;
        assert!(rt; ending.status == 6 && ending.wrote("", "read\n"));
    }
    let devices = Devices {
        shelf: Some(49),
        read: 1,
        ..SOUND
    };
    let resumed = run_over(
        alloc,
        "resume 3 f c",
        CHAIN.as_bytes(),
        TWO.as_bytes(),
        devices,
    )?;
    assert!(rt; resumed.status == 0 && resumed.wrote(THREE, ""));
    Ok(())
}

/// The letter b so many times, between two texts.
fn long(alloc: Global, front: &str, letters: usize, back: &str) -> Result<String, AllocError> {
    let mut text = String::from_str(alloc, front)?;
    text.push_str("b".repeat(alloc, letters)?.as_str())?;
    text.push_str(back)?;
    Ok(text)
}

/// Whether a name of so many letters gives these.
fn names(
    alloc: Global,
    letters: usize,
    status: u8,
    out: &str,
    err: &str,
) -> Result<bool, AllocError> {
    let schema = long(alloc, "element ", letters, " { empty }")?;
    gives(alloc, "list 1 f", schema.as_bytes(), status, out, err)
}

/// Whether a schema with a literal of so many letters, which has no document of one node, ends so.
fn literals(alloc: Global, letters: usize, status: u8, err: &str) -> Result<bool, AllocError> {
    let schema = long(alloc, "element a { \"", letters, "\" }")?;
    gives(alloc, "list 1 f", schema.as_bytes(), status, "", err)
}

#[test]
fn name_and_literal_limits(rt: HostRuntime) -> Result<(), AllocError> {
    let alloc = rt.alloc();
    let text = long(alloc, "(", 1024, "\n>\n)\n\n")?;
    let longest = names(alloc, 1024, 0, text.as_str(), "")?;
    assert!(rt; longest);
    let longer = names(alloc, 1025, 3, "", "schema 7 NameTooLong at 8\n")?;
    assert!(rt; longer);
    let longest = literals(alloc, 4096, 0, "")?;
    assert!(rt; longest);
    let longer = literals(alloc, 4097, 3, "schema 6 LiteralTooLong at 12\n")?;
    assert!(rt; longer);
    Ok(())
}

#[test]
fn schema_limit(rt: HostRuntime) -> Result<(), AllocError> {
    let alloc = rt.alloc();
    let mut bytes = vec![in alloc; b' '; 1_048_576 - SCHEMA.len()]?;
    bytes.extend_from_slice(SCHEMA.as_bytes())?;
    let full = gives(alloc, "list 1 f", bytes.as_slice(), 0, TEXT, "")?;
    assert!(rt; full);
    bytes.push(b'\n')?;
    let over = gives(
        alloc,
        "list 1 f",
        bytes.as_slice(),
        3,
        "",
        "schema 8 TooLong\n",
    )?;
    assert!(rt; over);
    Ok(())
}
