// What no clause says: whole files from shelves that fail, a sink without room, lines as pieces, and real files and streams.
use outside::{
    Calls, FileShelf, Files, MemShelf, MemSink, ReadAllFault, Shelf, Sink, StdSink, read_all,
    write_all,
};
use std::alloc::{AllocError, Global};
use std::fs;
use std::io::Write;

/// The call of this number, counted from 0.
fn call(alloc: Global, number: u64) -> Result<Calls, AllocError> {
    let mut calls = Calls::new(alloc);
    calls.push(number)?;
    Ok(calls)
}

/// The file `f` with this text.
fn file(alloc: Global, text: &str) -> Result<Files, AllocError> {
    let bytes = Vec::from_slice(alloc, text.as_bytes())?;
    let mut files = Files::new(alloc);
    files.push(String::from_str(alloc, "f")?, bytes)?;
    Ok(files)
}

/// A shelf that holds the file `f` with this text, gives one byte at a time and fails at one call.
fn shelf(alloc: Global, text: &str, failing: u64) -> Result<MemShelf, AllocError> {
    let files = file(alloc, text)?;
    Ok(MemShelf::new(files, call(alloc, failing)?, 1))
}

/// Whether the file is read whole, as this text, or so is the fault.
fn is_read<F: Shelf>(
    alloc: Global,
    shelf: &mut F,
    name: &str,
    limit: usize,
    wanted: Result<&str, ReadAllFault>,
) -> bool {
    match read_all(alloc, shelf, name, limit) {
        Ok(bytes) => wanted.is_ok_and(|text| bytes.as_slice() == text.as_bytes()),
        Err(fault) => wanted == Err(fault),
    }
}

#[test]
fn failing_shelves(rt: HostRuntime) -> Result<(), AllocError> {
    // An opening, a read for each of four bytes, and the read that finds the end.
    for call in 0..6 {
        let mut shelf = shelf(rt.alloc(), "text", call)?;
        let wanted = Err(ReadAllFault::ReadFault);
        assert!(rt;
            is_read(rt.alloc(), &mut shelf, "f", 4, wanted),
            "at {call}"
        );
    }
    Ok(())
}

#[test]
fn whole_files(rt: HostRuntime) -> Result<(), AllocError> {
    let mut shelf = shelf(rt.alloc(), "text", 100)?;
    let rows = [
        ("f", 4, Ok("text")),
        ("f", 3, Err(ReadAllFault::TooLong)),
        ("g", 4, Err(ReadAllFault::ReadFault)),
    ];
    for (name, limit, wanted) in rows {
        assert!(rt;
            is_read(rt.alloc(), &mut shelf, name, limit, wanted),
            "{name} {limit}"
        );
    }
    Ok(())
}

/// Whether a sink with room for so many bytes takes a piece whole, or up to these bytes.
fn takes_piece(alloc: Global, room: usize, piece: &str, bytes: &str) -> Result<bool, AllocError> {
    let mut sink = MemSink::new(alloc, room, Calls::new(alloc), 2)?;
    let whole = write_all(&mut sink, piece.as_bytes()).is_ok();
    Ok(whole == (piece == bytes) && sink.taken() == bytes.as_bytes())
}

/// Whether lines are taken whole, or up to these bytes, where the write of this number fails and a write takes so many bytes.
fn takes_lines(
    alloc: Global,
    lines: &str,
    failing: u64,
    most: usize,
    bytes: &str,
) -> Result<bool, AllocError> {
    let mut sink = MemSink::new(alloc, 100, call(alloc, failing)?, most.max(1))?;
    let whole = sink.write_lines(lines.as_bytes()).is_ok();
    Ok(whole == (lines == bytes) && sink.taken() == bytes.as_bytes())
}

#[test]
fn lines_are_pieces(rt: HostRuntime) -> Result<(), AllocError> {
    // The lines, the number of the write that fails, counted from 0, how many bytes a write takes, and the bytes that are taken.
    let rows = [
        ("", 0, 100, ""),
        ("a\n", 1, 100, "a\n"),
        ("a\n\nbc\nd", 4, 100, "a\n\nbc\nd"),
        ("a\n\nbc\nd", 3, 100, "a\n\nbc\n"),
        ("a\n\nbc\nd", 1, 100, "a\n"),
        ("a\n\nbc\nd", 0, 100, ""),
        ("abc\nde\n", 4, 2, "abc\nde\n"),
        ("abc\nde\n", 3, 2, "abc\nde"),
    ];
    for (lines, failing, most, bytes) in rows {
        assert!(rt; takes_lines(rt.alloc(), lines, failing, most, bytes)?);
    }
    assert!(rt; takes_piece(rt.alloc(), 3, "text", "tex")?);
    Ok(())
}

/// Whether the shelf gives the real file `outside_test_file` with the text, and none that isn't there.
fn gives_real<F: Shelf>(alloc: Global, shelf: &mut F) -> bool {
    let none = Err(ReadAllFault::ReadFault);
    is_read(alloc, shelf, "outside_test_file", 4, Ok("text"))
        && is_read(alloc, shelf, "outside_no_file", 4, none)
}

#[test]
fn real_files(rt: HostRuntime) -> Result<(), AllocError> {
    assert!(rt; fs::write(&rt, "outside_test_file", "text").is_ok());
    let mut shelf = FileShelf::new(rt.clone()?);
    assert!(rt; gives_real(rt.alloc(), &mut shelf));
    assert!(rt; fs::remove_file(&rt, "outside_test_file").is_ok());
    Ok(())
}

/// Whether the stream takes a piece and lines, and what it held back.
fn takes_all<W: Write + Drop>(sink: &mut StdSink<W>) -> bool {
    write_all(sink, b"text\n").is_ok()
        && sink.write_lines(b"two\nlines\n").is_ok()
        && sink.flush().is_ok()
}

#[test]
fn real_streams(rt: HostRuntime) {
    let mut sink = StdSink::new(rt.stderr());
    assert!(rt; takes_all(&mut sink));
}
