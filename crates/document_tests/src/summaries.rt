// The summaries of a few documents, lines of states, and failing writes.
use event_lines::Measure;
use outside::{Calls, MemSink};
use std::alloc::{AllocError, Global};
use summary::{Tally, write_state_line};

/// A sink of which the write with this number, counted from 0, fails.
fn sink(alloc: Global, failing: u64) -> Result<MemSink, AllocError> {
    let mut calls = Calls::new(alloc);
    calls.push(failing)?;
    Ok(MemSink::new(alloc, 1000, calls, 1000)?)
}

/// The tally of documents, each with its size, the bytes of its text and their sum.
fn tally_of(documents: &[(usize, u64, u32)]) -> Tally {
    let mut tally = Tally::new();
    for (size, bytes, sum) in documents {
        let (size, bytes, sum) = (*size, *bytes, *sum);
        if 1 <= size && size <= 64 {
            tally.counted(size, Measure { bytes, sum });
        }
    }
    tally
}

/// Whether the summary is written or fails as told, with these bytes.
fn is_written(
    alloc: Global,
    tally: &Tally,
    failing: u64,
    done: bool,
    bytes: &str,
) -> Result<bool, AllocError> {
    let mut sink = sink(alloc, failing)?;
    let written = tally.write_summary(&mut sink).is_ok();
    Ok(written == done && sink.taken() == bytes.as_bytes())
}

#[test]
fn summaries(rt: HostRuntime) -> Result<(), AllocError> {
    let documents = [(1, 8, 280), (64, u64::MAX, u32::MAX), (64, 2, 2)];
    // How many of the documents are counted, and the number of the write that fails.
    let rows = [
        (0, 9, true, "bytes 0\nsum 0\n"),
        (1, 9, true, "size 1 count 1\nbytes 8\nsum 280\n"),
        (
            3,
            9,
            true,
            "size 1 count 1\nsize 64 count 2\nbytes 9\nsum 281\n",
        ),
        (3, 0, false, ""),
        (3, 1, false, "size 1 count 1\n"),
        (3, 3, false, "size 1 count 1\nsize 64 count 2\nbytes 9\n"),
    ];
    for (count, failing, done, bytes) in rows {
        let tally = tally_of(&documents[..count.min(3)]);
        assert!(rt;
            is_written(rt.alloc(), &tally, failing, done, bytes)?,
            "{bytes}"
        );
    }
    Ok(())
}

#[test]
fn states(rt: HostRuntime) -> Result<(), AllocError> {
    let mut sink = sink(rt.alloc(), 2)?;
    for (size, count, done) in [(1, 3, true), (64, u64::MAX, true), (2, 6, false)] {
        assert!(rt; write_state_line(size, count, &mut sink).is_ok() == done);
    }
    assert!(rt; sink.taken() == b"1 3\n64 18446744073709551615\n".as_slice());
    Ok(())
}
