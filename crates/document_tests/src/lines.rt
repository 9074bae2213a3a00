// Bytes and what they are read as, row by row.
use line_reader::{LineFault, read_skeleton};
use std::alloc::Global;

/// Whether each text is that of a skeleton of this size.
fn are_read(alloc: Global, rows: &[(&str, usize)]) -> bool {
    rows.iter().all(|(text, size)| match read_skeleton(alloc, text.as_bytes()) {
        Ok(skeleton) => skeleton.size() == *size,
        Err(_) => false,
    })
}

/// Whether the bytes have this fault.
fn is_refused(alloc: Global, bytes: &[u8], expected: LineFault) -> bool {
    match read_skeleton(alloc, bytes) {
        Ok(_) => false,
        Err(fault) => fault == expected,
    }
}

/// Whether each text has its fault.
fn are_refused(alloc: Global, rows: &[(&str, LineFault)]) -> bool {
    rows.iter()
        .all(|(text, fault)| is_refused(alloc, text.as_bytes(), *fault))
}

#[test]
fn texts(rt: HostRuntime) {
    let rows = [
        ("(a\n>\n)\n\n", 1),
        ("(a\nAb t\nAc \n>\n-u\\n\n)\n\n", 4),
        (
            "({a\\sb\\{}c\nA{\\}\\\\}d \\\\\\n\\r \n>\n-x\\\\y\n)\n\n",
            3,
        ),
        ("(a\n>\n-t\n(b\n>\n)\n- u \n)\n\n", 4),
    ];
    assert!(rt; are_read(rt.alloc(), &rows));
}

#[test]
fn refusals(rt: HostRuntime) {
    let rows = [
        ("", LineFault::Unfinished),
        ("a\n", LineFault::BadLine { line: 1 }),
        ("(a\n>\n", LineFault::Unfinished),
        ("(a\n>\n)\n", LineFault::Unfinished),
        ("(a\n>\n)\nx", LineFault::Unfinished),
        ("(a\n>\n-t\n-u\n", LineFault::BadLine { line: 4 }),
        ("(a\n>\n- \n", LineFault::BadLine { line: 3 }),
        ("(a\n>\n-\\s\n", LineFault::BadLine { line: 3 }),
        ("(a\n>\n)\n\n(a\n", LineFault::Trailing { line: 5 }),
        ("(a\n>\n)\n\nx", LineFault::Trailing { line: 5 }),
        ("(a\n>\n)\nx\n", LineFault::BadLine { line: 4 }),
        (
            "(a\nAc t\nAb t\n>\n)\n\n",
            LineFault::NotOrdered { line: 3 },
        ),
        ("(a\nAb t\nAb u\n", LineFault::NotOrdered { line: 3 }),
        ("(a\nAc t\nAb\n", LineFault::BadLine { line: 3 }),
        ("Ab t\n", LineFault::BadLine { line: 1 }),
        ("({}a\n>\n)\n\n", LineFault::BadLine { line: 1 }),
        ("({a b}c\n", LineFault::BadLine { line: 1 }),
    ];
    assert!(rt; are_refused(rt.alloc(), &rows));
    assert!(rt;
        is_refused(
            rt.alloc(),
            b"(a\n>\n-\xff\n",
            LineFault::BadLine { line: 3 }
        )
    );
}

#[test]
fn cut_texts(rt: HostRuntime) {
    let text = "(addressBook\n>\n(card\n>\n(name\n>\n)\n(email\n>\n)\n)\n)\n\n";
    let bytes = text.as_bytes();
    assert!(rt; bytes.len() == 49 && are_read(rt.alloc(), &[(text, 4)]));
    for len in 0..bytes.len() {
        assert!(rt;
            is_refused(rt.alloc(), &bytes[..len], LineFault::Unfinished),
            "at {len}"
        );
    }
}
