// Tokens of a small schema, the faults of texts row by row, and texts that are cut or have a byte changed.
use rnc_lexer::{Keyword, LexFault, Symbol, Token, Tokens, lex};
use std::alloc::{AllocError, Global};

/// A token that is wanted.
#[derive(Clone, Copy)]
enum Wanted {
    Keyword(Keyword),
    Ident(&'static str),
    CName(&'static str, &'static str),
    NsName(&'static str),
    Segment(&'static str),
    Symbol(Symbol),
}

/// Whether the token is this one.
fn is(token: &Token, wanted: Wanted) -> bool {
    match (token, wanted) {
        (Token::Keyword(keyword), Wanted::Keyword(wanted)) => *keyword == wanted,
        (Token::Ident(name), Wanted::Ident(wanted)) => name.as_str() == wanted,
        (Token::CName(prefix, name), Wanted::CName(space, local)) => {
            prefix.as_str() == space && name.as_str() == local
        }
        (Token::NsName(prefix), Wanted::NsName(wanted)) => prefix.as_str() == wanted,
        (Token::Segment(text), Wanted::Segment(wanted)) => text.as_str() == wanted,
        (Token::Symbol(symbol), Wanted::Symbol(wanted)) => *symbol == wanted,
        _ => false,
    }
}

/// Whether these are the tokens with their places.
fn are(tokens: &Tokens, wanted: &[(usize, Wanted)]) -> bool {
    if tokens.len() != wanted.len() || tokens.is_empty() != wanted.is_empty() {
        return false;
    }
    for i in 0..wanted.len() {
        let (place, token) = wanted[i];
        if tokens.at(i) != place || !is(tokens.token(i), token) {
            return false;
        }
    }
    true
}

/// Whether these are the tokens of the text, with their places, and it ends where they do.
fn has_tokens(alloc: Global, text: &str, wanted: &[(usize, Wanted)]) -> bool {
    match lex(alloc, text.as_bytes()) {
        Ok(tokens) => tokens.end_place() == text.len() && are(&tokens, wanted),
        Err(_) => false,
    }
}

#[test]
fn tokens(rt: HostRuntime) {
    let text =
        "\u{FEFF}element \\element { # a {\r\n x:* |= a:b&='c\\x{41}'~\"\"\"d\r\n\"e\"\"\" >> token-}";
    let rows = [
        (3, Wanted::Keyword(Keyword::Element)),
        (11, Wanted::Ident("element")),
        (20, Wanted::Symbol(Symbol::OpenBrace)),
        (30, Wanted::NsName("x")),
        (34, Wanted::Symbol(Symbol::BarEquals)),
        (37, Wanted::CName("a", "b")),
        (40, Wanted::Symbol(Symbol::AmpersandEquals)),
        (42, Wanted::Segment("cA")),
        (51, Wanted::Symbol(Symbol::Tilde)),
        (52, Wanted::Segment("d\n\"e")),
        (64, Wanted::Symbol(Symbol::Follows)),
        (67, Wanted::Ident("token-")),
        (73, Wanted::Symbol(Symbol::CloseBrace)),
    ];
    assert!(rt; has_tokens(rt.alloc(), text, rows.as_slice()));
}

/// What the text is refused for, if it is.
fn fault_of(alloc: Global, bytes: &[u8]) -> Option<LexFault> {
    match lex(alloc, bytes) {
        Ok(_) => None,
        Err(fault) => Some(fault),
    }
}

/// The first row whose text is not refused for its fault.
fn wrong_fault(alloc: Global, rows: &[(&[u8], LexFault)]) -> Option<usize> {
    for (i, (bytes, fault)) in rows.iter().enumerate() {
        if fault_of(alloc, *bytes) != Some(*fault) {
            return Some(i);
        }
    }
    None
}

#[test]
fn faults(rt: HostRuntime) {
    let rows: [(&[u8], LexFault); 22] = [
        (b"element a\xFF", LexFault::BadUtf8 { at: 9 }),
        (b"\xC0\xAF", LexFault::BadUtf8 { at: 0 }),
        (b"a\xED\xA0\x80", LexFault::BadUtf8 { at: 1 }),
        (b"\xF4\x90\x80\x80", LexFault::BadUtf8 { at: 0 }),
        (b"#\xE2\x82", LexFault::BadUtf8 { at: 1 }),
        (b"$ \xFF", LexFault::BadUtf8 { at: 2 }),
        (b"\"\x01\" $", LexFault::BadCharacter { at: 1 }),
        (b"element $ { empty }", LexFault::BadCharacter { at: 8 }),
        (b"a > b", LexFault::BadCharacter { at: 2 }),
        (b"a: b", LexFault::BadCharacter { at: 1 }),
        (b"\\a:b", LexFault::BadCharacter { at: 2 }),
        (b"\\ a", LexFault::BadCharacter { at: 0 }),
        (b"element a { \"x", LexFault::OpenLiteral { at: 12 }),
        (b"'a\n'", LexFault::OpenLiteral { at: 0 }),
        (b"\"\"\"\"", LexFault::OpenLiteral { at: 0 }),
        (
            b"element a { \"\\x{110000}\" }",
            LexFault::BadEscape { at: 13 },
        ),
        (b"\"\\xx{41}", LexFault::BadEscape { at: 1 }),
        (b"\"\\x{0000041}\"", LexFault::BadEscape { at: 1 }),
        (b"\"\\x{\"", LexFault::BadEscape { at: 1 }),
        (
            b"element a { \"\\x{22}\" }",
            LexFault::EscapeRefused { at: 13 },
        ),
        (
            b"\\x{65}lement a { empty }",
            LexFault::EscapeRefused { at: 0 },
        ),
        (b"\xEF\xBB\xBF$", LexFault::BadCharacter { at: 3 }),
    ];
    assert_eq!(rt; wrong_fault(rt.alloc(), rows.as_slice()), None);
}

/// What `count` times the letter b between two texts is refused for, if it is.
fn fault_of_long(
    alloc: Global,
    front: &str,
    count: usize,
    back: &str,
) -> Result<Option<LexFault>, AllocError> {
    let mut text = String::from_str(alloc, front)?;
    for _ in 0..count {
        text.push('b')?;
    }
    text.push_str(back)?;
    Ok(fault_of(alloc, text.as_bytes()))
}

#[test]
fn lengths(rt: HostRuntime) -> Result<(), AllocError> {
    let rows = [
        (
            "element a { \"",
            4097,
            "\" }",
            Some(LexFault::LiteralTooLong { at: 12 }),
        ),
        ("element a { \"", 4096, "\" }", None),
        (
            "\"\" ~ # \n '",
            4097,
            "'",
            Some(LexFault::LiteralTooLong { at: 9 }),
        ),
        (
            "\"bb\" ~ '",
            4095,
            "'",
            Some(LexFault::LiteralTooLong { at: 7 }),
        ),
        ("\"bb\" '", 4095, "'", None),
        ("\"", 4097, "", Some(LexFault::OpenLiteral { at: 0 })),
        (
            "element ",
            1025,
            " { empty }",
            Some(LexFault::NameTooLong { at: 8 }),
        ),
        ("element ", 1024, " { empty }", None),
        ("\\", 1025, "", Some(LexFault::NameTooLong { at: 1 })),
        ("a:", 1025, "", Some(LexFault::NameTooLong { at: 2 })),
        ("", 1025, ":a", Some(LexFault::NameTooLong { at: 0 })),
        ("", 1025, ":*", Some(LexFault::NameTooLong { at: 0 })),
    ];
    for (front, count, back, fault) in &rows {
        let found = fault_of_long(rt.alloc(), *front, *count, *back)?;
        assert!(rt; found == *fault, "{front:?} {count} {back:?}");
    }
    Ok(())
}

/// A text without tokens: behind a name with a backslash no colon can stand.
const REFUSED: &[u8] = b"element \\a:* { '\\x{9}' ~ \"\"\"\r\n\"\"\" }";

/// Whether the text is the one token.
fn is_token(alloc: Global, text: &str, token: Wanted) -> bool {
    has_tokens(alloc, text, &[(0, token)])
}

#[test]
fn cut_texts(rt: HostRuntime) {
    let alloc = rt.alloc();
    for name in ["e", "el", "ele", "elem", "eleme", "elemen"] {
        assert!(rt; is_token(alloc, name, Wanted::Ident(name)), "{name}");
    }
    let element = Wanted::Keyword(Keyword::Element);
    for text in ["element", "element "] {
        assert!(rt; is_token(alloc, text, element), "{text:?}");
    }
    assert!(rt; has_tokens(alloc, "", &[]));
    let two = [(0, element), (8, Wanted::Ident("a"))];
    assert!(rt; has_tokens(alloc, "element \\a", two.as_slice()));
    let alone = fault_of(alloc, b"element \\");
    assert!(rt; alone == Some(LexFault::BadCharacter { at: 8 }));
    for end in 11..REFUSED.len() {
        let fault = fault_of(alloc, &REFUSED[..end]);
        assert!(rt;
            fault == Some(LexFault::BadCharacter { at: 10 }),
            "cut at {end}"
        );
    }
}

/// What the text is refused for with another byte at the place: one past ASCII is ill-formed, and the others never want memory.
fn is_right_fault(fault: Option<LexFault>, byte: u8, place: usize) -> bool {
    if byte >= 0x80 {
        fault == Some(LexFault::BadUtf8 { at: place })
    } else {
        fault != Some(LexFault::OutOfMemory)
    }
}

#[test]
fn changed_texts(rt: HostRuntime) -> Result<(), AllocError> {
    let alloc = rt.alloc();
    let mut bytes = Vec::from_slice(alloc, REFUSED)?;
    for place in 0..REFUSED.len() {
        for byte in 0..=255 {
            bytes[place] = byte;
            let fault = fault_of(alloc, bytes.as_slice());
            assert!(rt; is_right_fault(fault, byte, place), "{byte} at {place}");
        }
        bytes[place] = REFUSED[place];
    }
    Ok(())
}
