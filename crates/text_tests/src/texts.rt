// White space, kinds and characters of names, row by row.
use std::alloc::{AllocError, Global};
use text_atoms::{Kind, Text, is_name_char, is_name_start, is_ncname, is_space, is_white, normal};

/// Whether the text has this normal form, and is the same token.
fn has_form(alloc: Global, text: &str, form: &str) -> Result<bool, AllocError> {
    let made = normal(alloc, text)?;
    let copy = made.copy(alloc)?;
    Ok(made.as_str() == form && copy == made && Kind::Token.equal(text, form))
}

#[test]
fn normal_forms(rt: HostRuntime) -> Result<(), AllocError> {
    let rows = [
        ("", ""),
        (" \t\r\n", ""),
        (" a  b ", "a b"),
        (" a b", "a b"),
        ("a\tb", "a b"),
        ("a\rb", "a b"),
        ("a\nb", "a b"),
        ("\r\n a\t\t", "a"),
        ("a\u{00A0}b", "a\u{00A0}b"),
        ("\u{00A0}", "\u{00A0}"),
        ("\u{3000}\u{10FFFF} x", "\u{3000}\u{10FFFF} x"),
    ];
    for (text, form) in rows {
        assert!(rt; has_form(rt.alloc(), text, form)?, "{text:?}");
        assert!(rt; is_white(text) == form.is_empty(), "{text:?}");
    }
    assert!(rt; is_space(' ') && !is_space('\u{00A0}') && !is_space('\u{000C}'));
    Ok(())
}

/// Whether the values are equal or not as told, either way round.
fn are_so(kind: Kind, a: &str, b: &str, equal: bool) -> bool {
    kind.equal(a, b) == equal && kind.equal(b, a) == equal
}

#[test]
fn equal_values(rt: HostRuntime) {
    let rows = [
        (Kind::Str, "a", "a", true),
        (Kind::Str, "a ", "a", false),
        (Kind::Token, " a  b ", "a\tb", true),
        (Kind::Token, "ab", "a b", false),
        (Kind::Token, "a", "a b", false),
        (Kind::Boolean, "1", " true ", true),
        (Kind::Boolean, "0", "false", true),
        (Kind::Boolean, "1", "false", false),
        (Kind::Boolean, "TRUE", "TRUE", false),
        (Kind::Boolean, "", "", false),
        (Kind::Integer, "-0", "+0", true),
        (Kind::Integer, "00", "-0", true),
        (Kind::Integer, "+7", "007", true),
        (Kind::Integer, "-7", "7", false),
        (Kind::Integer, "70", "7", false),
        (Kind::Integer, "1 2", "1 2", false),
        (Kind::Integer, "+", "+", false),
        (
            Kind::Integer,
            "123456789012345678901234567890",
            "0123456789012345678901234567890",
            true,
        ),
        (Kind::NonNegative, "-0", "0", true),
        (Kind::NonNegative, "-1", "-1", false),
        (Kind::Positive, "+1", "1", true),
        (Kind::Positive, "0", "0", false),
        (Kind::NcName, "a", " a", true),
        (Kind::NcName, "a:b", "a:b", false),
        (Kind::NcName, "1a", "1a", false),
        (Kind::Nmtoken, "a:b", "a:b\n", true),
        (Kind::Nmtoken, "1a", "1a", true),
        (Kind::Nmtoken, "a b", "a b", false),
    ];
    for (kind, a, b, equal) in rows {
        assert!(rt; are_so(kind, a, b, equal), "{kind:?} {a:?} {b:?}");
    }
}

#[test]
fn allowed_texts(rt: HostRuntime) {
    let rows = [
        (Kind::Str, "", true),
        (Kind::Token, "a b", true),
        (Kind::Boolean, "\ttrue", true),
        (Kind::Integer, "-01", true),
        (Kind::NonNegative, "-0", true),
        (Kind::Positive, "-1", false),
        (Kind::NcName, "", false),
        (Kind::NcName, " a ", true),
        (Kind::NcName, "a b", false),
        (Kind::Nmtoken, ":", true),
        (Kind::Nmtoken, "-a:b", true),
        (Kind::Nmtoken, "", false),
        (Kind::Nmtoken, "a b", false),
    ];
    for (kind, text, allowed) in rows {
        assert!(rt; kind.allows(text) == allowed, "{kind:?} {text:?}");
    }
}

#[test]
fn orders(rt: HostRuntime) -> Result<(), AllocError> {
    assert!(rt; Kind::Str < Kind::Token && Kind::NcName < Kind::Nmtoken);
    let high = normal(rt.alloc(), "\u{00FF}")?;
    let low = Text::from_string(String::from_str(rt.alloc(), "z")?);
    assert!(rt; low < high && high == high);
    Ok(())
}

#[test]
fn name_characters(rt: HostRuntime) {
    let ranges = [
        ('A', 'Z'),
        ('_', '_'),
        ('a', 'z'),
        ('\u{00C0}', '\u{00D6}'),
        ('\u{00D8}', '\u{00F6}'),
        ('\u{00F8}', '\u{02FF}'),
        ('\u{0370}', '\u{037D}'),
        ('\u{037F}', '\u{1FFF}'),
        ('\u{200C}', '\u{200D}'),
        ('\u{2070}', '\u{218F}'),
        ('\u{2C00}', '\u{2FEF}'),
        ('\u{3001}', '\u{D7FF}'),
        ('\u{F900}', '\u{FDCF}'),
        ('\u{FDF0}', '\u{FFFD}'),
        ('\u{10000}', '\u{EFFFF}'),
    ];
    assert!(rt;
        ranges
            .iter()
            .all(|(first, last)| begin_names(*first, *last))
    );
    let behind = [
        '-', '.', '0', '9', '\u{00B7}', '\u{0300}', '\u{036F}', '\u{203F}', '\u{2040}',
    ];
    assert!(rt;
        behind
            .iter()
            .all(|c| is_name_char(*c) && !is_name_start(*c))
    );
    let none = [
        '@',
        '[',
        '^',
        '`',
        '{',
        '\u{00BF}',
        '\u{00D7}',
        '\u{00F7}',
        '\u{037E}',
        '\u{2000}',
        '\u{200B}',
        '\u{200E}',
        '\u{206F}',
        '\u{2190}',
        '\u{2BFF}',
        '\u{2FF0}',
        '\u{3000}',
        '\u{E000}',
        '\u{F8FF}',
        '\u{FDD0}',
        '\u{FDEF}',
        '\u{FFFE}',
        '\u{F0000}',
        ':',
        ',',
        '/',
        '\u{00B6}',
        '\u{00B8}',
        '\u{203E}',
        '\u{2041}',
    ];
    assert!(rt; none.iter().all(|c| !is_name_char(*c)));
    assert!(rt; is_ncname("a.b-1") && !is_ncname("-a") && !is_ncname("a:b"));
}

/// Whether a name may begin with both characters, and have them.
fn begin_names(first: char, last: char) -> bool {
    is_name_start(first) && is_name_start(last) && is_name_char(first) && is_name_char(last)
}
