// Parts of schemas, read from the tokens of a text.
use crate::outlines::{add_class, add_declarations, add_items, add_parts, add_pattern};
use rnc_lexer::lex;
use rnc_parser::{Cursor, ParseFault, Stop, class, declarations, file, items, parse, pattern};
use schema_tree::{Feature, first_reference, refused_feature};
use sqlite_items::Items;
use std::alloc::{AllocError, Global};

/// A part of a schema.
#[derive(Clone, Copy)]
enum Wanted {
    Declarations,
    Class,
    Pattern,
    Items,
    File,
}

/// Adds why reading stopped.
fn add_stop(to: &mut String, stop: Stop) -> Result<(), AllocError> {
    match stop {
        Stop::Syntax => to.push_str("syntax"),
        Stop::OutOfMemory => to.push_str("memory"),
    }
}

fn read_declarations(
    alloc: Global,
    tokens: &mut Cursor<'_>,
    to: &mut String,
) -> Result<(), AllocError> {
    match declarations(alloc, tokens) {
        Ok(found) => add_declarations(alloc, to, found.as_slice()),
        Err(stop) => add_stop(to, stop),
    }
}

fn read_class(alloc: Global, tokens: &mut Cursor<'_>, to: &mut String) -> Result<(), AllocError> {
    match class(alloc, tokens) {
        Ok(found) => add_class(alloc, to, &found),
        Err(stop) => add_stop(to, stop),
    }
}

fn read_pattern(alloc: Global, tokens: &mut Cursor<'_>, to: &mut String) -> Result<(), AllocError> {
    match pattern(alloc, tokens) {
        Ok(found) => add_pattern(alloc, to, &found),
        Err(stop) => add_stop(to, stop),
    }
}

fn read_items(alloc: Global, tokens: &mut Cursor<'_>, to: &mut String) -> Result<(), AllocError> {
    match items(alloc, tokens, Items::new(alloc), false) {
        Ok(found) => add_items(alloc, to, found.as_slice()),
        Err(stop) => add_stop(to, stop),
    }
}

fn read_file(alloc: Global, tokens: &mut Cursor<'_>, to: &mut String) -> Result<(), AllocError> {
    match file(alloc, tokens) {
        Ok(found) => add_parts(alloc, to, &found),
        Err(stop) => add_stop(to, stop),
    }
}

/// Adds the tree of the part that is read, or why it isn't.
fn read(
    alloc: Global,
    wanted: Wanted,
    tokens: &mut Cursor<'_>,
    to: &mut String,
) -> Result<(), AllocError> {
    match wanted {
        Wanted::Declarations => read_declarations(alloc, tokens, to),
        Wanted::Class => read_class(alloc, tokens, to),
        Wanted::Pattern => read_pattern(alloc, tokens, to),
        Wanted::Items => read_items(alloc, tokens, to),
        Wanted::File => read_file(alloc, tokens, to),
    }
}

/// Adds the tree of the part that is read from the text, or why it isn't, and gives how many tokens are left.
fn reading(
    alloc: Global,
    wanted: Wanted,
    text: &str,
    to: &mut String,
) -> Result<Option<usize>, AllocError> {
    match lex(alloc, text.as_bytes()) {
        Ok(tokens) => {
            let mut rest = Cursor::new(&tokens);
            read(alloc, wanted, &mut rest, to)?;
            Ok(Some(rest.left()))
        }
        Err(_) => Ok(None),
    }
}

/// Whether the part is read from the text as this tree, or not for this reason, with so many tokens left.
fn is_read(
    alloc: Global,
    wanted: Wanted,
    text: &str,
    tree: &str,
    left: usize,
) -> Result<bool, AllocError> {
    let mut found = String::new(alloc);
    let is_left = reading(alloc, wanted, text, &mut found)? == Some(left);
    Ok(is_left && found.as_str() == tree)
}

#[test]
fn parts(rt: HostRuntime) -> Result<(), AllocError> {
    let rows = [
        (
            Wanted::Declarations,
            "default namespace x = 'a' ~ 'b' datatypes d = 'e' start",
            "default:x@0\"ab\" datatypes:d@32\"e\" ",
            1,
        ),
        (Wanted::Declarations, "namespace a = b", "syntax", 1),
        (
            Wanted::Class,
            "* - (x:a | b) | [ ] y:* {",
            "|*@0 - (|x:a@5|b@11)|y:*@20",
            1,
        ),
        (Wanted::Class, "a - b", "a@0", 2),
        (Wanted::Class, "* - ]", "syntax", 1),
        (
            Wanted::Pattern,
            "element a { empty }",
            "element@0 a@8(empty)",
            0,
        ),
        (
            Wanted::Pattern,
            "a, (b & c)+ >> d [ e [ ] ] | f",
            "group(ref:a@0 oneOrMore(interleave(ref:b@4 ref:c@8 )) )",
            2,
        ),
        (
            Wanted::Pattern,
            "xsd:int { min = '1' } - (token '2' | '3')*",
            "zeroOrMore(xsd:int@0 min@10\"1\" - (choice(token@25\"2\" \"3\" )))",
            0,
        ),
        (Wanted::Pattern, "element { empty }", "syntax", 3),
        (
            Wanted::Items,
            "x [ ] start = a include 'f' { b |= text } }",
            "{start@6 =(ref:a@14) include@16\"f\"{b@30 |=(text) } }",
            1,
        ),
        (Wanted::Items, "include 'f' { include 'g' }", "syntax", 3),
        (
            Wanted::File,
            "namespace p = 'q' element p:a { empty }",
            "namespace:p@0\"q\" element@18 p:a@26(empty)",
            0,
        ),
        (
            Wanted::File,
            "[ ] a = empty x:b [ ] div { start = a }",
            "{a@4 =(empty) div{start@28 =(ref:a@36) } }",
            0,
        ),
        (
            Wanted::File,
            "x:int { } - (a) , b",
            "group(x:int@0 - (ref:a@13) ref:b@18 )",
            0,
        ),
        (Wanted::File, "[ ] a & b | c", "syntax", 2),
        (Wanted::File, "a = b c", "syntax", 0),
    ];
    for (wanted, text, tree, left) in rows {
        let is_read = is_read(rt.alloc(), wanted, text, tree, left)?;
        assert!(rt; is_read, "{text}");
    }
    Ok(())
}

/// How a text ends: as a schema with a feature or without, or refused.
#[derive(Clone, Copy, PartialEq, Eq)]
enum End {
    Schema(Option<(Feature, usize)>, Option<usize>),
    Refused(ParseFault),
    NoTokens,
}

fn end_of(alloc: Global, text: &str) -> End {
    match lex(alloc, text.as_bytes()) {
        Ok(tokens) => match parse(alloc, &tokens) {
            Ok(full) => End::Schema(refused_feature(&full), first_reference(&full)),
            Err(fault) => End::Refused(fault),
        },
        Err(_) => End::NoTokens,
    }
}

/// The first row whose text ends otherwise.
fn wrong_end(alloc: Global, rows: &[(&str, End)]) -> Option<usize> {
    for (i, (text, end)) in rows.iter().enumerate() {
        if end_of(alloc, *text) != *end {
            return Some(i);
        }
    }
    None
}

#[test]
fn schemas(rt: HostRuntime) {
    let rows = [
        ("element a { empty }", End::Schema(None, None)),
        (
            "[ x = \"1\" ] element a { empty >> b [ \"(\" ] }",
            End::Schema(None, None),
        ),
        ("element a {", End::Refused(ParseFault::Syntax { at: 11 })),
        ("a, b | c", End::Refused(ParseFault::Syntax { at: 5 })),
        ("[ a ] x [ b ]", End::Refused(ParseFault::Syntax { at: 8 })),
        (
            "element a { list { \"x\" } }",
            End::Schema(Some((Feature::List, 12)), None),
        ),
        (
            "element a { token { minLength = \"1\" } }",
            End::Schema(Some((Feature::Parameter, 20)), None),
        ),
        (
            "element a { xsd:date }",
            End::Schema(Some((Feature::ForeignType, 12)), None),
        ),
        (
            "datatypes b = '' datatypes b = 'u' element a { b:string | list { xsd:token } }",
            End::Schema(Some((Feature::ForeignType, 47)), None),
        ),
        (
            "include \"x.rnc\"",
            End::Schema(Some((Feature::Include, 0)), Some(0)),
        ),
        (
            "a = list { external \"x\" inherit = inherit }",
            End::Schema(Some((Feature::List, 4)), Some(11)),
        ),
        (
            "default namespace = inherit element a { empty }",
            End::Schema(Some((Feature::Inherit, 20)), None),
        ),
        (
            "namespace inherit = '' element inherit:a { empty }",
            End::Schema(None, None),
        ),
    ];
    assert_eq!(rt; wrong_end(rt.alloc(), rows.as_slice()), None);
}

/// A text, and then so many parentheses.
fn nested(alloc: Global, before: &str, levels: usize) -> Result<String, AllocError> {
    let mut text = String::from_str(alloc, before)?;
    for _ in 0..levels {
        text.push('(')?;
    }
    text.push_str("empty")?;
    for _ in 0..levels {
        text.push(')')?;
    }
    Ok(text)
}

/// How a text ends whose parentheses are nested so deep behind what stands before them.
fn end_of_nested(alloc: Global, before: &str, levels: usize) -> Result<End, AllocError> {
    let text = nested(alloc, before, levels)?;
    Ok(end_of(alloc, text.as_str()))
}

#[test]
fn depths(rt: HostRuntime) -> Result<(), AllocError> {
    let rows = [
        ("", 128, End::Schema(None, None)),
        ("", 129, End::Refused(ParseFault::TooDeep { at: 128 })),
        (",", 129, End::Refused(ParseFault::TooDeep { at: 129 })),
        ("[((] ", 128, End::Schema(None, None)),
        ("}", 129, End::Refused(ParseFault::Syntax { at: 0 })),
    ];
    for (before, levels, end) in rows {
        let found = end_of_nested(rt.alloc(), before, levels)?;
        assert!(rt; found == end, "{before:?} {levels}");
    }
    Ok(())
}
