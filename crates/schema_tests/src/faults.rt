// The first fault of small schemas and the place of a bad value, row by row.
use name_resolution::Namespaces;
use rnc_lexer::lex;
use rnc_parser::parse;
use schema_tree::Full;
use std::alloc::{AllocError, Global};
use tree_faults::{Fault, bad_value, first_fault};

/// The first fault of the tree, and the place of a bad value.
fn found(alloc: Global, full: &Full) -> Result<(Option<Fault>, Option<usize>), AllocError> {
    let names = Namespaces::of(alloc, full)?;
    let fault = first_fault(alloc, full, &names)?;
    Ok((fault, bad_value(full, &names)))
}

/// Whether the text is a schema with this first fault and this place of a bad value.
fn has(alloc: Global, text: &str, fault: Option<Fault>, value: Option<usize>) -> bool {
    match lex(alloc, text.as_bytes()) {
        Ok(tokens) => match parse(alloc, &tokens) {
            Ok(full) => found(alloc, &full) == Ok((fault, value)),
            Err(_) => false,
        },
        Err(_) => false,
    }
}

/// The first row that has another fault.
fn wrong_row(alloc: Global, rows: &[(&str, Option<Fault>, Option<usize>)]) -> Option<usize> {
    for (i, (text, fault, value)) in rows.iter().enumerate() {
        if !has(alloc, *text, *fault, *value) {
            return Some(i);
        }
    }
    None
}

#[test]
fn definitions(rt: HostRuntime) {
    let twice = Some(Fault::DefinedTwice { at: 20 });
    let rows = [
        ("a = empty b = empty a = empty start=b", twice, None),
        ("start=(a) a = empty start=(a)", twice, None),
        (
            "a|=empty  a = empty a&=empty  start=a",
            Some(Fault::CombineMixed { at: 20 }),
            None,
        ),
        (
            "a&=empty  a|=empty  a|=empty  start=a",
            Some(Fault::CombineMixed { at: 10 }),
            None,
        ),
        ("a = empty a|=empty  b&=empty  start=a", None, None),
    ];
    assert_eq!(rt; wrong_row(rt.alloc(), rows.as_slice()), None);
}

#[test]
fn references(rt: HostRuntime) {
    let rows = [
        ("         a", Some(Fault::UndefinedName { at: 9 }), None),
        ("grammar { start = a a = empty }", None, None),
        (
            "grammar { start = b a = empty }",
            Some(Fault::UndefinedName { at: 18 }),
            None,
        ),
        (
            "         parent a",
            Some(Fault::ParentOutside { at: 9 }),
            None,
        ),
        (
            "grammar { start = parent a a = empty }",
            Some(Fault::ParentOutside { at: 18 }),
            None,
        ),
        (
            "grammar { start = grammar { start = parent a a = empty } a = empty }",
            None,
            None,
        ),
        (
            "grammar { start = grammar { start = parent b a = empty } a = empty }",
            Some(Fault::UndefinedName { at: 36 }),
            None,
        ),
    ];
    assert_eq!(rt; wrong_row(rt.alloc(), rows.as_slice()), None);
}

#[test]
fn first_faults(rt: HostRuntime) {
    let rows = [
        ("", Some(Fault::NoStart), None),
        ("        a", Some(Fault::UndefinedName { at: 8 }), None),
        ("            xsd:positiveInteger '0'", None, Some(12)),
        (
            "attribute xmlns { text }",
            Some(Fault::XmlnsAttribute { at: 10 }),
            None,
        ),
        (
            "attribute p:xmlns { text }",
            Some(Fault::UnboundPrefix { at: 10 }),
            None,
        ),
    ];
    assert_eq!(rt; wrong_row(rt.alloc(), rows.as_slice()), None);
}
