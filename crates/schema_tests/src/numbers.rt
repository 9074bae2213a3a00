// Numbers of elements and names of definitions, seen by the schema that a tree is simplified to.
ghost use Rattle.schema_tree.specs.Trees.{body_of};
ghost use Rattle.tree_laws.specs.WholeBodies.{AreDistinct, references_of_body};

use pattern_intern::{Node, Schema};
use rnc_lexer::lex;
use rnc_parser::parse;
use schema_tree::{Full, refused_feature};
use simplify::simplify;
use std::alloc::Global;
use tree_laws::trees_are_whole;

/// The numbers of four elements.
type Numbers = (usize, usize, usize, usize);

/// The simple form of the tree.
fn form_of(alloc: Global, full: &Full) -> Option<Schema>
    requires { AreDistinct (references_of_body (body_of full.now.body)) }
{
    if let Some(_) = refused_feature(full) {
        return None;
    }
    match simplify(alloc, full) {
        Ok(schema) => Some(schema),
        Err(_) => None,
    }
}

/// The simple form of the text's tree.
fn form_of_text(alloc: Global, text: &str) -> Option<Schema> {
    match lex(alloc, text.as_bytes()) {
        Ok(tokens) => match parse(alloc, &tokens) {
            Ok(full) => {
                trees_are_whole();
                form_of(alloc, &full)
            }
            Err(_) => None,
        },
        Err(_) => None,
    }
}

/// What `b` of two definitions, `a` and `c` refer to, where the start is `b, a, c`.
fn definitions_of(schema: &Schema) -> Option<Numbers> {
    let pool = schema.pool();
    let Node::Group(others, c) = pool.node(schema.start()) else {
        return None;
    };
    let Node::Group(b, a) = pool.node(others) else {
        return None;
    };
    let Node::Choice(first, second) = pool.node(b) else {
        return None;
    };
    match (
        pool.node(first),
        pool.node(second),
        pool.node(a),
        pool.node(c),
    ) {
        (Node::Ref(first), Node::Ref(second), Node::Ref(a), Node::Ref(c)) => {
            Some((first, second, a, c))
        }
        _ => None,
    }
}

/// Whether what the names of the text refer to has these numbers.
fn are_named(alloc: Global, text: &str, numbers: Numbers) -> bool {
    match form_of_text(alloc, text) {
        Some(schema) => definitions_of(&schema) == Some(numbers),
        None => false,
    }
}

#[test]
fn names(rt: HostRuntime) {
    let text =
        "start = b, a, c b |= element x { empty } div { a |= element x { empty } b |= element x { empty } } c |= element x { empty }";
    assert!(rt; are_named(rt.alloc(), text, (0, 2, 1, 3)));
}

/// What `a`, `b`, `c` and `d` refer to, where the start is `a, b, c, d`.
fn elements_of(schema: &Schema) -> Option<Numbers> {
    let pool = schema.pool();
    let Node::Group(others, d) = pool.node(schema.start()) else {
        return None;
    };
    let Node::Group(first, c) = pool.node(others) else {
        return None;
    };
    let Node::Group(a, b) = pool.node(first) else {
        return None;
    };
    match (pool.node(a), pool.node(b), pool.node(c), pool.node(d)) {
        (Node::Ref(a), Node::Ref(b), Node::Ref(c), Node::Ref(d)) => Some((a, b, c, d)),
        _ => None,
    }
}

/// Whether the elements of the text have these numbers.
fn are_numbered(alloc: Global, text: &str, numbers: Numbers) -> bool {
    match form_of_text(alloc, text) {
        Some(schema) => elements_of(&schema) == Some(numbers),
        None => false,
    }
}

#[test]
fn tokens(rt: HostRuntime) {
    for (text, numbers) in [
        (
            "start = a, b, c, d b = element x { empty } d = element x { empty } a = element x { empty } c = element x { empty }",
            (2, 0, 3, 1),
        ),
        (
            "start = a, b, c, d a = element x { empty } b = element x { empty } c = element x { empty } d = element x { empty }",
            (0, 1, 2, 3),
        ),
        (
            "d = element x { empty } c = element x { empty } b = element x { empty } a = element x { empty } start = a, b, c, d",
            (3, 2, 1, 0),
        ),
    ] {
        assert!(rt; are_numbered(rt.alloc(), text, numbers), "{text}");
    }
}
