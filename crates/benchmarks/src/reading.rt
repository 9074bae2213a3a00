// Benchmarks of the lexer, the parser and the reader of documents: bytes that are filled with one piece.

use event_lines::read_skeleton;
use rnc_lexer::{Tokens, lex};
use rnc_parser::parse;
use std::alloc::{AllocError, Global};
use std::io;
use std::time::Instant;

/// The bytes of a schema that is lexed: the most that a schema may have.
const SCHEMA: usize = 1_048_576;

/// The bytes that are read as a skeleton: the most that a cursor may have.
const CURSOR: usize = 2_097_152;

/// What the schema of a benchmark of the lexer is filled with.
fn piece_of(name: &str) -> Option<&'static str> {
    match name {
        "lex-short-tokens" => Some("a,b "),
        "lex-comment" => Some("# x "),
        "lex-elements" => Some("element a { empty } "),
        "lex-quotes" => Some("\"'\" '\"' "),
        "lex-escaped-names" => Some("\\xa "),
        "lex-escapes" => Some("'\\x{41}' "),
        _ => None,
    }
}

/// What the schema of a benchmark of the parser is filled with.
fn parsed_piece_of(name: &str) -> Option<&'static str> {
    match name {
        "parse-choice" => Some("a|"),
        "parse-group" => Some("a,"),
        "parse-definitions" => Some("a=b "),
        "parse-declarations" => Some("namespace a=\"\" "),
        "parse-annotations" => Some("["),
        _ => None,
    }
}

/// The lines with which a cursor is filled.
fn lines_of(name: &str) -> Option<&'static str> {
    match name {
        "read-elements" => Some("(a\n>\n"),
        "read-short-lines" => Some(">\n"),
        "read-texts" => Some("-t\n"),
        "read-escapes" => Some("-\\\\\\n\\r\n"),
        "read-namespaces" => Some("({urn:a\\sb}c\n>\n"),
        _ => None,
    }
}

/// A text of so many bytes, the piece again and again.
fn filled(alloc: Global, piece: &str, size: usize) -> Result<Vec<u8>, AllocError> {
    let mut bytes = Vec::with_capacity(alloc, size)?;
    for _ in 0..size {
        bytes.extend_from_slice(piece.as_bytes())?;
        if bytes.len() >= size {
            break;
        }
    }
    Ok(bytes)
}

/// How many tokens a schema has, none where it is refused.
fn token_count(alloc: Global, schema: &[u8]) -> usize {
    match lex(alloc, schema) {
        Ok(tokens) => tokens.len(),
        Err(_) => 0,
    }
}

/// Times a benchmark of the lexer. False where it isn't one.
pub(crate) fn time_lexer(rt: &HostRuntime, name: &str) -> io::Result<bool> {
    let Some(piece) = piece_of(name) else {
        return Ok(false);
    };
    let bytes = filled(rt.alloc(), piece, SCHEMA)?;
    let start = Instant::now(rt)?;
    let count = token_count(rt.alloc(), bytes.as_slice());
    let micros = start.elapsed(rt)?.as_micros();
    println!(rt; "{name}: {count} tokens in {micros} microseconds")?;
    Ok(true)
}

/// Times the parser, and says whether the tokens are those of a schema.
fn time_tokens(rt: &HostRuntime, name: &str, tokens: &Tokens) -> io::Result<()> {
    let start = Instant::now(rt)?;
    let is_schema = parse(rt.alloc(), tokens).is_ok();
    let micros = start.elapsed(rt)?.as_micros();
    println!(rt;
        "{name}: {} tokens, schema {is_schema} in {micros} microseconds",
        tokens.len()
    )?;
    Ok(())
}

/// Times a benchmark of the parser. False where it isn't one.
pub(crate) fn time_parser(rt: &HostRuntime, name: &str) -> io::Result<bool> {
    let Some(piece) = parsed_piece_of(name) else {
        return Ok(false);
    };
    let bytes = filled(rt.alloc(), piece, SCHEMA)?;
    match lex(rt.alloc(), bytes.as_slice()) {
        Ok(tokens) => {
            time_tokens(rt, name, &tokens)?;
            Ok(true)
        }
        Err(_) => Ok(false),
    }
}

/// Times a benchmark of the reader of documents. False where it isn't one.
pub(crate) fn time_reader(rt: &HostRuntime, name: &str) -> io::Result<bool> {
    let Some(lines) = lines_of(name) else {
        return Ok(false);
    };
    let bytes = filled(rt.alloc(), lines, CURSOR)?;
    let start = Instant::now(rt)?;
    let is_read = read_skeleton(rt.alloc(), bytes.as_slice()).is_ok();
    let micros = start.elapsed(rt)?.as_micros();
    println!(rt; "{name}: skeleton {is_read} in {micros} microseconds")?;
    Ok(true)
}
