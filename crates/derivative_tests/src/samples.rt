// The schemas of the tests.
ghost use Rattle.std.specs.Prelude.{IfOk};
ghost use Rattle.pattern_intern.specs.Schemas.{IsSchema};

use crate::schemas::{Element, class, definitions, known};
use derivatives::Derivatives;
use name_universe::Universe;
use pattern_intern::{Definitions, PatternId, Pool, Schema};
use std::alloc::{AllocError, Global};
use std::test::Fail;
use text_atoms::{Atoms, Kind, TextList};

/// A schema. It starts with its first element.
#[derive(Clone, Copy)]
pub(crate) enum Sample {
    /// `start = a  a = element a { a? }`
    Optional,
    /// `element a { "" }`
    EmptyText,
    /// `element a { attribute b { text }? }`
    Attribute,
    /// `element a { element b { empty } & element c { empty } }`
    Interleaved,
    /// `element r { element a { "x" } | element a { "x" | "y" } }`
    Ambiguous,
    /// `element a { attribute b { text }?, element b { text } }`
    Behind,
    /// `element a`, whose content is forty times the group of the content so far with itself, at first `element b { empty }`
    Doubled,
}

fn made(pool: &Pool, elements: &[Element]) -> Result<Vec<Element>, AllocError> {
    Ok(Vec::from_slice(pool.allocator(), elements)?)
}

fn optional(pool: &mut Pool) -> Result<Vec<Element>, AllocError> {
    let a = pool.reference(0)?;
    let empty = pool.empty();
    let content = pool.choice(a, empty)?;
    made(pool, &[("a", content)])
}

fn empty_text(pool: &mut Pool) -> Result<Vec<Element>, AllocError> {
    let content = pool.value(Kind::Token, "")?;
    made(pool, &[("a", content)])
}

/// `attribute b { text }`
fn text_in_b(pool: &mut Pool) -> Result<PatternId, AllocError> {
    let class = class(pool.allocator(), "b")?;
    let text = pool.any_text();
    pool.attribute(&class, text)
}

fn attribute(pool: &mut Pool) -> Result<Vec<Element>, AllocError> {
    let attribute = text_in_b(pool)?;
    let (attribute, empty) = (known(pool, attribute), pool.empty());
    let content = pool.choice(attribute, empty)?;
    made(pool, &[("a", content)])
}

fn interleaved(pool: &mut Pool) -> Result<Vec<Element>, AllocError> {
    let b = pool.reference(1)?;
    let c = pool.reference(2)?;
    let content = pool.interleave(b, c)?;
    let empty = pool.empty();
    made(pool, &[("a", content), ("b", empty), ("c", empty)])
}

/// `"x"`, and `"x" | "y"`.
fn values(pool: &mut Pool) -> Result<(PatternId, PatternId), AllocError> {
    let x = pool.value(Kind::Token, "x")?;
    let y = pool.value(Kind::Token, "y")?;
    let either = pool.choice(x, y)?;
    Ok((x, either))
}

fn ambiguous(pool: &mut Pool) -> Result<Vec<Element>, AllocError> {
    let (x, either) = values(pool)?;
    let first = pool.reference(1)?;
    let second = pool.reference(2)?;
    let content = pool.choice(first, second)?;
    made(pool, &[("r", content), ("a", x), ("a", either)])
}

fn behind(pool: &mut Pool) -> Result<Vec<Element>, AllocError> {
    let attribute = text_in_b(pool)?;
    let (attribute, empty) = (known(pool, attribute), pool.empty());
    let first = pool.choice(attribute, empty)?;
    let second = pool.reference(1)?;
    let (first, second) = (known(pool, first), known(pool, second));
    let content = pool.group(first, second)?;
    made(pool, &[("a", content), ("b", pool.any_text())])
}

fn doubled(pool: &mut Pool) -> Result<Vec<Element>, AllocError> {
    let mut content = pool.reference(1)?;
    for _ in 0..40 {
        let half = known(pool, content);
        content = pool.group(half, half)?;
    }
    made(pool, &[("a", content), ("b", pool.empty())])
}

/// The elements, whose contents are made.
fn elements(pool: &mut Pool, sample: Sample) -> Result<Vec<Element>, AllocError> {
    match sample {
        Sample::Optional => optional(pool),
        Sample::EmptyText => empty_text(pool),
        Sample::Attribute => attribute(pool),
        Sample::Interleaved => interleaved(pool),
        Sample::Ambiguous => ambiguous(pool),
        Sample::Behind => behind(pool),
        Sample::Doubled => doubled(pool),
    }
}

/// The start and the definitions, whose patterns are made.
fn parts(pool: &mut Pool, sample: Sample) -> Result<(PatternId, Definitions), Fail>
    ensures { IfOk result (λ r. IsSchema pool.new r.0.0 r.1) }
{
    let elements = elements(pool, sample)?;
    let start = pool.reference(0)?;
    let definitions = definitions(pool, start, elements.as_slice())?;
    Ok((start, definitions))
}

// Here and below what is let go is named: its proof is then a function's for each type, and doesn't stand in each of these.
fn schema(alloc: Global, sample: Sample) -> Result<Schema, Fail> {
    let mut pool = Pool::new(alloc)?;
    match parts(&mut pool, sample) {
        Ok((start, definitions)) => Ok(Schema::new(pool, start, definitions)),
        Err(fault) => {
            drop(pool);
            Err(fault)
        }
    }
}

/// The texts of the schema.
fn atoms(alloc: Global, schema: &Schema) -> Result<Atoms, AllocError> {
    let literals = schema.literals(alloc)?;
    Atoms::of(alloc, &literals, &TextList::new(alloc))
}

/// The names and texts of the schema.
fn lists(alloc: Global, schema: &Schema) -> Result<(Universe, Atoms), AllocError> {
    let universe = Universe::of(alloc, schema, 1)?;
    match atoms(alloc, schema) {
        Ok(atoms) => Ok((universe, atoms)),
        Err(fault) => {
            drop(universe);
            Err(fault)
        }
    }
}

/// The derivatives of the schema.
pub(crate) fn derivatives(alloc: Global, sample: Sample) -> Result<Derivatives, Fail> {
    let schema = schema(alloc, sample)?;
    match lists(alloc, &schema) {
        Ok((universe, atoms)) => Ok(Derivatives::new(schema, universe, atoms)),
        Err(fault) => {
            drop(schema);
            Err(Fail::from(fault))
        }
    }
}
