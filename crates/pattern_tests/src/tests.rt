// The rows of the constructors, and each call once on its happy path.
ghost use Rattle.std.specs.Prelude.{ℕ, ◌<◌, IfOk};
ghost use Rattle.rng_model.specs.Patterns.{HasNoAfter};
ghost use Rattle.pattern_intern.specs.Schemas.{AreRefsBelow};
ghost use Rattle.pattern_intern.specs.Stored.{Extends, count, tree_at};

use name_classes::NameClass;
use pattern_intern::{ContentType, Definitions, Node, PatternId, Pool, Schema};
use std::alloc::{AllocError, Global};
use text_atoms::Kind;

/// A constructor's call, its parts by their places among what is made: notAllowed, empty, text, and then a pattern for each call.
#[derive(Clone, Copy)]
enum Call {
    Reference(usize),
    Value(Kind, &'static str),
    Data(Kind),
    DataExcept(Kind, usize),
    Attribute(usize),
    OneOrMore(usize),
    Choice(usize, usize),
    Group(usize, usize),
    Interleave(usize, usize),
    After(usize, usize),
}

/// The pattern made at a place, or empty where there is none.
fn part(pool: &Pool, made: &[PatternId], place: usize) -> PatternId
    ensures { result.0 < count pool.now }
{
    match made.get(place) {
        Some(id) if id.0 < pool.len() => *id,
        _ => pool.empty(),
    }
}

/// What the call makes.
fn make(pool: &mut Pool, made: &[PatternId], call: Call) -> Result<PatternId, AllocError> {
    match call {
        Call::Reference(element) => pool.reference(element),
        Call::Value(kind, text) => pool.value(kind, text),
        Call::Data(kind) => pool.data_type(kind, None),
        Call::DataExcept(kind, except) => {
            let except = part(pool, made, except);
            pool.data_type(kind, Some(except))
        }
        Call::Attribute(content) => {
            let content = part(pool, made, content);
            let class = NameClass::any(pool.allocator())?;
            pool.attribute(&class, content)
        }
        Call::OneOrMore(repeated) => {
            let repeated = part(pool, made, repeated);
            pool.one_or_more(repeated)
        }
        Call::Choice(left, right) => {
            let (left, right) = (part(pool, made, left), part(pool, made, right));
            pool.choice(left, right)
        }
        Call::Group(left, right) => {
            let (left, right) = (part(pool, made, left), part(pool, made, right));
            pool.group(left, right)
        }
        Call::Interleave(left, right) => {
            let (left, right) = (part(pool, made, left), part(pool, made, right));
            pool.interleave(left, right)
        }
        Call::After(left, right) => {
            let (left, right) = (part(pool, made, left), part(pool, made, right));
            pool.after(left, right)
        }
    }
}

/// What the calls make, one after the other.
fn make_all(alloc: Global, pool: &mut Pool, calls: &[Call]) -> Result<Vec<PatternId>, AllocError> {
    let mut made = Vec::new(alloc);
    made.push(pool.not_allowed())?;
    made.push(pool.empty())?;
    made.push(pool.any_text())?;
    for call in calls {
        let id = make(pool, made.as_slice(), *call)?;
        made.push(id)?;
    }
    Ok(made)
}

/// Whether each pair of places has one number.
fn are_one(pool: &Pool, made: &[PatternId], pairs: &[(usize, usize)]) -> bool {
    for (left, right) in pairs {
        if part(pool, made, *left) != part(pool, made, *right) {
            return false;
        }
    }
    true
}

/// Whether the patterns are made in their order.
fn ascend(pool: &Pool, made: &[PatternId]) -> bool {
    for next in 1..made.len() {
        let (left, right) = (part(pool, made, next - 1), part(pool, made, next));
        if !pool.compare(left, right).is_lt() {
            return false;
        }
    }
    true
}

#[test]
fn takes_away(rt: HostRuntime) -> Result<(), AllocError> {
    let mut pool = Pool::new(rt.alloc())?;
    let calls = [
        Call::Choice(1, 1),
        Call::Group(1, 2),
        Call::Group(2, 1),
        Call::Interleave(0, 2),
        Call::OneOrMore(0),
        Call::After(2, 0),
        Call::Attribute(0),
    ];
    let made = make_all(rt.alloc(), &mut pool, &calls)?;
    let pairs = [(3, 1), (4, 2), (5, 2), (6, 0), (7, 0), (8, 0), (9, 0)];
    assert!(rt; are_one(&pool, made.as_slice(), &pairs));
    assert!(rt; pool.len() == 3);
    Ok(())
}

#[test]
fn one_number(rt: HostRuntime) -> Result<(), AllocError> {
    let mut pool = Pool::new(rt.alloc())?;
    let calls = [
        Call::Reference(7),
        Call::Reference(7),
        Call::Value(Kind::Token, "a"),
        Call::Value(Kind::Token, "a"),
        Call::DataExcept(Kind::Token, 5),
        Call::DataExcept(Kind::Token, 6),
        Call::Attribute(2),
        Call::Attribute(2),
        Call::OneOrMore(9),
        Call::OneOrMore(10),
        Call::Group(2, 3),
        Call::Group(2, 4),
        Call::Interleave(2, 3),
        Call::Interleave(2, 4),
        Call::After(2, 3),
        Call::After(2, 4),
    ];
    let made = make_all(rt.alloc(), &mut pool, &calls)?;
    let pairs = [
        (3, 4),
        (5, 6),
        (7, 8),
        (9, 10),
        (11, 12),
        (13, 14),
        (15, 16),
        (17, 18),
    ];
    assert!(rt; are_one(&pool, made.as_slice(), &pairs));
    assert!(rt; pool.len() == 11);
    Ok(())
}

#[test]
fn choices(rt: HostRuntime) -> Result<(), AllocError> {
    let mut pool = Pool::new(rt.alloc())?;
    let calls = [
        Call::Reference(0),
        Call::Choice(2, 3),
        Call::Choice(1, 4),
        Call::Choice(2, 1),
        Call::Choice(3, 6),
        Call::Choice(5, 4),
    ];
    let made = make_all(rt.alloc(), &mut pool, &calls)?;
    assert!(rt; are_one(&pool, made.as_slice(), &[(5, 7), (5, 8)]));
    assert!(rt; pool.len() == 7);
    Ok(())
}

/// The choice of the patterns made at four places.
fn choice_of_four(
    pool: &mut Pool,
    made: &[PatternId],
    places: [usize; 4],
) -> Result<PatternId, AllocError> {
    let a = part(pool, made, places[0]);
    let b = part(pool, made, places[1]);
    let c = part(pool, made, places[2]);
    let d = part(pool, made, places[3]);
    pool.choice_of_all(&[a, b, c, d])
}

/// Whether each choice of four is the pattern made at a place.
fn are_choices(
    pool: &mut Pool,
    made: &[PatternId],
    rows: &[([usize; 4], usize)],
) -> Result<bool, AllocError> {
    for (places, whole) in rows {
        if choice_of_four(pool, made, *places)? != part(pool, made, *whole) {
            return Ok(false);
        }
    }
    Ok(true)
}

#[test]
fn choices_of_many(rt: HostRuntime) -> Result<(), AllocError> {
    let mut pool = Pool::new(rt.alloc())?;
    let calls = [
        Call::Reference(0),
        Call::Choice(2, 3),
        Call::Choice(1, 4),
        Call::Choice(1, 2),
    ];
    let made = make_all(rt.alloc(), &mut pool, &calls)?;
    let rows = [
        ([3, 1, 2, 1], 5),
        ([4, 0, 1, 3], 5),
        ([6, 4, 6, 5], 5),
        ([2, 3, 3, 2], 4),
        ([2, 2, 0, 2], 2),
        ([0, 0, 0, 0], 0),
    ];
    assert!(rt; are_choices(&mut pool, made.as_slice(), &rows)?);
    assert!(rt; pool.len() == 7);
    Ok(())
}

#[test]
fn order(rt: HostRuntime) -> Result<(), AllocError> {
    let mut pool = Pool::new(rt.alloc())?;
    let calls = [
        Call::Reference(9),
        Call::Reference(10),
        Call::Value(Kind::Str, "b"),
        Call::Value(Kind::Token, "a"),
        Call::Data(Kind::Str),
        Call::DataExcept(Kind::Str, 5),
        Call::Data(Kind::Nmtoken),
        Call::Attribute(1),
        Call::Attribute(2),
        Call::OneOrMore(2),
        Call::Choice(1, 2),
        Call::Choice(13, 9),
        Call::Group(2, 2),
        Call::Interleave(2, 2),
        Call::After(1, 1),
    ];
    let made = make_all(rt.alloc(), &mut pool, &calls)?;
    assert!(rt; ascend(&pool, made.as_slice()));
    Ok(())
}

#[test]
fn doubled(rt: HostRuntime) -> Result<(), AllocError> {
    let mut pool = Pool::new(rt.alloc())?;
    let mut content = pool.reference(1)?;
    for _ in 0..40 {
        let half = part(&pool, &[content], 0);
        content = pool.group(half, half)?;
    }
    let content = part(&pool, &[content], 0);
    assert!(rt; pool.len() == 44);
    assert!(rt; pool.depth(content) == 41);
    Ok(())
}

#[test]
fn descriptions(rt: HostRuntime) -> Result<(), AllocError> {
    let mut pool = Pool::new(rt.alloc())?;
    let text = pool.any_text();
    let reference = pool.reference(0)?;
    let group = pool.group(text, reference)?;
    assert!(rt; !pool.nullable(group));
    assert!(rt; pool.depth(group) == 2);
    assert!(rt; matches!(pool.content_type(group), Some(ContentType::Complex)));
    assert!(rt; matches!(pool.node(reference), Node::Ref(0)));
    Ok(())
}

/// A number that isn't 7.
fn number(pool: &mut Pool) -> Result<PatternId, AllocError>
    ensures within { IfOk result (λ id. id.0 < count pool.new) }
    ensures form { IfOk result (λ id. HasNoAfter (tree_at pool.new id.0)) }
    ensures kept { Extends pool.old pool.new }
    ensures refs { (n : ℕ) → AreRefsBelow n pool.old → AreRefsBelow n pool.new }
{
    let seven = pool.value(Kind::Integer, "7")?;
    pool.data_type(Kind::Positive, Some(seven))
}

/// Elements with any name, whose contents are numbers that aren't 7.
#[tactic(auto, using(crate::proofs::Schemas::one_form))]
fn one_element(alloc: Global) -> Result<Schema, AllocError> {
    let mut pool = Pool::new(alloc)?;
    let content = number(&mut pool)?;
    let start = pool.reference(0)?;
    let mut elements = Definitions::new(alloc);
    let class = NameClass::any(alloc)?;
    elements.push(class, content)?;
    Ok(Schema::new(pool, start, elements))
}

#[test]
fn schema(rt: HostRuntime) -> Result<(), AllocError> {
    let mut schema = one_element(rt.alloc())?;
    assert!(rt; schema.element_count() == 1);
    let literals = schema.literals(schema.allocator())?;
    assert!(rt; literals.has_kind(Kind::Positive) && literals.has_kind(Kind::Integer));
    assert!(rt; !literals.has_kind(Kind::Token) && !literals.has_empty());
    let start = schema.start();
    let repeated = schema.one_or_more(start)?;
    assert!(rt; schema.pool().compare(start, repeated).is_lt());
    Ok(())
}
