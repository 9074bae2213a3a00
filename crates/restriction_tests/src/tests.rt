// One schema for each rule, what the rules don't forbid, and parts that are shared.
ghost use Rattle.std.specs.Prelude.{ℕ, ◌<◌, IfOk};
ghost use Rattle.std.specs.Bool.{OnTrue};
ghost use Rattle.rng_model.specs.Patterns.{HasNoAfter};
ghost use Rattle.pattern_intern.specs.Schemas.{AreRefsBelow, AreWithin};
ghost use Rattle.pattern_intern.specs.Stored.{count, tree_at};

use name_classes::{Name, NameClass};
use pattern_intern::{Definitions, Node, PatternId, Pool, Schema};
use restrictions::broken;
use std::alloc::Global;
use std::test::Fail;
use text_atoms::{Kind, Text};

/// A constructor's call, its parts by their places among what is made: notAllowed, empty, text, a reference to the first element, and
/// then a pattern for each call.
#[derive(Clone, Copy)]
enum Call {
    Ref(usize),
    Value(&'static str),
    Except(usize),
    Attribute(&'static str, usize),
    OneOrMore(usize),
    Choice(usize, usize),
    Group(usize, usize),
    Interleave(usize, usize),
}

use Call::{Attribute, Choice, Except, Group, Interleave, OneOrMore, Ref, Value};

fn text(alloc: Global, characters: &str) -> Result<Text, Fail> {
    Ok(Text::from_string(String::from_str(alloc, characters)?))
}

/// The class of any name, or of one name without namespace.
fn class(alloc: Global, name: &str) -> Result<NameClass, Fail> {
    Ok(match name {
        "*" => NameClass::any(alloc)?,
        _ => NameClass::one(alloc, Name::new(text(alloc, "")?, text(alloc, name)?)?)?,
    })
}

/// The pattern made at a place, or empty where there is none.
fn part(pool: &Pool, made: &[PatternId], place: usize) -> PatternId
    ensures { result.0 < count pool.now }
{
    match made.get(place) {
        Some(id) if id.0 < pool.len() => *id,
        _ => pool.empty(),
    }
}

/// What the call makes.
fn make(alloc: Global, pool: &mut Pool, made: &[PatternId], call: Call) -> Result<PatternId, Fail> {
    match call {
        Ref(element) => Ok(pool.reference(element)?),
        Value(characters) => Ok(pool.value(Kind::Token, characters)?),
        Except(except) => {
            let except = part(pool, made, except);
            Ok(pool.data_type(Kind::Token, Some(except))?)
        }
        Attribute(name, content) => {
            let class = class(alloc, name)?;
            let content = part(pool, made, content);
            Ok(pool.attribute(&class, content)?)
        }
        OneOrMore(repeated) => {
            let repeated = part(pool, made, repeated);
            Ok(pool.one_or_more(repeated)?)
        }
        Choice(left, right) => {
            let (left, right) = (part(pool, made, left), part(pool, made, right));
            Ok(pool.choice(left, right)?)
        }
        Group(left, right) => {
            let (left, right) = (part(pool, made, left), part(pool, made, right));
            Ok(pool.group(left, right)?)
        }
        Interleave(left, right) => {
            let (left, right) = (part(pool, made, left), part(pool, made, right));
            Ok(pool.interleave(left, right)?)
        }
    }
}

/// What the calls make, one after the other.
fn make_all(alloc: Global, pool: &mut Pool, calls: &[Call]) -> Result<Vec<PatternId>, Fail> {
    let mut made = Vec::new(alloc);
    made.push(pool.not_allowed())?;
    made.push(pool.empty())?;
    made.push(pool.any_text())?;
    made.push(pool.reference(0)?)?;
    for call in calls {
        let id = make(alloc, pool, made.as_slice(), *call)?;
        made.push(id)?;
    }
    Ok(made)
}

/// Whether all patterns of the pool may stand in a schema of so many elements.
fn are_simple(pool: &Pool, elements: usize) -> bool
    ensures form { OnTrue result ((id : ℕ) → id < count pool.now → HasNoAfter (tree_at pool.now id)) }
    ensures refs { OnTrue result (AreRefsBelow elements pool.now) }
{
    for id in 0..pool.len() {
        match pool.node(PatternId(id)) {
            Node::After(_, _) => return false,
            Node::Ref(element) if element >= elements => return false,
            _ => {}
        }
    }
    true
}

/// The definitions of elements with these classes and with the patterns at these places.
fn define(
    alloc: Global,
    pool: &Pool,
    made: &[PatternId],
    elements: &[(&'static str, usize)],
) -> Result<Definitions, Fail>
    ensures within { IfOk result (λ d. AreWithin pool.now d) }
{
    let mut definitions = Definitions::new(alloc);
    for (name, content) in elements {
        let class = class(alloc, name)?;
        definitions.push(class, part(pool, made, *content))?;
    }
    Ok(definitions)
}

/// The number of the least rule that the schema breaks, 0 for none.
fn rule(alloc: Global, schema: &Schema) -> Result<u8, Fail> {
    Ok(match broken(alloc, schema)? {
        Some(rule) => rule.number(),
        None => 0,
    })
}

/// The number of the least rule that the start and the definitions break, 0 for none, 99 where they are no schema.
#[tactic(auto, using(crate::proofs::Simple::schema_form))]
fn rule_of(
    alloc: Global,
    pool: Pool,
    start: PatternId,
    definitions: Definitions,
) -> Result<u8, Fail>
    requires start { start.0 < count pool }
    requires contents { AreWithin pool definitions }
{
    if !are_simple(&pool, definitions.len()) {
        return Ok(99);
    }
    rule(alloc, &Schema::new(pool, start, definitions))
}

/// The same of what the calls make, of the start and the elements at these places.
fn rule_of_calls(
    alloc: Global,
    calls: &[Call],
    start: usize,
    elements: &[(&'static str, usize)],
) -> Result<u8, Fail> {
    let mut pool = Pool::new(alloc)?;
    let made = make_all(alloc, &mut pool, calls)?;
    let definitions = define(alloc, &pool, made.as_slice(), elements)?;
    let start = part(&pool, made.as_slice(), start);
    rule_of(alloc, pool, start, definitions)
}

/// An element, and forty times a group of what was made before with itself.
const DOUBLED: [Call; 41] = [
    Ref(1),
    Group(4, 4),
    Group(5, 5),
    Group(6, 6),
    Group(7, 7),
    Group(8, 8),
    Group(9, 9),
    Group(10, 10),
    Group(11, 11),
    Group(12, 12),
    Group(13, 13),
    Group(14, 14),
    Group(15, 15),
    Group(16, 16),
    Group(17, 17),
    Group(18, 18),
    Group(19, 19),
    Group(20, 20),
    Group(21, 21),
    Group(22, 22),
    Group(23, 23),
    Group(24, 24),
    Group(25, 25),
    Group(26, 26),
    Group(27, 27),
    Group(28, 28),
    Group(29, 29),
    Group(30, 30),
    Group(31, 31),
    Group(32, 32),
    Group(33, 33),
    Group(34, 34),
    Group(35, 35),
    Group(36, 36),
    Group(37, 37),
    Group(38, 38),
    Group(39, 39),
    Group(40, 40),
    Group(41, 41),
    Group(42, 42),
    Group(43, 43),
];

#[test]
fn each_rule(rt: HostRuntime) -> Result<(), Fail> {
    let rows: [(u8, &[Call], usize, &[(&'static str, usize)]); 25] = [
        (0, &[], 3, &[("a", 1)]),
        (1, &[Ref(1), Attribute("b", 4)], 3, &[("a", 5), ("c", 1)]),
        (2, &[Attribute("c", 2), Attribute("b", 4)], 3, &[("a", 5)]),
        (
            3,
            &[
                Attribute("b", 2),
                Attribute("c", 2),
                Group(4, 5),
                OneOrMore(6),
            ],
            3,
            &[("a", 7)],
        ),
        (
            4,
            &[
                Attribute("b", 2),
                Attribute("c", 2),
                Interleave(4, 5),
                OneOrMore(6),
            ],
            3,
            &[("a", 7)],
        ),
        (5, &[Except(2)], 3, &[("a", 4)]),
        (6, &[Choice(3, 1)], 4, &[("a", 1)]),
        (
            7,
            &[Value("x"), Ref(1), Group(4, 5)],
            3,
            &[("a", 6), ("b", 1)],
        ),
        (8, &[Attribute("b", 2), Group(4, 4)], 3, &[("a", 5)]),
        (9, &[Attribute("*", 2)], 3, &[("a", 4)]),
        (
            10,
            &[Ref(1), Ref(2), Interleave(4, 5)],
            3,
            &[("a", 6), ("b", 1), ("b", 2)],
        ),
        (11, &[Interleave(2, 2)], 3, &[("a", 4)]),
        // Any name inside oneOrMore, and beside another attribute.
        (0, &[Attribute("*", 2), OneOrMore(4)], 3, &[("a", 5)]),
        (
            8,
            &[
                Attribute("*", 2),
                OneOrMore(4),
                Attribute("b", 2),
                Group(5, 6),
            ],
            3,
            &[("a", 7)],
        ),
        // One attribute or the other of the same name.
        (
            0,
            &[Attribute("b", 2), Attribute("b", 1), Choice(4, 5)],
            3,
            &[("a", 6)],
        ),
        // What stands in the content of an element doesn't meet what stands beside it.
        (
            0,
            &[Ref(1), Ref(2), Interleave(4, 5)],
            3,
            &[("a", 6), ("b", 5), ("c", 1)],
        ),
        // One element twice in a group, and in an interleave.
        (0, &[Ref(1), Group(4, 4)], 3, &[("a", 5), ("b", 1)]),
        (10, &[Ref(1), Interleave(4, 4)], 3, &[("a", 5), ("b", 1)]),
        // Text inside an attribute doesn't meet text beside it, but twice inside one it does.
        (0, &[Attribute("b", 2), Interleave(2, 4)], 3, &[("a", 5)]),
        (11, &[Interleave(2, 2), Attribute("b", 4)], 3, &[("a", 5)]),
        // A choice has the greatest type of its members.
        (
            7,
            &[Value("x"), Choice(4, 1), Ref(1), Group(5, 6)],
            3,
            &[("a", 7), ("b", 1)],
        ),
        (
            0,
            &[Value("x"), Ref(1), Choice(4, 5)],
            3,
            &[("a", 6), ("b", 1)],
        ),
        // The least of several rules.
        (
            2,
            &[Attribute("*", 2), Attribute("b", 4), Group(5, 5)],
            3,
            &[("a", 6)],
        ),
        // A content of 2^40 references to one element.
        (0, &DOUBLED, 3, &[("a", 44), ("b", 1)]),
        // A content that is notAllowed has no type, and breaks no rule.
        (0, &[], 3, &[("a", 0)]),
    ];
    for (number, calls, start, elements) in rows {
        let found = rule_of_calls(rt.alloc(), calls, start, elements)?;
        assert_eq!(rt; found, number);
    }
    Ok(())
}
