// Schemas over patterns that were made one by one: whether these may stand in a schema is found when the tests are run.
ghost use Rattle.std.specs.Prelude.{ℕ, ◌<◌, IfOk};
ghost use Rattle.std.specs.Bool.{OnTrue};
ghost use Rattle.rng_model.specs.Patterns.{HasNoAfter};
ghost use Rattle.pattern_intern.specs.Schemas.{AreRefsBelow, AreWithin, IsSchema};
ghost use Rattle.pattern_intern.specs.Stored.{count, tree_at};

use name_classes::{Name, NameClass};
use pattern_intern::{Definitions, Node, PatternId, Pool};
use std::alloc::{AllocError, Global};
use std::test::Fail;
use text_atoms::Text;

/// The name of an element, and the pattern of its content.
pub(crate) type Element = (&'static str, PatternId);

/// The class of one name without namespace, or of any name where it is none.
pub(crate) fn class(alloc: Global, local: &str) -> Result<NameClass, AllocError> {
    let local = Text::from_string(String::from_str(alloc, local)?);
    match Name::new(Text::from_string(String::new(alloc)), local) {
        Ok(name) => NameClass::one(alloc, name),
        Err(_) => NameClass::any(alloc),
    }
}

/// The pattern, or empty where it is none of the pool.
pub(crate) fn known(pool: &Pool, id: PatternId) -> PatternId
    ensures { result.0 < count pool.now }
{
    if id.0 < pool.len() { id } else { pool.empty() }
}

/// Whether all patterns of the pool may stand in a schema of so many elements.
fn are_simple(pool: &Pool, elements: usize) -> bool
    ensures form { OnTrue result ((id : ℕ) → id < count pool.now → HasNoAfter (tree_at pool.now id)) }
    ensures refs { OnTrue result (AreRefsBelow elements pool.now) }
{
    for id in 0..pool.len() {
        match pool.node(PatternId(id)) {
            Node::After(_, _) => return false,
            Node::Ref(element) if element >= elements => return false,
            _ => {}
        }
    }
    true
}

/// The definitions of elements.
fn define(pool: &Pool, elements: &[Element]) -> Result<Definitions, AllocError>
    ensures { IfOk result (λ d. AreWithin pool.now d) }
{
    let mut definitions = Definitions::new(pool.allocator());
    for (name, content) in elements {
        let content = known(pool, *content);
        definitions.push(class(pool.allocator(), *name)?, content)?;
    }
    Ok(definitions)
}

/// The definitions of elements, for a schema that starts with the pattern. It fails where a pattern of the pool may not stand in it.
#[tactic(auto, using(crate::proofs::Simple::schema_form))]
pub(crate) fn definitions(
    pool: &Pool,
    start: PatternId,
    elements: &[Element],
) -> Result<Definitions, Fail>
    requires { start.0 < count pool.now }
    ensures { IfOk result (λ d. IsSchema pool.now start.0 d) }
{
    let definitions = define(pool, elements)?;
    if are_simple(pool, definitions.len()) {
        Ok(definitions)
    } else {
        Err(Fail::new("no schema"))
    }
}
