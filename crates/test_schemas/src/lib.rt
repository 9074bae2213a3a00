//! Schemas over patterns that were made one by one, for the crates of tests: whether these may stand in a schema is found when the tests
//! are run.
#![tactic(auto)]

ghost use Rattle.std.specs.Prelude.{ℕ, ◌<◌, IfOk};
ghost use Rattle.std.specs.Bool.{OnTrue};
ghost use Rattle.rng_model.specs.Patterns.{HasNoAfter};
ghost use Rattle.pattern_intern.specs.Schemas.{AreRefsBelow, AreWithin};
ghost use Rattle.pattern_intern.specs.Stored.{count, tree_at};

use name_classes::{Name, NameClass};
use pattern_intern::{Definitions, Node, PatternId, Pool, Schema};
use std::alloc::{AllocError, Global};
use text_atoms::Text;

/// The class of one name without namespace, or of any name where it is none.
pub fn class(alloc: Global, local: &str) -> Result<NameClass, AllocError> {
    let local = Text::from_string(String::from_str(alloc, local)?);
    match Name::new(Text::from_string(String::new(alloc)), local) {
        Ok(name) => NameClass::one(alloc, name),
        Err(_) => NameClass::any(alloc),
    }
}

/// The pattern, or empty where it is none of the pool.
pub fn known(pool: &Pool, id: PatternId) -> PatternId
    ensures { result.0 < count pool.now }
{
    if id.0 < pool.len() { id } else { pool.empty() }
}

/// The definitions of elements, by the names and the patterns of their contents.
pub fn define(pool: &Pool, elements: &[(&str, PatternId)]) -> Result<Definitions, AllocError>
    ensures { IfOk result (λ d. AreWithin pool.now d) }
{
    let mut definitions = Definitions::new(pool.allocator());
    for (name, content) in elements {
        let content = known(pool, *content);
        definitions.push(class(pool.allocator(), *name)?, content)?;
    }
    Ok(definitions)
}

/// Whether all patterns of the pool may stand in a schema of so many elements.
fn are_simple(pool: &Pool, elements: usize) -> bool
    ensures form { OnTrue result ((id : ℕ) → id < count pool.now → HasNoAfter (tree_at pool.now id)) }
    ensures refs { OnTrue result (AreRefsBelow elements pool.now) }
{
    for id in 0..pool.len() {
        match pool.node(PatternId(id)) {
            Node::After(_, _) => return false,
            Node::Ref(element) if element >= elements => return false,
            _ => {}
        }
    }
    true
}

/// The schema of the start and the definitions, none where a pattern of the pool may not stand in it.
#[tactic(auto, using(crate::proofs::Simple::schema_form))]
pub fn schema(pool: Pool, start: PatternId, elements: Definitions) -> Option<Schema>
    requires start { start.0 < count pool }
    requires contents { AreWithin pool elements }
{
    if are_simple(&pool, elements.len()) {
        Some(Schema::new(pool, start, elements))
    } else {
        drop(elements);
        drop(pool);
        None
    }
}

/// The schema whose start is empty, and whose one element has this class and is empty.
pub fn one_element(alloc: Global, class: NameClass) -> Result<Option<Schema>, AllocError> {
    let mut elements = Definitions::new(alloc);
    let pool = Pool::new(alloc)?;
    let content = pool.empty();
    match elements.push(class, content) {
        Ok(()) => Ok(schema(pool, content, elements)),
        Err(fault) => {
            drop(elements);
            drop(pool);
            Err(fault)
        }
    }
}
