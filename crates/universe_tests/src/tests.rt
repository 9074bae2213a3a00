// Overlaps row by row, and the worked lists of names.
use name_classes::{Name, NameClass};
use name_universe::{Origin, Universe, overlap};
use pattern_intern::{Definitions, Pool, Schema};
use std::alloc::{AllocError, Global};
use std::test::Fail;
use text_atoms::Text;

fn text(alloc: Global, characters: &str) -> Result<Text, Fail> {
    Ok(Text::from_string(String::from_str(alloc, characters)?))
}

fn name(alloc: Global, ns: &str, local: &str) -> Result<Name, Fail> {
    Ok(Name::new(text(alloc, ns)?, text(alloc, local)?)?)
}

/// A class of the kind, with `a` as its name or in its except.
fn class(alloc: Global, kind: &str) -> Result<NameClass, Fail> {
    let named = NameClass::one(alloc, name(alloc, "", "a")?)?;
    Ok(match kind {
        "*" => NameClass::any(alloc)?,
        "* - a" => NameClass::any_except(named)?,
        "u:*" => NameClass::namespace(alloc, text(alloc, "u")?)?,
        "v:*" => NameClass::namespace(alloc, text(alloc, "v")?)?,
        "x" => NameClass::one(alloc, name(alloc, "", "x")?)?,
        _ => named,
    })
}

fn do_overlap(alloc: Global, left: &str, right: &str) -> Result<bool, Fail> {
    Ok(overlap(&class(alloc, left)?, &class(alloc, right)?))
}

/// The universe of a schema whose one element has this class, with one fresh name in each namespace.
#[tactic(auto, using(crate::proofs::Schemas::one_form))]
fn universe_of(alloc: Global, class: NameClass) -> Result<Universe, AllocError> {
    let pool = Pool::new(alloc)?;
    let content = pool.empty();
    let mut elements = Definitions::new(alloc);
    elements.push(class, content)?;
    let schema = Schema::new(pool, content, elements);
    Universe::of(alloc, &schema, 1)
}

/// The names for elements of one class, with one fresh name in each namespace.
fn names_of(alloc: Global, kind: &str) -> Result<Universe, Fail> {
    let class = class(alloc, kind)?;
    Ok(universe_of(alloc, class)?)
}

/// Whether the name for elements at the position is this one, of this origin.
fn is_at(names: &Universe, position: usize, name: &Name, origin: Origin) -> bool {
    position < names.elements().len()
        && names.elements().get(position) == name
        && names.element_origin(position) == origin
        && names.find_element(name) == Some(position)
}

#[test]
fn overlaps(rt: HostRuntime) -> Result<(), Fail> {
    let rows = [
        ("* - a", "a", false),
        ("* - a", "x", true),
        ("u:*", "v:*", false),
        ("u:*", "* - a", true),
        ("*", "*", true),
    ];
    for (left, right, overlaps) in rows {
        assert_eq!(rt; do_overlap(rt.alloc(), left, right)?, overlaps);
    }
    Ok(())
}

/// Whether the list of the class has this name at the position, of this origin.
fn has(
    alloc: Global,
    kind: &str,
    position: usize,
    ns: &str,
    local: &str,
    origin: Origin,
) -> Result<bool, Fail> {
    let names = names_of(alloc, kind)?;
    let name = name(alloc, ns, local)?;
    Ok(is_at(&names, position, &name, origin))
}

/// The position of what stands for the name in the list of `* - a`.
fn stands_at(alloc: Global, ns: &str, local: &str) -> Result<usize, Fail> {
    let names = names_of(alloc, "* - a")?;
    let name = name(alloc, ns, local)?;
    Ok(names.stands_for_element(&name))
}

#[test]
fn lists(rt: HostRuntime) -> Result<(), Fail> {
    let rows = [
        ("* - a", 0, "", "a", Origin::Mentioned),
        ("* - a", 1, "", "x", Origin::FreshLocal),
        ("* - a", 2, "urn:x", "x", Origin::FreshSpace),
        ("x", 1, "", "x1", Origin::FreshLocal),
    ];
    for (kind, position, ns, local, origin) in rows {
        let holds = has(rt.alloc(), kind, position, ns, local, origin)?;
        assert!(rt; holds);
    }
    Ok(())
}

#[test]
fn standing(rt: HostRuntime) -> Result<(), Fail> {
    let rows = [("", "b", 1), ("u", "a", 2)];
    for (ns, local, position) in rows {
        let at = stands_at(rt.alloc(), ns, local)?;
        assert!(rt; at == position);
    }
    Ok(())
}
