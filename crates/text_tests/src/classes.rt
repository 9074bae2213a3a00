// Each call once on its happy path, and the order of classes row by row.
use name_classes::{Name, NameClass};
use std::alloc::Global;
use std::cmp::Ordering;
use std::test::Fail;
use text_atoms::Text;

fn text(alloc: Global, characters: &str) -> Result<Text, Fail> {
    Ok(Text::from_string(String::from_str(alloc, characters)?))
}

fn name(alloc: Global, ns: &str, local: &str) -> Result<Name, Fail> {
    Ok(Name::new(text(alloc, ns)?, text(alloc, local)?)?)
}

fn one(alloc: Global, ns: &str, local: &str) -> Result<NameClass, Fail> {
    Ok(NameClass::one(alloc, name(alloc, ns, local)?)?)
}

/// A class of the kind: with the name in its except, or with the name beside any other.
fn class(alloc: Global, kind: &str, ns: &str, local: &str) -> Result<NameClass, Fail> {
    Ok(match kind {
        "any" => NameClass::any(alloc)?,
        "any except" => NameClass::any_except(one(alloc, ns, local)?)?,
        "namespace" => NameClass::namespace(alloc, text(alloc, ns)?)?,
        "namespace except" => space_except(alloc, ns, local)?,
        "one" => one(alloc, ns, local)?,
        _ => NameClass::choice(one(alloc, ns, local)?, NameClass::any(alloc)?)?,
    })
}

/// The namespace but for one name.
fn space_except(alloc: Global, ns: &str, local: &str) -> Result<NameClass, Fail> {
    let space = text(alloc, ns)?;
    Ok(NameClass::namespace_except(space, one(alloc, ns, local)?)?)
}

/// Whether the local name is taken.
fn is_taken(alloc: Global, local: &str) -> Result<bool, Fail> {
    Ok(Name::new(text(alloc, "u")?, text(alloc, local)?).is_ok())
}

#[test]
fn local_names(rt: HostRuntime) -> Result<(), Fail> {
    for (local, taken) in [("1a", false), ("a:b", false), ("", false), ("a", true)] {
        assert!(rt; is_taken(rt.alloc(), local)? == taken);
    }
    Ok(())
}

/// Whether a name and a copy of another are ordered so.
fn are_names_so(
    alloc: Global,
    left: (&str, &str),
    right: (&str, &str),
    order: Ordering,
) -> Result<bool, Fail> {
    let left = name(alloc, left.0, left.1)?;
    let right = name(alloc, right.0, right.1)?;
    Ok(left.cmp(&right.copy(alloc)?) == order)
}

#[test]
fn order_of_names(rt: HostRuntime) -> Result<(), Fail> {
    let rows = [
        (("u", "a"), ("u", "a"), Ordering::Equal),
        (("u", "b"), ("v", "a"), Ordering::Less),
    ];
    for (left, right, order) in rows {
        assert!(rt; are_names_so(rt.alloc(), left, right, order)?);
    }
    Ok(())
}

/// The classes of these kinds, each with its name.
fn classes_of(alloc: Global, rows: &[(&str, &str, &str)]) -> Result<Vec<NameClass>, Fail> {
    let mut classes = Vec::new(alloc);
    for (kind, ns, local) in rows {
        classes.push(class(alloc, kind, ns, local)?)?;
    }
    Ok(classes)
}

/// Copies of the classes.
fn copies_of(alloc: Global, classes: &[NameClass]) -> Result<Vec<NameClass>, Fail> {
    let mut copies = Vec::new(alloc);
    for class in classes {
        copies.push(class.copy(alloc)?)?;
    }
    Ok(copies)
}

/// Whether the class stands at this place among the ascending ones.
fn stands_at(place: usize, class: &NameClass, ascending: &[NameClass]) -> bool {
    ascending
        .iter()
        .enumerate()
        .all(|(i, other)| class.compare(other) == place.cmp(&i))
}

#[test]
fn order_of_classes(rt: HostRuntime) -> Result<(), Fail> {
    let ascending = [
        ("any", "u", "a"),
        ("any except", "u", "b"),
        ("namespace", "u", "a"),
        ("namespace except", "u", "a"),
        ("namespace except", "u", "b"),
        ("namespace", "v", "a"),
        ("one", "u", "b"),
        ("one", "v", "a"),
        ("choice", "u", "a"),
        ("choice", "u", "b"),
    ];
    let classes = classes_of(rt.alloc(), &ascending)?;
    let copies = copies_of(rt.alloc(), classes.as_slice())?;
    for (place, class) in classes.iter().enumerate() {
        assert!(rt; stands_at(place, class, copies.as_slice()));
    }
    Ok(())
}

/// Whether the name is in the namespace u but for one name, which is an infinite class.
fn is_member(alloc: Global, ns: &str, local: &str) -> Result<bool, Fail> {
    let class = class(alloc, "namespace except", "u", "a")?;
    Ok(class.is_infinite() && class.contains(&name(alloc, ns, local)?))
}

#[test]
fn members(rt: HostRuntime) -> Result<(), Fail> {
    for (ns, local, is_in) in [("u", "a", false), ("u", "b", true), ("v", "b", false)] {
        assert!(rt; is_member(rt.alloc(), ns, local)? == is_in);
    }
    Ok(())
}

/// The choice of the names, nested to the left.
fn choice(alloc: Global, locals: &[&str]) -> Result<Option<NameClass>, Fail> {
    let mut members = Vec::new(alloc);
    for local in locals {
        members.push(one(alloc, "u", local)?)?;
    }
    Ok(NameClass::choice_of(alloc, members)?)
}

/// How many parts the choice has, and whether the name is in it.
fn choice_has(alloc: Global, locals: &[&str], local: &str) -> Result<Option<(usize, bool)>, Fail> {
    let name = name(alloc, "u", local)?;
    Ok(choice(alloc, locals)?.map(|class| (class.parts().len(), class.contains(&name))))
}

#[test]
fn choices(rt: HostRuntime) -> Result<(), Fail> {
    let none: &[&str] = &[];
    let all: &[&str] = &["a", "b", "c"];
    let rows = [
        (none, "a", None),
        (["a"].as_slice(), "b", Some((1, false))),
        (all, "a", Some((5, true))),
        (all, "c", Some((5, true))),
        (all, "d", Some((5, false))),
    ];
    for (locals, local, wanted) in rows {
        assert!(rt; choice_has(rt.alloc(), locals, local)? == wanted);
    }
    Ok(())
}
