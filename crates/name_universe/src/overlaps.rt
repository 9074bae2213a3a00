// Whether two name classes overlap.
ghost use Rattle.std.specs.Prelude.{◌≡◌, ◌↔◌, ◌++◌, true, IsUtf8};
ghost use Rattle.std.specs.List.{list_any};
ghost use Rattle.rng_model.specs.Names.{IsName};
ghost use Rattle.rng_model.specs.Classes.{Overlap};
ghost use Rattle.name_classes.specs.Views.{class_of};
ghost use Rattle.universe_laws.specs.Overlaps.{names_in, spaces_in, fresh_in, fresh_in_both, stranger_in, in_both, overlaps};
ghost use Rattle.name_universe.specs.Named.{IsNamed};
ghost use Rattle.name_universe.specs.PartNames.{part_names, part_spaces, IsNamedPart};

use name_classes::{Name, NameClass, Part, Sample};
use text_atoms::Text;

// A name is one.
pub(crate) fn is_name(name: &Name)
    ensures { IsName name.now }
{
    let _ = name.local();
}

// A text is one.
pub(crate) fn is_text(text: &Text)
    ensures { IsUtf8 text.now }
{
    let _ = text.as_str();
}

// What stands in the part is a name or a text.
fn is_named_part(part: &Part)
    ensures { IsNamedPart part.now }
{
    match part {
        Part::Any { .. } | Part::Choice => {}
        Part::Namespace { ns, .. } => is_text(ns),
        Part::One(name) => is_name(name),
    }
}

// What stands in the class are names and texts.
fn is_named(class: &NameClass)
    ensures { IsNamed (class_of class.now) }
{
    for part in class.parts() {
        is_named_part(part);
    }
}

// Whether the names of the namespace that don't stand in the class are in it.
#[tactic(auto, using(crate::proofs::ClassParts::of_fresh))]
fn has_fresh(class: &NameClass, ns: &Text) -> bool
    ensures { result ≡ fresh_in ns.now (class_of class.now) }
{
    class.takes(Sample::Fresh(ns))
}

// Whether the names are in the class whose namespace doesn't stand in it.
#[tactic(auto, using(crate::proofs::ClassParts::of_strangers))]
fn has_strangers(class: &NameClass) -> bool
    ensures { result ≡ stranger_in (class_of class.now) }
{
    class.takes(Sample::Stranger)
}

// Whether the name in the part is in both.
fn is_common_name(part: &Part, a: &NameClass, b: &NameClass) -> bool
    ensures { result ≡ list_any (in_both (class_of a.now) (class_of b.now)) (part_names part.now) }
{
    match part {
        Part::One(name) => a.contains(name) && b.contains(name),
        Part::Any { .. } | Part::Namespace { .. } | Part::Choice => false,
    }
}

// Whether a name that stands in one of the parts is in both.
fn parts_name_a_common(parts: &[Part], a: &NameClass, b: &NameClass) -> bool
    ensures { result ≡ list_any (λ p. list_any (in_both (class_of a.now) (class_of b.now)) (part_names p)) parts.now }
{
    parts.iter().any(|part| is_common_name(part, a, b))
}

// Whether a name that stands in the class is in both.
#[tactic(auto, using(crate::proofs::ClassParts::any_name))]
fn names_a_common(class: &NameClass, a: &NameClass, b: &NameClass) -> bool
    ensures { result ≡ list_any (in_both (class_of a.now) (class_of b.now)) (names_in (class_of class.now)) }
{
    parts_name_a_common(class.parts(), a, b)
}

// Whether a fresh name of the namespace in the part is in both.
fn is_common_space(part: &Part, a: &NameClass, b: &NameClass) -> bool
    ensures { result ≡ list_any (fresh_in_both (class_of a.now) (class_of b.now)) (part_spaces part.now) }
{
    match part {
        Part::Namespace { ns, .. } => has_fresh(a, ns) && has_fresh(b, ns),
        Part::One(name) => has_fresh(a, name.ns()) && has_fresh(b, name.ns()),
        Part::Any { .. } | Part::Choice => false,
    }
}

// Whether a fresh name of a namespace that stands in one of the parts is in both.
fn parts_space_a_common(parts: &[Part], a: &NameClass, b: &NameClass) -> bool
    ensures { result ≡ list_any (λ p. list_any (fresh_in_both (class_of a.now) (class_of b.now)) (part_spaces p)) parts.now }
{
    parts.iter().any(|part| is_common_space(part, a, b))
}

// Whether a fresh name of a namespace that stands in the class is in both.
#[tactic(auto, using(crate::proofs::ClassParts::any_space))]
fn spaces_a_common(class: &NameClass, a: &NameClass, b: &NameClass) -> bool
    ensures { result ≡ list_any (fresh_in_both (class_of a.now) (class_of b.now)) (spaces_in (class_of class.now)) }
{
    parts_space_a_common(class.parts(), a, b)
}

// Whether a name that stands in one of the classes is in both.
#[tactic(auto, using(crate::proofs::Parts::any_append))]
fn have_common_name(a: &NameClass, b: &NameClass) -> bool
    ensures { result ≡ list_any (in_both (class_of a.now) (class_of b.now)) (names_in (class_of a.now) ++ names_in (class_of b.now)) }
{
    names_a_common(a, a, b) || names_a_common(b, a, b)
}

// Whether a fresh name of a namespace that stands in one of the classes is in both.
#[tactic(auto, using(crate::proofs::Parts::any_append))]
fn have_common_fresh(a: &NameClass, b: &NameClass) -> bool
    ensures { result ≡ list_any (fresh_in_both (class_of a.now) (class_of b.now)) (spaces_in (class_of a.now) ++ spaces_in (class_of b.now)) }
{
    spaces_a_common(a, a, b) || spaces_a_common(b, a, b)
}

// The test for an overlap, on finitely many names.
fn pass_test(a: &NameClass, b: &NameClass) -> bool
    ensures { result ≡ overlaps (class_of a.now) (class_of b.now) }
{
    have_common_name(a, b) || (have_common_fresh(a, b) || (has_strangers(a) && has_strangers(b)))
}

/// Whether some name at all is in both classes. It takes no memory, and tries each name and namespace that stands in one of them
/// on both.
pub fn overlap(a: &NameClass, b: &NameClass) -> bool
    ensures { (result ≡ true) ↔ Overlap (class_of a.now) (class_of b.now) }
{
    is_named(a);
    is_named(b);
    pass_test(a, b)
}
