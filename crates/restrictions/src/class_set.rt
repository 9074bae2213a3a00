// The names of a short list that are in a name class.
ghost use Rattle.std.specs.Prelude.{◌≡◌, ◌∷◌, ◌++◌, ◌<◌, ◌≤◌, Contains, IfSome, IfNone, List, Some, false, length, slice_get};
ghost use Rattle.std.specs.Str.{bytes_eq};
ghost use Rattle.rng_model.specs.Names.{same_name};
ghost use Rattle.rng_model.specs.Classes.{Class, in_class};
ghost use Rattle.name_classes.specs.Parts.{is_choice, parts_of};
ghost use Rattle.name_classes.specs.Views.{class_of};
ghost use Rattle.name_classes.specs.declared.part.Part.{Part as Listed};
ghost use Rattle.restrictions.specs.NameSets.{IsOfSpace, IsSetOf, IsWindow, in_part, taken_by};

use crate::name_set::NameSet;
use name_classes::{Name, NameClass, Part};
use text_atoms::Text;

// The position of a name among ascending ones.
fn position(names: &[Name], name: &Name) -> Option<usize>
    requires { IsWindow names.now }
    ensures found { IfSome result (λ i. slice_get names.now i ≡ Some name.now) }
    ensures within { IfSome result (λ i. i < length names.now) }
    ensures absent { IfNone result (Contains names.now name.now → ⊥) }
{
    names.binary_search_by(|other| other.cmp(name)).ok()
}

// The name alone, if it is one of the names.
fn name_set(names: &[Name], name: &Name) -> NameSet
    requires { IsWindow names.now }
    ensures { IsSetOf names.now (λ n. same_name n name.now) result }
{
    match position(names, name) {
        Some(position) => NameSet::only(position),
        None => NameSet::none(),
    }
}

// The name at a position, if it is one of the namespace.
fn at_space(names: &[Name], ns: &Text, position: usize) -> NameSet
    requires few { length names.now ≤ 64 }
    requires within { position < length names.now }
    ensures { IsOfSpace names.now ns.now position result }
{
    if names[position].ns() == ns {
        NameSet::only(position)
    } else {
        NameSet::none()
    }
}

// The names of the namespace.
fn space_set(names: &[Name], ns: &Text) -> NameSet
    requires { IsWindow names.now }
    ensures { IsSetOf names.now (λ n. bytes_eq n.ns ns.now) result }
{
    let mut found = NameSet::none();
    for position in 0..names.len() {
        found = found.union(at_space(names, ns, position));
    }
    found
}

// The names that are in the part, whatever follows.
fn part_set(names: &[Name], part: &Part) -> NameSet
    requires { IsWindow names.now }
    ensures { IsSetOf names.now (λ n. in_part n part.now) result }
{
    match part {
        Part::Any { .. } => NameSet::all(),
        Part::Namespace { ns, .. } => space_set(names, ns),
        Part::One(name) => name_set(names, name),
        Part::Choice => NameSet::none(),
    }
}

// The names in the class that the parts begin with, and the parts behind that class. It recurses into excepts alone.
#[cycle(take)]
fn take_class<'a>(names: &[Name], parts: &'a [Part]) -> (NameSet, &'a [Part])
    requires { IsWindow names.now }
    ensures first { (c : Class) (more : List Listed) → parts.now ≡ parts_of c ++ more → IsSetOf names.now (taken_by c) result.0 × (result.1.now ≡ more) }
    ensures shorter { length result.1.now ≤ length parts.now }
{
    let mut taken = NameSet::none();
    // How many classes are still to be read.
    let mut left: usize = 1;
    let mut rest = parts;
    while left > 0 {
        let Some((part, behind)) = rest.split_first() else {
            return (taken, rest);
        };
        if part.is_choice() {
            left += 1;
            rest = behind;
        } else {
            let (inside, after) = take_part(names, part, behind);
            taken = taken.union(inside);
            left -= 1;
            rest = after;
        }
    }
    (taken, rest)
}

// The names in the class that this part and those behind it begin with, and the parts behind that class.
#[cycle(take)]
fn take_part<'a>(names: &[Name], part: &Part, behind: &'a [Part]) -> (NameSet, &'a [Part])
    requires names { IsWindow names.now }
    requires part { is_choice part.now ≡ false }
    ensures first { (c : Class) (more : List Listed) → part.now ∷ behind.now ≡ parts_of c ++ more → IsSetOf names.now (taken_by c) result.0 × (result.1.now ≡ more) }
    ensures shorter { length result.1.now ≤ length behind.now }
{
    let inside = part_set(names, part);
    if part.excepts() {
        let (excepted, after) = take_class(names, behind);
        (inside.without(excepted), after)
    } else {
        (inside, behind)
    }
}

/// The names that are in the class, from its parts, each looked at once.
pub(crate) fn class_set(names: &[Name], class: &NameClass) -> NameSet
    requires { IsWindow names.now }
    ensures { IsSetOf names.now (λ n. in_class n (class_of class.now)) result }
{
    take_class(names, class.parts()).0
}
