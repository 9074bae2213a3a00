// Name classes.
ghost use Rattle.std.specs.Prelude.{◌≡◌, false, ◌++◌, ◌∷◌, List, length, map, IfOk, OnOk, flat_map, replicate, option_map, ◌≤◌};
ghost use Rattle.std.specs.List.{list_any};
ghost use Rattle.std.specs.Cmp.{partial_equiv_from_equiv};
ghost use Rattle.rng_model.specs.Classes.{Class, in_class, is_infinite, class_cmp, any, any_except, namespace, namespace_except, one, either};
ghost use Rattle.name_classes.specs.declared.part.Part.{Part as Listed};
ghost use Rattle.name_classes.specs.declared.part.Part.TheVariants as variant;
ghost use Rattle.name_classes.specs.Parts.{AreParts, parts_of, is_choice, is_open, in_part, in_parts};
ghost use Rattle.name_classes.specs.Choices.{choice_of};
ghost use Rattle.name_classes.specs.Views.{class_of};
ghost use Rattle.name_classes.specs.ClassOrder.{alike_inputs, class_eq, class_equiv, class_input};

use crate::name::Name;
use crate::part::{Part, Sample};
use std::alloc::{AllocError, Global};
use std::cmp::Ordering;
use std::hash::{Hash, Hasher};
use std::marker::Model;
use text_atoms::Text;

/// The parts of a class, each in front of the classes that it holds.
#[derive(Drop)]
struct Parts {
    items: Vec<Part>,
}

impl Model for Parts {
    ghost use Rattle.std.specs.Prelude.{◌≡◌};
    ghost use Rattle.rng_model.specs.Classes.{Class};
    ghost use Rattle.rng_model.specs.CodedPatterns.{class_code};

    ghost Value = { Class };

    ghost coded = { class_code };

    ghost use Rattle.name_classes.specs.declared.part.Part.TheVariants as variant;
    ghost use Rattle.name_classes.specs.Parts.{class_in, parts_of};

    ghost view = { λ p. class_in p.items.items };

    ghost invariant = { λ p. p.items.items ≡ parts_of (class_in p.items.items) };
}

/// A name class (section Name classes of Semantics): any name and the names of a namespace, each with or without an except,
/// one name, and the choice of two. It keeps its parts in one list, so no call recurses deeper than its excepts nest.
#[derive(Drop)]
pub struct NameClass {
    parts: Parts,
}

impl NameClass {
    // The class of a list of parts.
    #[tactic(auto, using(crate::proofs::Making::read_as, crate::proofs::Making::read_back))]
    fn of_parts(items: Vec<Part>) -> NameClass
        requires { AreParts items.items }
        ensures { (c : Class) → items.items ≡ parts_of c → class_of result ≡ c }
    {
        NameClass {
            parts: Parts { items },
        }
    }

    // Its parts.
    fn into_parts(self) -> Vec<Part>
        ensures { result.items ≡ parts_of (class_of self) }
    {
        let parts = self.parts;
        parts.items
    }

    /// Its parts, each in front of the classes that it holds.
    pub fn parts(&self) -> &[Part]
        ensures { result.now ≡ parts_of (class_of self.now) }
    {
        let parts = &self.parts;
        parts.items.as_slice()
    }

    /// anyName: each name.
    #[tactic(auto, using(crate::proofs::Making::made_any))]
    pub fn any(alloc: Global) -> Result<NameClass, AllocError>
        ensures { IfOk result (λ c. class_of c ≡ any) }
    {
        Ok(NameClass::of_parts(vec![in alloc; Part::Any { excepts: false }]?))
    }

    /// anyName with an except: each name that isn't in it.
    pub fn any_except(except: NameClass) -> Result<NameClass, AllocError>
        ensures { IfOk result (λ c. class_of c ≡ any_except (class_of except)) }
    {
        let mut parts = except.into_parts();
        parts.insert(0, Part::Any { excepts: true })?;
        Ok(NameClass::of_parts(parts))
    }

    /// nsName: each name of the namespace.
    #[tactic(auto, using(crate::proofs::Making::made_space))]
    pub fn namespace(alloc: Global, ns: Text) -> Result<NameClass, AllocError>
        ensures { IfOk result (λ c. class_of c ≡ namespace ns) }
    {
        Ok(NameClass::of_parts(vec![in alloc; Part::Namespace { ns, excepts: false }]?))
    }

    /// nsName with an except: each name of the namespace that isn't in it.
    pub fn namespace_except(ns: Text, except: NameClass) -> Result<NameClass, AllocError>
        ensures { IfOk result (λ c. class_of c ≡ namespace_except ns (class_of except)) }
    {
        let mut parts = except.into_parts();
        parts.insert(0, Part::Namespace { ns, excepts: true })?;
        Ok(NameClass::of_parts(parts))
    }

    /// name: this name alone.
    #[tactic(auto, using(crate::proofs::Making::made_one))]
    pub fn one(alloc: Global, name: Name) -> Result<NameClass, AllocError>
        ensures { IfOk result (λ c. class_of c ≡ one name) }
    {
        Ok(NameClass::of_parts(vec![in alloc; Part::One(name)]?))
    }

    /// choice: each name in one of the two.
    pub fn choice(left: NameClass, right: NameClass) -> Result<NameClass, AllocError>
        ensures { IfOk result (λ c. class_of c ≡ either (class_of left) (class_of right)) }
    {
        let mut parts = left.into_parts();
        parts.insert(0, Part::Choice)?;
        parts.append(&mut right.into_parts())?;
        Ok(NameClass::of_parts(parts))
    }

    /// The choice of the members, nested to the left; none where there are none. It moves each part once.
    pub fn choice_of(
        alloc: Global,
        members: Vec<NameClass>,
    ) -> Result<Option<NameClass>, AllocError>
        ensures { IfOk result (λ c. option_map class_of c ≡ choice_of (map class_of members.items)) }
    {
        let Some(choices) = members.len().checked_sub(1) else {
            return Ok(None);
        };
        let mut parts = choices_alone(alloc, choices)?;
        append_members(&mut parts, members)?;
        Ok(Some(NameClass::of_parts(parts)))
    }

    /// Whether the name is in the class (section Name classes of Semantics).
    #[tactic(auto, using(crate::proofs::Reading::of_name))]
    pub fn contains(&self, name: &Name) -> bool
        ensures { result ≡ in_class name.now (class_of self.now) }
    {
        self.takes(Sample::Name(name))
    }

    /// Whether the sample is in the class.
    pub fn takes(&self, sample: Sample<'_>) -> bool
        ensures { result ≡ in_parts (in_part sample.entry) (class_of self.now) }
    {
        take_class(sample, self.parts()).0
    }

    /// Whether an any-name or namespace class stands anywhere in it.
    #[tactic(auto, using(crate::proofs::Making::open_parts))]
    pub fn is_infinite(&self) -> bool
        ensures { result ≡ is_infinite (class_of self.now) }
    {
        has_open(self.parts())
    }

    /// The order of name classes: any name, namespace class, one name, choice; then the namespace, the name or the parts from the
    /// left, with no except before an except.
    #[tactic(auto, using(crate::proofs::Comparing::compared))]
    pub fn compare(&self, other: &NameClass) -> Ordering
        ensures { result ≡ class_cmp (class_of self.now) (class_of other.now) }
    {
        self.parts().cmp(other.parts())
    }

    /// An equal class; refused for want of memory alone.
    pub fn copy(&self, alloc: Global) -> Result<NameClass, AllocError>
        ensures { IfOk result (λ c. class_of c ≡ class_of self.now) }
    {
        let mut parts = Vec::with_capacity(alloc, self.parts().len())?;
        for part in self.parts() {
            parts.push(part.copy(alloc)?)?;
        }
        Ok(NameClass::of_parts(parts))
    }
}

// Whether one of the parts is an any-name or a namespace class.
fn has_open(parts: &[Part]) -> bool
    ensures { result ≡ list_any is_open parts.now }
{
    parts.iter().any(|part| part.is_open())
}

// So many choices in a row, with none of their classes yet.
#[tactic(auto, using(crate::proofs::Making::one_more_choice))]
fn choices_alone(alloc: Global, count: usize) -> Result<Vec<Part>, AllocError>
    ensures { IfOk result (λ parts. parts.items ≡ replicate count variant.Choice) }
{
    let mut parts = Vec::new(alloc);
    for _ in 0..count {
        parts.push(Part::Choice)?;
    }
    Ok(parts)
}

// Adds the parts of the members at the end.
fn append_members(parts: &mut Vec<Part>, members: Vec<NameClass>) -> Result<(), AllocError>
    ensures { OnOk result (parts.new.items ≡ parts.old.items ++ flat_map parts_of (map class_of members.items)) }
{
    for member in members {
        parts.append(&mut member.into_parts())?;
    }
    Ok(())
}

// Whether the sample is in the class that the parts begin with, and the parts behind that class. It recurses into excepts alone.
#[cycle(take)]
fn take_class<'a>(sample: Sample<'_>, parts: &'a [Part]) -> (bool, &'a [Part])
    ensures first { (c : Class) (more : List Listed) → parts.now ≡ parts_of c ++ more → (result.0 ≡ in_parts (in_part sample.entry) c) × (result.1.now ≡ more) }
    ensures shorter { length result.1.now ≤ length parts.now }
{
    let mut taken = false;
    // How many classes are still to be read.
    let mut left: usize = 1;
    let mut rest = parts;
    while left > 0 {
        let Some((part, behind)) = rest.split_first() else {
            return (taken, rest);
        };
        if part.is_choice() {
            left += 1;
            rest = behind;
        } else {
            let (is_in, after) = take_part(sample, part, behind);
            taken |= is_in;
            left -= 1;
            rest = after;
        }
    }
    (taken, rest)
}

// Whether the sample is in the class that this part and those behind it begin with, and the parts behind that class.
#[cycle(take)]
fn take_part<'a>(sample: Sample<'_>, part: &Part, behind: &'a [Part]) -> (bool, &'a [Part])
    requires { is_choice part.now ≡ false }
    ensures first { (c : Class) (more : List Listed) → part.now ∷ behind.now ≡ parts_of c ++ more → (result.0 ≡ in_parts (in_part sample.entry) c) × (result.1.now ≡ more) }
    ensures shorter { length result.1.now ≤ length behind.now }
{
    if part.excepts() {
        let (is_excepted, after) = take_class(sample, behind);
        (part.takes(sample) && !is_excepted, after)
    } else {
        (part.takes(sample), behind)
    }
}

/// Classes are equal exactly where their order is.
impl PartialEq for NameClass {
    ghost eq = { λ a b. class_eq (class_of a) (class_of b) };

    ghost laws = { partial_equiv_from_equiv class_equiv };

    fn eq(&self, other: &NameClass) -> bool {
        self.compare(other).is_eq()
    }
}

impl Eq for NameClass {
    ghost laws = { class_equiv };
}

impl Hash for NameClass {
    ghost hash_input = { λ c. class_input (class_of c) };

    ghost respects_eq = { alike_inputs };

    fn hash<H: Hasher>(&self, state: &mut H) {
        Part::hash_slice(self.parts(), state);
    }
}
