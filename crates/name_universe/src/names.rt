// One list of a universe: its names with their origins, and the names that stand for others.
ghost use Rattle.std.specs.List.{AllByRecursion};
ghost use Rattle.std.specs.Prelude.{◌≡◌, ◌≢◌, ℕ, ◌≤◌, ◌<◌, Contains, IfOk, OnOk, IfSome, IfNone, Some, length, map, slice_get, codes};
ghost use Rattle.std.specs.List.Sorted.{IsStrictlySortedBy};
ghost use Rattle.std.specs.Ordering.{nat_cmp};
ghost use Rattle.std.specs.Cmp.Lexicographic.{slice_cmp};
ghost use Rattle.rng_model.specs.Texts.{Text as TextValue};
ghost use Rattle.rng_model.specs.Names.{Name as NameValue, IsName, name_cmp};
ghost use Rattle.rng_model.specs.Patterns.{Schema};
ghost use Rattle.rng_model.specs.Universe.{IsElementClass, IsAttributeClass, IsMentioned};
ghost use Rattle.rng_model.specs.Fresh.{IsFirstFree, IsAmongFree};
ghost use Rattle.name_universe.specs.Sets.{IsTakenIn, Puts, origin_in};
ghost use Rattle.name_universe.specs.Tables.{AreMentions, IsTableOf, IsStandIn, StandsAt, spaces_of};
ghost use Rattle.name_universe.specs.declared.origin.Origin.{Origin as OriginValue};
ghost use Rattle.name_universe.specs.declared.origin.Origin.TheVariants.{Mentioned, FreshLocal};

use crate::fresh::{first_fresh, fresh_space, put, put_fresh};
use crate::name_list::NameList;
use crate::origin::Origin;
use name_classes::Name;
use std::alloc::{AllocError, Global};
use std::collections::{BTreeMap, BTreeSet};
use std::marker::Model;
use text_atoms::Text;

/// One list of a universe: ascending names, each once, beside each its origin.
#[derive(Drop)]
pub(crate) struct Names {
    names: NameList,
    origins: Vec<Origin>,
    firsts: Vec<(Text, Name)>,
    foreign: Name,
}

impl Model for Names {
    ghost use Rattle.name_universe.specs.Tables.{NameTable, IsTable};

    ghost Value = { NameTable };

    ghost view = { λ n. record { names = n.names; origins = n.origins.items; firsts = n.firsts.items; foreign = n.foreign } };

    ghost invariant = { λ n. IsTable (record { names = n.names; origins = n.origins.items; firsts = n.firsts.items; foreign = n.foreign }) };
}

// Adds the fresh names of each namespace, and gives the first of each.
fn put_each_fresh(
    alloc: Global,
    names: &mut BTreeMap<Name, Origin>,
    mut spaces: BTreeSet<Text>,
    taken: &BTreeSet<Name>,
    fresh: usize,
) -> Result<Vec<(Text, Name)>, AllocError>
    requires { fresh ≤ 3 }
    ensures puts { OnOk result (Puts (origin_in names.old) (origin_in names.new) FreshLocal (λ n. Contains spaces.keys n.ns × IsAmongFree (IsTakenIn taken.now.keys n.ns) fresh (codes "x") n.local)) }
    ensures spaces { IfOk result (λ v. spaces_of v.items ≡ spaces.keys) }
    ensures ordered { IsStrictlySortedBy (slice_cmp nat_cmp) spaces.keys }
    ensures firsts { IfOk result (λ v. (u : TextValue) (m : NameValue) → Contains v.items (u, m) → (m.ns ≡ u) × IsFirstFree (IsTakenIn taken.now.keys u) (codes "x") m.local) }
{
    let mut firsts = Vec::new(alloc);
    'spaces: while let Some(ns) = spaces.pop_first() {
        put_fresh(alloc, names, &ns, taken, fresh, Origin::FreshLocal)?;
        let first = first_fresh(alloc, &ns, taken)?;
        firsts.push((ns, first))?;
    }
    Ok(firsts)
}

// Adds the names of a set as mentioned.
fn put_mentioned(
    names: &mut BTreeMap<Name, Origin>,
    mut mentioned: BTreeSet<Name>,
) -> Result<(), AllocError>
    ensures { OnOk result (Puts (origin_in names.old) (origin_in names.new) Mentioned (Contains mentioned.keys)) }
{
    'names: while let Some(name) = mentioned.pop_first() {
        put(names, name, Origin::Mentioned)?;
    }
    Ok(())
}

// The names of a map in their order, and their origins.
fn split(
    alloc: Global,
    mut table: BTreeMap<Name, Origin>,
) -> Result<(NameList, Vec<Origin>), AllocError>
    ensures names { IfOk result (λ r. r.0 ≡ map (λ e. e.0) table.entries) }
    ensures origins { IfOk result (λ r. r.1.items ≡ map (λ e. e.1) table.entries) }
    ensures ordered { IsStrictlySortedBy name_cmp (map (λ e. e.0) table.entries) }
{
    let mut names = NameList::new(alloc);
    let mut origins = Vec::new(alloc);
    'entries: while let Some((name, origin)) = table.pop_first() {
        names.push(name)?;
        origins.push(origin)?;
    }
    Ok((names, origins))
}

// The position of a name among ascending ones.
fn position(names: &[Name], name: &Name) -> Option<usize>
    requires { IsStrictlySortedBy name_cmp names.now }
    ensures found { IfSome result (λ i. slice_get names.now i ≡ Some name.now) }
    ensures within { IfSome result (λ i. i < length names.now) }
    ensures absent { IfNone result (Contains names.now name.now → ⊥) }
{
    names.binary_search_by(|other| other.cmp(name)).ok()
}

// The position of a namespace among ascending ones.
fn first_of(firsts: &[(Text, Name)], ns: &Text) -> Option<usize>
    requires { IsStrictlySortedBy (slice_cmp nat_cmp) (spaces_of firsts.now) }
    ensures found { IfSome result (λ i. (m : NameValue) × (slice_get firsts.now i ≡ Some (ns.now, m))) }
    ensures absent { IfNone result (Contains (spaces_of firsts.now) ns.now → ⊥) }
{
    firsts
        .binary_search_by(|first| first.0.as_str().cmp(ns.as_str()))
        .ok()
}

impl Names {
    /// The names of mentioned names and namespaces, with `fresh` fresh names in each namespace.
    pub(crate) fn of(
        alloc: Global,
        mentioned: BTreeSet<Name>,
        spaces: BTreeSet<Text>,
        fresh: usize,
    ) -> Result<Names, AllocError>
        requires some { 1 ≤ fresh }
        requires few { fresh ≤ 3 }
        ensures elements { IfOk result (λ t. (g : Schema) → AreMentions (IsElementClass g) mentioned.keys spaces.keys → IsTableOf (IsElementClass g) fresh t) }
        ensures attributes { IfOk result (λ t. (g : Schema) → AreMentions (IsAttributeClass g) mentioned.keys spaces.keys → IsTableOf (IsAttributeClass g) fresh t) }
    {
        let space = fresh_space(alloc, &spaces)?;
        let foreign = first_fresh(alloc, &space, &mentioned)?;
        let mut map = BTreeMap::new(alloc);
        put_fresh(
            alloc,
            &mut map,
            &space,
            &mentioned,
            fresh,
            Origin::FreshSpace,
        )?;
        let firsts = put_each_fresh(alloc, &mut map, spaces, &mentioned, fresh)?;
        put_mentioned(&mut map, mentioned)?;
        let (names, origins) = split(alloc, map)?;
        Ok(Names {
            names,
            origins,
            firsts,
            foreign,
        })
    }

    /// The names.
    pub(crate) fn list(&self) -> &NameList
        ensures list { result.now ≡ self.now.names }
        ensures ascending { IsStrictlySortedBy name_cmp self.now.names }
        ensures are_names { AllByRecursion IsName self.now.names }
    {
        let _ = self.names.len();
        &self.names
    }

    /// The origin of the name at a position.
    pub(crate) fn origin(&self, position: usize) -> Origin
        requires { position < length self.now.names }
        ensures { slice_get self.now.origins position ≡ Some result }
    {
        self.origins[position]
    }

    /// The position of a name, which is none where it isn't in the list.
    pub(crate) fn find(&self, name: &Name) -> Option<usize>
        ensures found { IfSome result (λ i. slice_get self.now.names i ≡ Some name.now) }
        ensures within { IfSome result (λ i. i < length self.now.names) }
        ensures absent { IfNone result (Contains self.now.names name.now → ⊥) }
    {
        position(self.names.as_slice(), name)
    }

    // The name that stands for a name that isn't mentioned.
    fn stand_in(&self, name: &Name) -> &Name
        ensures listed { Contains self.now.names result.now }
        ensures stands { IsStandIn self.now name.now result.now }
    {
        match first_of(self.firsts.as_slice(), name.ns()) {
            Some(position) => &self.firsts[position].1,
            None => &self.foreign,
        }
    }

    // The position, if the name there is mentioned.
    fn if_mentioned(&self, position: usize) -> Option<usize>
        requires { position < length self.now.names }
        ensures mentioned { IfSome result (λ i. (i ≡ position) × (slice_get self.now.origins i ≡ Some Mentioned)) }
        ensures other { IfNone result ((o : OriginValue) × (slice_get self.now.origins position ≡ Some o) × (o ≢ Mentioned)) }
    {
        match self.origin(position) {
            Origin::Mentioned => Some(position),
            Origin::FreshLocal => None,
            Origin::FreshSpace => None,
        }
    }

    // The position of a name that is mentioned.
    fn find_mentioned(&self, name: &Name) -> Option<usize>
        ensures found { IfSome result (λ i. (slice_get self.now.names i ≡ Some name.now) × (slice_get self.now.origins i ≡ Some Mentioned)) }
        ensures no_element { IfNone result ((g : Schema) (fresh : ℕ) → IsTableOf (IsElementClass g) fresh self.now → IsMentioned (IsElementClass g) name.now → ⊥) }
        ensures no_attribute { IfNone result ((g : Schema) (fresh : ℕ) → IsTableOf (IsAttributeClass g) fresh self.now → IsMentioned (IsAttributeClass g) name.now → ⊥) }
    {
        match self.find(name) {
            Some(position) => self.if_mentioned(position),
            None => None,
        }
    }

    // The position of the name that stands for a name that isn't mentioned.
    fn find_stand_in(&self, name: &Name) -> usize
        ensures { (m : NameValue) × (slice_get self.now.names result ≡ Some m) × IsStandIn self.now name.now m }
    {
        match self.find(self.stand_in(name)) {
            Some(position) => position,
            None => unreachable!(),
        }
    }

    /// The position of the name that stands for a name: a mentioned name stands for itself, another name of a mentioned namespace
    /// for the first fresh name of that namespace, and every other name for `x` in the fresh namespace.
    pub(crate) fn stands_for(&self, name: &Name) -> usize
        ensures elements { (g : Schema) (fresh : ℕ) → IsTableOf (IsElementClass g) fresh self.now → StandsAt (IsElementClass g) self.now.names name.now result }
        ensures attributes { (g : Schema) (fresh : ℕ) → IsTableOf (IsAttributeClass g) fresh self.now → StandsAt (IsAttributeClass g) self.now.names name.now result }
        ensures within { result < length self.now.names }
    {
        match self.find_mentioned(name) {
            Some(position) => position,
            None => self.find_stand_in(name),
        }
    }
}
