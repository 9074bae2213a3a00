// Faults in grammars and references, over a tree.
ghost use Rattle.std.specs.Prelude.{◌≡◌, [], map, option_map, IfOk, Option};
ghost use Rattle.grammar_laws.specs.Files.{body_pattern};
ghost use Rattle.grammar_laws.specs.Trees.{grammar, items_of, patterns_of, Items};
ghost use Rattle.schema_tree.specs.Trees.{body_of, item_of, pattern_of};
ghost use Rattle.simple_form_laws.specs.Parts.{Scope, entries, parts_of, parts_of_item, parts_of_items, parts_of_list};
ghost use Rattle.tree_faults.specs.declared.entries.Entries.{Entries as EntriesValue};
ghost use Rattle.tree_faults.specs.Entries.{Holds};
ghost use Rattle.tree_faults.specs.Grammars.{Fits, faults_of_items, faults_of_parent, faults_of_ref, grammar_faults, joined, no_faults};

use crate::entries::{Entries, place_if};
use name_resolution::lesser;
use schema_tree::{Body, Item, Pattern};
use std::alloc::{AllocError, Global};
use text_atoms::Text;

/// The faults in grammars and references, with their least places.
#[derive(Clone, Copy, Debug, PartialEq, Eq)]
pub struct GrammarFaults {
    /// A grammar has no start.
    pub lacks_start: bool,
    /// A reference whose grammar has no definition of the name, or a `ref` outside any grammar.
    pub undefined: Option<usize>,
    /// `parent` where there is no next grammar outwards.
    pub outside: Option<usize>,
    /// `|=` behind `&=` of one name, or the reverse.
    pub mixed: Option<usize>,
    /// `=` behind `=` of one name.
    pub twice: Option<usize>,
}

impl GrammarFaults {
    // No fault.
    fn none() -> GrammarFaults
        ensures { result ≡ no_faults }
    {
        GrammarFaults {
            lacks_start: false,
            undefined: None,
            outside: None,
            mixed: None,
            twice: None,
        }
    }

    // Of each fault the lesser place.
    fn joined(self, other: GrammarFaults) -> GrammarFaults
        ensures { result ≡ joined self other }
    {
        GrammarFaults {
            lacks_start: self.lacks_start || other.lacks_start,
            undefined: lesser(self.undefined, other.undefined),
            outside: lesser(self.outside, other.outside),
            mixed: lesser(self.mixed, other.mixed),
            twice: lesser(self.twice, other.twice),
        }
    }
}

// The faults of a reference in a grammar, or outside any.
fn of_ref(inner: Option<&Entries<'_>>, name: &Text, at: usize) -> GrammarFaults
    ensures { (outer : Option EntriesValue) (s : Scope) → Fits (option_map (λ d. d.now) inner.entry) outer s → result ≡ faults_of_ref s name.now at }
{
    match inner {
        Some(entries) => GrammarFaults {
            undefined: place_if(!entries.has(Some(name.as_str())), at),
            ..GrammarFaults::none()
        },
        None => GrammarFaults {
            undefined: Some(at),
            ..GrammarFaults::none()
        },
    }
}

// The faults of a reference to the next grammar outwards.
fn of_parent(outer: Option<&Entries<'_>>, name: &Text, at: usize) -> GrammarFaults
    ensures { (inner : Option EntriesValue) (s : Scope) → Fits inner (option_map (λ d. d.now) outer.entry) s → result ≡ faults_of_parent s name.now at }
{
    match outer {
        Some(entries) => GrammarFaults {
            undefined: place_if(!entries.has(Some(name.as_str())), at),
            ..GrammarFaults::none()
        },
        None => GrammarFaults {
            outside: Some(at),
            ..GrammarFaults::none()
        },
    }
}

// The faults of a grammar's starts and definitions.
fn of_entries(read: &Entries<'_>) -> GrammarFaults
    ensures { (is : Items) → Holds read.now (entries is) → result ≡ faults_of_items is }
{
    GrammarFaults {
        lacks_start: !read.has(None),
        mixed: read.mixed,
        twice: read.twice,
        ..GrammarFaults::none()
    }
}

#[tactic(auto, using(crate::proofs::GrammarJoins::joined_none))]
#[cycle(grammars)]
fn in_pattern(
    alloc: Global,
    inner: Option<&Entries<'_>>,
    outer: Option<&Entries<'_>>,
    pattern: &Pattern,
    found: GrammarFaults,
) -> Result<GrammarFaults, AllocError>
    ensures { IfOk result (λ r. (s : Scope) → Fits (option_map (λ d. d.now) inner.entry) (option_map (λ d. d.now) outer.entry) s → r ≡ joined found (grammar_faults (parts_of s (pattern_of pattern.now)))) }
{
    match pattern {
        Pattern::Element { content, .. } => in_pattern(alloc, inner, outer, content.get(), found),
        Pattern::Attribute { content, .. } => {
            in_pattern(alloc, inner, outer, content.get(), found)
        }
        Pattern::Group(members) => in_members(alloc, inner, outer, members.as_slice(), found),
        Pattern::Choice(members) => in_members(alloc, inner, outer, members.as_slice(), found),
        Pattern::Interleave(members) => {
            in_members(alloc, inner, outer, members.as_slice(), found)
        }
        Pattern::Optional(content) => in_pattern(alloc, inner, outer, content.get(), found),
        Pattern::ZeroOrMore(content) => in_pattern(alloc, inner, outer, content.get(), found),
        Pattern::OneOrMore(content) => in_pattern(alloc, inner, outer, content.get(), found),
        Pattern::List { content, .. } => in_pattern(alloc, inner, outer, content.get(), found),
        Pattern::Mixed(content) => in_pattern(alloc, inner, outer, content.get(), found),
        Pattern::Ref { name, at } => Ok(found.joined(of_ref(inner, name, *at))),
        Pattern::Parent { name, at } => Ok(found.joined(of_parent(outer, name, *at))),
        Pattern::DataType { except, .. } => match except {
            Some(except) => in_pattern(alloc, inner, outer, except.get(), found),
            None => Ok(found),
        },
        Pattern::Grammar(items) => in_grammar(alloc, inner, items.as_slice(), found),
        Pattern::Empty => Ok(found),
        Pattern::AnyText => Ok(found),
        Pattern::NotAllowed => Ok(found),
        Pattern::Value { .. } => Ok(found),
        Pattern::External { .. } => Ok(found),
    }
}

#[cycle(grammars)]
fn in_members(
    alloc: Global,
    inner: Option<&Entries<'_>>,
    outer: Option<&Entries<'_>>,
    members: &[Pattern],
    found: GrammarFaults,
) -> Result<GrammarFaults, AllocError>
    ensures { IfOk result (λ r. (s : Scope) → Fits (option_map (λ d. d.now) inner.entry) (option_map (λ d. d.now) outer.entry) s → r ≡ joined found (grammar_faults (parts_of_list s (patterns_of (map pattern_of members.now))))) }
{
    let mut found = found;
    for member in members {
        found = in_pattern(alloc, inner, outer, member, found)?;
    }
    Ok(found)
}

// The faults of a grammar with the items, in the grammar around it or in none.
#[cycle(grammars)]
fn in_grammar(
    alloc: Global,
    around: Option<&Entries<'_>>,
    items: &[Item],
    found: GrammarFaults,
) -> Result<GrammarFaults, AllocError>
    ensures { IfOk result (λ r. (outer : Option EntriesValue) (s : Scope) → Fits (option_map (λ d. d.now) around.entry) outer s → r ≡ joined found (grammar_faults (parts_of s (grammar (items_of (map item_of items.now)))))) }
{
    let entries = Entries::of(alloc, items)?;
    let found = found.joined(of_entries(&entries));
    in_items(alloc, Some(&entries), around, items, found)
}

#[cycle(grammars)]
fn in_items(
    alloc: Global,
    inner: Option<&Entries<'_>>,
    outer: Option<&Entries<'_>>,
    items: &[Item],
    found: GrammarFaults,
) -> Result<GrammarFaults, AllocError>
    ensures { IfOk result (λ r. (s : Scope) → Fits (option_map (λ d. d.now) inner.entry) (option_map (λ d. d.now) outer.entry) s → r ≡ joined found (grammar_faults (parts_of_items s (items_of (map item_of items.now))))) }
{
    let mut found = found;
    for item in items {
        found = in_item(alloc, inner, outer, item, found)?;
    }
    Ok(found)
}

#[tactic(auto, using(crate::proofs::GrammarJoins::joined_none))]
#[cycle(grammars)]
fn in_item(
    alloc: Global,
    inner: Option<&Entries<'_>>,
    outer: Option<&Entries<'_>>,
    item: &Item,
    found: GrammarFaults,
) -> Result<GrammarFaults, AllocError>
    ensures { IfOk result (λ r. (s : Scope) → Fits (option_map (λ d. d.now) inner.entry) (option_map (λ d. d.now) outer.entry) s → r ≡ joined found (grammar_faults (parts_of_item s (item_of item.now)))) }
{
    match item {
        Item::Start { pattern, .. } => in_pattern(alloc, inner, outer, pattern, found),
        Item::Define { pattern, .. } => in_pattern(alloc, inner, outer, pattern, found),
        Item::Div(items) => in_items(alloc, inner, outer, items.as_slice(), found),
        Item::Include { .. } => Ok(found),
    }
}

/// The faults of grammars and references in a schema's tree.
pub(crate) fn in_body(alloc: Global, body: &Body) -> Result<GrammarFaults, AllocError>
    ensures { IfOk result (λ r. r ≡ grammar_faults (parts_of [] (body_pattern (body_of body.now)))) }
{
    match body {
        Body::Pattern(pattern) => in_pattern(alloc, None, None, pattern, GrammarFaults::none()),
        Body::Items(items) => in_grammar(alloc, None, items.as_slice(), GrammarFaults::none()),
    }
}
