// Faults in name classes, types and values, over a tree.
ghost use Rattle.std.specs.Prelude.{◌≡◌, [], map};
ghost use Rattle.grammar_laws.specs.Files.{body_pattern};
ghost use Rattle.grammar_laws.specs.Trees.{patterns_of, items_of};
ghost use Rattle.schema_tree.specs.Trees.{body_of, class_of, item_of, pattern_of, type_of};
ghost use Rattle.simple_form_laws.specs.Parts.{Scope, parts_of, parts_of_item, parts_of_items, parts_of_list};
ghost use Rattle.name_resolution.specs.Owners.{use_of};
ghost use Rattle.tree_faults.specs.Names.{faults_of_class, faults_of_type, faults_of_value, joined, name_faults, no_faults};

use name_resolution::{Namespaces, Owner, lesser};
use schema_tree::{Body, Class, Item, Pattern, TypeName};
use text_atoms::Text;

/// The least places of the faults in name classes, types and values.
#[derive(Clone, Copy, Debug, PartialEq, Eq)]
pub struct NameFaults {
    /// A prefix of a name class or of a type that isn't bound.
    pub unbound_prefix: Option<usize>,
    /// `*` in an except of `*`, or `*` or all names of a namespace in an except of the latter.
    pub constraint: Option<usize>,
    /// In an attribute's class, the name `xmlns` without namespace, or its namespace.
    pub xmlns_attribute: Option<usize>,
    /// The type of a value whose kind doesn't allow its literal.
    pub bad_value: Option<usize>,
}

impl NameFaults {
    // No fault.
    fn none() -> NameFaults
        ensures { result ≡ no_faults }
    {
        NameFaults {
            unbound_prefix: None,
            constraint: None,
            xmlns_attribute: None,
            bad_value: None,
        }
    }

    // Of each fault the lesser place.
    fn joined(self, other: NameFaults) -> NameFaults
        ensures { result ≡ joined self other }
    {
        NameFaults {
            unbound_prefix: lesser(self.unbound_prefix, other.unbound_prefix),
            constraint: lesser(self.constraint, other.constraint),
            xmlns_attribute: lesser(self.xmlns_attribute, other.xmlns_attribute),
            bad_value: lesser(self.bad_value, other.bad_value),
        }
    }
}

// The faults of a name class.
fn of_class(names: &Namespaces<'_>, owner: Owner, class: &Class) -> NameFaults
    ensures { result ≡ faults_of_class names.now (use_of owner) (class_of class.now) }
{
    let faults = names.class_faults(owner, class);
    NameFaults {
        unbound_prefix: faults.unbound_prefix,
        constraint: faults.constraint,
        xmlns_attribute: faults.xmlns_attribute,
        bad_value: None,
    }
}

// The faults of a type.
fn of_type(names: &Namespaces<'_>, of: &TypeName) -> NameFaults
    ensures { result ≡ faults_of_type names.now (type_of of.now) }
{
    NameFaults {
        unbound_prefix: names.unbound_type(of),
        ..NameFaults::none()
    }
}

// The faults of a value with a type.
fn of_value(names: &Namespaces<'_>, of: &TypeName, literal: &Text) -> NameFaults
    ensures { result ≡ faults_of_value names.now (type_of of.now) literal.now }
{
    NameFaults {
        unbound_prefix: names.unbound_type(of),
        bad_value: names.bad_value(of, literal),
        ..NameFaults::none()
    }
}

#[tactic(auto, using(crate::proofs::Joins::joined_assoc, crate::proofs::Joins::joined_none))]
#[cycle(names)]
fn in_pattern(names: &Namespaces<'_>, pattern: &Pattern, found: NameFaults) -> NameFaults
    ensures { (s : Scope) → result ≡ joined found (name_faults names.now (parts_of s (pattern_of pattern.now))) }
{
    match pattern {
        Pattern::Element { class, content, .. } => {
            let found = found.joined(of_class(names, Owner::Element, class));
            in_pattern(names, content.get(), found)
        }
        Pattern::Attribute { class, content, .. } => {
            let found = found.joined(of_class(names, Owner::Attribute, class));
            in_pattern(names, content.get(), found)
        }
        Pattern::Group(members) => in_members(names, members.as_slice(), found),
        Pattern::Choice(members) => in_members(names, members.as_slice(), found),
        Pattern::Interleave(members) => in_members(names, members.as_slice(), found),
        Pattern::Optional(content) => in_pattern(names, content.get(), found),
        Pattern::ZeroOrMore(content) => in_pattern(names, content.get(), found),
        Pattern::OneOrMore(content) => in_pattern(names, content.get(), found),
        Pattern::List { content, .. } => in_pattern(names, content.get(), found),
        Pattern::Mixed(content) => in_pattern(names, content.get(), found),
        Pattern::Value {
            of: Some(of),
            literal,
        } => found.joined(of_value(names, of, literal)),
        Pattern::DataType { of, except, .. } => {
            let found = found.joined(of_type(names, of));
            match except {
                Some(except) => in_pattern(names, except.get(), found),
                None => found,
            }
        }
        Pattern::Grammar(items) => in_items(names, items.as_slice(), found),
        Pattern::Ref { .. } => found,
        Pattern::Parent { .. } => found,
        Pattern::Empty => found,
        Pattern::AnyText => found,
        Pattern::NotAllowed => found,
        Pattern::Value { of: None, .. } => found,
        Pattern::External { .. } => found,
    }
}

#[cycle(names)]
fn in_members(names: &Namespaces<'_>, members: &[Pattern], found: NameFaults) -> NameFaults
    ensures { (s : Scope) → result ≡ joined found (name_faults names.now (parts_of_list s (patterns_of (map pattern_of members.now)))) }
{
    let mut found = found;
    for member in members {
        found = in_pattern(names, member, found);
    }
    found
}

#[cycle(names)]
fn in_items(names: &Namespaces<'_>, items: &[Item], found: NameFaults) -> NameFaults
    ensures { (s : Scope) → result ≡ joined found (name_faults names.now (parts_of_items s (items_of (map item_of items.now)))) }
{
    let mut found = found;
    for item in items {
        found = in_item(names, item, found);
    }
    found
}

#[tactic(auto, using(crate::proofs::Joins::joined_none))]
#[cycle(names)]
fn in_item(names: &Namespaces<'_>, item: &Item, found: NameFaults) -> NameFaults
    ensures { (s : Scope) → result ≡ joined found (name_faults names.now (parts_of_item s (item_of item.now))) }
{
    match item {
        Item::Start { pattern, .. } => in_pattern(names, pattern, found),
        Item::Define { pattern, .. } => in_pattern(names, pattern, found),
        Item::Div(inner) => in_items(names, inner.as_slice(), found),
        Item::Include { .. } => found,
    }
}

/// The faults of names in a schema's tree.
pub(crate) fn in_body(names: &Namespaces<'_>, body: &Body) -> NameFaults
    ensures { result ≡ name_faults names.now (parts_of [] (body_pattern (body_of body.now))) }
{
    match body {
        Body::Pattern(pattern) => in_pattern(names, pattern, NameFaults::none()),
        Body::Items(items) => in_items(names, items.as_slice(), NameFaults::none()),
    }
}
