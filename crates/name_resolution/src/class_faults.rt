// Faults in name classes and types, each with its least place.
ghost use Rattle.std.specs.Prelude.{◌≡◌, Some, flat_map};
ghost use Rattle.grammar_laws.specs.Trees.{value};
ghost use Rattle.schema_tree.specs.Trees.{class_of as tree_class, type_of};
ghost use Rattle.simple_form_laws.specs.ClassForms.{class_parts};
ghost use Rattle.simple_form_laws.specs.Prefixes.{namespace_of};
ghost use Rattle.simple_form_laws.specs.Faults.{bad_value_in, constraint_places, is_xmlns_name, is_xmlns_uri, place_if, place_if_some, place_unless, type_place, unbound_in_class, unbound_in_type};
ghost use Rattle.name_resolution.specs.ClassPlaces.{of_attribute, refused_places, refuses_any, refuses_namespace, within_any, xmlns_places};
ghost use Rattle.name_resolution.specs.Least.{least, lesser};
ghost use Rattle.name_resolution.specs.Owners.{use_of};

use crate::classes::Owner;
use crate::least::{lesser, place_if};
use crate::namespaces::Namespaces;
use schema_tree::{Class, TypeName};
use text_atoms::Text;

// The namespace of `xmlns`.
const XMLNS_URI: &str = "http://www.w3.org/2000/xmlns";

// The same as it is usually written.
const XMLNS_URI_WITH_SLASH: &str = "http://www.w3.org/2000/xmlns/";

/// The least places of the faults in a name class.
#[derive(Clone, Copy, Debug, PartialEq, Eq)]
pub struct ClassFaults {
    /// A prefix that isn't bound.
    pub unbound_prefix: Option<usize>,
    /// `*` in an except of `*`, or `*` or all names of a namespace in an except of the latter (section Restrictions on except).
    pub constraint: Option<usize>,
    /// In an attribute's class, the name `xmlns` without namespace, or its namespace (section Restrictions on attributes).
    pub xmlns_attribute: Option<usize>,
}

// The excepts around a class, the one that refuses most.
#[derive(Clone, Copy)]
enum Around {
    Nothing,
    Any,
    Namespace,
}

fn is_xmlns_uri(uri: &str) -> bool
    ensures { result ≡ is_xmlns_uri uri.now }
{
    uri == XMLNS_URI || uri == XMLNS_URI_WITH_SLASH
}

fn is_xmlns_name(uri: &str, local: &str) -> bool
    ensures { result ≡ is_xmlns_name uri.now local.now }
{
    is_xmlns_uri(uri) || (uri.is_empty() && local == "xmlns")
}

impl ClassFaults {
    // With a prefix at the place that isn't bound.
    fn with_unbound(self, at: usize) -> ClassFaults
        ensures { result ≡ record self { unbound_prefix = lesser self.unbound_prefix (Some at) } }
    {
        ClassFaults {
            unbound_prefix: lesser(self.unbound_prefix, Some(at)),
            ..self
        }
    }

    // With a wildcard at the place, which may be refused there.
    fn with_wildcard(self, is_refused: bool, at: usize) -> ClassFaults
        ensures { result ≡ record self { constraint = lesser self.constraint (least (place_if is_refused at)) } }
    {
        ClassFaults {
            constraint: lesser(self.constraint, place_if(is_refused, at)),
            ..self
        }
    }

    // With a name, or all names of a namespace, at the place, which an attribute may be refused.
    fn with_name(self, owner: Owner, is_xmlns: bool, at: usize) -> ClassFaults
        ensures { result ≡ record self { xmlns_attribute = lesser self.xmlns_attribute (least (of_attribute (use_of owner) (place_if is_xmlns at))) } }
    {
        match owner {
            Owner::Element => self,
            Owner::Attribute => ClassFaults {
                xmlns_attribute: lesser(self.xmlns_attribute, place_if(is_xmlns, at)),
                ..self
            },
        }
    }
}

impl Around {
    // Inside an except of `*`.
    fn within_any(self) -> Around
        ensures { result ≡ within_any self }
    {
        match self {
            Around::Nothing | Around::Any => Around::Any,
            Around::Namespace => Around::Namespace,
        }
    }

    // Whether `*` is refused.
    fn refuses_any(self) -> bool
        ensures { result ≡ refuses_any self }
    {
        match self {
            Around::Nothing => false,
            Around::Any | Around::Namespace => true,
        }
    }

    // Whether all names of a namespace are refused.
    fn refuses_namespace(self) -> bool
        ensures { result ≡ refuses_namespace self }
    {
        match self {
            Around::Nothing | Around::Any => false,
            Around::Namespace => true,
        }
    }
}

impl Namespaces<'_> {
    // The faults of a name with a prefix.
    fn with_prefixed_name(
        &self,
        owner: Owner,
        prefix: &Text,
        local: &Text,
        at: usize,
        found: ClassFaults,
    ) -> ClassFaults
        ensures unbound { result.unbound_prefix ≡ lesser found.unbound_prefix (least (place_unless (namespace_of self.now prefix.now at) at)) }
        ensures constraint { result.constraint ≡ found.constraint }
        ensures xmlns { result.xmlns_attribute ≡ lesser found.xmlns_attribute (least (of_attribute (use_of owner) (place_if_some (λ u. is_xmlns_name u local.now) (namespace_of self.now prefix.now at) at))) }
    {
        match self.namespace(prefix.as_str(), at) {
            Some(uri) => found.with_name(owner, is_xmlns_name(uri, local.as_str()), at),
            None => found.with_unbound(at),
        }
    }

    // The faults of all names of a namespace.
    fn with_namespace(
        &self,
        owner: Owner,
        prefix: &Text,
        at: usize,
        found: ClassFaults,
    ) -> ClassFaults
        ensures unbound { result.unbound_prefix ≡ lesser found.unbound_prefix (least (place_unless (namespace_of self.now prefix.now at) at)) }
        ensures constraint { result.constraint ≡ found.constraint }
        ensures xmlns { result.xmlns_attribute ≡ lesser found.xmlns_attribute (least (of_attribute (use_of owner) (place_if_some is_xmlns_uri (namespace_of self.now prefix.now at) at))) }
    {
        match self.namespace(prefix.as_str(), at) {
            Some(uri) => found.with_name(owner, is_xmlns_uri(uri), at),
            None => found.with_unbound(at),
        }
    }

    // The faults found so far and those in the class, which stands in excepts.
    fn walk(&self, owner: Owner, around: Around, class: &Class, found: ClassFaults) -> ClassFaults
        ensures unbound { result.unbound_prefix ≡ lesser found.unbound_prefix (least (flat_map (unbound_in_class self.now) (class_parts (tree_class class.now)))) }
        ensures constraint { result.constraint ≡ lesser found.constraint (least (refused_places around (class_parts (tree_class class.now)))) }
        ensures xmlns { result.xmlns_attribute ≡ lesser found.xmlns_attribute (least (xmlns_places self.now (use_of owner) (class_parts (tree_class class.now)))) }
    {
        match class {
            Class::Plain { local, at } => found.with_name(
                owner,
                is_xmlns_name("", local.as_str()),
                *at,
            ),
            Class::Prefixed { prefix, local, at } => self.with_prefixed_name(
                owner, prefix, local, *at, found,
            ),
            Class::Any { except, at } => {
                let found = found.with_wildcard(around.refuses_any(), *at);
                match except {
                    Some(except) => self.walk(owner, around.within_any(), except.get(), found),
                    None => found,
                }
            }
            Class::Namespace { prefix, except, at } => {
                let found = found.with_wildcard(around.refuses_namespace(), *at);
                let found = self.with_namespace(owner, prefix, *at, found);
                match except {
                    Some(except) => self.walk(owner, Around::Namespace, except.get(), found),
                    None => found,
                }
            }
            Class::Choice(members) => {
                let mut found = found;
                for member in members.as_slice() {
                    found = self.walk(owner, around, member, found);
                }
                found
            }
        }
    }

    /// The least places of the faults in a name class.
    pub fn class_faults(&self, owner: Owner, class: &Class) -> ClassFaults
        ensures unbound { result.unbound_prefix ≡ least (flat_map (unbound_in_class self.now) (class_parts (tree_class class.now))) }
        ensures constraint { result.constraint ≡ least (flat_map constraint_places (class_parts (tree_class class.now))) }
        ensures xmlns { result.xmlns_attribute ≡ least (xmlns_places self.now (use_of owner) (class_parts (tree_class class.now))) }
    {
        let none = ClassFaults {
            unbound_prefix: None,
            constraint: None,
            xmlns_attribute: None,
        };
        self.walk(owner, Around::Nothing, class, none)
    }

    /// The place of a type whose prefix isn't bound.
    pub fn unbound_type(&self, of: &TypeName) -> Option<usize>
        ensures { result ≡ least (unbound_in_type self.now (type_of of.now)) }
    {
        match of {
            TypeName::BuiltString { .. } | TypeName::BuiltToken { .. } => None,
            TypeName::Prefixed { prefix, at, .. } => match self.library(prefix.as_str(), *at) {
                Some(_) => None,
                None => Some(*at),
            },
        }
    }

    /// The place of a value's type, where the type's kind doesn't allow its literal.
    pub fn bad_value(&self, of: &TypeName, literal: &Text) -> Option<usize>
        ensures { result ≡ least (bad_value_in self.now (value (Some (type_of of.now)) literal.now)) }
    {
        match self.kind(of) {
            Some(kind) => place_if(!kind.allows(literal.as_str()), type_place(of)),
            None => None,
        }
    }
}

// The place of a type.
fn type_place(of: &TypeName) -> usize
    ensures { result ≡ type_place (type_of of.now) }
{
    match of {
        TypeName::BuiltString { at }
        | TypeName::BuiltToken { at }
        | TypeName::Prefixed { at, .. } => *at,
    }
}
