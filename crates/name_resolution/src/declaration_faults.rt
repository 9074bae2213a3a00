// Faults of declarations, each with its least place.
ghost use Rattle.std.specs.Prelude.{◌≡◌, ◌<◌, ◌+◌, ◌^◌, ◌||◌, ◌++◌, IfOk, IfSome, OnOk, is_some, map, option_map};
ghost use Rattle.std.specs.List.{list_any};
ghost use Rattle.rng_model.specs.Texts.{Text as TextValue};
ghost use Rattle.schema_tree.specs.Trees.{declaration_of};
ghost use Rattle.simple_form_laws.specs.Faults.{is_reserved, is_reserved_library, is_some_default};
ghost use Rattle.simple_form_laws.specs.Prefixes.{defaults, libraries, look_up, prefixes};
ghost use Rattle.name_resolution.specs.Bindings.{as_table, binds_again};
ghost use Rattle.name_resolution.specs.Least.{least};
ghost use Rattle.name_resolution.specs.Places.{bound_reserved, bound_twice, later_bindings, reserved_places};

use crate::bindings::{datatype_prefix, default_namespace, namespace_prefix, place};
use crate::file::XML_URI;
use crate::kinds::XSD_URI;
use crate::least::{lesser, place_if};
use crate::namespaces::Namespaces;
use crate::prefix_table::PrefixTable;
use schema_tree::Declaration;
use std::alloc::{AllocError, Global};
use text_atoms::Text;

// Whether a namespace prefix mustn't be bound to the URI.
fn is_reserved(prefix: &str, uri: &str) -> bool
    ensures { result ≡ is_reserved (prefix.now, uri.now) }
{
    prefix == "xmlns" || (prefix == "xml") != (uri == XML_URI)
}

// Whether a datatype prefix mustn't be bound to the URI.
fn is_reserved_library(prefix: &str, uri: &str) -> bool
    ensures { result ≡ is_reserved_library (prefix.now, uri.now) }
{
    prefix == "xsd" && uri != XSD_URI
}

// Whether the declaration binds what is reserved.
fn binds_reserved(inherited: &Text, declaration: &Declaration) -> bool
    ensures { result ≡ (list_any is_reserved (prefixes inherited.now (declaration_of declaration.now)) || list_any is_reserved_library (libraries (declaration_of declaration.now))) }
{
    match (
        namespace_prefix(inherited, declaration),
        datatype_prefix(declaration),
    ) {
        (Some((prefix, uri)), _) if is_reserved(prefix, uri) => true,
        (_, Some((prefix, uri))) => is_reserved_library(prefix, uri),
        _ => false,
    }
}

// The least place of a declaration that binds what is reserved.
fn reserved_in(inherited: &Text, declarations: &[Declaration]) -> Option<usize>
    ensures { result ≡ least (reserved_places inherited.now (map declaration_of declarations.now)) }
{
    let mut found = None;
    for declaration in declarations {
        let is_reserved = binds_reserved(inherited, declaration);
        found = lesser(found, place_if(is_reserved, place(declaration)));
    }
    found
}

// What the declarations of a file have bound so far.
#[derive(Drop)]
struct Bound<'a> {
    namespaces: PrefixTable<'a>,
    libraries: PrefixTable<'a>,
    has_default: bool,
}

// Whether the table has the prefix of the binding.
fn is_bound(table: &PrefixTable<'_>, binding: Option<(&str, &str)>) -> bool
    ensures { result ≡ list_any (λ b. is_some (look_up table.now b.0)) (as_table binding.entry) }
{
    match binding {
        Some((prefix, _)) => table.get(prefix).is_some(),
        None => false,
    }
}

impl<'a> Bound<'a> {
    // Whether the declaration binds what is bound before it.
    fn has(&self, inherited: &Text, declaration: &Declaration) -> bool
        ensures { result ≡ binds_again self.now.namespaces self.now.libraries self.now.has_default inherited.now (declaration_of declaration.now) }
    {
        is_bound(&self.namespaces, namespace_prefix(inherited, declaration))
            || is_bound(&self.libraries, datatype_prefix(declaration))
            || (default_namespace(inherited, declaration).is_some() && self.has_default)
    }

    // The declaration is behind.
    fn add(&mut self, inherited: &'a Text, declaration: &'a Declaration) -> Result<(), AllocError>
        ensures namespaces { OnOk result ((p : TextValue) → look_up self.new.namespaces p ≡ look_up (self.old.namespaces ++ prefixes inherited.now (declaration_of declaration.now)) p) }
        ensures libraries { OnOk result ((p : TextValue) → look_up self.new.libraries p ≡ look_up (self.old.libraries ++ libraries (declaration_of declaration.now)) p) }
        ensures default { OnOk result (self.new.has_default ≡ (self.old.has_default || is_some_default (defaults inherited.now (declaration_of declaration.now)))) }
    {
        self.namespaces
            .add(namespace_prefix(inherited, declaration))?;
        self.libraries.add(datatype_prefix(declaration))?;
        if default_namespace(inherited, declaration).is_some() {
            self.has_default = true;
        }
        Ok(())
    }
}

// The least place of a declaration that binds what an earlier one bound.
fn twice_in(
    alloc: Global,
    inherited: &Text,
    declarations: &[Declaration],
) -> Result<Option<usize>, AllocError>
    ensures { IfOk result (λ p. p ≡ least (later_bindings (map declaration_of declarations.now))) }
{
    let mut bound = Bound {
        namespaces: PrefixTable::new(alloc),
        libraries: PrefixTable::new(alloc),
        has_default: false,
    };
    let mut found = None;
    for declaration in declarations {
        let is_again = bound.has(inherited, declaration);
        found = lesser(found, place_if(is_again, place(declaration)));
        bound.add(inherited, declaration)?;
    }
    Ok(found)
}

// The place in a file that begins at the base.
fn based(base: usize, at: Option<usize>) -> Option<usize>
    requires { IfSome at (λ a. base + a < 2 ^ 64) }
    ensures { result ≡ option_map (λ a. base + a) at }
{
    match at {
        Some(at) => Some(base + at),
        None => None,
    }
}

impl Namespaces<'_> {
    /// The least place of a declaration that binds a prefix, or the default namespace, that an earlier one of its file bound.
    pub fn prefix_twice(&self, alloc: Global) -> Result<Option<usize>, AllocError>
        ensures { IfOk result (λ p. p ≡ least (bound_twice self.now)) }
    {
        let mut base = 0;
        let mut found = None;
        for file in self.files() {
            let twice = twice_in(alloc, file.inherited(), file.declarations())?;
            found = lesser(found, based(base, twice));
            base += file.length() + 1;
        }
        Ok(found)
    }

    /// The least place of a declaration that binds the prefix `xml` to another URI, another prefix to the URI of `xml`, the prefix `xmlns`,
    /// or the datatype prefix `xsd` to another URI.
    pub fn reserved_prefix(&self) -> Option<usize>
        ensures { result ≡ least (bound_reserved self.now) }
    {
        let mut base = 0;
        let mut found = None;
        for file in self.files() {
            let reserved = reserved_in(file.inherited(), file.declarations());
            found = lesser(found, based(base, reserved));
            base += file.length() + 1;
        }
        found
    }
}
