// The declarations of one file.
ghost use Rattle.std.specs.Prelude.{◌≡◌, ◌≤◌, ◌∷◌, IfOk, All, codes, flat_map, map, option_map};
ghost use Rattle.rng_model.specs.Texts.{Text as TextValue};
ghost use Rattle.schema_tree.specs.Trees.{declaration_of};
ghost use Rattle.simple_form_laws.specs.Faults.{declaration_place};
ghost use Rattle.simple_form_laws.specs.Prefixes.{look_up, prefixes, libraries, defaults, first_or, xml_uri, xsd_uri, namespace_table, library_table, default_of};

use crate::bindings::{datatype_prefix, default_namespace, namespace_prefix};
use crate::kinds::XSD_URI;
use crate::prefix_table::PrefixTable;
use schema_tree::Declaration;
use std::alloc::{AllocError, Global};
use std::marker::Model;
use text_atoms::Text;

/// The URI of the prefix `xml`.
pub const XML_URI: &str = "http://www.w3.org/XML/1998/namespace";

/// A file with its tables of prefixes and its default namespace.
#[derive(Drop)]
pub struct FileNames<'a> {
    name: &'a Text,
    length: usize,
    inherited: &'a Text,
    declarations: &'a [Declaration],
    namespaces: PrefixTable<'a>,
    libraries: PrefixTable<'a>,
    default: &'a str,
}

impl<'a> Model for FileNames<'a> {
    ghost use Rattle.grammar_laws.specs.Files.{SchemaFile};

    ghost Value = { SchemaFile };

    ghost use Rattle.name_resolution.specs.Files.{file_of, HasTables};

    ghost view = { file_of };

    ghost invariant = { HasTables };
}

// The URIs of namespace prefixes, `xml` before those that are declared.
fn namespaces<'a>(
    alloc: Global,
    inherited: &'a Text,
    declarations: &'a [Declaration],
) -> Result<PrefixTable<'a>, AllocError>
    ensures { IfOk result (λ t. (p : TextValue) → look_up t p ≡ look_up ((codes "xml", xml_uri) ∷ flat_map (prefixes inherited.now) (map declaration_of declarations.now)) p) }
{
    let mut table = PrefixTable::new(alloc);
    table.add(Some(("xml", XML_URI)))?;
    for declaration in declarations {
        table.add(namespace_prefix(inherited, declaration))?;
    }
    Ok(table)
}

// The URIs of datatype prefixes, `xsd` before those that are declared.
fn libraries<'a>(
    alloc: Global,
    declarations: &'a [Declaration],
) -> Result<PrefixTable<'a>, AllocError>
    ensures { IfOk result (λ t. (p : TextValue) → look_up t p ≡ look_up ((codes "xsd", xsd_uri) ∷ flat_map libraries (map declaration_of declarations.now)) p) }
{
    let mut table = PrefixTable::new(alloc);
    table.add(Some(("xsd", XSD_URI)))?;
    for declaration in declarations {
        table.add(datatype_prefix(declaration))?;
    }
    Ok(table)
}

// The first default namespace that is declared, or the inherited one.
fn default<'a>(inherited: &'a Text, declarations: &'a [Declaration]) -> &'a str
    ensures { result.now ≡ first_or inherited.now (flat_map (defaults inherited.now) (map declaration_of declarations.now)) }
{
    for declaration in declarations {
        if let Some(uri) = default_namespace(inherited, declaration) {
            return uri;
        }
    }
    inherited.as_str()
}

impl<'a> FileNames<'a> {
    /// A file of so many bytes.
    pub fn new(
        alloc: Global,
        name: &'a Text,
        length: usize,
        inherited: &'a Text,
        declarations: &'a [Declaration],
    ) -> Result<FileNames<'a>, AllocError>
        requires { All (λ d. declaration_place d ≤ length) (map declaration_of declarations.now) }
        ensures { IfOk result (λ f. f ≡ record { name = name.now; length = length; inherited = inherited.now; declarations = map declaration_of declarations.now }) }
    {
        let namespaces = namespaces(alloc, inherited, declarations)?;
        let libraries = libraries(alloc, declarations)?;
        let default = default(inherited, declarations);
        Ok(FileNames {
            name,
            length,
            inherited,
            declarations,
            namespaces,
            libraries,
            default,
        })
    }

    /// Its length in bytes.
    pub fn length(&self) -> usize
        ensures { result ≡ self.now.length }
    {
        self.length
    }

    /// The namespace that it inherits.
    pub fn inherited(&self) -> &'a Text
        ensures { result.now ≡ self.now.inherited }
    {
        self.inherited
    }

    /// Its declarations, each of which stands in it.
    pub fn declarations(&self) -> &'a [Declaration]
        ensures value { map declaration_of result.now ≡ self.now.declarations }
        ensures within { All (λ d. declaration_place d ≤ self.now.length) self.now.declarations }
    {
        self.declarations
    }

    /// The URI of a namespace prefix.
    pub fn namespace(&self, prefix: &str) -> Option<&'a str>
        ensures { option_map (λ u. u.now) result ≡ look_up (namespace_table self.now) prefix.now }
    {
        self.namespaces.get(prefix)
    }

    /// The URI of a datatype prefix.
    pub fn library(&self, prefix: &str) -> Option<&'a str>
        ensures { option_map (λ u. u.now) result ≡ look_up (library_table self.now) prefix.now }
    {
        self.libraries.get(prefix)
    }

    /// The default namespace.
    pub fn default_namespace(&self) -> &'a str
        ensures { result.now ≡ default_of self.now }
    {
        self.default
    }
}
