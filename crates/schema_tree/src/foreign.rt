// Types that aren't taken.
ghost use Rattle.std.specs.Prelude.{◌≡◌, ◌↔◌, map, IsTrue};
ghost use Rattle.schema_tree.specs.Features as by;
ghost use Rattle.schema_tree.specs.Features.{IsForeign, binds_foreign, is_built_in, is_xsd};
ghost use Rattle.schema_tree.specs.Files.{file_of};
ghost use Rattle.schema_tree.specs.Trees.{declaration_of};

use crate::files::Entry;
use crate::tree::Declaration;
use text_atoms::Text;

/// The declarations of the file in which a place stands.
pub(crate) fn declarations_at(files: &[Entry], place: usize) -> &[Declaration]
    ensures { map declaration_of result.now ≡ by.declarations_at (map file_of files.now) place }
{
    let mut left = place;
    let mut rest = files;
    while let Some((first, others)) = rest.split_first() {
        if left <= first.length {
            return first.declarations.as_slice();
        }
        left -= first.length + 1;
        rest = others;
    }
    &[]
}

/// Whether the prefix stands for a library whose type of the name isn't taken.
pub(crate) fn is_foreign(declarations: &[Declaration], prefix: &Text, local: &Text) -> bool
    ensures { IsTrue result ↔ IsForeign (map declaration_of declarations.now) prefix.now local.now }
{
    if prefix.as_str() == "xsd" && !is_xsd(local) {
        return true;
    }
    let mut rest = declarations;
    while let Some((first, others)) = rest.split_first() {
        if binds_foreign(first, prefix, local) {
            return true;
        }
        rest = others;
    }
    false
}

/// Whether the declaration binds the prefix to a library whose type of the name isn't taken.
fn binds_foreign(declaration: &Declaration, prefix: &Text, local: &Text) -> bool
    ensures { result ≡ binds_foreign (declaration_of declaration.now) prefix.now local.now }
{
    match declaration {
        Declaration::Namespace { .. } => false,
        Declaration::DefaultNamespace { .. } => false,
        Declaration::Datatypes {
            prefix: bound,
            literal,
            ..
        } => bound.as_str() == prefix.as_str() && is_foreign_in(literal, local),
    }
}

/// Whether the type of the name in the library isn't taken.
fn is_foreign_in(library: &Text, local: &Text) -> bool
    ensures { result ≡ by.is_foreign library.now local.now }
{
    match library.as_str() {
        "http://www.w3.org/2001/XMLSchema-datatypes" => !is_xsd(local),
        "" => !is_built_in(local),
        _ => true,
    }
}

/// Whether the name is that of a type of XML Schema datatypes that is taken.
fn is_xsd(local: &Text) -> bool
    ensures { result ≡ is_xsd local.now }
{
    match local.as_str() {
        "boolean" | "integer" | "nonNegativeInteger" | "positiveInteger" | "NCName" | "NMTOKEN" => {
            true
        }
        _ => is_built_in(local),
    }
}

/// Whether the name is that of a type of the built-in library.
fn is_built_in(local: &Text) -> bool
    ensures { result ≡ is_built_in local.now }
{
    matches!(local.as_str(), "string" | "token")
}
