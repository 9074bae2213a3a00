// What one declaration binds (Annex C, declarations).
ghost use Rattle.std.specs.Prelude.{◌≡◌};
ghost use Rattle.grammar_laws.specs.Trees.{Uri};
ghost use Rattle.simple_form_laws.specs.Faults.{declaration_place};
ghost use Rattle.simple_form_laws.specs.Prefixes.{bound_uri, prefixes, defaults, libraries};
ghost use Rattle.schema_tree.specs.Trees.{declaration_of, uri_of};
ghost use Rattle.name_resolution.specs.Bindings.{as_list, as_table};

use schema_tree::{Declaration, Uri};
use text_atoms::Text;

// The URI as it is bound: `inherit` is the namespace that the file inherits.
fn bound_uri<'a>(inherited: &'a Text, uri: &'a Uri) -> &'a str
    ensures { result.now ≡ bound_uri inherited.now (uri_of uri.now) }
{
    match uri {
        Uri::Literal(literal) => literal.as_str(),
        Uri::Inherit { .. } => inherited.as_str(),
    }
}

/// The namespace prefix that the declaration binds, and its URI.
pub fn namespace_prefix<'a>(
    inherited: &'a Text,
    declaration: &'a Declaration,
) -> Option<(&'a str, &'a str)>
    ensures { as_table result ≡ prefixes inherited.now (declaration_of declaration.now) }
{
    match declaration {
        Declaration::Namespace { prefix, uri, .. } => {
            Some((prefix.as_str(), bound_uri(inherited, uri)))
        }
        Declaration::DefaultNamespace {
            prefix: Some(prefix),
            uri,
            ..
        } => Some((prefix.as_str(), bound_uri(inherited, uri))),
        Declaration::DefaultNamespace { prefix: None, .. } | Declaration::Datatypes { .. } => None,
    }
}

/// The default namespace that the declaration binds.
pub fn default_namespace<'a>(inherited: &'a Text, declaration: &'a Declaration) -> Option<&'a str>
    ensures { as_list result ≡ defaults inherited.now (declaration_of declaration.now) }
{
    match declaration {
        Declaration::DefaultNamespace { uri, .. } => Some(bound_uri(inherited, uri)),
        Declaration::Namespace { .. } | Declaration::Datatypes { .. } => None,
    }
}

/// The datatype prefix that the declaration binds, and its URI.
pub fn datatype_prefix(declaration: &Declaration) -> Option<(&str, &str)>
    ensures { as_table result ≡ libraries (declaration_of declaration.now) }
{
    match declaration {
        Declaration::Datatypes {
            prefix,
            literal,
            ..
        } => Some((prefix.as_str(), literal.as_str())),
        Declaration::Namespace { .. } | Declaration::DefaultNamespace { .. } => None,
    }
}

/// The place of the declaration's first keyword.
pub fn place(declaration: &Declaration) -> usize
    ensures { result ≡ declaration_place (declaration_of declaration.now) }
{
    match declaration {
        Declaration::Namespace { at, .. }
        | Declaration::DefaultNamespace { at, .. }
        | Declaration::Datatypes { at, .. } => *at,
    }
}
