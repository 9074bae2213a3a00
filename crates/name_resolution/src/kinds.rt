// The kinds that types of libraries name.
ghost use Rattle.std.specs.Prelude.{◌≡◌, option_map};
ghost use Rattle.simple_form_laws.specs.Prefixes.{built_in_kind, second_kind, library_kind};
ghost use Rattle.text_atoms.specs.Kinds.{kind_of};

use text_atoms::Kind;

/// The URI of XML Schema's datatype library, to which `xsd` is bound.
pub const XSD_URI: &str = "http://www.w3.org/2001/XMLSchema-datatypes";

// RELAX NG's built-in datatype library (RELAX NG Specification, section 4.4).
fn built_in_kind(local: &str) -> Option<Kind>
    ensures { option_map kind_of result ≡ built_in_kind local.now }
{
    match local {
        "string" => Some(Kind::Str),
        "token" => Some(Kind::Token),
        _ => None,
    }
}

// XML Schema's datatype library, as far as it is taken.
fn schema_kind(local: &str) -> Option<Kind>
    ensures { option_map kind_of result ≡ second_kind local.now }
{
    match local {
        "boolean" => Some(Kind::Boolean),
        "integer" => Some(Kind::Integer),
        "nonNegativeInteger" => Some(Kind::NonNegative),
        "positiveInteger" => Some(Kind::Positive),
        "NCName" => Some(Kind::NcName),
        "NMTOKEN" => Some(Kind::Nmtoken),
        _ => built_in_kind(local),
    }
}

/// The kind that a library's type names; the empty text names the built-in library.
pub fn library_kind(library: &str, local: &str) -> Option<Kind>
    ensures { option_map kind_of result ≡ library_kind local.now library.now }
{
    if library == XSD_URI {
        schema_kind(local)
    } else if library.is_empty() {
        built_in_kind(local)
    } else {
        None
    }
}
