// Prefixes, kinds and name classes in two files, row by row.
ghost use Rattle.std.specs.Prelude.{◌≡◌, ◌≤◌, All, IsTrue, map};
ghost use Rattle.schema_tree.specs.Trees.{class_of, declaration_of};
ghost use Rattle.simple_form_laws.specs.Faults.{declaration_place};
ghost use Rattle.name_resolution.specs.NcNames.{HasNcNames};

use name_classes::Name;
use name_resolution::{Namespaces, Owner};
use schema_tree::{Class, Declaration, TypeName, Uri};
use std::alloc::{AllocError, Global};
use text_atoms::{Kind, Text, is_ncname};

fn text(alloc: Global, characters: &str) -> Result<Text, AllocError> {
    Ok(Text::from_string(String::from_str(alloc, characters)?))
}

/// The place of the declaration's first keyword.
fn place(declaration: &Declaration) -> usize
    ensures { result ≡ declaration_place (declaration_of declaration.now) }
{
    match declaration {
        Declaration::Namespace { at, .. }
        | Declaration::DefaultNamespace { at, .. }
        | Declaration::Datatypes { at, .. } => *at,
    }
}

/// Whether all declarations stand in so many bytes.
fn are_within(declarations: &[Declaration], length: usize) -> bool
    ensures { IsTrue result → All (λ d. declaration_place d ≤ length) (map declaration_of declarations.now) }
{
    for declaration in declarations {
        if place(declaration) > length {
            return false;
        }
    }
    true
}

fn namespace(alloc: Global, prefix: &str, uri: &str, at: usize) -> Result<Declaration, AllocError> {
    Ok(Declaration::Namespace {
        prefix: text(alloc, prefix)?,
        uri: Uri::Literal(text(alloc, uri)?),
        at,
    })
}

/// `p` bound twice, the inherited namespace as the default, and `d` for the built-in library.
fn declarations(alloc: Global) -> Result<Vec<Declaration>, AllocError> {
    let mut made = Vec::new(alloc);
    made.push(namespace(alloc, "p", "u", 0)?)?;
    made.push(namespace(alloc, "p", "v", 4)?)?;
    made.push(Declaration::DefaultNamespace {
        prefix: None,
        uri: Uri::Inherit { at: 12 },
        at: 8,
    })?;
    made.push(Declaration::Datatypes {
        prefix: text(alloc, "d")?,
        literal: text(alloc, "")?,
        at: 16,
    })?;
    Ok(made)
}

/// A file of 20 bytes with the declarations, and one of 9 bytes without.
fn two_files<'a>(
    alloc: Global,
    inherited: &'a Text,
    declarations: &'a [Declaration],
) -> Result<Namespaces<'a>, AllocError> {
    let mut names = Namespaces::new(alloc);
    if are_within(declarations, 20) {
        names.push(alloc, inherited, 20, inherited, declarations)?;
        names.push(alloc, inherited, 9, inherited, &[])?;
    }
    Ok(names)
}

fn kind_of(
    alloc: Global,
    names: &Namespaces<'_>,
    prefix: &str,
    local: &str,
) -> Result<Option<Kind>, AllocError> {
    let of = TypeName::Prefixed {
        prefix: text(alloc, prefix)?,
        local: text(alloc, local)?,
        at: 20,
    };
    Ok(names.kind(&of))
}

/// Whether the class, resolved, has the name.
fn has(
    alloc: Global,
    names: &Namespaces<'_>,
    owner: Owner,
    class: &Class,
    name: &Name,
) -> Result<bool, AllocError>
    requires { HasNcNames (class_of class.now) }
{
    match names.class(alloc, owner, class)? {
        Some(class) => Ok(class.contains(name)),
        None => Ok(false),
    }
}

/// Whether the class of `a` without a prefix has the name.
fn plain_has(
    alloc: Global,
    names: &Namespaces<'_>,
    owner: Owner,
    name: &Name,
) -> Result<bool, AllocError> {
    let local = text(alloc, "a")?;
    if is_ncname(local.as_str()) {
        has(alloc, names, owner, &Class::Plain { local, at: 0 }, name)
    } else {
        Ok(false)
    }
}

/// Whether the class of `a` with the prefix has the name.
fn prefixed_has(
    alloc: Global,
    names: &Namespaces<'_>,
    owner: Owner,
    prefix: &str,
    name: &Name,
) -> Result<bool, AllocError> {
    let prefix = text(alloc, prefix)?;
    let local = text(alloc, "a")?;
    if is_ncname(local.as_str()) {
        let class = Class::Prefixed {
            prefix,
            local,
            at: 0,
        };
        has(alloc, names, owner, &class, name)
    } else {
        Ok(false)
    }
}

/// The name `a` of the namespace.
fn name(alloc: Global, namespace: &str) -> Result<Option<Name>, AllocError> {
    let namespace = text(alloc, namespace)?;
    let local = text(alloc, "a")?;
    match Name::new(namespace, local) {
        Ok(name) => Ok(Some(name)),
        Err(_) => Ok(None),
    }
}

/// Whether the class of `a`, with a prefix or without, has this name of the namespace.
fn has_name(
    alloc: Global,
    names: &Namespaces<'_>,
    owner: Owner,
    prefix: &str,
    namespace: &str,
) -> Result<bool, AllocError> {
    match name(alloc, namespace)? {
        Some(name) if prefix.is_empty() => plain_has(alloc, names, owner, &name),
        Some(name) => prefixed_has(alloc, names, owner, prefix, &name),
        None => Ok(false),
    }
}

/// Whether the prefixes have these namespaces.
fn are_bound(names: &Namespaces<'_>) -> bool {
    let rows = [
        ("p", 0, Some("u")),
        ("p", 20, Some("u")),
        ("p", 21, None),
        ("d", 0, None),
        ("xml", 30, Some("http://www.w3.org/XML/1998/namespace")),
        ("xml", 99, Some("http://www.w3.org/XML/1998/namespace")),
    ];
    for (prefix, at, uri) in &rows {
        if names.namespace(*prefix, *at) != *uri {
            return false;
        }
    }
    names.default_namespace(30) == "i"
}

/// Whether the types have these kinds.
fn have_kinds(alloc: Global, names: &Namespaces<'_>) -> Result<bool, AllocError> {
    let rows = [
        ("xsd", "positiveInteger", Some(Kind::Positive)),
        ("xsd", "token", Some(Kind::Token)),
        ("d", "string", Some(Kind::Str)),
        ("d", "boolean", None),
        ("p", "string", None),
    ];
    for (prefix, local, kind) in &rows {
        if kind_of(alloc, names, *prefix, *local)? != *kind {
            return Ok(false);
        }
    }
    Ok(true)
}

/// Whether the name classes have these names.
fn have_names(alloc: Global, names: &Namespaces<'_>) -> Result<bool, AllocError> {
    let rows = [
        (Owner::Element, "", "i", true),
        (Owner::Attribute, "", "i", false),
        (Owner::Attribute, "", "", true),
        (Owner::Element, "p", "u", true),
        (Owner::Attribute, "q", "u", false),
    ];
    for (owner, prefix, namespace, is_in) in &rows {
        if has_name(alloc, names, *owner, *prefix, *namespace)? != *is_in {
            return Ok(false);
        }
    }
    Ok(true)
}

/// Whether the declarations have no fault but the second one of `p`.
fn have_faults(alloc: Global, names: &Namespaces<'_>) -> Result<bool, AllocError> {
    Ok(names.prefix_twice(alloc)? == Some(4) && names.reserved_prefix().is_none())
}

/// Whether the tables of namespaces, faults, kinds and name classes hold.
fn hold(alloc: Global, names: &Namespaces<'_>) -> Result<[bool; 4], AllocError> {
    let faults = have_faults(alloc, names)?;
    let kinds = have_kinds(alloc, names)?;
    let classes = have_names(alloc, names)?;
    Ok([are_bound(names), faults, kinds, classes])
}

/// Whether the tables hold over two files.
fn tables_hold(alloc: Global) -> Result<[bool; 4], AllocError> {
    let inherited = text(alloc, "i")?;
    let declarations = declarations(alloc)?;
    let names = two_files(alloc, &inherited, declarations.as_slice())?;
    hold(alloc, &names)
}

#[test]
fn two_files_resolved(rt: HostRuntime) -> Result<(), AllocError> {
    let found = tables_hold(rt.alloc())?;
    assert_eq!(rt; found, [true, true, true, true]);
    Ok(())
}
