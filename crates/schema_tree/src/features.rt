// The features that aren't taken.
ghost use Rattle.std.specs.Prelude.{◌≡◌, ◌↔◌, ◌⊎◌, ◌+◌, ◌<◌, ◌≤◌, ◌^◌, true, false, map, Some, option_map, IsTrue};
ghost use Rattle.schema_tree.specs.Features.{HasFeature, HasReference, InPattern, InPatterns, InItem, InItems, InBody, InType, InParameters, InPassed, InUri, InDeclaration, InDeclarations, InFiles, Is};
ghost use Rattle.schema_tree.specs.Least.{Wants, feature_rank, feature_order, IsLeast, IsEarlier, IsFirst};
ghost use Rattle.schema_tree.specs.Files.{full_of, file_of, IsUriWithin, IsWithin, AreWithin, AreFitting};
ghost use Rattle.schema_tree.specs.Trees.{pattern_of, item_of, body_of, declaration_of, uri_of, type_of, parameter_of, passed_of};
ghost use Rattle.grammar_laws.specs.Trees.{patterns_of, items_of};

use crate::files::Entry;
use crate::foreign::{declarations_at, is_foreign};
use crate::full::Full;
use crate::tree::{Body, Declaration, Item, Parameter, Passed, Pattern, TypeName, Uri};
use std::marker::Model;

/// What isn't taken in a schema.
#[derive(Clone, Copy, Debug, PartialEq, Eq)]
pub enum Feature {
    /// `include`, at the keyword.
    Include,
    /// `external`, at the keyword.
    External,
    /// `inherit` as the URI of a declaration, or before `=` with a reference, at the keyword.
    Inherit,
    /// `list`, at the keyword.
    List,
    /// A type of neither library that is known, or one that the library doesn't have here, at its name.
    ForeignType,
    /// A parameter of a datatype, at its name.
    Parameter,
}

/// The feature with the least place, or None where the schema has none. Of several at one place, which no tokens give, the first in the
/// order of features comes.
pub fn refused_feature(full: &Full) -> Option<(Feature, usize)>
    ensures { IsLeast false (HasFeature (full_of full.now)) result }
{
    least(false, full)
}

/// The least place of an `external` or `include`, or None where the schema refers to no other file.
pub fn first_reference(full: &Full) -> Option<usize>
    ensures { IsFirst (HasReference (full_of full.now)) result }
{
    match least(true, full) {
        Some((_, at)) => Some(at),
        None => None,
    }
}

/// The least feature, or the least reference.
fn least(references: bool, full: &Full) -> Option<(Feature, usize)>
    ensures { IsLeast references (HasFeature (full_of full.now)) result }
{
    let files = full.files().entries();
    let declared = in_files(references, files);
    earlier(declared, in_body(references, files, full.body()))
}

fn in_body(references: bool, files: &[Entry], body: &Body) -> Option<(Feature, usize)>
    ensures { IsLeast references (InBody (map file_of files.now) (body_of body.now)) result }
{
    match body {
        Body::Pattern(pattern) => in_pattern(references, files, pattern),
        Body::Items(items) => in_items(references, files, items.as_slice()),
    }
}

fn wants(references: bool, feature: Feature) -> bool
    ensures { IsTrue result ↔ Wants references feature }
{
    !references || matches!(feature, Feature::External | Feature::Include)
}

/// The feature at the place, if it is looked for.
fn alone(references: bool, feature: Feature, at: usize) -> Option<(Feature, usize)>
    ensures { IsLeast references (Is feature at) result }
{
    if wants(references, feature) {
        Some((feature, at))
    } else {
        None
    }
}

/// The place of a feature in the order of features.
fn rank(feature: Feature) -> usize
    ensures { result ≡ feature_rank feature }
{
    match feature {
        Feature::Include => 0,
        Feature::External => 1,
        Feature::Inherit => 2,
        Feature::List => 3,
        Feature::ForeignType => 4,
        Feature::Parameter => 5,
    }
}

/// Whether the first has the lesser place, or at one place isn't behind the second in the order of features.
#[tactic(auto, unfolding(crate::specs::Least::feature_order))]
fn comes_first(first: (Feature, usize), second: (Feature, usize)) -> bool
    ensures { IsTrue result ↔ (feature_order first.0 first.1 ≤ feature_order second.0 second.1) }
{
    first.1 < second.1 || (first.1 == second.1 && rank(first.0) <= rank(second.0))
}

/// The earlier of the two.
fn earlier(
    first: Option<(Feature, usize)>,
    second: Option<(Feature, usize)>,
) -> Option<(Feature, usize)>
    ensures { IsEarlier first second result }
{
    match (first, second) {
        (None, found) => found,
        (found, None) => found,
        (Some(first), Some(second)) => Some(if comes_first(first, second) {
            first
        } else {
            second
        }),
    }
}

#[cycle(walk)]
fn in_pattern(references: bool, files: &[Entry], pattern: &Pattern) -> Option<(Feature, usize)>
    ensures { IsLeast references (InPattern (map file_of files.now) (pattern_of pattern.now)) result }
{
    match pattern {
        Pattern::Element { content, .. } => in_pattern(references, files, content.get()),
        Pattern::Attribute { content, .. } => in_pattern(references, files, content.get()),
        Pattern::Group(members) => in_patterns(references, files, members.as_slice()),
        Pattern::Choice(members) => in_patterns(references, files, members.as_slice()),
        Pattern::Interleave(members) => in_patterns(references, files, members.as_slice()),
        Pattern::Optional(content) => in_pattern(references, files, content.get()),
        Pattern::ZeroOrMore(content) => in_pattern(references, files, content.get()),
        Pattern::OneOrMore(content) => in_pattern(references, files, content.get()),
        Pattern::List { content, at } => {
            let here = alone(references, Feature::List, *at);
            earlier(here, in_pattern(references, files, content.get()))
        }
        Pattern::Mixed(content) => in_pattern(references, files, content.get()),
        Pattern::Ref { .. } => None,
        Pattern::Parent { .. } => None,
        Pattern::Empty => None,
        Pattern::AnyText => None,
        Pattern::NotAllowed => None,
        Pattern::Value { of: None, .. } => None,
        Pattern::Value { of: Some(of), .. } => in_type(references, files, of),
        Pattern::DataType {
            of,
            parameters,
            except: None,
        } => in_datatype(references, files, of, parameters.as_slice()),
        Pattern::DataType {
            of,
            parameters,
            except: Some(operand),
        } => {
            let here = in_datatype(references, files, of, parameters.as_slice());
            earlier(here, in_pattern(references, files, operand.get()))
        }
        Pattern::External { passed, at, .. } => {
            earlier(
                alone(references, Feature::External, *at),
                in_passed(references, passed),
            )
        }
        Pattern::Grammar(items) => in_items(references, files, items.as_slice()),
    }
}

#[cycle(walk)]
fn in_patterns(references: bool, files: &[Entry], members: &[Pattern]) -> Option<(Feature, usize)>
    ensures { IsLeast references (InPatterns (map file_of files.now) (patterns_of (map pattern_of members.now))) result }
{
    let mut found = None;
    for member in members {
        found = earlier(found, in_pattern(references, files, member));
    }
    found
}

#[cycle(walk)]
fn in_items(references: bool, files: &[Entry], items: &[Item]) -> Option<(Feature, usize)>
    ensures { IsLeast references (InItems (map file_of files.now) (items_of (map item_of items.now))) result }
{
    let mut found = None;
    for item in items {
        found = earlier(found, in_item(references, files, item));
    }
    found
}

#[cycle(walk)]
fn in_item(references: bool, files: &[Entry], item: &Item) -> Option<(Feature, usize)>
    ensures { IsLeast references (InItem (map file_of files.now) (item_of item.now)) result }
{
    match item {
        Item::Start { pattern, .. } => in_pattern(references, files, pattern),
        Item::Define { pattern, .. } => in_pattern(references, files, pattern),
        Item::Div(items) => in_items(references, files, items.as_slice()),
        Item::Include {
            passed,
            inner,
            at,
            ..
        } => {
            let here = earlier(
                alone(references, Feature::Include, *at),
                in_passed(references, passed),
            );
            earlier(here, in_items(references, files, inner.as_slice()))
        }
    }
}

fn in_datatype(
    references: bool,
    files: &[Entry],
    of: &TypeName,
    parameters: &[Parameter],
) -> Option<(Feature, usize)>
    ensures { IsLeast references (λ f a. InType (map file_of files.now) (type_of of.now) f a ⊎ InParameters (map parameter_of parameters.now) f a) result }
{
    let here = in_type(references, files, of);
    match parameters.first() {
        Some(parameter) => earlier(here, alone(references, Feature::Parameter, parameter.at)),
        None => here,
    }
}

fn in_type(references: bool, files: &[Entry], of: &TypeName) -> Option<(Feature, usize)>
    ensures { IsLeast references (InType (map file_of files.now) (type_of of.now)) result }
{
    match of {
        TypeName::BuiltString { .. } => None,
        TypeName::BuiltToken { .. } => None,
        TypeName::Prefixed { prefix, local, at } => {
            if is_foreign(declarations_at(files, *at), prefix, local) {
                alone(references, Feature::ForeignType, *at)
            } else {
                None
            }
        }
    }
}

fn in_passed(references: bool, passed: &Option<Passed>) -> Option<(Feature, usize)>
    ensures { IsLeast references (InPassed (option_map passed_of passed.now)) result }
{
    match passed {
        Some(passed) => alone(references, Feature::Inherit, passed.at),
        None => None,
    }
}

/// The first `inherit` of the files' declarations.
fn in_files(references: bool, files: &[Entry]) -> Option<(Feature, usize)>
    requires { AreFitting files.now }
    ensures { IsLeast references (InFiles 0 (map file_of files.now)) result }
{
    let mut found = None;
    let mut rest = files;
    while let Some((first, others)) = rest.split_first() {
        let here = in_declarations(
            references,
            first.base,
            first.length,
            first.declarations.as_slice(),
        );
        found = earlier(found, here);
        rest = others;
    }
    found
}

/// The first `inherit` of the declarations of a file of so many bytes.
fn in_declarations(
    references: bool,
    base: usize,
    length: usize,
    declarations: &[Declaration],
) -> Option<(Feature, usize)>
    requires fits { base + length < 2 ^ 64 }
    requires within { AreWithin length (map declaration_of declarations.now) }
    ensures { IsLeast references (InDeclarations base (map declaration_of declarations.now)) result }
{
    let mut found = None;
    let mut rest = declarations;
    while let Some((first, others)) = rest.split_first() {
        found = earlier(found, in_declaration(references, base, length, first));
        rest = others;
    }
    found
}

fn in_declaration(
    references: bool,
    base: usize,
    length: usize,
    declaration: &Declaration,
) -> Option<(Feature, usize)>
    requires fits { base + length < 2 ^ 64 }
    requires within { IsWithin length (declaration_of declaration.now) }
    ensures { IsLeast references (InDeclaration base (declaration_of declaration.now)) result }
{
    match declaration {
        Declaration::Namespace { uri, .. } => in_uri(references, base, length, uri),
        Declaration::DefaultNamespace { uri, .. } => in_uri(references, base, length, uri),
        Declaration::Datatypes { .. } => None,
    }
}

fn in_uri(references: bool, base: usize, length: usize, uri: &Uri) -> Option<(Feature, usize)>
    requires fits { base + length < 2 ^ 64 }
    requires within { IsUriWithin length (uri_of uri.now) }
    ensures { IsLeast references (InUri base (uri_of uri.now)) result }
{
    match uri {
        Uri::Literal(_) => None,
        Uri::Inherit { at } => alone(references, Feature::Inherit, base + *at),
    }
}
