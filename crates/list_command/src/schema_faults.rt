// The faults of each step from bytes to a schema, as faults of the schema.
ghost use Rattle.std.specs.Prelude.{◌≡◌, ◌≤◌, ℕ, List, length};
ghost use Rattle.token_laws.specs.Tokens.{Placed};
ghost use Rattle.token_laws.specs.Lexing.{Tokens as AreTokens, LexRefusal};
ghost use Rattle.grammar_laws.specs.Files.{Full};
ghost use Rattle.rnc_lexer.specs.Views.{IsFault};
ghost use Rattle.rnc_parser.specs.Refusals as parser;
ghost use Rattle.restrictions.specs.Rules.{number_of};
ghost use Rattle.simplify.specs.Refusals as simple;
ghost use Rattle.list_command.specs.Accepting.{IsTakenTree, Refuses, feature_fault};
ghost use Rattle.list_command.specs.Refusals.{IfRefused};

use crate::outcome::SchemaFault;
use crate::schema::ReadSchemaFault;
use restrictions::Rule;
use rnc_lexer::LexFault;
use rnc_parser::ParseFault;
use schema_tree::Feature;
use simplify::SimplifyFault;

/// A fault of lexing as the fault of a schema.
pub(crate) fn no_tokens(fault: LexFault) -> ReadSchemaFault
    ensures { (bytes : List ℕ) → length bytes ≤ 1048576 → IsFault (LexRefusal bytes) fault → IfRefused (Refuses bytes) result }
{
    match fault {
        LexFault::BadUtf8 { at } => ReadSchemaFault::Refused(SchemaFault::BadUtf8 { at }),
        LexFault::BadCharacter { at } => ReadSchemaFault::Refused(SchemaFault::BadCharacter { at }),
        LexFault::OpenLiteral { at } => ReadSchemaFault::Refused(SchemaFault::OpenLiteral { at }),
        LexFault::BadEscape { at } => ReadSchemaFault::Refused(SchemaFault::BadEscape { at }),
        LexFault::EscapeRefused { at } => ReadSchemaFault::Refused(SchemaFault::EscapeRefused {
            at,
        }),
        LexFault::LiteralTooLong { at } => ReadSchemaFault::Refused(SchemaFault::LiteralTooLong {
            at,
        }),
        LexFault::NameTooLong { at } => ReadSchemaFault::Refused(SchemaFault::NameTooLong { at }),
        LexFault::OutOfMemory => ReadSchemaFault::OutOfMemory,
    }
}

/// A fault of the grammar as the fault of a schema.
pub(crate) fn no_tree(fault: ParseFault) -> ReadSchemaFault
    ensures { (bytes : List ℕ) (tokens : List Placed) → length bytes ≤ 1048576 → AreTokens bytes tokens →
        parser.IsRefusal tokens (length bytes) fault → IfRefused (Refuses bytes) result }
{
    match fault {
        ParseFault::Syntax { at } => ReadSchemaFault::Refused(SchemaFault::Syntax { at }),
        ParseFault::TooDeep { at } => ReadSchemaFault::Refused(SchemaFault::TooDeep { at }),
        ParseFault::OutOfMemory => ReadSchemaFault::OutOfMemory,
    }
}

/// A feature that isn't taken as the fault of a schema.
pub(crate) fn feature_fault(feature: Feature, at: usize) -> SchemaFault
    ensures { result ≡ feature_fault feature at }
{
    match feature {
        Feature::Include => SchemaFault::Include { at },
        Feature::External => SchemaFault::External { at },
        Feature::Inherit => SchemaFault::Inherit { at },
        Feature::List => SchemaFault::List { at },
        Feature::ForeignType => SchemaFault::ForeignType { at },
        Feature::Parameter => SchemaFault::Parameter { at },
    }
}

/// A fault of simplification as the fault of a schema.
pub(crate) fn no_form(fault: SimplifyFault) -> ReadSchemaFault
    ensures { (bytes : List ℕ) (full : Full) → IsTakenTree bytes full → simple.IsRefusal full fault → IfRefused (Refuses bytes) result }
{
    match fault {
        SimplifyFault::UnboundPrefix { at } => ReadSchemaFault::Refused(SchemaFault::UnboundPrefix {
            at,
        }),
        SimplifyFault::PrefixTwice { at } => ReadSchemaFault::Refused(SchemaFault::PrefixTwice {
            at,
        }),
        SimplifyFault::ReservedPrefix { at } => ReadSchemaFault::Refused(
            SchemaFault::ReservedPrefix { at },
        ),
        SimplifyFault::ClassConstraint { at } => ReadSchemaFault::Refused(
            SchemaFault::ClassConstraint { at },
        ),
        SimplifyFault::XmlnsAttribute { at } => ReadSchemaFault::Refused(
            SchemaFault::XmlnsAttribute { at },
        ),
        SimplifyFault::NoStart => ReadSchemaFault::Refused(SchemaFault::NoStart),
        SimplifyFault::UndefinedName { at } => ReadSchemaFault::Refused(SchemaFault::UndefinedName {
            at,
        }),
        SimplifyFault::ParentOutside { at } => ReadSchemaFault::Refused(SchemaFault::ParentOutside {
            at,
        }),
        SimplifyFault::CombineMixed { at } => ReadSchemaFault::Refused(SchemaFault::CombineMixed {
            at,
        }),
        SimplifyFault::DefinedTwice { at } => ReadSchemaFault::Refused(SchemaFault::DefinedTwice {
            at,
        }),
        SimplifyFault::Loop { at } => ReadSchemaFault::Refused(SchemaFault::Loop { at }),
        SimplifyFault::ExpandedTooDeep => ReadSchemaFault::Refused(SchemaFault::ExpandedTooDeep),
        SimplifyFault::BadValue { at } => ReadSchemaFault::Refused(SchemaFault::BadValue { at }),
        SimplifyFault::OutOfMemory => ReadSchemaFault::OutOfMemory,
    }
}

/// A broken rule as the fault of a schema.
pub(crate) fn restriction(rule: Rule) -> SchemaFault
    ensures { result ≡ SchemaFault.Restriction (number_of rule) }
{
    SchemaFault::Restriction {
        rule: usize::from(rule.number()),
    }
}
