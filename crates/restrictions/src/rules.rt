// Whether each rule is broken.
ghost use Rattle.std.specs.Prelude.{◌≡◌, ℕ, ◌<◌, false, true, length, IfOk};
ghost use Rattle.std.specs.Bool.{OnFalse, OnTrue};
ghost use Rattle.rng_model.specs.Patterns.{Definition, Defines, Pattern};
ghost use Rattle.pattern_intern.specs.Schemas.{definition_at};
ghost use Rattle.pattern_intern.specs.Stored.{count, tree_at};
ghost use Rattle.restrictions.specs.Described.{AreDescribed, IsDescribed};
ghost use Rattle.restrictions.specs.Flags.{IsByFlags, flag, flag_in_content, flag_in_start, has_no_type};
ghost use Rattle.restrictions.specs.Rules.{Breaks, IsLeastBroken};
ghost use Rattle.name_universe.specs.Tables.{IsUniverse};
ghost use Rattle.restrictions.specs.declared.rule.Rule.TheVariants.{DuplicateAttributes, InterleaveElements};

use crate::described::{Described, description};
use crate::rule::Rule;
use crate::shared::{Sought, some_name_meets};
use name_universe::Universe;
use pattern_intern::{Node, PatternId, Schema};
use std::alloc::{AllocError, Global};

// What the pattern's description says of the rule.
fn flag_of(known: Described, rule: Rule) -> bool
    ensures { (p : Pattern) → IsDescribed p known → result ≡ flag rule p }
{
    match rule {
        Rule::AttributeRef => known.paths.attribute_refs,
        Rule::AttributeAttribute => known.paths.attribute_attributes,
        Rule::OneOrMoreGroupAttribute => known.paths.repeated_groups,
        Rule::OneOrMoreInterleaveAttribute => known.paths.repeated_interleaves,
        Rule::DataExcept => known.paths.excepts,
        Rule::InfiniteAttribute => known.loose,
        Rule::InterleaveText => known.texts.meets,
        Rule::Start | Rule::StringSequence | Rule::DuplicateAttributes | Rule::InterleaveElements =>
            false,
    }
}

// Whether the start breaks the rule.
fn start_breaks(schema: &Schema, known: &[Described], rule: Rule) -> bool
    requires { AreDescribed schema.now.pool (count schema.now.pool) known.now }
    ensures { result ≡ flag_in_start rule schema.now.schema.start }
{
    let start = description(schema, known, schema.start());
    match rule {
        Rule::Start => start.paths.no_start,
        _ => flag_of(start, rule),
    }
}

// Whether the content of an element has no content type, and isn't notAllowed.
fn lacks_type(schema: &Schema, content: PatternId) -> bool
    requires { content.0 < count schema.now.pool }
    ensures { result ≡ has_no_type (tree_at schema.now.pool content.0) }
{
    match schema.pool().node(content) {
        Node::NotAllowed => false,
        Node::DataType(_, None) => schema.pool().content_type(content).is_none(),
        Node::DataType(_, Some(_)) => schema.pool().content_type(content).is_none(),
        _ => schema.pool().content_type(content).is_none(),
    }
}

// Whether the content of an element breaks the rule.
fn content_breaks(schema: &Schema, known: &[Described], rule: Rule, element: usize) -> bool
    requires known { AreDescribed schema.now.pool (count schema.now.pool) known.now }
    requires element { element < length schema.now.schema.elements }
    ensures { result ≡ flag_in_content rule (definition_at schema.now element).content }
{
    let content = schema.element_content(element);
    match rule {
        Rule::StringSequence => lacks_type(schema, content),
        _ => flag_of(description(schema, known, content), rule),
    }
}

// Whether some content breaks the rule.
fn contents_break(schema: &Schema, known: &[Described], rule: Rule) -> bool
    requires { AreDescribed schema.now.pool (count schema.now.pool) known.now }
    ensures yes { OnTrue result ((d : ℕ) × (e : Definition) × Defines schema.now.schema d e × (flag_in_content rule e.content ≡ true)) }
    ensures no { OnFalse result ((d : ℕ) (e : Definition) → Defines schema.now.schema d e → flag_in_content rule e.content ≡ true → ⊥) }
{
    for element in 0..schema.element_count() {
        if content_breaks(schema, known, rule, element) {
            return true;
        }
    }
    false
}

// Whether a rule is broken that what is known of the patterns decides.
fn is_broken_by_flags(schema: &Schema, known: &[Described], rule: Rule) -> bool
    requires known { AreDescribed schema.now.pool (count schema.now.pool) known.now }
    requires rule { IsByFlags rule }
    ensures yes { OnTrue result (Breaks schema.now.schema rule) }
    ensures no { OnFalse result (Breaks schema.now.schema rule → ⊥) }
{
    start_breaks(schema, known, rule) || contents_break(schema, known, rule)
}

// Whether attributes can have one name in both sides of a group or interleave.
fn attributes_meet(alloc: Global, schema: &Schema, universe: &Universe) -> Result<bool, AllocError>
    requires { IsUniverse schema.now.schema 1 universe.now }
    ensures yes { IfOk result (λ b. b ≡ true → Breaks schema.now.schema DuplicateAttributes) }
    ensures no { IfOk result (λ b. b ≡ false → Breaks schema.now.schema DuplicateAttributes → ⊥) }
{
    let names = universe.attributes().as_slice();
    some_name_meets(alloc, schema, Sought::Attributes, names)
}

// Whether elements can have one name in both sides of an interleave.
fn elements_meet(alloc: Global, schema: &Schema, universe: &Universe) -> Result<bool, AllocError>
    requires { IsUniverse schema.now.schema 1 universe.now }
    ensures yes { IfOk result (λ b. b ≡ true → Breaks schema.now.schema InterleaveElements) }
    ensures no { IfOk result (λ b. b ≡ false → Breaks schema.now.schema InterleaveElements → ⊥) }
{
    let names = universe.elements().as_slice();
    some_name_meets(alloc, schema, Sought::Elements, names)
}

// Whether the rule is broken.
fn is_broken(
    alloc: Global,
    schema: &Schema,
    universe: &Universe,
    known: &[Described],
    rule: Rule,
) -> Result<bool, AllocError>
    requires universe { IsUniverse schema.now.schema 1 universe.now }
    requires known { AreDescribed schema.now.pool (count schema.now.pool) known.now }
    ensures yes { IfOk result (λ b. b ≡ true → Breaks schema.now.schema rule) }
    ensures no { IfOk result (λ b. b ≡ false → Breaks schema.now.schema rule → ⊥) }
{
    match rule {
        Rule::DuplicateAttributes => attributes_meet(alloc, schema, universe),
        Rule::InterleaveElements => elements_meet(alloc, schema, universe),
        _ => Ok(is_broken_by_flags(schema, known, rule)),
    }
}

/// The least rule that is broken.
pub(crate) fn least_broken(
    alloc: Global,
    schema: &Schema,
    universe: &Universe,
    known: &[Described],
) -> Result<Option<Rule>, AllocError>
    requires universe { IsUniverse schema.now.schema 1 universe.now }
    requires known { AreDescribed schema.now.pool (count schema.now.pool) known.now }
    ensures { IfOk result (IsLeastBroken schema.now.schema) }
{
    for number in 1..12 {
        let rule = Rule::numbered(number);
        if is_broken(alloc, schema, universe, known, rule)? {
            return Ok(Some(rule));
        }
    }
    Ok(None)
}
