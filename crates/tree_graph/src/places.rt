// The places of `element` tokens, in the order of the tree.
ghost use Rattle.std.specs.Prelude.{◌≡◌, ◌++◌, map, OnOk};
ghost use Rattle.grammar_laws.specs.Trees.{patterns_of, items_of};
ghost use Rattle.schema_tree.specs.Trees.{pattern_of, item_of};
ghost use Rattle.simple_form_laws.specs.Forms.{element_places, places_in_list, places_in_items};

use schema_tree::{Item, Pattern};
use std::alloc::AllocError;

/// Adds the places of the tokens in a pattern.
#[cycle(places)]
pub fn add_places(pattern: &Pattern, places: &mut Vec<usize>) -> Result<(), AllocError>
    ensures { OnOk result (places.new.items ≡ places.old.items ++ element_places (pattern_of pattern.now)) }
{
    match pattern {
        Pattern::Element { content, at, .. } => {
            places.push(*at)?;
            add_places(content.get(), places)
        }
        Pattern::Attribute { content, .. } => add_places(content.get(), places),
        Pattern::List { content, .. } => add_places(content.get(), places),
        Pattern::Group(members) => add_places_in_list(members.as_slice(), places),
        Pattern::Choice(members) => add_places_in_list(members.as_slice(), places),
        Pattern::Interleave(members) => add_places_in_list(members.as_slice(), places),
        Pattern::Optional(content) => add_places(content.get(), places),
        Pattern::ZeroOrMore(content) => add_places(content.get(), places),
        Pattern::OneOrMore(content) => add_places(content.get(), places),
        Pattern::Mixed(content) => add_places(content.get(), places),
        Pattern::DataType { except, .. } => match except {
            Some(except) => add_places(except.get(), places),
            None => Ok(()),
        },
        Pattern::Grammar(items) => add_places_in_items(items.as_slice(), places),
        Pattern::Ref { .. }
        | Pattern::Parent { .. }
        | Pattern::Empty
        | Pattern::AnyText
        | Pattern::NotAllowed
        | Pattern::Value { .. }
        | Pattern::External { .. } => Ok(()),
    }
}

#[cycle(places)]
fn add_places_in_list(members: &[Pattern], places: &mut Vec<usize>) -> Result<(), AllocError>
    ensures { OnOk result (places.new.items ≡ places.old.items ++ places_in_list (patterns_of (map pattern_of members.now))) }
{
    for member in members {
        add_places(member, places)?;
    }
    Ok(())
}

/// Adds the places of the tokens in items.
#[cycle(places)]
pub fn add_places_in_items(items: &[Item], places: &mut Vec<usize>) -> Result<(), AllocError>
    ensures { OnOk result (places.new.items ≡ places.old.items ++ places_in_items (items_of (map item_of items.now))) }
{
    for item in items {
        match item {
            Item::Start { pattern, .. } => add_places(pattern, places)?,
            Item::Define { pattern, .. } => add_places(pattern, places)?,
            Item::Div(inner) => add_places_in_items(inner.as_slice(), places)?,
            Item::Include { .. } => {}
        }
    }
    Ok(())
}
