// The names that a grammar defines.
ghost use Rattle.std.specs.Prelude.{◌≡◌, ◌<◌, ◌^◌, [], length, map, position, IfSome, OnOk};
ghost use Rattle.std.specs.Str.{bytes_eq};
ghost use Rattle.grammar_laws.specs.Trees.{items_of};
ghost use Rattle.schema_tree.specs.Trees.{item_of};
ghost use Rattle.simple_form_laws.specs.Parts.{entries};
ghost use Rattle.tree_graph.specs.Tables.{with_name, with_entries};

use indexmap::IndexSet;
use schema_tree::Item;
use std::alloc::{AllocError, Global};
use std::marker::Model;

/// Names, each once, in the order of their first definitions.
#[derive(Drop)]
pub struct DefinedNames<'a> {
    names: IndexSet<&'a str>,
}

impl<'a> Model for DefinedNames<'a> {
    ghost use Rattle.std.specs.Prelude.{List, map};
    ghost use Rattle.rng_model.specs.Texts.{Text};

    ghost Value = { List Text };

    ghost view = { λ t. map (λ n. n.now) t.names.keys };
}

impl<'a> DefinedNames<'a> {
    /// No name.
    pub fn new(alloc: Global) -> DefinedNames<'a>
        ensures { result ≡ [] }
    {
        DefinedNames {
            names: IndexSet::new(alloc),
        }
    }

    /// How many there are.
    pub fn len(&self) -> usize
        ensures count { result ≡ length self.now }
        ensures small { result < 2 ^ 63 }
    {
        self.names.len()
    }

    /// The position of a name, counted from 0.
    pub fn position(&self, name: &str) -> Option<usize>
        ensures value { result ≡ position (bytes_eq name.now) self.now }
        ensures within { IfSome result (λ i. i < length self.now) }
    {
        self.names.get_index_of(name)
    }

    /// Adds a name, unless it is there.
    pub fn add(&mut self, name: &'a str) -> Result<(), AllocError>
        ensures { OnOk result (self.new ≡ with_name self.old name.now) }
    {
        self.names.insert(name)?;
        Ok(())
    }

    /// Adds the names of the definitions among the items, through each `div`.
    #[cycle(items)]
    pub fn add_items(&mut self, items: &'a [Item]) -> Result<(), AllocError>
        ensures { OnOk result (self.new ≡ with_entries self.old (entries (items_of (map item_of items.now)))) }
    {
        for item in items {
            match item {
                Item::Define { name, .. } => self.add(name.as_str())?,
                Item::Div(inner) => self.add_items(inner.as_slice())?,
                Item::Start { .. } => {}
                Item::Include { .. } => {}
            }
        }
        Ok(())
    }
}
