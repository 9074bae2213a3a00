// The numbers of the combined definitions of a grammar.
ghost use Rattle.std.specs.Prelude.{◌≡◌, ◌+◌, ◌<◌, ◌^◌, suc, [], length, map, IfOk, OnOk};
ghost use Rattle.grammar_laws.specs.Trees.{items_of};
ghost use Rattle.schema_tree.specs.Trees.{item_of};
ghost use Rattle.simple_form_laws.specs.Parts.{entries};
ghost use Rattle.tree_graph.specs.States.{Reserved};
ghost use Rattle.tree_graph.specs.Tables.{number_of, with_entries};

use crate::defined_names::DefinedNames;
use crate::parts::Parts;
use schema_tree::Item;
use std::alloc::{AllocError, Global};
use std::marker::Model;

/// The number of a grammar's combined start, and the names that have the numbers behind it.
#[derive(Drop)]
pub struct Table<'a> {
    base: usize,
    names: DefinedNames<'a>,
}

impl<'a> Model for Table<'a> {
    ghost use Rattle.std.specs.Prelude.{◌+◌, ◌<◌, ◌^◌, length};
    ghost use Rattle.tree_graph.specs.Tables.{Table as Value_of};

    ghost Value = { Value_of };

    ghost view = { λ t. record { base = t.base; names = t.names } };

    ghost invariant = { λ t. t.base + length t.names < 2 ^ 64 };
}

// Gives so many combined definitions the next numbers. The answer is the number behind them.
fn begin_definitions(parts: &mut Parts, count: usize) -> Result<usize, AllocError>
    ensures end { IfOk result (λ n. n ≡ length parts.old.definitions + count) }
    ensures counted { IfOk result (λ n. n ≡ length parts.new.definitions) }
    ensures reserved { OnOk result (Reserved parts.old parts.new) }
{
    for _ in 0..count {
        parts.begin_definition()?;
    }
    Ok(parts.definition_count())
}

impl<'a> Table<'a> {
    /// No name.
    pub fn new(alloc: Global) -> Table<'a>
        ensures { result ≡ record { base = 0; names = [] } }
    {
        Table {
            base: 0,
            names: DefinedNames::new(alloc),
        }
    }

    /// Gives the combined start of a grammar of these items the next number, and each name that they define, through each `div`, one of the
    /// numbers behind it, in the order of first definitions.
    pub fn of(alloc: Global, parts: &mut Parts, items: &'a [Item]) -> Result<Table<'a>, AllocError>
        ensures table { IfOk result (λ t. t ≡ record { base = length parts.old.definitions; names = with_entries [] (entries (items_of (map item_of items.now))) }) }
        ensures counted { IfOk result (λ t. length parts.new.definitions ≡ suc t.base + length t.names) }
        ensures reserved { OnOk result (Reserved parts.old parts.new) }
    {
        let mut names = DefinedNames::new(alloc);
        names.add_items(items)?;
        let base = parts.begin_definition()?;
        begin_definitions(parts, names.len())?;
        Ok(Table { base, names })
    }

    /// The number of the combined start.
    pub fn base(&self) -> usize
        ensures number { result ≡ self.now.base }
        ensures fits { self.now.base + length self.now.names < 2 ^ 64 }
    {
        self.base
    }

    /// How many names it has.
    pub fn len(&self) -> usize
        ensures count { result ≡ length self.now.names }
        ensures small { result < 2 ^ 63 }
    {
        self.names.len()
    }

    /// The number of a name's combined definition; none where the grammar doesn't define the name.
    pub fn number(&self, name: &str) -> Option<usize>
        ensures { result ≡ number_of self.now name.now }
    {
        match self.names.position(name) {
            Some(position) => Some(self.base + 1 + position),
            None => None,
        }
    }
}
