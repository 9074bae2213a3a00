// What the starts and definitions of a grammar are.
ghost use Rattle.std.specs.Prelude.{◌≡◌, ◌||◌, ◌&&◌, [], ◌∷◌, ◌++◌, not, filter, map, List, Option, IfOk, OnOk, option_map};
ghost use Rattle.std.specs.List.{list_any};
ghost use Rattle.rng_model.specs.Texts.{Text};
ghost use Rattle.grammar_laws.specs.Trees.{items_of, Method as MethodValue, Pattern as PatternValue};
ghost use Rattle.schema_tree.specs.Trees.{item_of, method_of};
ghost use Rattle.simple_form_laws.specs.Parts.{Entry, entries, entries_in, same_key};
ghost use Rattle.simple_form_laws.specs.Faults.{are_mixed, are_plain, is_empty_list};
ghost use Rattle.name_resolution.specs.Least.{least};
ghost use Rattle.simple_form_laws.specs.Faults.{place_if};
ghost use Rattle.tree_faults.specs.Entries.{Holds, has_method, same_method, made};

use crate::keys::Keys;
use name_resolution::lesser;
use schema_tree::{Item, Method};
use std::alloc::{AllocError, Global};

/// The keys of a grammar's starts and definitions by how they are combined, and the places where these clash.
#[derive(Drop)]
pub struct Entries<'a> {
    plain: Keys<'a>,
    choice: Keys<'a>,
    interleave: Keys<'a>,
    /// The least place of a start or definition with `|=` behind one of its name with `&=`, or the reverse.
    pub mixed: Option<usize>,
    /// The least place of a start or definition with `=` behind one of its name with `=`.
    pub twice: Option<usize>,
}

/// The place, where the test is passed.
pub(crate) fn place_if(holds: bool, at: usize) -> Option<usize>
    ensures { result ≡ least (place_if holds at) }
{
    if holds { Some(at) } else { None }
}

impl<'a> Entries<'a> {
    // Neither a start nor a definition.
    #[tactic(auto, using(crate::proofs::EntryLists::holds_none))]
    fn new(alloc: Global) -> Entries<'a>
        ensures { Holds result [] }
    {
        Entries {
            plain: Keys::new(alloc),
            choice: Keys::new(alloc),
            interleave: Keys::new(alloc),
            mixed: None,
            twice: None,
        }
    }

    // Whether one of the name is combined so.
    fn has_method(&self, method: Method, key: Option<&str>) -> bool
        ensures { result ≡ has_method self.now (method_of method) (option_map (λ u. u.now) key.entry) }
    {
        match method {
            Method::Plain => self.plain.has(key),
            Method::Choice => self.choice.has(key),
            Method::Interleave => self.interleave.has(key),
        }
    }

    /// Whether the name is defined; with none, whether there is a start.
    pub fn has(&self, key: Option<&str>) -> bool
        ensures { (es : List Entry) → Holds self.now es → result ≡ not (is_empty_list (filter (λ e. same_key (option_map (λ u. u.now) key.entry) e.name) es)) }
    {
        self.has_method(Method::Plain, key)
            | self.has_method(Method::Choice, key)
            | self.has_method(Method::Interleave, key)
    }

    // Whether one of the name is combined the other way.
    fn is_mixed(&self, method: Method, key: Option<&str>) -> bool
        ensures { (es : List Entry) → Holds self.now es → result ≡ list_any (λ e. same_key e.name (option_map (λ u. u.now) key.entry) && are_mixed e.method (method_of method)) es }
    {
        match method {
            Method::Plain => false,
            Method::Choice => self.interleave.has(key),
            Method::Interleave => self.choice.has(key),
        }
    }

    // Whether it is a plain one behind a plain one of the name.
    fn is_twice(&self, method: Method, key: Option<&str>) -> bool
        ensures { (es : List Entry) → Holds self.now es → result ≡ list_any (λ e. same_key e.name (option_map (λ u. u.now) key.entry) && are_plain e.method (method_of method)) es }
    {
        match method {
            Method::Plain => self.plain.has(key),
            Method::Choice => false,
            Method::Interleave => false,
        }
    }

    // Keeps the name and how it is combined.
    #[tactic(auto, using(crate::proofs::EntryLists::noted_plain, crate::proofs::EntryLists::noted_choice, crate::proofs::EntryLists::noted_interleave))]
    fn note(&mut self, method: Method, key: Option<&'a str>) -> Result<(), AllocError>
        ensures keys { OnOk result ((m : MethodValue) (k : Option Text) → has_method self.new m k ≡ (has_method self.old m k || (same_key k (option_map (λ u. u.now) key.entry) && same_method m (method_of method)))) }
        ensures mixed { self.new.mixed ≡ self.old.mixed }
        ensures twice { self.new.twice ≡ self.old.twice }
    {
        match method {
            Method::Plain => self.plain.add(key),
            Method::Choice => self.choice.add(key),
            Method::Interleave => self.interleave.add(key),
        }
    }

    // One start or definition more.
    fn add(&mut self, method: Method, key: Option<&'a str>, at: usize) -> Result<(), AllocError>
        ensures { OnOk result ((es : List Entry) (p : PatternValue) → Holds self.old es → Holds self.new (es ++ made (option_map (λ u. u.now) key.entry) (method_of method) p at ∷ [])) }
    {
        let is_mixed = self.is_mixed(method, key);
        let is_twice = self.is_twice(method, key);
        self.note(method, key)?;
        self.mixed = lesser(self.mixed, place_if(is_mixed, at));
        self.twice = lesser(self.twice, place_if(is_twice, at));
        Ok(())
    }

    // Those of the items.
    #[tactic(auto, using(crate::proofs::EntryLists::all_read, crate::proofs::EntryLists::none_read))]
    #[cycle(items)]
    fn add_items(&mut self, items: &'a [Item]) -> Result<(), AllocError>
        ensures { OnOk result ((es : List Entry) → Holds self.old es → Holds self.new (es ++ entries (items_of (map item_of items.now)))) }
    {
        for item in items {
            self.add_item(item)?;
        }
        Ok(())
    }

    // Those of an item.
    #[tactic(auto, using(crate::proofs::EntryLists::none_read))]
    #[cycle(items)]
    fn add_item(&mut self, item: &'a Item) -> Result<(), AllocError>
        ensures { OnOk result ((es : List Entry) → Holds self.old es → Holds self.new (es ++ entries_in (item_of item.now))) }
    {
        match item {
            Item::Start { method, at, .. } => self.add(*method, None, *at),
            Item::Define {
                name,
                method,
                at,
                ..
            } => self.add(*method, Some(name.as_str()), *at),
            Item::Div(inner) => self.add_items(inner.as_slice()),
            Item::Include { .. } => Ok(()),
        }
    }

    /// Those of a grammar with the items, through each `div`.
    pub fn of(alloc: Global, items: &'a [Item]) -> Result<Entries<'a>, AllocError>
        ensures { IfOk result (λ d. Holds d (entries (items_of (map item_of items.now)))) }
    {
        let mut made = Entries::new(alloc);
        made.add_items(items)?;
        Ok(made)
    }
}
