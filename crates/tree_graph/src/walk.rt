// The walk through a tree that makes the nodes of its parts.
ghost use Rattle.std.specs.Prelude.{◌≡◌, ℕ, [], Some, option_map, IfOk, OnOk};
ghost use Rattle.rng_model.specs.Classes as simple;
ghost use Rattle.rng_model.specs.Kinds as kinds;
ghost use Rattle.text_atoms.specs.Kinds.{kind_of as kind_value};
ghost use Rattle.name_classes.specs.Views.{class_of as class_value};
ghost use Rattle.grammar_laws.specs.Files.{body_pattern};
ghost use Rattle.schema_tree.specs.Trees.{body_of, pattern_of, method_of, type_of, class_of as tree_class};
ghost use Rattle.simple_form_laws.specs.ClassForms.{class_of};
ghost use Rattle.simple_form_laws.specs.Parts.{is_interleave};
ghost use Rattle.simple_form_laws.specs.Prefixes.{kind_of};
ghost use Rattle.name_resolution.specs.NcNames.{HasNcNames};
ghost use Rattle.name_resolution.specs.Owners.{use_of};
ghost use Rattle.schema_graph.specs.Shown.{IsKind};
ghost use Rattle.schema_graph.specs.declared.node.Node.{Node as NodeValue};
ghost use Rattle.tree_graph.specs.Tables.{IsNamed, number_of};
ghost use Rattle.tree_graph.specs.Walker.{CanWalk, CanWalkEach, CanWalkGrammar, CanWalkItem, CanWalkItems, HasKind, Makes, Walks, WalksEach, WalksGrammar, WalksItem, WalksItems};

use crate::combining::combine;
use crate::entry::Entry;
use crate::parts::Parts;
use crate::table::Table;
use crate::tokens::Tokens;
use name_classes::NameClass;
use name_resolution::{Namespaces, Owner};
use schema_graph::{Members, Node};
use schema_tree::{Body, Class, Item, Method, Pattern, TypeName};
use std::alloc::{AllocError, Global};
use text_atoms::{Kind, Text};

/// What a walk goes by: what the files declare, the tokens' numbers, and the tables of the innermost grammar around and of the next one
/// outwards.
#[derive(Drop)]
pub(crate) struct Walker<'a> {
    pub(crate) alloc: Global,
    pub(crate) names: &'a Namespaces<'a>,
    pub(crate) tokens: &'a Tokens,
    pub(crate) inner: &'a Table<'a>,
    pub(crate) outer: &'a Table<'a>,
}

// The number of a name's combined definition.
fn definition(table: &Table<'_>, name: &Text) -> usize
    requires { IsNamed table.now (Some name.now) }
    ensures { number_of table.now name.now ≡ Some result }
{
    match table.number(name.as_str()) {
        Some(definition) => definition,
        None => unreachable!(),
    }
}

// The node of a reference to a name of the table.
fn reference(table: &Table<'_>, name: &Text, at: usize) -> Node
    requires { IsNamed table.now (Some name.now) }
    ensures { (d : ℕ) × (number_of table.now name.now ≡ Some d) × (result ≡ NodeValue.Reference at d) }
{
    Node::Reference {
        at,
        definition: definition(table, name),
    }
}

// What is known of a start or a definition once it is walked.
fn entry(definition: usize, method: Method, node: usize) -> Entry
    ensures { result ≡ record { definition = definition; interleaves = is_interleave (method_of method); node = node } }
{
    let interleaves = match method {
        Method::Interleave => true,
        Method::Plain | Method::Choice => false,
    };
    Entry {
        definition,
        interleaves,
        node,
    }
}

impl Walker<'_> {
    /// Makes the nodes of the whole of a schema, and gives the number of its own. Items are a grammar.
    #[tactic(auto, using(crate::proofs::Walking::makes_within))]
    pub(crate) fn body(&self, parts: &mut Parts, body: &Body) -> Result<usize, AllocError>
        requires { CanWalk self.now.names.now self.now.tokens.now self.now.inner.now self.now.outer.now parts.old (body_pattern (body_of body.now)) }
        ensures { IfOk result (λ i. Walks self.now.names.now self.now.tokens.now self.now.inner.now self.now.outer.now parts.old parts.new (body_pattern (body_of body.now)) i) }
    {
        match body {
            Body::Pattern(pattern) => self.pattern(parts, pattern),
            Body::Items(items) => {
                let definition = self.grammar(parts, items.as_slice())?;
                let number = parts.push(Node::Grammar { definition })?;
                Ok(number)
            }
        }
    }

    // The class with its names resolved.
    fn class(&self, owner: Owner, class: &Class) -> Result<NameClass, AllocError>
        requires names { HasNcNames (tree_class class.now) }
        requires resolved { (d : simple.Class) × (class_of self.now.names.now (use_of owner) (tree_class class.now) ≡ Some d) }
        ensures { IfOk result (λ d. class_of self.now.names.now (use_of owner) (tree_class class.now) ≡ Some (class_value d)) }
    {
        match self.names.class(self.alloc, owner, class)? {
            Some(class) => Ok(class),
            None => unreachable!(),
        }
    }

    // The kind of a type.
    fn kind(&self, of: &TypeName) -> Kind
        requires { (k : kinds.Kind) × (kind_of self.now.names.now (type_of of.now) ≡ Some k) }
        ensures { kind_of self.now.names.now (type_of of.now) ≡ Some (kind_value result) }
    {
        match self.names.kind(of) {
            Some(kind) => kind,
            None => unreachable!(),
        }
    }

    // The kind of a value: token where it has no type.
    fn value_kind(&self, of: &Option<TypeName>) -> Kind
        requires { HasKind self.now.names.now (option_map type_of of.now) }
        ensures { IsKind self.now.names.now [] [] (option_map type_of of.now) result }
    {
        match of {
            Some(of) => self.kind(of),
            None => Kind::Token,
        }
    }

    /// Makes the nodes of a pattern, and gives the number of its own.
    #[tactic(auto, using(crate::proofs::Walking::makes_within, crate::proofs::Walking::walks_pushed))]
    #[cycle(walk)]
    pub(crate) fn pattern(&self, parts: &mut Parts, pattern: &Pattern) -> Result<usize, AllocError>
        requires { CanWalk self.now.names.now self.now.tokens.now self.now.inner.now self.now.outer.now parts.old (pattern_of pattern.now) }
        ensures { IfOk result (λ i. Walks self.now.names.now self.now.tokens.now self.now.inner.now self.now.outer.now parts.old parts.new (pattern_of pattern.now) i) }
    {
        let node = self.node(parts, pattern)?;
        let number = parts.push(node)?;
        Ok(number)
    }

    // Makes the nodes of all that stands in a pattern, and gives its own.
    #[cycle(walk)]
    fn node(&self, parts: &mut Parts, pattern: &Pattern) -> Result<Node, AllocError>
        requires { CanWalk self.now.names.now self.now.tokens.now self.now.inner.now self.now.outer.now parts.old (pattern_of pattern.now) }
        ensures { IfOk result (λ x. Makes self.now.names.now self.now.tokens.now self.now.inner.now self.now.outer.now parts.old parts.new (pattern_of pattern.now) x) }
    {
        match pattern {
            Pattern::Element { class, content, .. } => {
                let position = parts.begin_element()?;
                let content = self.pattern(parts, content.get())?;
                parts.set_element_to_next(position);
                let number = self.tokens.number(position);
                let class = self.class(Owner::Element, class)?;
                Ok(Node::Element {
                    number,
                    class,
                    content,
                })
            }
            Pattern::Attribute { class, content, .. } => {
                let content = self.pattern(parts, content.get())?;
                let class = self.class(Owner::Attribute, class)?;
                Ok(Node::Attribute { class, content })
            }
            Pattern::Group(members) => { Ok(Node::Group(self.members(parts, members.as_slice())?)) }
            Pattern::Choice(members) => {
                Ok(Node::Choice(self.members(parts, members.as_slice())?))
            }
            Pattern::Interleave(members) => {
                Ok(Node::Interleave(self.members(parts, members.as_slice())?))
            }
            Pattern::Optional(content) => Ok(Node::Optional(self.pattern(parts, content.get())?)),
            Pattern::ZeroOrMore(content) => {
                Ok(Node::ZeroOrMore(self.pattern(parts, content.get())?))
            }
            Pattern::OneOrMore(content) => Ok(Node::OneOrMore(self.pattern(parts, content.get())?)),
            Pattern::Mixed(content) => Ok(Node::Mixed(self.pattern(parts, content.get())?)),
            Pattern::Ref { name, at } => Ok(reference(self.inner, name, *at)),
            Pattern::Parent { name, at } => Ok(reference(self.outer, name, *at)),
            Pattern::Empty => Ok(Node::Empty),
            Pattern::AnyText => Ok(Node::AnyText),
            Pattern::NotAllowed => Ok(Node::NotAllowed),
            Pattern::Value { of, literal } => {
                let kind = self.value_kind(of);
                let literal = literal.copy(self.alloc)?;
                Ok(Node::Value { kind, literal })
            }
            Pattern::DataType { of, except, .. } => {
                let kind = self.kind(of);
                match except {
                    Some(except) => {
                        let except = Some(self.pattern(parts, except.get())?);
                        Ok(Node::DataType { kind, except })
                    }
                    None => Ok(Node::DataType { kind, except: None }),
                }
            }
            Pattern::Grammar(items) => {
                let definition = self.grammar(parts, items.as_slice())?;
                Ok(Node::Grammar { definition })
            }
            Pattern::List { .. } => unreachable!(),
            Pattern::External { .. } => unreachable!(),
        }
    }

    // Makes the nodes of members, and gives their numbers.
    #[cycle(walk)]
    fn members(&self, parts: &mut Parts, members: &[Pattern]) -> Result<Members, AllocError>
        requires { CanWalkEach self.now.names.now self.now.tokens.now self.now.inner.now self.now.outer.now parts.old members.now }
        ensures { IfOk result (λ is. WalksEach self.now.names.now self.now.tokens.now self.now.inner.now self.now.outer.now parts.old parts.new members.now is) }
    {
        let mut numbers = Members::new(self.alloc);
        for member in members {
            let number = self.pattern(parts, member)?;
            numbers.push(number)?;
        }
        Ok(numbers)
    }

    // Makes the nodes of a grammar in the place of a pattern, and gives the number of its combined start.
    #[cycle(walk)]
    fn grammar(&self, parts: &mut Parts, items: &[Item]) -> Result<usize, AllocError>
        requires { CanWalkGrammar self.now.names.now self.now.tokens.now self.now.inner.now parts.old items.now }
        ensures { IfOk result (λ d. WalksGrammar self.now.names.now self.now.tokens.now self.now.inner.now parts.old parts.new items.now d) }
    {
        let table = Table::of(self.alloc, parts, items)?;
        let inside = Walker {
            alloc: self.alloc,
            names: self.names,
            tokens: self.tokens,
            inner: &table,
            outer: self.inner,
        };
        let mut entries = Vec::new(self.alloc);
        inside.items(parts, items, &mut entries)?;
        combine(self.alloc, parts, &table, entries.as_slice())?;
        Ok(table.base())
    }

    // Makes the nodes of the starts and definitions among items of the innermost grammar, through each `div`, and adds them in their order.
    #[cycle(walk)]
    fn items(
        &self,
        parts: &mut Parts,
        items: &[Item],
        entries: &mut Vec<Entry>,
    ) -> Result<(), AllocError>
        requires { CanWalkItems self.now.names.now self.now.tokens.now self.now.inner.now self.now.outer.now parts.old items.now }
        ensures { OnOk result (WalksItems self.now.names.now self.now.tokens.now self.now.inner.now self.now.outer.now parts.old parts.new items.now entries.old.items entries.new.items) }
    {
        for item in items {
            self.item(parts, item, entries)?;
        }
        Ok(())
    }

    // Those of one item.
    #[cycle(walk)]
    fn item(
        &self,
        parts: &mut Parts,
        item: &Item,
        entries: &mut Vec<Entry>,
    ) -> Result<(), AllocError>
        requires { CanWalkItem self.now.names.now self.now.tokens.now self.now.inner.now self.now.outer.now parts.old item.now }
        ensures { OnOk result (WalksItem self.now.names.now self.now.tokens.now self.now.inner.now self.now.outer.now parts.old parts.new item.now entries.old.items entries.new.items) }
    {
        match item {
            Item::Start {
                method,
                pattern,
                ..
            } => {
                let node = self.pattern(parts, pattern)?;
                entries.push(entry(self.inner.base(), *method, node))?;
                Ok(())
            }
            Item::Define {
                name,
                method,
                pattern,
                ..
            } => {
                let node = self.pattern(parts, pattern)?;
                entries.push(entry(definition(self.inner, name), *method, node))?;
                Ok(())
            }
            Item::Div(inner) => self.items(parts, inner.as_slice(), entries),
            Item::Include { .. } => Ok(()),
        }
    }
}
