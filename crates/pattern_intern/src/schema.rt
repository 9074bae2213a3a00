// A schema over numbered patterns.
ghost use Rattle.std.specs.Prelude.{◌≡◌, ℕ, ◌<◌, ◌↔◌, [], ◌∷◌, ◌++◌, length, IfOk, OnErr, OnOk};
ghost use Rattle.rng_model.specs.Constructors.{after_of, choice_of, group_of, interleave_of, one_or_more_of};
ghost use Rattle.rng_model.specs.Patterns.{IsSimpleForm};
ghost use Rattle.rng_model.specs.Classes.{Class};
ghost use Rattle.rng_model.specs.Universe.{AreLiterals, IsAttributeClass};
ghost use Rattle.pattern_intern.specs.Attributes.{AreClasses, HasClass};
ghost use Rattle.name_classes.specs.Views.{class_of};
ghost use Rattle.pattern_intern.specs.Schemas.{AreBelow, AreRefsBelow, AreWithin, IsNumbered, definition_at, entry_at, numbered_of, schema_of};
ghost use Rattle.pattern_intern.specs.Stored.{Extends, count, tree_at};

use crate::attributes::visit_class;
use crate::id::{ClassId, PatternId};
use crate::literals::{roots, unmarked, visit};
use crate::pool::Pool;
use name_classes::NameClass;
use std::alloc::{AllocError, Global};
use std::marker::Model;
use text_atoms::Literals;

/// Element definitions in order: the name class of each, and the number of its content.
#[derive(Drop)]
pub struct Definitions {
    items: Vec<(NameClass, PatternId)>,
}

impl Model for Definitions {
    ghost use Rattle.std.specs.Prelude.{List, map};
    ghost use Rattle.std.specs.Coded.{coded_list};
    ghost use Rattle.name_classes.specs.Views.{class_of};
    ghost use Rattle.pattern_intern.specs.Schemas.{Entry, entry_code};

    ghost Value = { List Entry };

    ghost coded = { coded_list entry_code };

    ghost view = { λ d. map (λ x. (class_of x.0, x.1.0)) d.items.items };
}

impl Definitions {
    /// No definition. It takes its memory from `alloc` as it grows.
    pub fn new(alloc: Global) -> Definitions
        ensures none { result ≡ [] }
        ensures below { (n : ℕ) → AreBelow n result }
    {
        Definitions {
            items: Vec::new(alloc),
        }
    }

    /// Adds a definition at the end. Where memory is wanting, the list stays as before and the class is dropped.
    pub fn push(&mut self, class: NameClass, content: PatternId) -> Result<(), AllocError>
        ensures ok { OnOk result (self.new ≡ self.old ++ (class_of class, content.0) ∷ []) }
        ensures below { OnOk result ((n : ℕ) → AreBelow n self.old → content.0 < n → AreBelow n self.new) }
        ensures err { OnErr result (self.new ≡ self.old) }
    {
        self.items.push((class, content))?;
        Ok(())
    }

    /// The number of definitions.
    pub fn len(&self) -> usize
        ensures { result ≡ length self.now }
    {
        self.items.len()
    }

    // The name class of a definition.
    fn class(&self, k: usize) -> &NameClass
        requires { k < length self.now }
        ensures { class_of result.now ≡ (entry_at self.now k).0 }
    {
        &self.items.as_slice()[k].0
    }

    /// The number of a definition's content.
    pub(crate) fn content(&self, k: usize) -> PatternId
        requires { k < length self.now }
        ensures { result.0 ≡ (entry_at self.now k).1 }
    {
        self.items.as_slice()[k].1
    }
}

/// The simple form of a schema: a start pattern and element definitions over a pool, which grows as patterns are made of its own.
/// Contracts see the start and the definitions as patterns, and the pool.
#[derive(Drop)]
pub struct Schema {
    pool: Pool,
    start: PatternId,
    elements: Definitions,
}

impl Model for Schema {
    ghost use Rattle.pattern_intern.specs.Schemas.{Numbered, numbered_code, numbered_of, IsSchema};

    ghost Value = { Numbered };

    ghost coded = { numbered_code };

    ghost view = { λ s. numbered_of s.pool s.start.0 s.elements };

    ghost invariant = { λ s. IsSchema s.pool s.start.0 s.elements };
}

impl Schema {
    /// The schema of a start and definitions. It takes no memory.
    pub fn new(pool: Pool, start: PatternId, elements: Definitions) -> Schema
        requires start { start.0 < count pool }
        requires contents { AreWithin pool elements }
        requires form { IsSimpleForm (schema_of pool start.0 elements) }
        requires refs { AreRefsBelow (length elements) pool }
        ensures { result ≡ numbered_of pool start.0 elements }
    {
        Schema {
            pool,
            start,
            elements,
        }
    }

    /// What holds of every schema: no After stands in its start or in a content, each reference in its pool is to one of its
    /// definitions, and each choice is the ascending list of its members.
    pub fn holds(&self)
        ensures { IsNumbered self.now }
    {
        self.pool.all_ordered();
    }

    /// The start pattern.
    pub fn start(&self) -> PatternId
        ensures within { result.0 < count self.now.pool }
        ensures tree { tree_at self.now.pool result.0 ≡ self.now.schema.start }
    {
        self.start
    }

    /// The number of element definitions.
    pub fn element_count(&self) -> usize
        ensures { result ≡ length self.now.schema.elements }
    {
        self.elements.len()
    }

    /// The name class of an element definition.
    pub fn element_class(&self, k: usize) -> &NameClass
        requires { k < length self.now.schema.elements }
        ensures { class_of result.now ≡ (definition_at self.now k).class }
    {
        self.elements.class(k)
    }

    /// The content of an element definition.
    pub fn element_content(&self, k: usize) -> PatternId
        requires { k < length self.now.schema.elements }
        ensures within { result.0 < count self.now.pool }
        ensures tree { tree_at self.now.pool result.0 ≡ (definition_at self.now k).content }
    {
        self.elements.content(k)
    }

    /// The pool of the schema's patterns.
    pub fn pool(&self) -> &Pool
        ensures { result.now ≡ self.now.pool }
    {
        &self.pool
    }

    /// The literals of the values in the start and the contents, whether an `empty` stands inside an attribute, and the kinds of values
    /// and datatypes, excepts included. Each number of the pool is visited once.
    pub fn literals(&self, alloc: Global) -> Result<Literals, AllocError>
        ensures { IfOk result (λ l. AreLiterals self.now.schema l) }
    {
        let len = self.pool.len();
        let mut reached = roots(alloc, len, self.start, &self.elements)?;
        let mut inside = unmarked(alloc, len)?;
        let mut literals = Literals::new(alloc);
        let mut next = len;
        while next > 0 {
            next -= 1;
            visit(
                alloc,
                &self.pool,
                PatternId(next),
                &mut reached,
                &mut inside,
                &mut literals,
            )?;
        }
        Ok(literals)
    }

    /// The numbers of the name classes of the attributes in the start and the contents. Each number of the pool is visited once.
    pub fn attribute_classes(&self, alloc: Global) -> Result<Vec<ClassId>, AllocError>
        ensures within { IfOk result (λ ids. AreClasses self.now.pool ids.items) }
        ensures each { IfOk result (λ ids. (c : Class) → HasClass self.now.pool ids.items c ↔ IsAttributeClass self.now.schema c) }
    {
        let len = self.pool.len();
        let mut reached = roots(alloc, len, self.start, &self.elements)?;
        let mut classes = Vec::new(alloc);
        let mut next = len;
        while next > 0 {
            next -= 1;
            visit_class(&self.pool, PatternId(next), &mut reached, &mut classes)?;
        }
        Ok(classes)
    }

    /// The allocator that the pool takes its memory from.
    pub fn allocator(&self) -> Global {
        self.pool.allocator()
    }

    /// Either of two patterns, as the pool makes it. Where memory is wanting, the schema stays as before, as for all that follow.
    pub fn choice(&mut self, a: PatternId, b: PatternId) -> Result<PatternId, AllocError>
        requires left { a.0 < count self.old.pool }
        requires right { b.0 < count self.old.pool }
        ensures within { IfOk result (λ id. id.0 < count self.new.pool) }
        ensures made { IfOk result (λ id. tree_at self.new.pool id.0 ≡ choice_of (tree_at self.old.pool a.0) (tree_at self.old.pool b.0)) }
        ensures kept { Extends self.old.pool self.new.pool }
        ensures schema { self.new.schema ≡ self.old.schema }
        ensures unchanged { OnErr result (self.new ≡ self.old) }
    {
        self.pool.choice(a, b)
    }

    /// One after the other, as the pool makes it.
    pub fn group(&mut self, a: PatternId, b: PatternId) -> Result<PatternId, AllocError>
        requires left { a.0 < count self.old.pool }
        requires right { b.0 < count self.old.pool }
        ensures within { IfOk result (λ id. id.0 < count self.new.pool) }
        ensures made { IfOk result (λ id. tree_at self.new.pool id.0 ≡ group_of (tree_at self.old.pool a.0) (tree_at self.old.pool b.0)) }
        ensures kept { Extends self.old.pool self.new.pool }
        ensures schema { self.new.schema ≡ self.old.schema }
        ensures unchanged { OnErr result (self.new ≡ self.old) }
    {
        self.pool.group(a, b)
    }

    /// In any order, as the pool makes it.
    pub fn interleave(&mut self, a: PatternId, b: PatternId) -> Result<PatternId, AllocError>
        requires left { a.0 < count self.old.pool }
        requires right { b.0 < count self.old.pool }
        ensures within { IfOk result (λ id. id.0 < count self.new.pool) }
        ensures made { IfOk result (λ id. tree_at self.new.pool id.0 ≡ interleave_of (tree_at self.old.pool a.0) (tree_at self.old.pool b.0)) }
        ensures kept { Extends self.old.pool self.new.pool }
        ensures schema { self.new.schema ≡ self.old.schema }
        ensures unchanged { OnErr result (self.new ≡ self.old) }
    {
        self.pool.interleave(a, b)
    }

    /// What is to be matched inside the open element, and what follows it, as the pool makes it.
    pub fn after(&mut self, a: PatternId, b: PatternId) -> Result<PatternId, AllocError>
        requires left { a.0 < count self.old.pool }
        requires right { b.0 < count self.old.pool }
        ensures within { IfOk result (λ id. id.0 < count self.new.pool) }
        ensures made { IfOk result (λ id. tree_at self.new.pool id.0 ≡ after_of (tree_at self.old.pool a.0) (tree_at self.old.pool b.0)) }
        ensures kept { Extends self.old.pool self.new.pool }
        ensures schema { self.new.schema ≡ self.old.schema }
        ensures unchanged { OnErr result (self.new ≡ self.old) }
    {
        self.pool.after(a, b)
    }

    /// One or more times, as the pool makes it.
    pub fn one_or_more(&mut self, a: PatternId) -> Result<PatternId, AllocError>
        requires { a.0 < count self.old.pool }
        ensures within { IfOk result (λ id. id.0 < count self.new.pool) }
        ensures made { IfOk result (λ id. tree_at self.new.pool id.0 ≡ one_or_more_of (tree_at self.old.pool a.0)) }
        ensures kept { Extends self.old.pool self.new.pool }
        ensures schema { self.new.schema ≡ self.old.schema }
        ensures unchanged { OnErr result (self.new ≡ self.old) }
    {
        self.pool.one_or_more(a)
    }
}
