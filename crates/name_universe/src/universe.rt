// The universe of a schema.
ghost use Rattle.std.specs.Prelude.{◌≡◌, ℕ, ◌≤◌, ◌<◌, Contains, IfOk, IfSome, IfNone, Some, length, slice_get};
ghost use Rattle.std.specs.List.{AllByRecursion};
ghost use Rattle.std.specs.List.Sorted.{IsStrictlySortedBy};
ghost use Rattle.rng_model.specs.Names.{IsName, name_cmp};
ghost use Rattle.rng_model.specs.Patterns.{Schema as SchemaValue};
ghost use Rattle.rng_model.specs.Universe.{IsElementClass, IsAttributeClass};
ghost use Rattle.name_universe.specs.Tables.{IsUniverse, StandsAt};

use crate::gather::{attribute_mentions, element_mentions};
use crate::name_list::NameList;
use crate::names::Names;
use crate::origin::Origin;
use name_classes::Name;
use pattern_intern::Schema;
use std::alloc::{AllocError, Global};
use std::marker::Model;

/// The names of a schema: two ascending lists, of names for elements and of names for attributes. Beside each name stands whether
/// it is mentioned, fresh in a mentioned namespace, or in the fresh namespace.
#[derive(Drop)]
pub struct Universe {
    elements: Names,
    attributes: Names,
}

impl Model for Universe {
    ghost use Rattle.name_universe.specs.Tables.{NameTables};

    ghost Value = { NameTables };

    ghost view = { λ u. record { elements = u.elements; attributes = u.attributes } };
}

impl Universe {
    /// The universe of a schema, with `fresh` fresh names in each namespace, from 1 to 3; refused for want of memory alone.
    pub fn of(alloc: Global, schema: &Schema, fresh: usize) -> Result<Universe, AllocError>
        requires some { 1 ≤ fresh }
        requires few { fresh ≤ 3 }
        ensures { IfOk result (λ u. IsUniverse schema.now.schema fresh u) }
    {
        let (names, spaces) = element_mentions(alloc, schema)?;
        let elements = Names::of(alloc, names, spaces, fresh)?;
        let (names, spaces) = attribute_mentions(alloc, schema)?;
        let attributes = Names::of(alloc, names, spaces, fresh)?;
        Ok(Universe {
            elements,
            attributes,
        })
    }

    /// The names for elements.
    pub fn elements(&self) -> &NameList
        ensures list { result.now ≡ self.now.elements.names }
        ensures ascending { IsStrictlySortedBy name_cmp self.now.elements.names }
        ensures are_names { AllByRecursion IsName self.now.elements.names }
    {
        self.elements.list()
    }

    /// The names for attributes.
    pub fn attributes(&self) -> &NameList
        ensures list { result.now ≡ self.now.attributes.names }
        ensures ascending { IsStrictlySortedBy name_cmp self.now.attributes.names }
        ensures are_names { AllByRecursion IsName self.now.attributes.names }
    {
        self.attributes.list()
    }

    /// The table of the names for elements.
    pub(crate) fn element_names(&self) -> &Names
        ensures { result.now ≡ self.now.elements }
    {
        &self.elements
    }

    /// The table of the names for attributes.
    pub(crate) fn attribute_names(&self) -> &Names
        ensures { result.now ≡ self.now.attributes }
    {
        &self.attributes
    }

    /// The origin of the element name at a position.
    pub fn element_origin(&self, position: usize) -> Origin
        requires { position < length self.now.elements.names }
        ensures { slice_get self.now.elements.origins position ≡ Some result }
    {
        self.elements.origin(position)
    }

    /// The origin of the attribute name at a position.
    pub fn attribute_origin(&self, position: usize) -> Origin
        requires { position < length self.now.attributes.names }
        ensures { slice_get self.now.attributes.origins position ≡ Some result }
    {
        self.attributes.origin(position)
    }

    /// The position of an element name, which is none where it isn't in the list.
    pub fn find_element(&self, name: &Name) -> Option<usize>
        ensures found { IfSome result (λ i. slice_get self.now.elements.names i ≡ Some name.now) }
        ensures within { IfSome result (λ i. i < length self.now.elements.names) }
        ensures absent { IfNone result (Contains self.now.elements.names name.now → ⊥) }
    {
        self.elements.find(name)
    }

    /// The position of an attribute name, which is none where it isn't in the list.
    pub fn find_attribute(&self, name: &Name) -> Option<usize>
        ensures found { IfSome result (λ i. slice_get self.now.attributes.names i ≡ Some name.now) }
        ensures within { IfSome result (λ i. i < length self.now.attributes.names) }
        ensures absent { IfNone result (Contains self.now.attributes.names name.now → ⊥) }
    {
        self.attributes.find(name)
    }

    /// The position of the element name that stands for a name: a mentioned name stands for itself, another name of a mentioned
    /// namespace for the first fresh name of that namespace, and every other name for `x` in the fresh namespace.
    pub fn stands_for_element(&self, name: &Name) -> usize
        ensures within { result < length self.now.elements.names }
        ensures stands { (g : SchemaValue) (fresh : ℕ) → IsUniverse g fresh self.now → StandsAt (IsElementClass g) self.now.elements.names name.now result }
    {
        self.elements.stands_for(name)
    }

    /// The position of the attribute name that stands for a name, as for element names.
    pub fn stands_for_attribute(&self, name: &Name) -> usize
        ensures within { result < length self.now.attributes.names }
        ensures stands { (g : SchemaValue) (fresh : ℕ) → IsUniverse g fresh self.now → StandsAt (IsAttributeClass g) self.now.attributes.names name.now result }
    {
        self.attributes.stands_for(name)
    }
}
