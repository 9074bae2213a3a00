// The states of a new table.
ghost use Rattle.std.specs.Prelude.{◌≡◌, ℕ, ◌<◌, ◌≤◌, ◌↔◌, List, Option, [], IsTrue, IsUtf8, IfOk, OnOk, length, slice_get, Some, None};
ghost use Rattle.std.specs.List.{AllByRecursion};
ghost use Rattle.rng_model.specs.Texts.{Text as TextValue};
ghost use Rattle.rng_model.specs.Patterns.{not_allowed};
ghost use Rattle.rng_model.specs.Restrictions.{BreaksNoRule};
ghost use Rattle.rng_model.specs.States.{AreDistinct};
ghost use Rattle.rng_model.specs.Universe.{AreLists};
ghost use Rattle.table_laws.specs.Premises.{AreListable};
ghost use Rattle.text_atoms.specs.Origins.{texts_of};
ghost use Rattle.pattern_intern.specs.Stored.{count as pattern_count, tree_at};
ghost use Rattle.transitions.specs.declared.state_id.StateId.{StateId as Id};
ghost use Rattle.feasibility.specs.Alikes.{AreAlikeIn};
ghost use Rattle.feasibility.specs.Exploring.{IsExploring, Finds, found, schema as schema_in};
ghost use Rattle.feasibility.specs.Grown.{IsStarted};
ghost use Rattle.feasibility.specs.Tables.{lists_of};

use crate::explorer::{Explorer, add};
use crate::note::note;
use derivatives::Derivatives;
use indexmap::IndexSet;
use line_laws::codes_compare_as_events;
use name_universe::{Universe, alike_attributes, alike_elements};
use pattern_intern::{PatternId, Pool, Schema};
use std::alloc::{AllocError, Global};
use text_atoms::{Atoms, Groups, alike_atoms};
use transitions::StateId;

// The texts of atoms are UTF-8.
fn are_texts(atoms: &Atoms)
    ensures { AllByRecursion IsUtf8 (texts_of atoms.now) }
{
    for position in 0..atoms.len() {
        let _text = atoms.get(position).as_str();
    }
}

/// What the laws ask of a schema and of its lists.
pub(crate) fn are_listable(schema: &Schema, universe: &Universe, atoms: &Atoms)
    requires sound { BreaksNoRule schema.now.schema }
    requires own { (fresh : ℕ) × (extra : List TextValue) × AreLists schema.now.schema fresh extra (lists_of universe.now atoms.now) }
    ensures { AreListable schema.now.schema (lists_of universe.now atoms.now) }
{
    schema.holds();
    let _elements = universe.elements();
    let _attributes = universe.attributes();
    are_texts(atoms);
    codes_compare_as_events();
}

/// Adds of so many states, one at most, that the code without a node leads nowhere.
pub(crate) fn add_dead(frees: &mut Vec<Option<StateId>>, count: usize) -> Result<(), AllocError>
    requires none { frees.old.items ≡ [] }
    requires few { count ≤ 1 }
    ensures count { OnOk result (length frees.new.items ≡ count) }
    ensures dead { OnOk result ((id : ℕ) (next : Option Id) → slice_get frees.new.items id ≡ Some next → next ≡ None) }
{
    if count > 0 {
        note(frees, None)?;
    }
    Ok(())
}

// Whether the pattern is notAllowed.
fn is_not_allowed(pool: &Pool, id: PatternId) -> bool
    requires { id.0 < pattern_count pool.now }
    ensures { IsTrue result ↔ (tree_at pool.now id.0 ≡ not_allowed) }
{
    let _apart = pool.len();
    id == pool.not_allowed()
}

// The groups of alike names and texts.
#[derive(Drop)]
struct Alike {
    elements: Groups,
    attributes: Groups,
    atoms: Groups,
}

// The groups of alike names and texts of a schema.
fn alike_of(
    alloc: Global,
    schema: &Schema,
    universe: &Universe,
    atoms: &Atoms,
) -> Result<Alike, AllocError>
    ensures { IfOk result (λ x. AreAlikeIn schema.now.schema (lists_of universe.now atoms.now) x.elements x.attributes x.atoms) }
{
    let literals = schema.literals(alloc)?;
    let elements = alike_elements(alloc, schema, universe)?;
    let attributes = alike_attributes(alloc, schema, universe)?;
    let texts = alike_atoms(alloc, &literals, atoms)?;
    Ok(Alike {
        elements,
        attributes,
        atoms: texts,
    })
}

impl Explorer {
    /// The states of a schema over its names and texts, of which none is found yet.
    pub(crate) fn of(
        alloc: Global,
        schema: Schema,
        universe: Universe,
        atoms: Atoms,
        limit: usize,
    ) -> Result<Explorer, AllocError>
        ensures schema { IfOk result (λ e. schema_in e ≡ schema.schema) }
        ensures lists { IfOk result (λ e. (e.derivatives.universe ≡ universe) × (e.derivatives.atoms ≡ atoms)) }
        ensures limit { IfOk result (λ e. e.limit ≡ limit) }
        ensures level { IfOk result (λ e. e.level ≡ 0) }
        ensures none { IfOk result (λ e. e.states.keys ≡ []) }
        ensures exploring { IfOk result (λ e. IsExploring e) }
    {
        let alike = alike_of(alloc, &schema, &universe, &atoms)?;
        Ok(Explorer {
            derivatives: Derivatives::new(schema, universe, atoms),
            elements: alike.elements,
            attributes: alike.attributes,
            atoms: alike.atoms,
            states: IndexSet::new(alloc),
            limit,
            level: 0,
        })
    }

    /// Finds the start, unless nothing is allowed.
    pub(crate) fn begin(&mut self) -> Result<(), AllocError>
        requires exploring { IsExploring self.old }
        requires none { self.old.states.keys ≡ [] }
        requires room { 1 ≤ self.old.limit }
        ensures started { OnOk result (IsStarted self.new) }
        ensures one { OnOk result (length (found self.new) ≤ 1) }
        ensures finds { OnOk result (Finds self.old self.new) }
        ensures exploring { OnOk result (IsExploring self.new) }
    {
        let start = self.derivatives.start();
        if is_not_allowed(self.derivatives.schema().pool(), start.pattern) {
            return Ok(());
        }
        add(&mut self.states, start)?;
        Ok(())
    }

    /// How many states are found. They differ.
    pub(crate) fn count(&self) -> usize
        requires { IsExploring self.now }
        ensures count { result ≡ length (found self.now) }
        ensures once { AreDistinct (found self.now) }
    {
        let _pool = self.derivatives.schema().pool().len();
        self.states.len()
    }
}
