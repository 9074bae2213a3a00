// The table of states.
ghost use Rattle.std.specs.Prelude.{◌≡◌, ℕ, ◌+◌, ◌*◌, ◌≤◌, List, [], max, IfOk, IfErr, IfSome, IfNone, OnErr, OnOk, length};
ghost use Rattle.rng_model.specs.Texts.{Text as TextValue};
ghost use Rattle.rng_model.specs.Patterns.{not_allowed};
ghost use Rattle.rng_model.specs.Restrictions.{BreaksNoRule};
ghost use Rattle.rng_model.specs.States.{ReachesMore};
ghost use Rattle.rng_model.specs.Universe.{AreLists};
ghost use Rattle.table_laws.specs.Premises.{AreListable};
ghost use Rattle.table_laws.specs.Reaching.{start_state};
ghost use Rattle.transitions.specs.Marked.{KeepsMarks};
ghost use Rattle.feasibility.specs.Following.{IsHeld};
ghost use Rattle.feasibility.specs.declared.fault.Refusal.TheVariants.{Full};
ghost use Rattle.feasibility.specs.Exploring.{IsExploring, names, schema};
ghost use Rattle.feasibility.specs.Growing.{AreGrown, GoesOn, IsBegun, IsNew, cost_of, full_cost, parts_of};
ghost use Rattle.feasibility.specs.Limits.{IsOverLimit};
ghost use Rattle.feasibility.specs.Marking.{AreFilled, AreRight};
ghost use Rattle.feasibility.specs.Tables.{IsTable, Keeps, group_total, lists, lists_of, state_of};

use crate::explorer::Explorer;
use crate::fault::{Refusal, TableFault, table_fault};
use crate::starting::are_listable;
use crate::states::States;
use name_universe::Universe;
use outside::Steps;
use pattern_intern::Schema;
use std::alloc::{AllocError, Global};
use std::marker::Model;
use std::sync::ledger::Ledger;
use text_atoms::Atoms;
use transitions::{Marks, StateId};

/// The states that a schema's codes lead to, with what each can still finish.
#[derive(Drop)]
pub struct Table {
    pub(crate) states: States,
    // which states can finish with how many nodes
    pub(crate) marks: Marks,
}

impl Model for Table {
    ghost use Rattle.rng_model.specs.CodedPatterns.{schema_code};
    ghost use Rattle.rng_model.specs.CodedPatterns.{pattern_code};
    ghost use Rattle.std.specs.Coded.{codes};
    ghost use Rattle.std.specs.Prelude.{length};
    ghost use Rattle.feasibility.specs.Tables.{Table as TableValue};
    ghost use Rattle.feasibility.specs.Exploring.{found, groups_of, names, schema};
    ghost use Rattle.feasibility.specs.Grown.{spent_on};
    ghost use Rattle.feasibility.specs.Marking.{AreFilled};

    ghost Value = { TableValue };

    ghost coded = { Prim.hlevel (codes, schema_code, pattern_code) };

    ghost view = { λ t. record {
      schema = schema t.states.explorer;
      universe = t.states.explorer.derivatives.universe;
      atoms = t.states.explorer.derivatives.atoms;
      groups = groups_of t.states.explorer;
      limit = t.states.explorer.limit;
      grown = t.states.explorer.level;
      states = found t.states.explorer;
      spent = spent_on (names t.states.explorer) (groups_of t.states.explorer) (length (found t.states.explorer)) (length t.states.rows);
    } };

    ghost invariant = { λ t. AreFilled t.states t.marks };
}

// Marks which states can finish with how many nodes.
fn mark(states: &States, marks: &mut Marks) -> Result<(), AllocError>
    requires grown { AreGrown states.now }
    requires right { AreRight states.now.explorer marks.old }
    ensures filled { OnOk result (AreFilled states.now marks.new) }
    ensures right { AreRight states.now.explorer marks.new }
    ensures kept { KeepsMarks marks.old marks.new }
{
    states
        .explorer
        .mark(&states.frees, &states.rows, &states.levels, marks)
}

// Finds and marks what no node reaches.
fn begin(states: &mut States, marks: &mut Marks) -> Result<(), AllocError>
    requires states { IsNew states.old }
    requires marks { marks.old ≡ [] }
    ensures filled { OnOk result (AreFilled states.new marks.new) }
    ensures begun { OnOk result (IsBegun states.old states.new) }
{
    states.begin()?;
    mark(states, marks)?;
    Ok(())
}

// Grows to a size that is at least the present one, and marks what is found. After a refusal what was known stands first.
fn fill<L: Ledger>(
    size: usize,
    states: &mut States,
    marks: &mut Marks,
    steps: &mut Steps<L>,
) -> Result<(), Refusal>
    requires filled { AreFilled states.old marks.old }
    requires small { size ≤ 64 }
    requires up { states.old.explorer.level ≤ size }
    ensures filled { OnOk result (AreFilled states.new marks.new) }
    ensures level { OnOk result (states.new.explorer.level ≡ size) }
    ensures on { GoesOn (parts_of states.old) (parts_of states.new) }
    ensures right { AreRight states.new.explorer marks.new }
    ensures kept { KeepsMarks marks.old marks.new }
    ensures full { IfErr result (λ r. r ≡ Full → ReachesMore (schema states.old.explorer) (names states.old.explorer) size states.old.explorer.limit) }
    ensures ticks { OnOk result (steps.new + cost_of (parts_of states.old) (parts_of states.old) ≤ steps.old + cost_of (parts_of states.old) (parts_of states.new)) }
    ensures tick { OnErr result (steps.new + cost_of (parts_of states.old) (parts_of states.old) ≤ steps.old + full_cost (parts_of states.old)) }
{
    states.grow_levels(size, steps)?;
    mark(states, marks)?;
    Ok(())
}

impl Table {
    /// The table of a schema over its names and texts, grown to no size. It holds at most `limit` states, 1 to 1,000,000. For want of
    /// memory all three are dropped.
    pub fn new(
        alloc: Global,
        schema: Schema,
        universe: Universe,
        atoms: Atoms,
        limit: usize,
    ) -> Result<Table, AllocError>
        requires some { 1 ≤ limit }
        requires most { limit ≤ 1000000 }
        requires sound { BreaksNoRule schema.schema }
        requires own { (fresh : ℕ) × (extra : List TextValue) × AreLists schema.schema fresh extra (lists_of universe atoms) }
        ensures schema { IfOk result (λ t. t.schema ≡ schema.schema) }
        ensures lists { IfOk result (λ t. (t.universe ≡ universe) × (t.atoms ≡ atoms)) }
        ensures limit { IfOk result (λ t. t.limit ≡ limit) }
        ensures empty { IfOk result (λ t. (t.grown ≡ 0) × (t.spent ≡ 0)) }
    {
        are_listable(&schema, &universe, &atoms);
        let explorer = Explorer::of(alloc, schema, universe, atoms, limit)?;
        Table::over(alloc, explorer)
    }

    // The table of an explorer that has found nothing yet.
    fn over(alloc: Global, explorer: Explorer) -> Result<Table, AllocError>
        requires listable { AreListable (schema explorer) (names explorer) }
        requires exploring { IsExploring explorer }
        requires none { explorer.states.keys ≡ [] }
        requires level { explorer.level ≡ 0 }
        requires some { 1 ≤ explorer.limit }
        requires most { explorer.limit ≤ 1000000 }
        ensures schema { IfOk result (λ t. t.schema ≡ schema explorer) }
        ensures lists { IfOk result (λ t. (t.universe ≡ explorer.derivatives.universe) × (t.atoms ≡ explorer.derivatives.atoms)) }
        ensures limit { IfOk result (λ t. t.limit ≡ explorer.limit) }
        ensures empty { IfOk result (λ t. (t.grown ≡ 0) × (t.spent ≡ 0)) }
    {
        let mut states = States::new(alloc, explorer);
        let mut marks = Marks::new(alloc);
        begin(&mut states, &mut marks)?;
        Ok(Table { states, marks })
    }

    /// Grows to a size, at most 64: afterwards it holds the states that so many nodes reach. Where these are more than the limit, and for want
    /// of memory, it stays as before. Each derivative of a state by one of a group of alike codes counts a step.
    pub fn grow_to<L: Ledger>(
        &mut self,
        size: usize,
        steps: &mut Steps<L>,
    ) -> Result<(), TableFault>
        requires { size ≤ 64 }
        ensures grown { OnOk result (self.new.grown ≡ max self.old.grown size) }
        ensures few { OnOk result (ReachesMore self.old.schema (lists self.old) size self.old.limit → ⊥) }
        ensures kept { Keeps self.old self.new }
        ensures limit { IfErr result (IsOverLimit self.old size) }
        ensures unchanged { OnErr result (self.new ≡ self.old) }
        ensures spent { OnOk result (steps.new + self.old.spent ≤ steps.old + self.new.spent) }
        ensures refused { OnErr result (steps.new + self.old.spent ≤ steps.old + group_total self.old * (self.old.limit + 1)) }
    {
        if size <= self.states.explorer.level {
            return Ok(());
        }
        let extent = self.states.extent();
        match fill(size, &mut self.states, &mut self.marks, steps) {
            Ok(()) => Ok(()),
            Err(refusal) => {
                self.states.cut_back(extent);
                self.marks.cut(extent.states);
                Err(table_fault(refusal, size, self.states.explorer.limit))
            }
        }
    }

    /// What holds of every table.
    #[tactic(auto, using(crate::proofs::Holding::is_table))]
    pub fn holds(&self)
        ensures { IsTable self.now }
    {
        let _states = &self.states;
    }

    /// The size to which it has grown.
    pub fn grown(&self) -> usize
        ensures { result ≡ self.now.grown }
    {
        self.states.explorer.level
    }

    /// The number of the start, if the schema allows something.
    #[tactic(auto, using(crate::proofs::Holding::started, crate::proofs::Holding::unstarted, crate::proofs::Apart::length_states))]
    pub fn start_id(&self) -> Option<StateId>
        ensures some { IfSome result (λ id. IsHeld self.now id.0 × (state_of self.now id.0 ≡ start_state self.now.schema)) }
        ensures none { IfNone result (self.now.schema.start ≡ not_allowed) }
    {
        if self.states.explorer.states.len() == 0 {
            None
        } else {
            Some(StateId(0))
        }
    }

    /// The number of states.
    pub fn state_count(&self) -> usize
        ensures { result ≡ length self.now.states }
    {
        self.states.explorer.states.len()
    }

    /// The names of the schema.
    pub fn universe(&self) -> &Universe
        ensures { result.now ≡ self.now.universe }
    {
        self.states.explorer.derivatives.universe()
    }

    /// The texts of the schema.
    pub fn atoms(&self) -> &Atoms
        ensures { result.now ≡ self.now.atoms }
    {
        self.states.explorer.derivatives.atoms()
    }
}
