// How states grow by one size after another.
ghost use Rattle.std.specs.Prelude.{◌≡◌, ℕ, ◌+◌, ◌*◌, ◌<◌, ◌≤◌, IfErr, OnErr, OnOk, length};
ghost use Rattle.rng_model.specs.States.{ReachesMore};
ghost use Rattle.feasibility.specs.declared.fault.Refusal.TheVariants.{Full};
ghost use Rattle.feasibility.specs.Exploring.{IsExploring, IsReachedBefore, IsRightly, found, groups_of, names, schema};
ghost use Rattle.feasibility.specs.Grown.{row_total};
ghost use Rattle.feasibility.specs.Growing.{AreFrees, AreGrown, AreRowsOf, AddsFrees, AddsRows, GoesOn, IsCutTo, cost_of, full_cost, parts_of};

use crate::explorer::Explorer;
use crate::fault::Refusal;
use crate::note::note;
use crate::states::{Extent, States};
use outside::Steps;
use std::alloc::Global;
use std::sync::ledger::Ledger;
use transitions::{Row, RowList, StateId};

// Finds where the code without a node leads from the first state of which that isn't known.
fn add_free<L: Ledger>(
    explorer: &mut Explorer,
    frees: &mut Vec<Option<StateId>>,
    steps: &mut Steps<L>,
) -> Result<(), Refusal>
    requires exploring { IsExploring explorer.old }
    requires frees { AreFrees explorer.old frees.old.items }
    requires left { length frees.old.items < length (found explorer.old) }
    ensures adds { AddsFrees explorer.old explorer.new frees.old.items frees.new.items }
    ensures one { OnOk result (length frees.new.items ≡ length frees.old.items + 1) }
    ensures full { IfErr result (IsRightly explorer.old) }
    ensures ticks { steps.new ≡ steps.old + 1 }
{
    let next = explorer.free(StateId(frees.len()), steps)?;
    note(frees, next)?;
    Ok(())
}

/// Finds where the codes without a node lead, from the states that are found so too.
pub(crate) fn find_frees<L: Ledger>(
    explorer: &mut Explorer,
    frees: &mut Vec<Option<StateId>>,
    steps: &mut Steps<L>,
) -> Result<(), Refusal>
    requires exploring { IsExploring explorer.old }
    requires frees { AreFrees explorer.old frees.old.items }
    ensures adds { AddsFrees explorer.old explorer.new frees.old.items frees.new.items }
    ensures all { OnOk result (length frees.new.items ≡ length (found explorer.new)) }
    ensures none { length (found explorer.old) ≡ 0 → length (found explorer.new) ≡ 0 }
    ensures full { IfErr result (IsRightly explorer.old) }
    ensures ticks { steps.new + length frees.old.items ≤ steps.old + length (found explorer.new) }
{
    while frees.len() < explorer.count() {
        add_free(explorer, frees, steps)?;
    }
    Ok(())
}

// Finds what leads on by codes with a node from the first state of which that isn't known.
fn add_row<L: Ledger>(
    alloc: Global,
    explorer: &mut Explorer,
    rows: &mut RowList,
    row: &mut Row,
    steps: &mut Steps<L>,
) -> Result<(), Refusal>
    requires exploring { IsExploring explorer.old }
    requires rows { AreRowsOf explorer.old rows.old }
    requires left { length rows.old < length (found explorer.old) }
    requires reached { IsReachedBefore explorer.old (length rows.old) 1 }
    ensures adds { AddsRows explorer.old explorer.new rows.old rows.new }
    ensures one { OnOk result (length rows.new ≡ length rows.old + 1) }
    ensures full { IfErr result (IsRightly explorer.old) }
    ensures ticks { steps.new ≤ steps.old + row_total (names explorer.old) (groups_of explorer.old) }
{
    row.clear();
    explorer.fill_row(alloc, StateId(rows.len()), row, steps)?;
    rows.push(row.arcs())?;
    Ok(())
}

/// Finds what leads on by codes with a node from the first `end` states.
pub(crate) fn find_rows<L: Ledger>(
    alloc: Global,
    explorer: &mut Explorer,
    rows: &mut RowList,
    end: usize,
    steps: &mut Steps<L>,
) -> Result<(), Refusal>
    requires exploring { IsExploring explorer.old }
    requires rows { AreRowsOf explorer.old rows.old }
    requires end { end ≤ length (found explorer.old) }
    requires reached { (id : ℕ) → id < end → IsReachedBefore explorer.old id 1 }
    ensures adds { AddsRows explorer.old explorer.new rows.old rows.new }
    ensures all { OnOk result (end ≤ length rows.new) }
    ensures none { length (found explorer.old) ≡ 0 → length (found explorer.new) ≡ 0 }
    ensures full { IfErr result (IsRightly explorer.old) }
    ensures ticks { OnOk result (steps.new + row_total (names explorer.old) (groups_of explorer.old) * length rows.old ≤
        steps.old + row_total (names explorer.old) (groups_of explorer.old) * length rows.new) }
    ensures tick { OnErr result (steps.new + row_total (names explorer.old) (groups_of explorer.old) * length rows.old ≤
        steps.old + row_total (names explorer.old) (groups_of explorer.old) * end) }
{
    let mut row = Row::new(alloc);
    while rows.len() < end {
        add_row(alloc, explorer, rows, &mut row, steps)?;
    }
    Ok(())
}

impl States {
    /// Grows by one size. After a refusal what was known stands first.
    pub(crate) fn grow_level<L: Ledger>(&mut self, steps: &mut Steps<L>) -> Result<(), Refusal>
        requires grown { AreGrown self.old }
        requires small { self.old.explorer.level < 64 }
        ensures grown { OnOk result (AreGrown self.new) }
        ensures level { self.new.explorer.level ≡ self.old.explorer.level + 1 }
        ensures on { GoesOn (parts_of self.old) (parts_of self.new) }
        ensures full { IfErr result (λ r. r ≡ Full → ReachesMore (schema self.old.explorer) (names self.old.explorer) (self.old.explorer.level + 1) self.old.explorer.limit) }
        ensures ticks { OnOk result (steps.new + cost_of (parts_of self.old) (parts_of self.old) ≤ steps.old + cost_of (parts_of self.old) (parts_of self.new)) }
        ensures tick { OnErr result (steps.new + cost_of (parts_of self.old) (parts_of self.old) ≤ steps.old + full_cost (parts_of self.old)) }
    {
        let alloc = self.explorer.derivatives.allocator();
        let end = self.explorer.count();
        self.explorer.level += 1;
        find_rows(alloc, &mut self.explorer, &mut self.rows, end, steps)?;
        find_frees(&mut self.explorer, &mut self.frees, steps)?;
        note(&mut self.levels, self.explorer.count())?;
        Ok(())
    }

    /// Grows to a size that is at least the present one. After a refusal what was known stands first.
    pub(crate) fn grow_levels<L: Ledger>(
        &mut self,
        size: usize,
        steps: &mut Steps<L>,
    ) -> Result<(), Refusal>
        requires grown { AreGrown self.old }
        requires small { size ≤ 64 }
        requires up { self.old.explorer.level ≤ size }
        ensures grown { OnOk result (AreGrown self.new) }
        ensures level { OnOk result (self.new.explorer.level ≡ size) }
        ensures on { GoesOn (parts_of self.old) (parts_of self.new) }
        ensures full { IfErr result (λ r. r ≡ Full → ReachesMore (schema self.old.explorer) (names self.old.explorer) size self.old.explorer.limit) }
        ensures ticks { OnOk result (steps.new + cost_of (parts_of self.old) (parts_of self.old) ≤ steps.old + cost_of (parts_of self.old) (parts_of self.new)) }
        ensures tick { OnErr result (steps.new + cost_of (parts_of self.old) (parts_of self.old) ≤ steps.old + full_cost (parts_of self.old)) }
    {
        while self.explorer.level < size {
            self.grow_level(steps)?;
        }
        Ok(())
    }

    /// Takes back what has grown.
    pub(crate) fn cut_back(&mut self, extent: Extent)
        requires { extent.level < 64 }
        ensures { IsCutTo extent self.old self.new }
    {
        self.explorer.states.truncate(extent.states);
        self.explorer.level = extent.level;
        self.frees.truncate(extent.states);
        self.rows.truncate(extent.rows);
        self.levels.truncate(extent.level + 1);
    }
}
