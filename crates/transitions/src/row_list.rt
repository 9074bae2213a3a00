// Rows in one list of arcs.
ghost use Rattle.std.specs.Prelude.{◌≡◌, ◌<◌, ◌≤◌, [], ◌∷◌, ◌++◌, Some, length, slice_get, take, OnErr, OnOk};
ghost use Rattle.transitions.specs.RowLists.{arcs_in, start_at};

use crate::arc::Arc;
use std::alloc::{AllocError, Global};
use std::marker::Model;

/// Rows of arcs, one behind the other, and where each ends.
#[derive(Drop)]
pub struct RowList {
    arcs: Vec<Arc>,
    ends: Vec<usize>,
}

impl Model for RowList {
    ghost use Rattle.std.specs.Prelude.{List};
    ghost use Rattle.transitions.specs.declared.arc.Arc.{Arc as ArcValue};
    ghost use Rattle.transitions.specs.RowLists.{AreEnds, rows_from};

    ghost Value = { List (List ArcValue) };

    ghost view = { λ l. rows_from l.arcs.items 0 l.ends.items };

    ghost invariant = { λ l. AreEnds l.arcs.items 0 l.ends.items };
}

// Where a row begins: at the end of the one before.
fn start_of(ends: &[usize], id: usize) -> usize
    requires { id ≤ length ends.now }
    ensures { result ≡ start_at 0 ends.now id }
{
    if id == 0 { 0 } else { ends[id - 1] }
}

// The arcs from a start up to an end.
fn part(arcs: &[Arc], start: usize, end: usize) -> &[Arc]
    requires turn { start ≤ end }
    requires within { end ≤ length arcs.now }
    ensures { result.now ≡ arcs_in arcs.now start end }
{
    &arcs[start..end]
}

impl RowList {
    /// No rows. The list takes its memory from `alloc` as it grows.
    pub fn new(alloc: Global) -> RowList
        ensures { result ≡ [] }
    {
        RowList {
            arcs: Vec::new(alloc),
            ends: Vec::new(alloc),
        }
    }

    /// How many rows there are.
    pub fn len(&self) -> usize
        ensures { result ≡ length self.now }
    {
        self.ends.len()
    }

    /// The row of a number.
    pub fn get(&self, id: usize) -> &[Arc]
        requires { id < length self.now }
        ensures { slice_get self.now id ≡ Some result.now }
    {
        let start = start_of(&self.ends, id);
        part(&self.arcs, start, self.ends[id])
    }

    /// Adds a row at the end.
    pub fn push(&mut self, row: &[Arc]) -> Result<(), AllocError>
        ensures ok { OnOk result (self.new ≡ self.old ++ row.now ∷ []) }
        ensures err { OnErr result (self.new ≡ self.old) }
    {
        self.ends.reserve(1)?;
        self.arcs.extend_from_slice(row)?;
        self.ends.push(self.arcs.len())?;
        Ok(())
    }

    /// Keeps the rows of the numbers below the count.
    pub fn truncate(&mut self, count: usize)
        ensures { self.new ≡ take count self.old }
    {
        self.ends.truncate(count);
        let end = start_of(&self.ends, self.ends.len());
        self.arcs.truncate(end);
    }
}
