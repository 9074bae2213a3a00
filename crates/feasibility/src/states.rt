// The states of a table, and what follows each.
ghost use Rattle.std.specs.Prelude.{◌≡◌, [], OnOk};
ghost use Rattle.feasibility.specs.Growing.{AreGrown, IsBegun, IsExtent, IsNew};

use crate::explorer::Explorer;
use crate::note::note;
use crate::starting::add_dead;
use std::alloc::{AllocError, Global};
use transitions::{RowList, StateId};

/// The states that are found, and what follows each.
#[derive(Drop)]
pub(crate) struct States {
    pub(crate) explorer: Explorer,
    /// Where the one code without a node leads from each state.
    pub(crate) frees: Vec<Option<StateId>>,
    /// What the other codes lead to, from the states that fewer nodes reach.
    pub(crate) rows: RowList,
    /// How many states each size so far reaches: states stand in the order of their least counts.
    pub(crate) levels: Vec<usize>,
}

/// How far states have grown.
#[derive(Clone, Copy)]
pub(crate) struct Extent {
    pub(crate) states: usize,
    pub(crate) rows: usize,
    pub(crate) level: usize,
}

impl States {
    /// The states of a schema, of which none is found yet.
    pub(crate) fn new(alloc: Global, explorer: Explorer) -> States
        ensures explorer { result.explorer ≡ explorer }
        ensures frees { result.frees.items ≡ [] }
        ensures rows { result.rows ≡ [] }
        ensures levels { result.levels.items ≡ [] }
    {
        States {
            explorer,
            frees: Vec::new(alloc),
            rows: RowList::new(alloc),
            levels: Vec::new(alloc),
        }
    }

    /// Finds what no node reaches: the start, unless the schema allows nothing.
    pub(crate) fn begin(&mut self) -> Result<(), AllocError>
        requires { IsNew self.old }
        ensures grown { OnOk result (AreGrown self.new) }
        ensures begun { OnOk result (IsBegun self.old self.new) }
    {
        self.explorer.begin()?;
        let count = self.explorer.count();
        add_dead(&mut self.frees, count)?;
        note(&mut self.levels, count)?;
        Ok(())
    }

    /// How far they have grown.
    pub(crate) fn extent(&self) -> Extent
        requires { AreGrown self.now }
        ensures { IsExtent self.now result }
    {
        Extent {
            states: self.explorer.count(),
            rows: self.rows.len(),
            level: self.explorer.level,
        }
    }
}
