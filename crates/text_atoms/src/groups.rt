// The groups of a list's positions.
ghost use Rattle.std.specs.Prelude.{◌≡◌, ◌<◌, ◌≤◌, [], ◌∷◌, ◌++◌, length, Some, slice_get, OnOk, OnErr};
ghost use Rattle.rng_model.specs.Alike.{AreNumbered, group_count};

use std::alloc::{AllocError, Global};
use std::marker::Model;

/// The groups of a list's positions, a number for each position. Groups are numbered from 0 by their first members.
#[derive(Debug, Drop)]
pub struct Groups {
    groups: Vec<usize>,
    count: usize,
}

impl Model for Groups {
    ghost use Rattle.std.specs.Prelude.{◌≡◌, ◌≤◌, ℕ, List, length};
    ghost use Rattle.rng_model.specs.Alike.{AreNumbered, group_count};

    ghost Value = { List ℕ };

    ghost view = { λ g. g.groups.items };

    ghost invariant = { λ g. AreNumbered 0 g.groups.items × (g.count ≡ group_count g.groups.items) };
}

impl Groups {
    /// No position. It takes its memory from `alloc` as it grows.
    pub fn new(alloc: Global) -> Groups
        ensures { result ≡ [] }
    {
        Groups {
            groups: Vec::new(alloc),
            count: 0,
        }
    }

    /// The number of groups.
    pub fn count(&self) -> usize
        ensures count { result ≡ group_count self.now }
        ensures numbered { AreNumbered 0 self.now }
    {
        self.count
    }

    /// How many positions there are.
    pub fn len(&self) -> usize
        ensures { result ≡ length self.now }
    {
        self.groups.len()
    }

    /// The group of a position, counted from 0.
    pub fn group(&self, position: usize) -> usize
        requires { position < length self.now }
        ensures group { slice_get self.now position ≡ Some result }
        ensures below { result < group_count self.now }
    {
        self.groups[position]
    }

    /// Adds a position with a group, which is one of those before or the next new one. Where memory is wanting, the value stays as before.
    pub fn push(&mut self, group: usize) -> Result<(), AllocError>
        requires { group ≤ group_count self.old }
        ensures ok { OnOk result (self.new ≡ self.old ++ group ∷ []) }
        ensures err { OnErr result (self.new ≡ self.old) }
    {
        self.groups.push(group)?;
        if group == self.count {
            self.count += 1;
        }
        Ok(())
    }
}
