// What leads from a state to others.
ghost use Rattle.std.specs.Prelude.{◌≡◌, ◌<◌, [], OnOk, OnErr};
ghost use Rattle.transitions.specs.Runs.{IsAdded};

use crate::arc::Arc;
use std::alloc::{AllocError, Global};
use std::marker::Model;

/// What leads from a state to others by codes with a node, ascending.
#[derive(Drop)]
pub struct Row {
    arcs: Vec<Arc>,
}

impl Model for Row {
    ghost use Rattle.std.specs.Prelude.{List};
    ghost use Rattle.transitions.specs.declared.arc.Arc.{Arc as ArcValue};

    ghost Value = { List ArcValue };

    ghost view = { λ r. r.arcs.items };
}

impl Row {
    /// Nothing. It takes its memory from `alloc` as it grows.
    pub fn new(alloc: Global) -> Row
        ensures { result ≡ [] }
    {
        Row {
            arcs: Vec::new(alloc),
        }
    }

    /// Takes all away. Its memory stays.
    pub fn clear(&mut self)
        ensures { self.new ≡ [] }
    {
        self.arcs.clear();
    }

    /// The arcs, ascending.
    pub fn arcs(&self) -> &[Arc]
        ensures { result.now ≡ self.now }
    {
        &self.arcs
    }

    /// Adds one behind the others: the last one is extended where it goes on to it.
    pub fn push(&mut self, arc: Arc) -> Result<(), AllocError>
        ensures ok { OnOk result (IsAdded self.old arc self.new) }
        ensures err { OnErr result (self.new ≡ self.old) }
    {
        let count = self.arcs.len();
        if count > 0 && self.arcs[count - 1].goes_on(arc) {
            self.arcs[count - 1].last = arc.last;
        } else {
            self.arcs.push(arc)?;
        }
        Ok(())
    }
}
