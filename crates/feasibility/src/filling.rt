// What leads from a state by the codes of a family.
ghost use Rattle.std.specs.Prelude.{◌≡◌, ◌+◌, ◌<◌, ◌≤◌, IfOk, IfErr, OnOk, Some, [], length, slice_get, slice_index_or};
ghost use Rattle.rng_model.specs.Alike.{group_count};
ghost use Rattle.rng_model.specs.States.{IsAllowed};
ghost use Rattle.rng_model.specs.Texts.{is_white};
ghost use Rattle.feasibility.specs.Costs.{cost_at, cost_left, is_blank};
ghost use Rattle.feasibility.specs.Families.{HasName, IsSmall, family_code, family_length};
ghost use Rattle.feasibility.specs.Exploring.{IsExploring, IsKnown, IsPattern, IsReachedBefore, IsRightly, IsRowAt, Finds, at, found, groups_in, names, pattern_at, pool};

use crate::explorer::Explorer;
use crate::family::Family;
use crate::fault::Refusal;
use outside::Steps;
use pattern_intern::PatternId;
use std::alloc::AllocError;
use std::sync::ledger::Ledger;
use text_atoms::is_white;
use transitions::{Row, StateId};

impl Explorer {
    // How many positions there are.
    fn positions(&self, family: Family) -> usize
        ensures { result ≡ length (groups_in self.now family) }
    {
        match family {
            Family::Texts => self.atoms.len(),
            Family::Attribute(_) => self.atoms.len(),
            Family::Openings => self.elements.len(),
        }
    }

    // The group of a position.
    fn group(&self, family: Family, position: usize) -> usize
        requires { position < length (groups_in self.now family) }
        ensures group { slice_get (groups_in self.now family) position ≡ Some result }
        ensures below { result < group_count (groups_in self.now family) }
    {
        match family {
            Family::Texts => self.atoms.group(position),
            Family::Attribute(_) => self.atoms.group(position),
            Family::Openings => self.elements.group(position),
        }
    }

    // Whether a text is white space alone.
    fn is_white_at(&self, text: usize) -> bool
        requires { text < length (names self.now).atoms }
        ensures { result ≡ is_white (slice_index_or (names self.now).atoms text []) }
    {
        is_white(self.derivatives.atoms().get(text).as_str())
    }

    // Whether the code of a position is a text of white space alone.
    fn is_blank(&self, family: Family, position: usize) -> bool
        requires { position < family_length (names self.now) family }
        ensures { result ≡ is_blank (names self.now) family position }
    {
        match family {
            Family::Texts => self.is_white_at(position),
            Family::Attribute(_) | Family::Openings => false,
        }
    }

    // The pattern after the code of a position, if it isn't notAllowed. None is derived for a text of white space alone.
    fn made<L: Ledger>(
        &mut self,
        from: StateId,
        family: Family,
        position: usize,
        steps: &mut Steps<L>,
    ) -> Result<Option<PatternId>, AllocError>
        requires exploring { IsExploring self.old }
        requires from { from.0 < length (found self.old) }
        requires name { HasName (names self.old) family }
        requires within { position < length (groups_in self.old family) }
        ensures pattern { IfOk result (IsPattern (pool self.new) (pattern_at self.old from.0 family position)) }
        ensures finds { Finds self.old self.new }
        ensures exploring { IsExploring self.new }
        ensures keys { self.new.states.keys ≡ self.old.states.keys }
        ensures ticks { steps.new ≡ steps.old + cost_at (names self.old) family position }
    {
        if self.is_blank(family, position) {
            Ok(None)
        } else {
            self.derive(from, family.code(position), steps)
        }
    }

    // The pattern after the code of a position, if it isn't notAllowed: it is derived for the first position of a group and kept for the others.
    fn pattern_after<L: Ledger>(
        &mut self,
        from: StateId,
        family: Family,
        position: usize,
        known: &mut Vec<Option<PatternId>>,
        steps: &mut Steps<L>,
    ) -> Result<Option<PatternId>, AllocError>
        requires exploring { IsExploring self.old }
        requires from { from.0 < length (found self.old) }
        requires allowed { IsAllowed (at self.old from.0).place (family_code family position) }
        requires name { HasName (names self.old) family }
        requires within { position < length (groups_in self.old family) }
        requires known { IsKnown self.old from.0 family position known.old.items }
        ensures pattern { IfOk result (IsPattern (pool self.new) (pattern_at self.old from.0 family position)) }
        ensures known { OnOk result (IsKnown self.new from.0 family (position + 1) known.new.items) }
        ensures finds { Finds self.old self.new }
        ensures exploring { IsExploring self.new }
        ensures ticks { OnOk result (steps.new + cost_left self.old family (length known.new.items) (position + 1)
            ≤ steps.old + cost_left self.old family (length known.old.items) position) }
        ensures most { steps.new ≤ steps.old + cost_left self.old family (length known.old.items) position }
    {
        let group = self.group(family, position);
        if group < known.len() {
            Ok(known[group])
        } else {
            let made = self.made(from, family, position, steps)?;
            known.push(made)?;
            Ok(made)
        }
    }

    // Adds to a row what the code of a position leads to.
    fn one<L: Ledger>(
        &mut self,
        from: StateId,
        family: Family,
        position: usize,
        known: &mut Vec<Option<PatternId>>,
        row: &mut Row,
        steps: &mut Steps<L>,
    ) -> Result<(), Refusal>
        requires exploring { IsExploring self.old }
        requires from { from.0 < length (found self.old) }
        requires reached { IsReachedBefore self.old from.0 1 }
        requires small { IsSmall family }
        requires allowed { IsAllowed (at self.old from.0).place (family_code family position) }
        requires name { HasName (names self.old) family }
        requires within { position < length (groups_in self.old family) }
        requires known { IsKnown self.old from.0 family position known.old.items }
        requires row { IsRowAt self.old from.0 family position row.old }
        ensures known { OnOk result (IsKnown self.new from.0 family (position + 1) known.new.items) }
        ensures row { OnOk result (IsRowAt self.new from.0 family (position + 1) row.new) }
        ensures finds { Finds self.old self.new }
        ensures exploring { IsExploring self.new }
        ensures full { IfErr result (IsRightly self.old) }
        ensures ticks { OnOk result (steps.new + cost_left self.old family (length known.new.items) (position + 1)
            ≤ steps.old + cost_left self.old family (length known.old.items) position) }
        ensures most { steps.new ≤ steps.old + cost_left self.old family (length known.old.items) position }
    {
        match self.pattern_after(from, family, position, known, steps)? {
            Some(pattern) => self.lead(from, family, position, pattern, row),
            None => Ok(()),
        }
    }

    /// Adds to a row what the codes of a family lead to. Patterns that are known by groups are taken, and the others are kept.
    pub(crate) fn fill<L: Ledger>(
        &mut self,
        from: StateId,
        family: Family,
        known: &mut Vec<Option<PatternId>>,
        row: &mut Row,
        steps: &mut Steps<L>,
    ) -> Result<(), Refusal>
        requires exploring { IsExploring self.old }
        requires from { from.0 < length (found self.old) }
        requires reached { IsReachedBefore self.old from.0 1 }
        requires small { IsSmall family }
        requires allowed { IsAllowed (at self.old from.0).place (family_code family 0) }
        requires name { HasName (names self.old) family }
        requires known { IsKnown self.old from.0 family 0 known.old.items }
        requires row { IsRowAt self.old from.0 family 0 row.old }
        ensures known { OnOk result (IsKnown self.new from.0 family (length (groups_in self.old family)) known.new.items) }
        ensures row { OnOk result (IsRowAt self.new from.0 family (length (groups_in self.old family)) row.new) }
        ensures finds { Finds self.old self.new }
        ensures exploring { IsExploring self.new }
        ensures full { IfErr result (IsRightly self.old) }
        ensures ticks { OnOk result (steps.new + cost_left self.old family (length known.new.items) (length (groups_in self.old family))
            ≤ steps.old + cost_left self.old family (length known.old.items) 0) }
        ensures most { steps.new ≤ steps.old + cost_left self.old family (length known.old.items) 0 }
    {
        for position in 0..self.positions(family) {
            self.one(from, family, position, known, row, steps)?;
        }
        Ok(())
    }
}
