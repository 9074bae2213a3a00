// What leads from a state by all codes with a node.
ghost use Rattle.std.specs.Prelude.{◌≡◌, ◌+◌, ◌*◌, ◌<◌, ◌≤◌, [], IfErr, OnOk, length};
ghost use Rattle.rng_model.specs.Alike.{group_count, inked_count};
ghost use Rattle.rng_model.specs.Codes.{Attr, Chars, Opening};
ghost use Rattle.rng_model.specs.States.{IsAllowed, Tag};
ghost use Rattle.feasibility.specs.Costs.{names_cost};
ghost use Rattle.feasibility.specs.Families.{IsSmall};
ghost use Rattle.feasibility.specs.Grown.{row_total};
ghost use Rattle.feasibility.specs.declared.family.Family.TheVariants as family;
ghost use Rattle.feasibility.specs.Exploring.{AreKnown, IsExploring, IsReachedBefore, IsRightly, IsRowAt, IsRowOf, Finds, at, found, groups_of, names};

use crate::explorer::Explorer;
use crate::family::Family;
use crate::fault::Refusal;
use crate::known::Known;
use derivatives::Place;
use outside::Steps;
use std::alloc::Global;
use std::sync::ledger::Ledger;
use transitions::{Row, StateId};

impl Explorer {
    // Adds to a row what the attributes of a name lead to, which is taken. Patterns after those of an alike name are taken, and others are kept.
    fn fill_name<L: Ledger>(
        &mut self,
        alloc: Global,
        from: StateId,
        name: usize,
        known: &mut Known,
        row: &mut Row,
        steps: &mut Steps<L>,
    ) -> Result<(), Refusal>
        requires exploring { IsExploring self.old }
        requires from { from.0 < length (found self.old) }
        requires reached { IsReachedBefore self.old from.0 1 }
        requires small { IsSmall (family.Attribute name) }
        requires allowed { IsAllowed (at self.old from.0).place (Attr name 0) }
        requires name { name < length (names self.old).attributes }
        requires all { length known.old ≡ group_count (groups_of self.old).attributes }
        requires known { AreKnown self.old from.0 known.old }
        requires row { IsRowAt self.old from.0 (family.Attribute name) 0 row.old }
        ensures all { OnOk result (length known.new ≡ length known.old) }
        ensures known { OnOk result (AreKnown self.new from.0 known.new) }
        ensures row { OnOk result (IsRowAt self.new from.0 (family.Attribute (name + 1)) 0 row.new) }
        ensures finds { Finds self.old self.new }
        ensures exploring { IsExploring self.new }
        ensures full { IfErr result (IsRightly self.old) }
        ensures ticks { OnOk result (steps.new + names_cost self.old known.new ≤ steps.old + names_cost self.old known.old) }
        ensures most { steps.new ≤ steps.old + names_cost self.old known.old }
    {
        let group = self.attributes.group(name);
        let mut texts = known.take(alloc, group);
        let filled = self.fill(from, Family::Attribute(name), &mut texts, row, steps);
        known.put(group, texts);
        filled
    }

    // Adds to a row what the attributes of a name lead to.
    fn attribute<L: Ledger>(
        &mut self,
        alloc: Global,
        from: StateId,
        name: usize,
        known: &mut Known,
        row: &mut Row,
        steps: &mut Steps<L>,
    ) -> Result<(), Refusal>
        requires exploring { IsExploring self.old }
        requires from { from.0 < length (found self.old) }
        requires reached { IsReachedBefore self.old from.0 1 }
        requires small { IsSmall (family.Attribute name) }
        requires allowed { IsAllowed (at self.old from.0).place (Attr name 0) }
        requires name { name < length (names self.old).attributes }
        requires all { length known.old ≡ group_count (groups_of self.old).attributes }
        requires known { AreKnown self.old from.0 known.old }
        requires row { IsRowAt self.old from.0 (family.Attribute name) 0 row.old }
        ensures all { OnOk result (length known.new ≡ length known.old) }
        ensures known { OnOk result (AreKnown self.new from.0 known.new) }
        ensures row { OnOk result (IsRowAt self.new from.0 (family.Attribute (name + 1)) 0 row.new) }
        ensures finds { Finds self.old self.new }
        ensures exploring { IsExploring self.new }
        ensures full { IfErr result (IsRightly self.old) }
        ensures ticks { OnOk result (steps.new + names_cost self.old known.new ≤ steps.old + names_cost self.old known.old) }
        ensures most { steps.new ≤ steps.old + names_cost self.old known.old }
    {
        if self.takes_name(from, name)? {
            self.fill_name(alloc, from, name, known, row, steps)
        } else {
            Ok(())
        }
    }

    // Adds to a row what the attributes of the names from the first on lead to. It is whole then.
    fn fill_names<L: Ledger>(
        &mut self,
        alloc: Global,
        from: StateId,
        first: usize,
        known: &mut Known,
        row: &mut Row,
        steps: &mut Steps<L>,
    ) -> Result<(), Refusal>
        requires exploring { IsExploring self.old }
        requires from { from.0 < length (found self.old) }
        requires reached { IsReachedBefore self.old from.0 1 }
        requires place { (at self.old from.0).place ≡ Tag first }
        requires all { length known.old ≡ group_count (groups_of self.old).attributes }
        requires known { AreKnown self.old from.0 known.old }
        requires row { IsRowAt self.old from.0 (family.Attribute first) 0 row.old }
        ensures row { OnOk result (IsRowOf self.new from.0 row.new) }
        ensures finds { Finds self.old self.new }
        ensures exploring { IsExploring self.new }
        ensures full { IfErr result (IsRightly self.old) }
        ensures most { steps.new ≤ steps.old + names_cost self.old known.old }
    {
        for name in first..self.attributes.len() {
            self.attribute(alloc, from, name, known, row, steps)?;
        }
        Ok(())
    }

    // The row of a state in a tag, where the attributes of the names before the first have had their turn.
    fn fill_attributes<L: Ledger>(
        &mut self,
        alloc: Global,
        from: StateId,
        first: usize,
        row: &mut Row,
        steps: &mut Steps<L>,
    ) -> Result<(), Refusal>
        requires exploring { IsExploring self.old }
        requires from { from.0 < length (found self.old) }
        requires reached { IsReachedBefore self.old from.0 1 }
        requires place { (at self.old from.0).place ≡ Tag first }
        requires empty { row.old ≡ [] }
        ensures row { OnOk result (IsRowOf self.new from.0 row.new) }
        ensures finds { Finds self.old self.new }
        ensures exploring { IsExploring self.new }
        ensures full { IfErr result (IsRightly self.old) }
        ensures most { steps.new ≤ steps.old + group_count (groups_of self.old).attributes * group_count (groups_of self.old).atoms }
    {
        let mut known = Known::new(alloc, self.attributes.count())?;
        self.fill_names(alloc, from, first, &mut known, row, steps)
    }

    // Adds the texts to a row.
    fn fill_texts<L: Ledger>(
        &mut self,
        alloc: Global,
        from: StateId,
        row: &mut Row,
        steps: &mut Steps<L>,
    ) -> Result<(), Refusal>
        requires exploring { IsExploring self.old }
        requires from { from.0 < length (found self.old) }
        requires reached { IsReachedBefore self.old from.0 1 }
        requires allowed { IsAllowed (at self.old from.0).place (Chars 0) }
        requires empty { row.old ≡ [] }
        ensures row { OnOk result (IsRowAt self.new from.0 family.Openings 0 row.new) }
        ensures finds { Finds self.old self.new }
        ensures exploring { IsExploring self.new }
        ensures full { IfErr result (IsRightly self.old) }
        ensures most { steps.new ≤ steps.old + inked_count 0 (names self.old).atoms (groups_of self.old).atoms }
    {
        if self.takes_text(from)? {
            let mut known = Vec::with_capacity(alloc, self.atoms.count())?;
            self.fill(from, Family::Texts, &mut known, row, steps)?;
        }
        Ok(())
    }

    // Adds all openings to a row, which is whole then.
    fn fill_elements<L: Ledger>(
        &mut self,
        alloc: Global,
        from: StateId,
        row: &mut Row,
        steps: &mut Steps<L>,
    ) -> Result<(), Refusal>
        requires exploring { IsExploring self.old }
        requires from { from.0 < length (found self.old) }
        requires reached { IsReachedBefore self.old from.0 1 }
        requires allowed { IsAllowed (at self.old from.0).place (Opening 0) }
        requires row { IsRowAt self.old from.0 family.Openings 0 row.old }
        ensures row { OnOk result (IsRowOf self.new from.0 row.new) }
        ensures finds { Finds self.old self.new }
        ensures exploring { IsExploring self.new }
        ensures full { IfErr result (IsRightly self.old) }
        ensures most { steps.new ≤ steps.old + group_count (groups_of self.old).elements }
    {
        let mut known = Vec::with_capacity(alloc, self.elements.count())?;
        self.fill(from, Family::Openings, &mut known, row, steps)
    }

    // Adds the openings to a row, which is whole then.
    fn fill_openings<L: Ledger>(
        &mut self,
        alloc: Global,
        from: StateId,
        row: &mut Row,
        steps: &mut Steps<L>,
    ) -> Result<(), Refusal>
        requires exploring { IsExploring self.old }
        requires from { from.0 < length (found self.old) }
        requires reached { IsReachedBefore self.old from.0 1 }
        requires allowed { IsAllowed (at self.old from.0).place (Opening 0) }
        requires row { IsRowAt self.old from.0 family.Openings 0 row.old }
        ensures row { OnOk result (IsRowOf self.new from.0 row.new) }
        ensures finds { Finds self.old self.new }
        ensures exploring { IsExploring self.new }
        ensures full { IfErr result (IsRightly self.old) }
        ensures most { steps.new ≤ steps.old + group_count (groups_of self.old).elements }
    {
        if self.takes_element(from)? {
            self.fill_elements(alloc, from, row, steps)
        } else {
            Ok(())
        }
    }

    // The row of a state at which texts are allowed.
    fn fill_content<L: Ledger>(
        &mut self,
        alloc: Global,
        from: StateId,
        row: &mut Row,
        steps: &mut Steps<L>,
    ) -> Result<(), Refusal>
        requires exploring { IsExploring self.old }
        requires from { from.0 < length (found self.old) }
        requires reached { IsReachedBefore self.old from.0 1 }
        requires allowed { IsAllowed (at self.old from.0).place (Chars 0) }
        requires empty { row.old ≡ [] }
        ensures row { OnOk result (IsRowOf self.new from.0 row.new) }
        ensures finds { Finds self.old self.new }
        ensures exploring { IsExploring self.new }
        ensures full { IfErr result (IsRightly self.old) }
        ensures most { steps.new ≤ steps.old + row_total (names self.old) (groups_of self.old) }
    {
        self.fill_texts(alloc, from, row, steps)?;
        self.fill_openings(alloc, from, row, steps)
    }

    /// What leads from a state by codes with a node, added to an empty row.
    pub(crate) fn fill_row<L: Ledger>(
        &mut self,
        alloc: Global,
        from: StateId,
        row: &mut Row,
        steps: &mut Steps<L>,
    ) -> Result<(), Refusal>
        requires exploring { IsExploring self.old }
        requires from { from.0 < length (found self.old) }
        requires reached { IsReachedBefore self.old from.0 1 }
        requires empty { row.old ≡ [] }
        ensures row { OnOk result (IsRowOf self.new from.0 row.new) }
        ensures finds { Finds self.old self.new }
        ensures exploring { IsExploring self.new }
        ensures full { IfErr result (IsRightly self.old) }
        ensures most { steps.new ≤ steps.old + row_total (names self.old) (groups_of self.old) }
    {
        match self.place(from) {
            Place::Tag(first) => self.fill_attributes(alloc, from, first, row, steps),
            Place::AfterText => self.fill_openings(alloc, from, row, steps),
            Place::Fresh | Place::AfterElement => self.fill_content(alloc, from, row, steps),
        }
    }
}
