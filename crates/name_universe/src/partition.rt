// The positions of a list of names in blocks.
ghost use Rattle.std.specs.Prelude.{◌≡◌, ℕ, ◌<◌, [], false, Some, true, IfOk, OnOk, length, replicate, slice_get};
ghost use Rattle.rng_model.specs.Alike.{AreGroups};
ghost use Rattle.rng_model.specs.Classes.{in_class, is_infinite};
ghost use Rattle.name_classes.specs.Views.{class_of};
ghost use Rattle.name_universe.specs.Partitions.{AreSplit, IsOnSide, IsSplitBy};

use crate::mentions::add_names;
use crate::name_list::NameList;
use crate::names::Names;
use crate::split::{Split, block_of};
use indexmap::IndexSet;
use name_classes::{Name, NameClass};
use std::alloc::{AllocError, Global};
use std::collections::BTreeSet;
use text_atoms::Groups;

/// The positions of a list of names in blocks, which classes split one after another: the names of one block are in the same classes. At first
/// all are in block 0; what is split off has the place of its split, counted from 1.
#[derive(Drop)]
pub(crate) struct Partition {
    blocks: Vec<usize>,
    splits: IndexSet<Split>,
}

impl Partition {
    /// So many positions in one block.
    pub(crate) fn new(alloc: Global, len: usize) -> Result<Partition, AllocError>
        ensures blocks { IfOk result (λ p. p.blocks.items ≡ replicate len 0) }
        ensures splits { IfOk result (λ p. p.splits.keys ≡ []) }
    {
        Ok(Partition {
            blocks: vec![in alloc; 0; len]?,
            splits: IndexSet::new(alloc),
        })
    }

    // Splits one position off from its block.
    fn split_off(&mut self, position: usize, class: usize) -> Result<(), AllocError>
        requires { position < length self.old.blocks.items }
        ensures { OnOk result (AreSplit (λ i. i ≡ position) class self.old.blocks.items self.new.blocks.items self.old.splits.keys self.new.splits.keys) }
    {
        let block = self.blocks[position];
        self.blocks[position] = block_of(&mut self.splits, Split { block, class })?;
        Ok(())
    }

    // Splits the position of a name off, unless the class contains the name.
    fn split_other(
        &mut self,
        class: &NameClass,
        name: &Name,
        position: usize,
        number: usize,
    ) -> Result<(), AllocError>
        requires { position < length self.old.blocks.items }
        ensures { OnOk result (AreSplit (λ i. (i ≡ position) × (in_class name.now (class_of class.now) ≡ false)) number self.old.blocks.items self.new.blocks.items self.old.splits.keys self.new.splits.keys) }
    {
        if !class.contains(name) {
            self.split_off(position, number)?;
        }
        Ok(())
    }

    // Splits off the names that aren't in the class.
    fn split_outside(
        &mut self,
        names: &NameList,
        class: &NameClass,
        number: usize,
    ) -> Result<(), AllocError>
        requires { length names.now ≡ length self.old.blocks.items }
        ensures { OnOk result (AreSplit (IsOnSide names.now (class_of class.now) false) number self.old.blocks.items self.new.blocks.items self.old.splits.keys self.new.splits.keys) }
    {
        for position in 0..names.len() {
            self.split_other(class, names.get(position), position, number)?;
        }
        Ok(())
    }

    // Splits the position of a name off, if it is one of the names.
    fn split_name(&mut self, names: &Names, name: &Name, number: usize) -> Result<(), AllocError>
        requires { length names.now.names ≡ length self.old.blocks.items }
        ensures { OnOk result (AreSplit (λ i. slice_get names.now.names i ≡ Some name.now) number self.old.blocks.items self.new.blocks.items self.old.splits.keys self.new.splits.keys) }
    {
        let _ = names.list();
        if let Some(position) = names.find(name) {
            self.split_off(position, number)?;
        }
        Ok(())
    }

    // Splits off the names that are in the class, in which no wildcard stands: those that stand in it.
    fn split_inside(
        &mut self,
        alloc: Global,
        names: &Names,
        class: &NameClass,
        number: usize,
    ) -> Result<(), AllocError>
        requires finite { is_infinite (class_of class.now) ≡ false }
        requires length { length names.now.names ≡ length self.old.blocks.items }
        ensures { OnOk result (AreSplit (IsOnSide names.now.names (class_of class.now) true) number self.old.blocks.items self.new.blocks.items self.old.splits.keys self.new.splits.keys) }
    {
        let mut members = BTreeSet::new(alloc);
        add_names(alloc, &mut members, class)?;
        'members: while let Some(name) = members.pop_first() {
            self.split_name(names, &name, number)?;
        }
        Ok(())
    }

    /// Splits each block into the names that are in the class and those that aren't. The number is greater than those of the classes before.
    #[tactic(auto, using(crate::proofs::Parting::split_by))]
    pub(crate) fn split(
        &mut self,
        alloc: Global,
        names: &Names,
        class: &NameClass,
        number: usize,
    ) -> Result<(), AllocError>
        requires { length names.now.names ≡ length self.old.blocks.items }
        ensures { OnOk result (IsSplitBy names.now.names (class_of class.now) number self.old.blocks.items self.new.blocks.items self.old.splits.keys self.new.splits.keys) }
    {
        if class.is_infinite() {
            self.split_outside(names.list(), class, number)?;
        } else {
            self.split_inside(alloc, names, class, number)?;
        }
        Ok(())
    }

    /// The groups of the positions in one block.
    pub(crate) fn groups(&self, alloc: Global) -> Result<Groups, AllocError>
        ensures { IfOk result (λ groups. AreGroups ℕ (λ a b. a ≡ b) self.now.blocks.items groups) }
    {
        let mut seen = IndexSet::new(alloc);
        let mut groups = Groups::new(alloc);
        for block in self.blocks.as_slice() {
            let (group, _) = seen.insert_full(*block)?;
            groups.push(group)?;
        }
        Ok(groups)
    }
}
