// Blocks that are split off from others.
ghost use Rattle.std.specs.Prelude.{◌≡◌, ℕ, ◌+◌, IfOk};
ghost use Rattle.pattern_intern.specs.Interned.{IsTaken};

use indexmap::IndexSet;
use std::alloc::AllocError;

/// What is split off from a block: its positions on one side of a class.
#[derive(Clone, Copy, Debug, PartialEq, Eq, Hash)]
pub(crate) struct Split {
    pub(crate) block: usize,
    pub(crate) class: usize,
}

/// The number of the block that is split off so: its place, counted from 1. It goes last unless it is there.
pub(crate) fn block_of(splits: &mut IndexSet<Split>, split: Split) -> Result<usize, AllocError>
    ensures { IfOk result (λ block. (k : ℕ) × (block ≡ k + 1) × IsTaken (λ s. s) splits.old.keys split k splits.new.keys) }
{
    let (place, _) = splits.insert_full(split)?;
    let _count = splits.len();
    Ok(place + 1)
}
