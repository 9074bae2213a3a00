// Lists that grow.
ghost use Rattle.std.specs.Prelude.{◌≡◌, [], ◌∷◌, ◌++◌, OnErr, OnOk};

use std::alloc::AllocError;

/// Adds an item at the end. Where memory is wanting, the list stays as before and the item is dropped.
pub(crate) fn note<T: Drop>(list: &mut Vec<T>, item: T) -> Result<(), AllocError>
    ensures ok { OnOk result (list.new.items ≡ list.old.items ++ item ∷ []) }
    ensures err { OnErr result (list.new.items ≡ list.old.items) }
{
    list.push(item)?;
    Ok(())
}
