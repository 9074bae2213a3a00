// Why a graph has no forms.
use std::alloc::AllocError;
use thiserror::Error;

/// Why the forms aren't made.
#[derive(Clone, Copy, Debug, PartialEq, Eq, Error)]
pub enum FormsFault {
    /// A reference leads back to itself without an element between (section Restrictions, recursive references): the least place.
    #[error("a reference leads back to itself")]
    Loop { at: usize },
    /// Memory ran out.
    #[error("out of memory")]
    OutOfMemory,
}

impl From<AllocError> for FormsFault {
    ghost use Rattle.pattern_forms.specs.declared.fault.FormsFault.TheVariants.{OutOfMemory};
    ghost use Rattle.std.specs.Prelude.{◌≡◌};

    ghost from_gives = { λ _ e. e ≡ OutOfMemory };

    fn from(_error: AllocError) -> FormsFault {
        FormsFault::OutOfMemory
    }
}
