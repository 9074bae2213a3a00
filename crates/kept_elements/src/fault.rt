// Why forms have no schema.
use std::alloc::AllocError;
use thiserror::Error;

/// Why the schema isn't made.
#[derive(Clone, Copy, Debug, PartialEq, Eq, Error)]
pub enum SchemaFault {
    /// The start, a content or a name class is deeper than 1,024 levels.
    #[error("a pattern or a name class of the simple form is too deep")]
    ExpandedTooDeep,
    /// Memory ran out.
    #[error("out of memory")]
    OutOfMemory,
}

impl From<AllocError> for SchemaFault {
    ghost use Rattle.kept_elements.specs.declared.fault.SchemaFault.TheVariants.{OutOfMemory};
    ghost use Rattle.std.specs.Prelude.{◌≡◌};

    ghost from_gives = { λ _ e. e ≡ OutOfMemory };

    fn from(_error: AllocError) -> SchemaFault {
        SchemaFault::OutOfMemory
    }
}
