// Why a table doesn't grow.
ghost use Rattle.std.specs.Prelude.{◌≡◌, ◌≤◌};
ghost use Rattle.feasibility.specs.Faults.{fault_of};

use std::alloc::AllocError;
use thiserror::Error;

/// Why a table doesn't grow.
#[derive(Clone, Copy, Debug, PartialEq, Eq, Error)]
pub enum TableFault {
    /// More than the limit of states is reached with `size` nodes; `count` is the limit and one.
    #[error("more than the limit of states at size {size}")]
    StateLimit { size: usize, count: usize },
    #[error("out of memory")]
    OutOfMemory,
}

/// Why a state isn't found.
#[derive(Clone, Copy, Debug, PartialEq, Eq)]
pub(crate) enum Refusal {
    /// There are as many states as the limit allows, and a further one is reached.
    Full,
    OutOfMemory,
}

impl From<AllocError> for Refusal {
    ghost use Rattle.feasibility.specs.declared.fault.Refusal.TheVariants.{OutOfMemory};
    ghost use Rattle.std.specs.Prelude.{◌≡◌};

    ghost from_gives = { λ _ e. e ≡ OutOfMemory };

    fn from(_error: AllocError) -> Refusal {
        Refusal::OutOfMemory
    }
}

/// The fault of a table of at most `limit` states that doesn't grow to a size.
pub(crate) fn table_fault(refusal: Refusal, size: usize, limit: usize) -> TableFault
    requires { limit ≤ 1000000 }
    ensures { result ≡ fault_of refusal size limit }
{
    match refusal {
        Refusal::Full => TableFault::StateLimit {
            size,
            count: limit + 1,
        },
        Refusal::OutOfMemory => TableFault::OutOfMemory,
    }
}
