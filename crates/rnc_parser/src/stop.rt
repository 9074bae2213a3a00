// Why reading stops.
use std::alloc::AllocError;
use thiserror::Error;

/// Why a part of the grammar isn't read. Where it is for its syntax, the cursor stands at the first token that can't be there.
#[derive(Clone, Copy, Debug, PartialEq, Eq, Error)]
pub enum Stop {
    /// The next token can't stand there, or a token is missing.
    #[error("a syntax error")]
    Syntax,
    /// Memory ran out.
    #[error("out of memory")]
    OutOfMemory,
}

impl From<AllocError> for Stop {
    ghost use Rattle.rnc_parser.specs.declared.stop.Stop.TheVariants.{OutOfMemory};
    ghost use Rattle.std.specs.Prelude.{◌≡◌};

    ghost from_gives = { λ _ e. e ≡ OutOfMemory };

    fn from(_error: AllocError) -> Stop {
        Stop::OutOfMemory
    }
}
