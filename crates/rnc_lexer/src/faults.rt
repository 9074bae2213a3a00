// Faults of lexing.
use std::alloc::{AllocError, AllocFailed};
use thiserror::Error;

/// Why a text has no tokens. A place counts bytes from the beginning of the input.
#[derive(Clone, Copy, Debug, PartialEq, Eq, Error)]
pub enum LexFault {
    /// The bytes aren't UTF-8; the place of the first ill-formed sequence.
    #[error("no UTF-8 at byte {at}")]
    BadUtf8 { at: usize },
    /// A character that isn't allowed, or one that begins no token.
    #[error("a character that isn't allowed at byte {at}")]
    BadCharacter { at: usize },
    /// A segment that isn't closed; the place of its first quote.
    #[error("an open literal at byte {at}")]
    OpenLiteral { at: usize },
    /// An escape in a segment that isn't valid; the place of its backslash.
    #[error("an escape that isn't valid at byte {at}")]
    BadEscape { at: usize },
    /// An escape outside segments, or one that stands for a quote; the place of its backslash.
    #[error("an escape that is refused at byte {at}")]
    EscapeRefused { at: usize },
    /// A literal of more than 4,096 bytes; the place of the segment with which it passes the limit.
    #[error("a literal that is too long at byte {at}")]
    LiteralTooLong { at: usize },
    /// A name of more than 1,024 bytes; the place of its first byte, without the backslash.
    #[error("a name that is too long at byte {at}")]
    NameTooLong { at: usize },
    /// Memory ran out.
    #[error("out of memory")]
    OutOfMemory,
}

impl From<AllocError> for LexFault {
    ghost use Rattle.std.specs.Prelude.{◌≡◌};
    ghost use Rattle.rnc_lexer.specs.declared.faults.LexFault.{LexFault};

    ghost from_gives = { λ _ fault. fault ≡ LexFault.OutOfMemory };

    fn from(_: AllocError) -> LexFault {
        LexFault::OutOfMemory
    }
}

impl<T: Drop> From<AllocFailed<T>> for LexFault {
    ghost use Rattle.std.specs.Prelude.{◌≡◌};
    ghost use Rattle.rnc_lexer.specs.declared.faults.LexFault.{LexFault};

    ghost from_gives = { λ _ fault. fault ≡ LexFault.OutOfMemory };

    fn from(_: AllocFailed<T>) -> LexFault {
        LexFault::OutOfMemory
    }
}
