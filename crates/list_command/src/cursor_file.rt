// The file of a cursor.
ghost use Rattle.std.specs.Prelude.{◌≡◌, ◌⊎◌, ◌+◌, Some, IfOk, IfErr, OnOk, IfSome};
ghost use Rattle.outside.specs.Counts.{RisesAtMost};
ghost use Rattle.outside.specs.Devices.{Shelved, IsMissing, length_of};
ghost use Rattle.list_command.specs.Causes.{HasReadCause};
ghost use Rattle.list_command.specs.Asking.{IsCursor, HasNoCursor, line_outcome};

use crate::outcome::{CursorRefusal, Outcome};
use event_lines::{LineFault, read_skeleton};
use outside::{ReadAllFault, Shelf, read_all};
use skeleton::Skeleton;
use std::alloc::Global;

/// The most bytes that a cursor may have.
const CURSOR_LIMIT: usize = 2_097_152;

/// The document whose text the file has, or how the run ends.
pub(crate) fn read_cursor<F: Shelf>(
    alloc: Global,
    file: &str,
    shelf: &mut F,
) -> Result<Skeleton, Outcome>
    ensures read { (files : Shelved) → F.files shelf.old ≡ Some files → IfOk result (IsCursor file.now files) }
    ensures owed { (files : Shelved) → F.files shelf.old ≡ Some files →
        IfErr result (HasNoCursor file.now files (F.faults shelf.old) (F.faults shelf.new)) }

    ensures cause { IfErr result (HasReadCause (IsMissing (F.files shelf.old) file.now) (F.faults shelf.old) (F.faults shelf.new)) }
    ensures kept { OnOk result (F.faults shelf.new ≡ F.faults shelf.old) }
    ensures misses { (F.misses shelf.new ≡ F.misses shelf.old) ⊎ IsMissing (F.files shelf.old) file.now }
    ensures calls { IfSome (F.files shelf.old) (λ files. RisesAtMost (length_of files file.now + 2) (F.calls shelf.old) (F.calls shelf.new)) }
{
    let bytes = match read_all(alloc, shelf, file, CURSOR_LIMIT) {
        Ok(bytes) => bytes,
        Err(ReadAllFault::OutOfMemory) => return Err(Outcome::OutOfMemory),
        Err(ReadAllFault::ReadFault) => return Err(Outcome::ReadFault),
        Err(ReadAllFault::TooLong) => return Err(Outcome::CursorRefused(CursorRefusal::TooLong)),
    };
    match read_skeleton(alloc, bytes.as_slice()) {
        Ok(skeleton) => Ok(skeleton),
        Err(fault) => Err(no_skeleton(fault)),
    }
}

/// How a run ends whose cursor's lines have this fault.
fn no_skeleton(fault: LineFault) -> Outcome
    ensures { result ≡ line_outcome fault }
{
    match fault {
        LineFault::BadLine { line } => Outcome::CursorRefused(CursorRefusal::BadLine { line }),
        LineFault::Unfinished => Outcome::CursorRefused(CursorRefusal::Unfinished),
        LineFault::Trailing { line } => Outcome::CursorRefused(CursorRefusal::Trailing { line }),
        LineFault::NotOrdered { line } => Outcome::CursorRefused(CursorRefusal::NotOrdered {
            line,
        }),
        LineFault::OutOfMemory => Outcome::OutOfMemory,
    }
}
