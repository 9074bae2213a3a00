// The file of a schema.
ghost use Rattle.std.specs.Prelude.{◌≡◌, ◌⊎◌, ◌+◌, Some, IfOk, IfErr, OnOk, IfSome};
ghost use Rattle.rng_model.specs.Restrictions.{BreaksNoRule};
ghost use Rattle.outside.specs.Counts.{RisesAtMost};
ghost use Rattle.outside.specs.Devices.{Shelved, IsMissing, length_of};
ghost use Rattle.list_command.specs.Runs.{EndsUnread, IsRead};
ghost use Rattle.list_command.specs.Causes.{HasReadCause};

use crate::outcome::{Outcome, SchemaFault, refused};
use crate::schema::{ReadSchemaFault, read_schema};
use outside::{ReadAllFault, Shelf, read_all};
use pattern_intern::Schema;
use std::alloc::Global;

/// The most bytes that a schema may have.
pub(crate) const SCHEMA_LIMIT: usize = 1_048_576;

/// The schema in the file, or how the run ends.
pub(crate) fn read_file<F: Shelf>(
    alloc: Global,
    file: &str,
    shelf: &mut F,
) -> Result<Schema, Outcome>
    ensures accepted { (files : Shelved) → F.files shelf.old ≡ Some files → IfOk result (λ schema. IsRead file.now files schema.schema) }
    ensures sound { IfOk result (λ schema. BreaksNoRule schema.schema) }
    ensures owed { (files : Shelved) → F.files shelf.old ≡ Some files → IfErr result (EndsUnread file.now files (F.faults shelf.old) (F.faults shelf.new)) }

    ensures cause { IfErr result (HasReadCause (IsMissing (F.files shelf.old) file.now) (F.faults shelf.old) (F.faults shelf.new)) }
    ensures kept { OnOk result (F.faults shelf.new ≡ F.faults shelf.old) }
    ensures same_files { F.files shelf.new ≡ F.files shelf.old }
    ensures misses { (F.misses shelf.new ≡ F.misses shelf.old) ⊎ IsMissing (F.files shelf.old) file.now }
    ensures calls { IfSome (F.files shelf.old) (λ files. RisesAtMost (length_of files file.now + 2) (F.calls shelf.old) (F.calls shelf.new)) }
{
    let bytes = match read_all(alloc, shelf, file, SCHEMA_LIMIT) {
        Ok(bytes) => bytes,
        Err(ReadAllFault::OutOfMemory) => return Err(Outcome::OutOfMemory),
        Err(ReadAllFault::ReadFault) => return Err(Outcome::ReadFault),
        Err(ReadAllFault::TooLong) => return Err(refused(alloc, SchemaFault::TooLong, file)),
    };
    match read_schema(alloc, bytes.as_slice()) {
        Ok(schema) => Ok(schema),
        Err(ReadSchemaFault::OutOfMemory) => Err(Outcome::OutOfMemory),
        Err(ReadSchemaFault::Refused(fault)) => Err(refused(alloc, fault, file)),
    }
}
