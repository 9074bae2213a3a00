// A whole file.
ghost use Rattle.std.specs.Prelude.{◌≡◌, ◌⊎◌, ◌+◌, ◌≤◌, vec_len, IfOk, IsErrOf, IfSome};
ghost use Rattle.outside.specs.Counts.{Rose, RisesAtMost};
ghost use Rattle.outside.specs.Devices.{IsMissing, AreBytesOf, IsLonger, length_of};

use crate::devices::{Failed, Shelf};
use std::alloc::Global;

/// Why a file wasn't read.
#[derive(Clone, Copy, Debug, PartialEq, Eq)]
pub enum ReadAllFault {
    OutOfMemory,
    ReadFault,
    TooLong,
}

/// The bytes of the named file, at most `limit` of them.
pub fn read_all<F: Shelf>(
    alloc: Global,
    shelf: &mut F,
    name: &str,
    limit: usize,
) -> Result<Vec<u8>, ReadAllFault>
    ensures bytes { IfOk result (λ bytes. AreBytesOf (F.files shelf.old) name.now bytes.items) }
    ensures short { IfOk result (λ bytes. vec_len bytes ≤ limit) }
    ensures too_long { IsErrOf result ReadAllFault.TooLong → IsLonger (F.files shelf.old) name.now limit }
    ensures read_fault { IsErrOf result ReadAllFault.ReadFault →
        Rose (F.faults shelf.old) (F.faults shelf.new)
        ⊎ (IsMissing (F.files shelf.old) name.now × Rose (F.misses shelf.old) (F.misses shelf.new)) }

    // Every answer but ReadFault leaves both counts.
    ensures later { F.faults shelf.old ≤ F.faults shelf.new }
    ensures same_faults { (F.faults shelf.new ≡ F.faults shelf.old) ⊎ IsErrOf result ReadAllFault.ReadFault }
    ensures missed { (F.misses shelf.new ≡ F.misses shelf.old)
        ⊎ (IsErrOf result ReadAllFault.ReadFault × IsMissing (F.files shelf.old) name.now × (F.misses shelf.old ≤ F.misses shelf.new)
        × (F.faults shelf.new ≡ F.faults shelf.old)) }

    ensures same_files { F.files shelf.new ≡ F.files shelf.old }
    ensures calls { RisesAtMost (limit + 3) (F.calls shelf.old) (F.calls shelf.new) }
    ensures told_calls { IfSome (F.files shelf.old) (λ files.
        RisesAtMost (length_of files name.now + 2) (F.calls shelf.old) (F.calls shelf.new)) }
{
    if shelf.open_file(name).is_err() {
        return Err(ReadAllFault::ReadFault);
    }
    let mut bytes: Vec<u8> = Vec::new(alloc);
    let mut buffer = [0; 16_384];
    loop {
        let count = match shelf.read(&mut buffer) {
            Ok(count) => count,
            Err(_) => return Err(ReadAllFault::ReadFault),
        };
        if count == 0 {
            return Ok(bytes);
        }
        if limit - bytes.len() < count {
            return Err(ReadAllFault::TooLong);
        }
        if bytes.extend_from_slice(&buffer[..count]).is_err() {
            return Err(ReadAllFault::OutOfMemory);
        }
    }
}
