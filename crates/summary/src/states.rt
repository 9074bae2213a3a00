// The line of a size and its number of states.
ghost use Rattle.std.specs.Prelude.{◌≡◌, ◌++◌, is_some, OnOk, OnErr, codes, decimal};
ghost use Rattle.std.specs.Io.KnownBytes.{Appends};
ghost use Rattle.outside.specs.Counts.{HasCause};
ghost use Rattle.outside.specs.Devices.{AppendsFront};

use crate::lines::state_line;
use crate::sending::send;
use event_lines::WriteFault;
use outside::{Failed, Sink};

/// Appends a line of the size in nodes, a space and the number of states, as one piece. No memory is taken.
pub fn write_state_line<O: Sink>(size: u64, count: u64, sink: &mut O) -> Result<(), WriteFault>
    ensures ok { OnOk result (Appends (O.taken sink.old) (O.taken sink.new) (decimal size ++ codes " " ++ decimal count ++ codes "\n")) }
    ensures err { OnErr result (AppendsFront (O.taken sink.old) (O.taken sink.new) (decimal size ++ codes " " ++ decimal count ++ codes "\n")) }
    ensures told { is_some (O.taken sink.new) ≡ is_some (O.taken sink.old) }
    ensures cause { HasCause (O.faults sink.old) (O.faults sink.new) result }
{
    match send(&state_line(size, count), sink) {
        Ok(()) => Ok(()),
        Err(Failed) => Err(WriteFault),
    }
}
