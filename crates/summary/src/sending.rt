// A line that is handed over.
ghost use Rattle.std.specs.Prelude.{OnOk, OnErr};
ghost use Rattle.summary.specs.Sending.{Sends, Fails};

use crate::lines::Line;
use outside::{Failed, Sink, write_all};

/// Hands a line over, as one piece.
pub(crate) fn send<O: Sink>(line: &Line, sink: &mut O) -> Result<(), Failed>
    ensures ok { OnOk result (Sends (O.taken sink.old) (O.taken sink.new) (O.faults sink.old) (O.faults sink.new) line.now.bytes) }
    ensures err { OnErr result (Fails (O.taken sink.old) (O.taken sink.new) (O.faults sink.old) (O.faults sink.new) line.now.bytes) }
{
    write_all(sink, line.as_str().as_bytes())
}
