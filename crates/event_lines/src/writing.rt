// The text of a skeleton, and single lines.
ghost use Rattle.std.specs.Prelude.{◌≡◌, ◌<◌, is_some, OnOk, OnErr};
ghost use Rattle.std.specs.Io.KnownBytes.{Appends};
ghost use Rattle.outside.specs.Counts.{HasCause};
ghost use Rattle.outside.specs.Devices.{AppendsFront};
ghost use Rattle.rng_model.specs.Lines.{skeleton_text};
ghost use Rattle.event_lines.specs.Parts.{name_line, text_line};

use crate::line_buffer::LineBuffer;
use crate::lines::{put_events, put_name_line, put_text_line};
use name_classes::Name;
use outside::{Failed, Sink};
use skeleton::Skeleton;
use text_atoms::Text;
use thiserror::Error;

/// A sink failed, and its count of faults rose.
#[derive(Clone, Copy, Debug, PartialEq, Eq, Error)]
#[error("a write failed")]
pub struct WriteFault;

/// Appends the text of the skeleton: one line for each event, and an empty line. A line of at most 32,768 bytes is handed over as
/// one piece, its line end included, and a longer one in several. After a failed write nothing more is handed over.
pub fn write_skeleton<O: Sink>(skeleton: &Skeleton, sink: &mut O) -> Result<(), WriteFault>
    ensures ok { OnOk result (Appends (O.taken sink.old) (O.taken sink.new) (skeleton_text skeleton.now)) }
    ensures err { OnErr result (AppendsFront (O.taken sink.old) (O.taken sink.new) (skeleton_text skeleton.now)) }
    ensures told { is_some (O.taken sink.new) ≡ is_some (O.taken sink.old) }
    ensures cause { HasCause (O.faults sink.old) (O.faults sink.new) result }
{
    let mut buffer = LineBuffer::new();
    match put_events(&mut buffer, sink, skeleton.events()) {
        Ok(()) => Ok(()),
        Err(Failed) => Err(WriteFault),
    }
}

/// Appends a line of the ASCII byte and the name, as one piece where it has at most 32,768 bytes.
pub fn write_name_line<O: Sink>(first: u8, name: &Name, sink: &mut O) -> Result<(), WriteFault>
    requires { first < 128 }
    ensures ok { OnOk result (Appends (O.taken sink.old) (O.taken sink.new) (name_line first name.now)) }
    ensures err { OnErr result (AppendsFront (O.taken sink.old) (O.taken sink.new) (name_line first name.now)) }
    ensures told { is_some (O.taken sink.new) ≡ is_some (O.taken sink.old) }
    ensures cause { HasCause (O.faults sink.old) (O.faults sink.new) result }
{
    let mut buffer = LineBuffer::new();
    match put_name_line(&mut buffer, sink, first, name) {
        Ok(()) => Ok(()),
        Err(Failed) => Err(WriteFault),
    }
}

/// Appends a line of the ASCII byte and the text, as one piece where it has at most 32,768 bytes.
pub fn write_text_line<O: Sink>(first: u8, text: &Text, sink: &mut O) -> Result<(), WriteFault>
    requires { first < 128 }
    ensures ok { OnOk result (Appends (O.taken sink.old) (O.taken sink.new) (text_line first text.now)) }
    ensures err { OnErr result (AppendsFront (O.taken sink.old) (O.taken sink.new) (text_line first text.now)) }
    ensures told { is_some (O.taken sink.new) ≡ is_some (O.taken sink.old) }
    ensures cause { HasCause (O.faults sink.old) (O.faults sink.new) result }
{
    let mut buffer = LineBuffer::new();
    match put_text_line(&mut buffer, sink, first, text) {
        Ok(()) => Ok(()),
        Err(Failed) => Err(WriteFault),
    }
}
