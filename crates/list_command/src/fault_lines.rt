// The fault line of an outcome.
ghost use Rattle.std.specs.Prelude.{◌≡◌, ◌≤◌, ◌+◌, ◌++◌, Some, length, decimal};
ghost use Rattle.list_command.specs.Status.{fault_line, schema_fault_text, cursor_refusal_text};
ghost use Rattle.list_command.specs.Runs.{WritesLine, WritesFaultLine};

use crate::line::Line;
use crate::outcome::{CursorRefusal, Outcome, SchemaFault};
use outside::{Sink, write_all};

/// Writes the fault line of an outcome, where it has one, as one piece. A failed write changes no outcome.
pub fn write_fault_line<E: Sink>(outcome: &Outcome, err: &mut E)
    ensures { WritesFaultLine outcome.now (E.taken err.old) (E.taken err.new) (E.faults err.old) (E.faults err.new) }
{
    if let Some(line) = line_of(outcome) {
        write_line(line.as_bytes(), err);
    }
}

/// The fault line of an outcome, where it has one.
#[tactic(auto, unfolding(crate::specs::Status::fault_line))]
fn line_of(outcome: &Outcome) -> Option<Line>
    ensures { result ≡ fault_line outcome.now }
{
    let mut line = Line::new();
    match outcome {
        Outcome::Done | Outcome::Page => return None,
        Outcome::Words => {
            line.text(b"words\n");
            Some(line)
        }
        Outcome::ReadFault => {
            line.text(b"read\n");
            Some(line)
        }
        Outcome::WriteFault => {
            line.text(b"write\n");
            Some(line)
        }
        Outcome::OutOfMemory => {
            line.text(b"memory\n");
            Some(line)
        }
        Outcome::SchemaRefused(fault, _) => {
            line.text(b"schema ");
            schema_fault(fault, &mut line);
            line.text(b"\n");
            Some(line)
        }
        Outcome::CursorRefused(refusal) => {
            line.text(b"cursor ");
            cursor_refusal(refusal, &mut line);
            line.text(b"\n");
            Some(line)
        }
        Outcome::StateLimit { size, count } => {
            numbered(b"states size ", *size, &mut line);
            numbered(b" count ", *count, &mut line);
            line.text(b"\n");
            Some(line)
        }
    }
}

/// Writes a line, as far as it is taken.
fn write_line<E: Sink>(line: &[u8], err: &mut E)
    ensures { WritesLine (Some line.now) (E.taken err.old) (E.taken err.new) (E.faults err.old) (E.faults err.new) }
{
    let _ = write_all(err, line);
}

/// A text, and then a number.
fn numbered(text: &[u8], number: usize, line: &mut Line)
    requires { length line.old + length text.now ≤ 70 }
    ensures text { line.new ≡ line.old ++ (text.now ++ decimal number) }
    ensures len { length line.new ≤ length line.old + length text.now + 20 }
{
    line.text(text);
    line.number(number);
}

/// The number and name of a schema's fault, and its place.
fn schema_fault(fault: &SchemaFault, line: &mut Line)
    requires { length line.old ≤ 10 }
    ensures text { line.new ≡ line.old ++ schema_fault_text fault.now }
    ensures short { length line.new ≤ 80 }
{
    match fault {
        SchemaFault::BadUtf8 { at } => numbered(b"1 BadUtf8 at ", *at, line),
        SchemaFault::BadCharacter { at } => numbered(b"2 BadCharacter at ", *at, line),
        SchemaFault::OpenLiteral { at } => numbered(b"3 OpenLiteral at ", *at, line),
        SchemaFault::BadEscape { at } => numbered(b"4 BadEscape at ", *at, line),
        SchemaFault::EscapeRefused { at } => numbered(b"5 EscapeRefused at ", *at, line),
        SchemaFault::LiteralTooLong { at } => numbered(b"6 LiteralTooLong at ", *at, line),
        SchemaFault::NameTooLong { at } => numbered(b"7 NameTooLong at ", *at, line),
        SchemaFault::TooLong => line.text(b"8 TooLong"),
        SchemaFault::Syntax { at } => numbered(b"11 Syntax at ", *at, line),
        SchemaFault::TooDeep { at } => numbered(b"12 TooDeep at ", *at, line),
        SchemaFault::Include { at } => numbered(b"21 Include at ", *at, line),
        SchemaFault::External { at } => numbered(b"22 External at ", *at, line),
        SchemaFault::Inherit { at } => numbered(b"23 Inherit at ", *at, line),
        SchemaFault::List { at } => numbered(b"24 List at ", *at, line),
        SchemaFault::ForeignType { at } => numbered(b"25 ForeignType at ", *at, line),
        SchemaFault::Parameter { at } => numbered(b"26 Parameter at ", *at, line),
        SchemaFault::UnboundPrefix { at } => numbered(b"31 UnboundPrefix at ", *at, line),
        SchemaFault::PrefixTwice { at } => numbered(b"32 PrefixTwice at ", *at, line),
        SchemaFault::ReservedPrefix { at } => numbered(b"33 ReservedPrefix at ", *at, line),
        SchemaFault::ClassConstraint { at } => numbered(b"34 ClassConstraint at ", *at, line),
        SchemaFault::XmlnsAttribute { at } => numbered(b"35 XmlnsAttribute at ", *at, line),
        SchemaFault::NoStart => line.text(b"36 NoStart"),
        SchemaFault::UndefinedName { at } => numbered(b"37 UndefinedName at ", *at, line),
        SchemaFault::ParentOutside { at } => numbered(b"38 ParentOutside at ", *at, line),
        SchemaFault::CombineMixed { at } => numbered(b"39 CombineMixed at ", *at, line),
        SchemaFault::DefinedTwice { at } => numbered(b"40 DefinedTwice at ", *at, line),
        SchemaFault::Loop { at } => numbered(b"41 Loop at ", *at, line),
        SchemaFault::ExpandedTooDeep => line.text(b"42 ExpandedTooDeep"),
        SchemaFault::Restriction { rule } => numbered(b"43 Restriction rule ", *rule, line),
        SchemaFault::BadValue { at } => numbered(b"44 BadValue at ", *at, line),
    }
}

/// The number and name of a cursor's refusal, and its line.
fn cursor_refusal(refusal: &CursorRefusal, line: &mut Line)
    requires { length line.old ≤ 10 }
    ensures text { line.new ≡ line.old ++ cursor_refusal_text refusal.now }
    ensures short { length line.new ≤ 80 }
{
    match refusal {
        CursorRefusal::TooLong => line.text(b"60 TooLong"),
        CursorRefusal::BadLine { line: at } => numbered(b"61 BadLine line ", *at, line),
        CursorRefusal::Unfinished => line.text(b"62 Unfinished"),
        CursorRefusal::Trailing { line: at } => numbered(b"63 Trailing line ", *at, line),
        CursorRefusal::NotOrdered { line: at } => numbered(b"64 NotOrdered line ", *at, line),
        CursorRefusal::CursorTooLarge => line.text(b"71 CursorTooLarge"),
        CursorRefusal::CursorStray { line: at } => numbered(b"72 CursorStray line ", *at, line),
    }
}
