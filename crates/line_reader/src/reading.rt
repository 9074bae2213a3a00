// Skeletons read from their text.
ghost use Rattle.std.specs.Prelude.{◌≡◌, ◌∷◌, [], ◌<◌, ◌+◌, ◌^◌, false, length, map, Some, None, IfOk, IfErr, MatchOption};
ghost use Rattle.rng_model.specs.Hedges.{IsSkeleton};
ghost use Rattle.rng_model.specs.Lines.{skeleton_text};
ghost use Rattle.line_laws.specs.LineRefusals.{IsText, cut_lines};
ghost use Rattle.line_laws.specs.LineWalks.{line_fault};
ghost use Rattle.line_laws.specs.Walks.{Before, After};
ghost use Rattle.skeleton.specs.Views.{event_of};
ghost use Rattle.line_reader.specs.Faults.{IsRefused, refusal_of, is_attribute, stray_fault};

use crate::cuts::cut_at;
use crate::events::read_events;
use skeleton::{Event, Skeleton};
use std::alloc::{AllocError, Global};
use thiserror::Error;

/// Why bytes are no skeleton's text. Lines are counted from 1.
#[derive(Clone, Copy, Debug, PartialEq, Eq, Error)]
pub enum LineFault {
    /// The first line through which the lines begin no skeleton's text.
    #[error("line {line} begins no skeleton's text")]
    BadLine { line: usize },
    /// The lines begin a skeleton's text, and more would have to follow.
    #[error("the text isn't finished")]
    Unfinished,
    /// The first lines are a skeleton's text, and the line is the first behind it.
    #[error("line {line} stands behind the text")]
    Trailing { line: usize },
    /// As BadLine, where the line is an attribute's behind another attribute's, and its name isn't greater.
    #[error("line {line} has an attribute that is out of order")]
    NotOrdered { line: usize },
    /// Memory ran out.
    #[error("out of memory")]
    OutOfMemory,
}

impl From<AllocError> for LineFault {
    ghost use Rattle.std.specs.Prelude.{◌≡◌};
    ghost use Rattle.line_reader.specs.declared.reading.LineFault.{LineFault};

    ghost from_gives = { λ _ fault. fault ≡ LineFault.OutOfMemory };

    fn from(_: AllocError) -> LineFault {
        LineFault::OutOfMemory
    }
}

/// The fault of what follows the events of a whole skeleton, from that line on, or none where it is the empty line alone.
fn fault_behind_skeleton(line: usize, rest: &[u8]) -> Option<LineFault>
    requires { line + 1 < 2 ^ 64 }
    ensures { MatchOption result
        (rest.now ≡ 10 ∷ [])
        (λ fault. line_fault (λ _. None) line After (cut_lines rest.now).0 (cut_lines rest.now).1 ≡ refusal_of fault) }
{
    let Some((body, more)) = cut_at(rest, b'\n') else {
        return Some(LineFault::Unfinished);
    };
    if !body.is_empty() {
        return Some(LineFault::BadLine { line });
    }
    if more.is_empty() {
        return None;
    }
    Some(LineFault::Trailing { line: line + 1 })
}

/// The fault of what follows the first events of a skeleton, from that line on, where it begins with no event's line.
fn fault_behind_front(line: usize, rest: &[u8]) -> LineFault
    ensures { line_fault (λ _. None) line Before (cut_lines rest.now).0 (cut_lines rest.now).1 ≡ refusal_of result }
{
    match cut_at(rest, b'\n') {
        Some(_) => LineFault::BadLine { line },
        None => LineFault::Unfinished,
    }
}

/// Whether the event is an attribute.
fn is_attribute(event: &Event) -> bool
    ensures { result ≡ is_attribute (event_of event.now) }
{
    matches!(event, Event::Attr(_, _))
}

/// The fault of the event at the position, with which no skeleton's events go on.
fn fault_of_event(events: &[Event], position: usize) -> LineFault
    requires { position < length events.now }
    ensures { refusal_of result ≡ Some (stray_fault false (map event_of events.now) position 1) }
{
    let line = position + 1;
    if position > 0 && is_attribute(&events[position - 1]) && is_attribute(&events[position]) {
        return LineFault::NotOrdered { line };
    }
    LineFault::BadLine { line }
}

/// The skeleton whose text the bytes are: one line for each event, each ended by a line feed, and an empty line.
pub fn read_skeleton(alloc: Global, bytes: &[u8]) -> Result<Skeleton, LineFault>
    ensures ok { IfOk result (λ skeleton. IsSkeleton skeleton × (skeleton_text skeleton ≡ bytes.now)) }
    ensures refused { IfErr result (λ fault. IsRefused bytes.now fault) }
    ensures whole { IsText bytes.now → IfErr result (λ fault. fault ≡ LineFault.OutOfMemory) }
{
    let (events, len) = read_events(alloc, bytes)?;
    let count = events.as_slice().len();
    let line = count + 1;
    let rest = &bytes[len..];
    match Skeleton::accept(events) {
        Ok(skeleton) => match fault_behind_skeleton(line, rest) {
            None => Ok(skeleton),
            Some(fault) => Err(fault),
        },
        Err(refused) => {
            if refused.event < count {
                return Err(fault_of_event(refused.events.as_slice(), refused.event));
            }
            Err(fault_behind_front(line, rest))
        }
    }
}
