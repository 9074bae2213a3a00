// Reading events one by one, with a depth, a place and the last attribute's name.
ghost use Rattle.std.specs.Prelude.{◌≡◌, ◌+◌, ◌≤◌, ◌<◌, ◌^◌, map, IfSome};
ghost use Rattle.std.specs.Option.{option_map};
ghost use Rattle.line_laws.specs.Walks.{Before, event_step, fault_number, follows};
ghost use Rattle.skeleton.specs.Views.{event_of};
ghost use Rattle.skeleton.specs.Places.{walk_of, depth_of, name_of};

use crate::event::Event;
use name_classes::Name;
use text_atoms::is_white;

/// Where the reading stands: before the root; in a tag, behind an attribute of that name or behind none; in a content, where a
/// text may come or not; behind the root. The number is that of the open elements around the innermost one.
#[derive(Clone, Copy)]
enum Place<'a> {
    Before,
    Tag(usize, Option<&'a Name>),
    Content(usize, bool),
    After,
}

/// Whether the name may come behind the last attribute's.
fn follows(last: Option<&Name>, name: &Name) -> bool
    ensures { result ≡ follows (name_of last.entry) name.now }
{
    match last {
        Some(last) => last.cmp(name).is_lt(),
        None => true,
    }
}

/// The place behind one more event, or none where the event can't come.
fn step<'a>(place: Place<'a>, event: &'a Event) -> Option<Place<'a>>
    requires { depth_of place + 1 < 2 ^ 64 }
    ensures place { option_map walk_of result ≡ event_step (walk_of place.entry) (event_of event.now) }
    ensures depth { IfSome result (λ next. depth_of next ≤ depth_of place.entry + 1) }
{
    match (place, event) {
        (Place::Before, Event::Opening(_)) => Some(Place::Tag(0, None)),
        (Place::Tag(depth, last), Event::Attr(name, _)) if follows(last, name) => {
            Some(Place::Tag(depth, Some(name)))
        }
        (Place::Tag(depth, _), Event::Body) => Some(Place::Content(depth, true)),
        (Place::Content(depth, _), Event::Opening(_)) => Some(Place::Tag(depth + 1, None)),
        (Place::Content(depth, true), Event::Chars(text)) if !is_white(text.as_str()) => {
            Some(Place::Content(depth, false))
        }
        (Place::Content(depth, _), Event::Closing) => Some(match depth.checked_sub(1) {
            Some(outer) => Place::Content(outer, true),
            None => Place::After,
        }),
        _ => None,
    }
}

/// The number of the first event with which no skeleton's events go on, or the length where more events would have to follow.
pub(crate) fn first_fault(events: &[Event]) -> Option<usize>
    ensures { result ≡ fault_number Before (map event_of events.now) }
{
    let mut place = Place::Before;
    for (number, event) in events.iter().enumerate() {
        match step(place, event) {
            Some(next) => place = next,
            None => return Some(number),
        }
    }
    match place {
        Place::After => None,
        _ => Some(events.len()),
    }
}
