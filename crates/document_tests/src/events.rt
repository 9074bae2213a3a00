// Lists of events that are a skeleton's or not, row by row, and the order of skeletons.
use name_classes::Name;
use skeleton::{Code, Event, Events, Skeleton, SkeletonFault};
use std::alloc::Global;
use std::cmp::Ordering;
use std::test::Fail;
use text_atoms::Text;

fn text(alloc: Global, characters: &str) -> Result<Text, Fail> {
    Ok(Text::from_string(String::from_str(alloc, characters)?))
}

fn name(alloc: Global, local: &str) -> Result<Name, Fail> {
    Ok(Name::new(text(alloc, "u")?, text(alloc, local)?)?)
}

/// The event of a kind, with the name or the text.
fn event(alloc: Global, kind: char, word: &str) -> Result<Event, Fail> {
    Ok(match kind {
        '(' => Event::Opening(name(alloc, word)?),
        'A' => Event::Attr(name(alloc, word)?, text(alloc, "t")?),
        '-' => Event::Chars(text(alloc, word)?),
        '>' => Event::Body,
        _ => Event::Closing,
    })
}

/// The events of these kinds, each with its name or its text.
fn events_of(alloc: Global, rows: &[(char, &str)]) -> Result<Events, Fail> {
    let mut list = Events::new(alloc);
    for (kind, word) in rows {
        list.push(event(alloc, *kind, word)?)?;
    }
    Ok(list)
}

/// Whether so many events are those of a skeleton of a size, or are refused at the event of a number.
fn are_read(list: Events, count: usize, wanted: Result<usize, usize>) -> bool {
    if list.len() != count {
        return false;
    }
    match Skeleton::from_events(list) {
        Ok(skeleton) => skeleton.events().len() == count && wanted == Ok(skeleton.size()),
        Err(SkeletonFault::NotSkeleton { event }) => wanted == Err(event),
    }
}

#[test]
fn lists_of_events(rt: HostRuntime) -> Result<(), Fail> {
    let none: &[(char, &str)] = &[];
    let rows = [
        (none, Err(0)),
        ([('(', "a")].as_slice(), Err(1)),
        ([('(', "a"), ('>', ""), (')', "")].as_slice(), Ok(1)),
        ([('(', "a"), ('A', "c"), ('A', "b")].as_slice(), Err(2)),
        ([('(', "a"), ('A', "b"), ('A', "b")].as_slice(), Err(2)),
        ([('(', "a"), ('>', ""), ('-', " ")].as_slice(), Err(2)),
        (
            [('(', "a"), ('>', ""), ('-', "t"), ('-', "u")].as_slice(),
            Err(3),
        ),
        (
            [
                ('(', "a"),
                ('A', "b"),
                ('A', "c"),
                ('>', ""),
                ('-', "t"),
                ('(', "a"),
                ('>', ""),
                (')', ""),
                ('-', "u"),
                (')', ""),
            ]
            .as_slice(),
            Ok(6),
        ),
    ];
    for (events, wanted) in rows {
        let list = events_of(rt.alloc(), events)?;
        assert!(rt; are_read(list, events.len(), wanted), "{wanted:?}");
    }
    Ok(())
}

/// Whether the events are those of two skeletons in this order.
fn are_so(left: Events, right: Events, order: Ordering) -> bool {
    match (Skeleton::from_events(left), Skeleton::from_events(right)) {
        (Ok(left), Ok(right)) => left.compare(&right) == order,
        _ => false,
    }
}

#[test]
fn order_of_skeletons(rt: HostRuntime) -> Result<(), Fail> {
    let small: &[(char, &str)] = &[('(', "b"), ('>', ""), (')', "")];
    let text: &[(char, &str)] = &[('(', "a"), ('>', ""), ('-', "t"), (')', "")];
    let attribute: &[(char, &str)] = &[('(', "a"), ('A', "a"), ('>', ""), (')', "")];
    let rows = [
        (small, text, Ordering::Less),
        (attribute, text, Ordering::Greater),
        (text, text, Ordering::Equal),
    ];
    for (left, right, order) in rows {
        let left = events_of(rt.alloc(), left)?;
        let right = events_of(rt.alloc(), right)?;
        assert!(rt; are_so(left, right, order));
    }
    Ok(())
}

#[test]
fn order_of_codes(rt: HostRuntime) {
    assert!(rt; Code::Closing < Code::Chars(0) && Code::Attr(0, 5) < Code::Attr(1, 0));
}
