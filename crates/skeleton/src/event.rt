// Events and lists of events.
ghost use Rattle.std.specs.Prelude.{◌≡◌, ◌<◌, ◌++◌, ◌∷◌, [], length, filter, map, slice_get, IsUtf8, OnOk, OnErr, Some};
ghost use Rattle.std.specs.List.{AllByRecursion};
ghost use Rattle.rng_model.specs.Names.{IsName};
ghost use Rattle.line_laws.specs.EventLists.{IsEvent};
ghost use Rattle.skeleton.specs.Views.{event_of, is_node};

use name_classes::Name;
use std::alloc::{AllocError as OutOfMemory, Global};
use std::marker::Model;
use text_atoms::Text;

/// An event of a skeleton. Events are ordered by kind, as the kinds stand here, then by the name, then by the text.
#[derive(Debug, Drop, PartialEq, Eq, PartialOrd, Ord)]
pub enum Event {
    /// The end of a tag.
    Body,
    /// The end of an element.
    Closing,
    /// A text.
    Chars(Text),
    /// An attribute with its text.
    Attr(Name, Text),
    /// The start of a tag, with the element's name.
    Opening(Name),
}

/// A list of events.
#[derive(Drop)]
pub struct Events {
    items: Vec<Event>,
}

impl Model for Events {
    ghost use Rattle.std.specs.Prelude.{List, map};
    ghost use Rattle.std.specs.List.{AllByRecursion};
    ghost use Rattle.rng_model.specs.Events.{Event as EventValue};
    ghost use Rattle.line_laws.specs.EventLists.{IsEvent};

    ghost Value = { List EventValue };

    ghost use Rattle.skeleton.specs.Views.{event_of};

    ghost view = { λ e. map event_of e.items.items };

    ghost invariant = { λ e. AllByRecursion IsEvent (map event_of e.items.items) };
}

// A name is one.
fn is_name(name: &Name)
    ensures { IsName name.now }
{
    let _ = name.local();
}

// A text is one.
fn is_text(text: &Text)
    ensures { IsUtf8 text.now }
{
    let _ = text.as_str();
}

// The event's names are names, and its text is a text.
fn is_event(event: &Event)
    ensures { IsEvent (event_of event.now) }
{
    match event {
        Event::Opening(name) => is_name(name),
        Event::Attr(name, text) => {
            is_name(name);
            is_text(text);
        }
        Event::Body | Event::Closing => {}
        Event::Chars(text) => is_text(text),
    }
}

impl Event {
    /// Whether it is an element's, an attribute's or a text's: Body and Closing are no nodes.
    fn is_node(&self) -> bool
        ensures { result ≡ is_node (event_of self.now) }
    {
        !matches!(self, Event::Body | Event::Closing)
    }
}

/// The number of elements, attributes and texts.
pub(crate) fn count_nodes(events: &[Event]) -> usize
    ensures { result ≡ length (filter (λ event. is_node (event_of event)) events.now) }
{
    events.iter().filter(|event| event.is_node()).count()
}

impl Events {
    /// No events.
    pub fn new(alloc: Global) -> Self
        ensures { result ≡ [] }
    {
        Events {
            items: Vec::new(alloc),
        }
    }

    /// Adds an event at the end. When it is refused the list is as before, and the event is dropped.
    pub fn push(&mut self, event: Event) -> Result<(), OutOfMemory>
        ensures ok { OnOk result (self.new ≡ self.old ++ event_of event ∷ []) }
        ensures err { OnErr result (self.new ≡ self.old) }
    {
        is_event(&event);
        self.items.push(event)?;
        Ok(())
    }

    /// How many events there are.
    pub fn len(&self) -> usize
        ensures { result ≡ length self.now }
    {
        self.items.len()
    }

    /// The event at a position.
    pub fn get(&self, position: usize) -> &Event
        requires { position < length self.now }
        ensures { slice_get self.now position ≡ Some (event_of result.now) }
    {
        &self.items[position]
    }

    /// The events.
    pub fn as_slice(&self) -> &[Event]
        ensures events { map event_of result.now ≡ self.now }
        ensures are_events { AllByRecursion IsEvent self.now }
    {
        self.items.as_slice()
    }
}
