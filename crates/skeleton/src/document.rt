// Skeletons.
ghost use Rattle.std.specs.Prelude.{◌≡◌, ◌↔◌, ℕ, map, IfOk, IfErr, MatchResult, IsOk, Err};
ghost use Rattle.rng_model.specs.Hedges.{IsSkeleton, size};
ghost use Rattle.rng_model.specs.Events.{events, skeleton_cmp};
ghost use Rattle.line_laws.specs.EventLists.{AreEvents, IsNoSkeleton};
ghost use Rattle.skeleton.specs.Views.{event_of};

use crate::event::{Event, Events, count_nodes};
use crate::walk::first_fault;
use line_laws::{reading_events_is_exact, size_is_counted};
use std::cmp::Ordering;
use std::marker::Model;
use thiserror::Error;

/// An element with its attributes by ascending name and its children. No two neighbouring children are texts, and each text has
/// a character that isn't white space. It keeps its events in one list.
#[derive(Drop)]
pub struct Skeleton {
    events: Events,
}

impl Model for Skeleton {
    ghost use Rattle.rng_model.specs.Hedges.{Skeleton as SkeletonValue};
    ghost use Rattle.rng_model.specs.CodedSkeletons.{skeleton_code, skeleton_of};
    ghost use Rattle.line_laws.specs.EventLists.{AreEvents};

    ghost Value = { SkeletonValue };

    ghost coded = { skeleton_code };

    ghost view = { λ s. skeleton_of s.events };

    ghost invariant = { λ s. AreEvents s.events };
}

/// Why events make no skeleton.
#[derive(Clone, Copy, Debug, PartialEq, Eq, Error)]
pub enum SkeletonFault {
    /// The number, from 0, of the first event with which no skeleton's events go on, or the number of all events where a
    /// skeleton's events begin with them and more follow.
    #[error("no skeleton goes on with event {event}")]
    NotSkeleton { event: usize },
}

/// Events that make no skeleton, and the number at which they are refused, as `SkeletonFault` has it.
#[derive(Drop)]
pub struct RefusedEvents {
    pub events: Events,
    pub event: usize,
}

impl Skeleton {
    /// The skeleton that has these events, or the events as they were and where they are refused.
    pub fn accept(list: Events) -> Result<Skeleton, RefusedEvents>
        ensures skeleton { IfOk result (λ skeleton. IsSkeleton skeleton × (events skeleton ≡ list)) }
        ensures ok { IsOk result ↔ AreEvents list }
        ensures kept { IfErr result (λ refused. refused.events ≡ list) }
        ensures refused { (event : ℕ) →
            MatchResult result (λ _. ⊥) (λ refused. refused.event ≡ event) ↔ IsNoSkeleton list event }
    {
        reading_events_is_exact();
        match first_fault(list.as_slice()) {
            None => Ok(Skeleton { events: list }),
            Some(event) => Err(RefusedEvents {
                events: list,
                event,
            }),
        }
    }

    /// The skeleton that has these events. When they are refused they are dropped.
    pub fn from_events(list: Events) -> Result<Skeleton, SkeletonFault>
        ensures skeleton { IfOk result (λ skeleton. IsSkeleton skeleton × (events skeleton ≡ list)) }
        ensures ok { IsOk result ↔ AreEvents list }
        ensures not_skeleton { (event : ℕ) →
            (result ≡ Err (SkeletonFault.NotSkeleton event)) ↔ IsNoSkeleton list event }
    {
        match Skeleton::accept(list) {
            Ok(skeleton) => Ok(skeleton),
            Err(refused) => Err(SkeletonFault::NotSkeleton {
                event: refused.event,
            }),
        }
    }

    /// Its events, in the order of the document, attributes by ascending name.
    pub fn events(&self) -> &[Event]
        ensures events { map event_of result.now ≡ events self.now }
        ensures is_skeleton { IsSkeleton self.now }
    {
        self.events.as_slice()
    }

    /// The number of its elements, attributes and texts.
    pub fn size(&self) -> usize
        ensures { result ≡ size self.now }
    {
        size_is_counted();
        count_nodes(self.events.as_slice())
    }

    /// The order of skeletons: by size, and at equal size by the first event in which they differ.
    pub fn compare(&self, other: &Skeleton) -> Ordering
        ensures { result ≡ skeleton_cmp self.now other.now }
    {
        match self.size().cmp(&other.size()) {
            Ordering::Equal => self.events().cmp(other.events()),
            order => order,
        }
    }
}
