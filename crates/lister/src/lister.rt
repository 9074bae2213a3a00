// The walk through the documents of one size.
ghost use Rattle.std.specs.Prelude.{◌≡◌, ◌+◌, ◌*◌, ◌≤◌, ◌↔◌, map, IsTrue, IfOk, List};
ghost use Rattle.rng_model.specs.Codes as model;
ghost use Rattle.rng_model.specs.Hedges.{size as size_of};
ghost use Rattle.rng_model.specs.Events.{events};
ghost use Rattle.rng_model.specs.Universe.{event_count};
ghost use Rattle.rng_model.specs.Codes.{AreCodes};
ghost use Rattle.rng_model.specs.Listing.{IsListed};
ghost use Rattle.skeleton.specs.Views.{code_of};
ghost use Rattle.feasibility.specs.Tables.{lists};
ghost use Rattle.lister.specs.Walks.{Stage, IsWalkOf, IsWalkOfGrown, IsStep, GoesToNext, IsSet, IsAt, IsAtOne, KeepsFront, ChangesAt};

use crate::following::follow;
use crate::next::{Phase, find};
use crate::path::Path;
use feasibility::Table;
use outside::Steps;
use skeleton::{Code, Skeleton};
use std::alloc::{AllocError, Global};
use std::marker::Model;
use std::sync::ledger::Ledger;

/// A walk through the listed documents of one size after the other.
#[derive(Drop)]
pub struct Lister {
    size: usize,
    phase: Phase,
    path: Path,
    unchanged: usize,
}

impl Model for Lister {
    ghost use Rattle.lister.specs.Walks.{Walk};
    ghost use Rattle.lister.specs.Phases.{stage_of, IsSound};

    ghost Value = { Walk };

    ghost view = { λ l. record { room = l.path.room; size = l.size; stage = stage_of l.phase l.path; unchanged = l.unchanged } };

    ghost invariant = { λ l. IsSound l.phase l.size l.path };
}

impl Lister {
    /// A walk through documents of at most `n` nodes, 1 to 64. All memory is taken here.
    pub fn begin(alloc: Global, n: usize) -> Result<Lister, AllocError>
        requires some { 1 ≤ n }
        requires most { n ≤ 64 }
        ensures room { IfOk result (λ l. l.room ≡ n) }
        ensures stage { IfOk result (λ l. l.stage ≡ Stage.nowhere) }
    {
        let path = Path::new(alloc, n)?;
        Ok(Lister {
            size: 0,
            phase: Phase::Nowhere,
            path,
            unchanged: 0,
        })
    }

    /// The document that is asked for next is the first of this size.
    pub fn first_of_size(&mut self, size: usize)
        requires some { 1 ≤ size }
        requires most { size ≤ self.old.room }
        ensures room { self.new.room ≡ self.old.room }
        ensures size { self.new.size ≡ size }
        ensures stage { self.new.stage ≡ Stage.before }
    {
        self.size = size;
        self.phase = Phase::Before;
    }

    /// The document that is asked for next is the first of the cursor's size after it. It counts at most three steps for each node.
    pub fn resume_at<L: Ledger>(&mut self, table: &Table, cursor: &Skeleton, steps: &mut Steps<L>)
        requires listed { IsListed table.now.schema (lists table.now) self.old.room cursor.now }
        requires grown { size_of cursor.now ≤ table.now.grown }
        ensures room { self.new.room ≡ self.old.room }
        ensures size { self.new.size ≡ size_of cursor.now }
        ensures at { (codes : List model.Code) → AreCodes (lists table.now) (events cursor.now) codes → IsAt self.new.stage codes }
        ensures own { IsWalkOf table.now self.new.size self.new.stage }
        ensures grows { IsWalkOfGrown table.now self.new.size self.new.stage }
        ensures ticks { steps.new ≤ steps.old + 3 * self.old.room }
    {
        table.holds();
        self.size = cursor.size();
        self.phase = Phase::At;
        follow(&mut self.path, table, cursor, steps);
    }

    /// Goes on to the next listed document of the size, whose codes are then `codes`; false where none follows, and on each later call.
    /// It takes no memory, and counts at most 12 steps for each node that there may be and each event over the lists.
    #[tactic(auto, using(crate::proofs::Documents::to_next, crate::proofs::Growing::goes_on))]
    pub fn next<L: Ledger>(&mut self, table: &Table, steps: &mut Steps<L>) -> bool
        requires set { IsSet self.old.stage }
        requires grown { self.old.size ≤ table.now.grown }
        requires own { IsWalkOf table.now self.old.size self.old.stage }
        ensures documents { GoesToNext table.now self.old.size self.old.stage self.new.stage }
        ensures step { IsStep table.now self.old.size self.old.stage self.new.stage }
        ensures found { IsTrue result ↔ IsAtOne self.new.stage }
        ensures unchanged { KeepsFront self.old.stage self.new.unchanged self.new.stage }
        ensures exact { ChangesAt self.old.stage self.new.unchanged self.new.stage }
        ensures own { IsWalkOf table.now self.new.size self.new.stage }
        ensures grows { IsWalkOfGrown table.now self.new.size self.new.stage }
        ensures same { (self.new.room ≡ self.old.room) × (self.new.size ≡ self.old.size) }
        ensures ticks { steps.new ≤ steps.old + 12 * self.old.room * event_count (lists table.now) }
    {
        table.holds();
        let found = find(&mut self.path, self.phase, self.size, table, steps);
        self.phase = if found.is_some() {
            Phase::At
        } else {
            Phase::Past
        };
        self.unchanged = found.unwrap_or(0);
        found.is_some()
    }

    /// The codes of the document at which the walk stands.
    pub fn codes(&self) -> &[Code]
        requires { IsAtOne self.now.stage }
        ensures { IsAt self.now.stage (map code_of result.now) }
    {
        self.path.codes()
    }

    /// How many codes of the document that `next` found, from the first on, stand as in the one before it in the walk: none, where it is the
    /// first of a size.
    pub fn unchanged(&self) -> usize
        ensures { result ≡ self.now.unchanged }
    {
        self.unchanged
    }
}
