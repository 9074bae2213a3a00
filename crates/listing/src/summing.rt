// The totals of what is listed.
ghost use Rattle.std.specs.Prelude.{◌≡◌, ℕ, ◌+◌, ◌*◌, ◌≤◌, ◌<◌, List, length, Option, None, max, IfSome, IfErr, OnOk, Ok, true};
ghost use Rattle.rng_model.specs.Hedges.{Skeleton};
ghost use Rattle.feasibility.specs.Tables.{Keeps, lists, group_total};
ghost use Rattle.lister.specs.Walks.{IsWalkOf, IsSet};
ghost use Rattle.listing_laws.specs.Pending.{Ending, Ends};
ghost use Rattle.listing.specs.Progress.{asked_of, walk_left};
ghost use Rattle.listing.specs.Endings.{IsCut};
ghost use Rattle.listing.specs.Doing.{IsDoneBelow, IsAllDone, EndsDone, IsReady};
ghost use Rattle.listing.specs.Summing.{SumsAs, SumsOn, SumsTo, IsSum, each_of};

use crate::listing_end::ListingEnd;
use crate::writing::fills;
use event_lines::measure;
use feasibility::{Table, TableFault};
use lister::Lister;
use outside::Steps;
use std::alloc::Global;
use std::sync::ledger::Ledger;
use summary::Tally;

/// Sums the next document of the walk's size, if there is one.
fn sum_next<L: Ledger>(
    lister: &mut Lister,
    table: &Table,
    size: usize,
    left: &mut Option<u64>,
    tally: &mut Tally,
    steps: &mut Steps<L>,
) -> Result<bool, ListingEnd>
    requires from { 1 ≤ size }
    requires to { size ≤ 64 }
    requires size { lister.old.size ≡ size }
    requires set { IsSet lister.old.stage }
    requires grown { size ≤ table.now.grown }
    requires own { IsWalkOf table.now lister.old.size lister.old.stage }
    requires some { IfSome left.old (λ k. 1 ≤ k) }
    ensures sums { (n x y each : ℕ) (page : Option ℕ) → each_of table.now lister.old.room ≤ each →
        IsReady table.now n None (IsSum tally.old x y each steps.old) page lister.old left.old →
        SumsOn table.now n page lister.new left.new tally.new x y each steps.new result }
    ensures cut { IfErr result IsCut }
    ensures left { OnOk result (IfSome left.new (λ k. 1 ≤ k)) }
    ensures set { IsSet lister.new.stage }
    ensures own { IsWalkOf table.now lister.new.size lister.new.stage }
    ensures same { (lister.new.room ≡ lister.old.room) × (lister.new.size ≡ lister.old.size) }
    ensures fewer { result ≡ Ok true → walk_left (lists table.now) lister.new.size lister.new.stage < walk_left (lists table.now) lister.old.size lister.old.stage }
{
    table.holds();
    if !lister.next(table, steps) {
        return Ok(false);
    }
    let measured = measure(lister.codes(), table.universe(), table.atoms());
    tally.counted(size, measured);
    if fills(left) {
        return Err(ListingEnd::Full);
    }
    Ok(true)
}

/// Sums the documents of the walk's size from the next one on.
fn sum_size<L: Ledger>(
    lister: &mut Lister,
    table: &Table,
    size: usize,
    left: &mut Option<u64>,
    tally: &mut Tally,
    steps: &mut Steps<L>,
) -> Result<(), ListingEnd>
    requires from { 1 ≤ size }
    requires to { size ≤ 64 }
    requires size { lister.old.size ≡ size }
    requires set { IsSet lister.old.stage }
    requires grown { size ≤ table.now.grown }
    requires own { IsWalkOf table.now lister.old.size lister.old.stage }
    requires some { IfSome left.old (λ k. 1 ≤ k) }
    ensures sums { (n x y each : ℕ) (page : Option ℕ) → each_of table.now lister.old.room ≤ each →
        IsReady table.now n None (IsSum tally.old x y each steps.old) page lister.old left.old →
        SumsTo table.now n page (size + 1) left.new (IsSum tally.new x (y + each) each steps.new) (IsSum tally.new x (y + each) each steps.new) result }
    ensures cut { IfErr result IsCut }
    ensures left { OnOk result (IfSome left.new (λ k. 1 ≤ k)) }
    ensures room { lister.new.room ≡ lister.old.room }
{
    while sum_next(lister, table, size, left, tally, steps)? {}
    Ok(())
}

/// Grows the table to a size, and sums the documents of that size.
fn sum_grown<L: Ledger>(
    lister: &mut Lister,
    table: &mut Table,
    size: usize,
    left: &mut Option<u64>,
    tally: &mut Tally,
    steps: &mut Steps<L>,
) -> Result<(), ListingEnd>
    requires from { 1 ≤ size }
    requires to { size ≤ 64 }
    requires room { size ≤ lister.old.room }
    requires some { IfSome left.old (λ k. 1 ≤ k) }
    ensures sums { (n x y each most : ℕ) (page : Option ℕ) → size ≤ n → each_of table.old lister.old.room ≤ each →
        group_total table.old * (table.old.limit + 1) ≤ most →
        IsDoneBelow (asked_of table.old n None) (IsSum tally.old x y each steps.old) page size left.old →
        SumsTo table.old n page (size + 1) left.new (IsSum tally.new (x + table.old.spent) (y + table.new.spent + each) each steps.new)
        (IsSum tally.new (x + table.old.spent) (y + most + each) each steps.new) result }
    ensures cut { IfErr result IsCut }
    ensures grown { OnOk result (table.new.grown ≡ max table.old.grown size) }
    ensures left { OnOk result (IfSome left.new (λ k. 1 ≤ k)) }
    ensures room { lister.new.room ≡ lister.old.room }
    ensures kept { Keeps table.old table.new }
{
    match table.grow_to(size, steps) {
        Err(TableFault::StateLimit { size, count }) => return Err(ListingEnd::Stopped {
            size,
            count,
        }),
        Err(TableFault::OutOfMemory) => return Err(ListingEnd::OutOfMemory),
        Ok(()) => {}
    }
    table.holds();
    lister.first_of_size(size);
    sum_size(lister, table, size, left, tally, steps)
}

/// Sums the documents of each size from 1 to `size`.
fn sum_sizes<L: Ledger>(
    lister: &mut Lister,
    table: &mut Table,
    size: usize,
    left: &mut Option<u64>,
    tally: &mut Tally,
    steps: &mut Steps<L>,
) -> ListingEnd
    requires small { size ≤ 64 }
    requires room { lister.old.room ≡ size }
    requires some { IfSome left.old (λ k. 1 ≤ k) }
    ensures sums { (x y : ℕ) (page : Option ℕ) →
        IsDoneBelow (asked_of table.old size None) (IsSum tally.old x y (each_of table.old size) steps.old) page 1 left.old →
        EndsDone (asked_of table.old size None) (IsSum tally.new (x + table.old.spent)
        (y + group_total table.old * (table.old.limit + 1) + each_of table.old size * size) (each_of table.old size) steps.new) page result }
    ensures whole { (x y : ℕ) (page : Option ℕ) →
        IsDoneBelow (asked_of table.old size None) (IsSum tally.old x y (each_of table.old size) steps.old) page 1 left.old → result ≡ ListingEnd.Whole →
        IsAllDone (asked_of table.old size None) (IsSum tally.new (x + table.old.spent) (y + table.new.spent + each_of table.old size * size)
        (each_of table.old size) steps.new) page Ending.whole }
    ensures grown { table.old.grown ≤ size → result ≡ ListingEnd.Whole → table.new.grown ≡ size }
    ensures kept { Keeps table.old table.new }
{
    let mut done = 0;
    while done < size {
        if let Err(end) = sum_grown(lister, table, done + 1, left, tally, steps) {
            return end;
        }
        done += 1;
    }
    table.holds();
    ListingEnd::Whole
}

/// Counts and measures the documents of the table's schema with at most `size` nodes, 1 to 64, in order, at most `page` of them, if there is
/// a page limit, which is at least 1. The steps are those of growing the table, and at most 12 for each node that there may be and each event
/// over the lists, for each document and each size.
pub fn sum_listing<L: Ledger>(
    alloc: Global,
    table: &mut Table,
    size: usize,
    page: Option<u64>,
    steps: &mut Steps<L>,
) -> (ListingEnd, Tally)
    requires some { 1 ≤ size }
    requires most { size ≤ 64 }
    requires page { IfSome page (λ k. 1 ≤ k) }
    ensures ends { SumsAs (asked_of table.old size None) page result.1 result.0 }
    ensures kept { Keeps table.old table.new }
    ensures ticks { (e : Ending) (queue : List Skeleton) → Ends (asked_of table.old size None) page e queue →
        steps.new + table.old.spent ≤ steps.old + group_total table.old * (table.old.limit + 1) + each_of table.old size * size
        + each_of table.old size * length queue }
    ensures whole { (e : Ending) (queue : List Skeleton) → Ends (asked_of table.old size None) page e queue → result.0 ≡ ListingEnd.Whole →
        steps.new + table.old.spent ≤ steps.old + table.new.spent + each_of table.old size * size + each_of table.old size * length queue }
    ensures grown { table.old.grown ≤ size → result.0 ≡ ListingEnd.Whole → table.new.grown ≡ size }
{
    table.holds();
    let mut tally = Tally::new();
    let Ok(mut lister) = Lister::begin(alloc, size) else {
        return (ListingEnd::OutOfMemory, tally);
    };
    let mut left = page;
    let end = sum_sizes(&mut lister, table, size, &mut left, &mut tally, steps);
    (end, tally)
}
