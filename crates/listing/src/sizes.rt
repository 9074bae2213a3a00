// The listing of all sizes.
ghost use Rattle.std.specs.Prelude.{◌≡◌, ℕ, ◌+◌, ◌*◌, ◌≤◌, List, [], Option, option_map, max, IfSome, IfOk, IfErr, OnOk, is_some};
ghost use Rattle.rng_model.specs.Hedges.{size as size_of, Skeleton as SkeletonValue};
ghost use Rattle.rng_model.specs.Listing.{IsListed};
ghost use Rattle.event_lines.specs.Spelled.{AreSpellings};
ghost use Rattle.feasibility.specs.Tables.{Keeps, group_total, lists};
ghost use Rattle.listing_laws.specs.Fronts.{IsBehind};
ghost use Rattle.listing.specs.Progress.{asked_of};
ghost use Rattle.listing.specs.Endings.{EndsAs, IsCut, HasCauseOf, HasCauseIn, IsAtStart, IsAtSize, GoesOn, Begins};
ghost use Rattle.listing.specs.Doing.{IsDoneBelow};
ghost use Rattle.listing.specs.Summing.{each_of};
ghost use Rattle.listing.specs.Costs.{IsWrittenFor, HasCost, CostsTo, CostsFirst};

use crate::listing_end::ListingEnd;
use crate::writing::write_size;
use event_lines::DocumentLines;
use feasibility::{Table, TableFault};
use lister::Lister;
use outside::{Sink, Steps};
use skeleton::Skeleton;
use std::alloc::{AllocError, Global};
use std::sync::ledger::Ledger;

/// Grows the table to a size, and writes the documents of that size.
fn list_size<O: Sink, L: Ledger>(
    lister: &mut Lister,
    table: &mut Table,
    m: usize,
    left: &mut Option<u64>,
    lines: &mut DocumentLines,
    out: &mut O,
    steps: &mut Steps<L>,
) -> Result<(), ListingEnd>
    requires some { 1 ≤ m }
    requires most { m ≤ lister.old.room }
    requires small { lister.old.room ≤ 64 }
    requires left { IfSome left.old (λ k. 1 ≤ k) }
    requires spelled { AreSpellings (lists table.old) lines.old.spellings }
    ensures goes_on { (n : ℕ) (after : Option SkeletonValue) (page : Option ℕ) (taken : Option (List ℕ)) → m ≤ n →
        IsAtSize table.old n after m page left.old taken (O.taken out.old) →
        GoesOn table.old n after m page left.new taken (O.taken out.new) result }
    ensures costs { (n x y each most : ℕ) (after : Option SkeletonValue) (page : Option ℕ) (taken : Option (List ℕ)) → m ≤ n →
        each_of table.old lister.old.room ≤ each → group_total table.old * (table.old.limit + 1) ≤ most → IsBehind (asked_of table.old n after) m →
        IsDoneBelow (asked_of table.old n after) (IsWrittenFor taken (O.taken out.old) x y each steps.old) page m left.old →
        CostsTo table.old n after page taken (O.taken out.new) (x + table.old.spent) (y + table.new.spent + each) each steps.new (y + most + each)
        (m + 1) left.new result }
    ensures cut { IfErr result IsCut }
    ensures grown { OnOk result (table.new.grown ≡ max table.old.grown m) }
    ensures left { OnOk result (IfSome left.new (λ k. 1 ≤ k)) }
    ensures room { lister.new.room ≡ lister.old.room }
    ensures kept { Keeps table.old table.new }
    ensures spellings { lines.new.spellings ≡ lines.old.spellings }
    ensures told { is_some (O.taken out.new) ≡ is_some (O.taken out.old) }
    ensures cause { HasCauseIn (O.faults out.old) (O.faults out.new) result }
{
    match table.grow_to(m, steps) {
        Err(TableFault::StateLimit { size, count }) => return Err(ListingEnd::Stopped {
            size,
            count,
        }),
        Err(TableFault::OutOfMemory) => return Err(ListingEnd::OutOfMemory),
        Ok(()) => {}
    }
    table.holds();
    lister.first_of_size(m);
    write_size(lister, table, left, lines, out, steps)
}

/// Writes the documents of each size from `first` on to `size`.
fn list_sizes<O: Sink, L: Ledger>(
    lister: &mut Lister,
    table: &mut Table,
    first: usize,
    size: usize,
    left: &mut Option<u64>,
    lines: &mut DocumentLines,
    out: &mut O,
    steps: &mut Steps<L>,
) -> ListingEnd
    requires some { 1 ≤ first }
    requires most { first ≤ size + 1 }
    requires small { size ≤ 64 }
    requires room { lister.old.room ≡ size }
    requires left { IfSome left.old (λ k. 1 ≤ k) }
    requires spelled { AreSpellings (lists table.old) lines.old.spellings }
    ensures ends { (after : Option SkeletonValue) (page : Option ℕ) (taken : Option (List ℕ)) →
        IsAtSize table.old size after first page left.old taken (O.taken out.old) →
        EndsAs (asked_of table.old size after) page taken (O.taken out.new) result }
    ensures costs { let each = each_of table.old size in (x y : ℕ) (after : Option SkeletonValue) (page : Option ℕ) (taken : Option (List ℕ)) →
        IsBehind (asked_of table.old size after) first →
        IsDoneBelow (asked_of table.old size after) (IsWrittenFor taken (O.taken out.old) (x + each) (y + each * first) each steps.old) page first left.old →
        HasCost taken (O.taken out.new) (x + table.old.spent) (y + group_total table.old * (table.old.limit + 1) + each * size) each steps.new
        (asked_of table.old size after) page }
    ensures whole { let each = each_of table.old size in (x y : ℕ) (after : Option SkeletonValue) (page : Option ℕ) (taken : Option (List ℕ)) →
        IsBehind (asked_of table.old size after) first →
        IsDoneBelow (asked_of table.old size after) (IsWrittenFor taken (O.taken out.old) (x + each) (y + each * first) each steps.old) page first left.old →
        result ≡ ListingEnd.Whole →
        HasCost taken (O.taken out.new) (x + table.old.spent) (y + table.new.spent + each * size) each steps.new (asked_of table.old size after) page }
    ensures grown { table.old.grown ≤ size → first ≤ table.old.grown + 1 → result ≡ ListingEnd.Whole → table.new.grown ≡ size }
    ensures kept { Keeps table.old table.new }
    ensures spellings { lines.new.spellings ≡ lines.old.spellings }
    ensures told { is_some (O.taken out.new) ≡ is_some (O.taken out.old) }
    ensures cause { HasCauseOf (O.faults out.old) (O.faults out.new) result }
{
    let mut m = first;
    while m <= size {
        if let Err(end) = list_size(lister, table, m, left, lines, out, steps) {
            return end;
        }
        m += 1;
    }
    table.holds();
    ListingEnd::Whole
}

/// Writes the documents of the cursor's size that follow it, if there is a cursor, and answers the next size.
fn resume<O: Sink, L: Ledger>(
    lister: &mut Lister,
    table: &Table,
    after: Option<&Skeleton>,
    left: &mut Option<u64>,
    lines: &mut DocumentLines,
    out: &mut O,
    steps: &mut Steps<L>,
) -> Result<usize, ListingEnd>
    requires left { IfSome left.old (λ k. 1 ≤ k) }
    requires spelled { AreSpellings (lists table.now) lines.old.spellings }
    requires none { lines.old.codes ≡ [] }
    requires small { lister.old.room ≤ 64 }
    requires listed { IfSome after (λ c. IsListed table.now.schema (lists table.now) lister.old.room c.now) }
    requires grown { IfSome after (λ c. size_of c.now ≤ table.now.grown) }
    ensures begins { (page : Option ℕ) (taken : Option (List ℕ)) → IsAtStart page left.old taken (O.taken out.old) →
        Begins table.now lister.old.room (option_map (λ c. c.now) after.entry) page left.new taken (O.taken out.new) result }
    ensures costs { (page : Option ℕ) (taken : Option (List ℕ)) → IsAtStart page left.old taken (O.taken out.old) →
        CostsFirst table.now lister.old.room (option_map (λ c. c.now) after.entry) page taken (O.taken out.new) (steps.old + 3 * lister.old.room)
        (each_of table.now lister.old.room) steps.new left.new result }
    ensures cut { IfErr result IsCut }
    ensures known { IfOk result (λ m. m ≤ table.now.grown + 1) }
    ensures left { OnOk result (IfSome left.new (λ k. 1 ≤ k)) }
    ensures some { IfOk result (λ m. 1 ≤ m) }
    ensures most { 1 ≤ lister.old.room → IfOk result (λ m. m ≤ lister.old.room + 1) }
    ensures room { lister.new.room ≡ lister.old.room }
    ensures spellings { lines.new.spellings ≡ lines.old.spellings }
    ensures told { is_some (O.taken out.new) ≡ is_some (O.taken out.old) }
    ensures cause { HasCauseIn (O.faults out.old) (O.faults out.new) result }
{
    let Some(cursor) = after else {
        return Ok(1);
    };
    table.holds();
    lister.resume_at(table, cursor, steps);
    match write_size(lister, table, left, lines, out, steps) {
        Ok(()) => Ok(cursor.size() + 1),
        Err(end) => Err(end),
    }
}

/// What a listing keeps from its beginning on: the walk, and the table's names and texts spelled.
fn begin(alloc: Global, table: &Table, size: usize) -> Result<(Lister, DocumentLines), AllocError>
    requires some { 1 ≤ size }
    requires most { size ≤ 64 }
    ensures room { IfOk result (λ begun. begun.0.room ≡ size) }
    ensures spelled { IfOk result (λ begun. AreSpellings (lists table.now) begun.1.spellings) }
    ensures none { IfOk result (λ begun. begun.1.codes ≡ []) }
{
    let lister = Lister::begin(alloc, size)?;
    let lines = DocumentLines::of(alloc, table.universe(), table.atoms())?;
    Ok((lister, lines))
}

/// Writes the documents of the table's schema with at most `size` nodes, 1 to 64, in order: from the first on, or those that follow the
/// cursor; at most `page` of them, if there is a page limit, which is at least 1. Memory is asked for where it begins, for the walk and the
/// spelled names and texts, and then between two sizes alone. The steps are
/// those of growing the table, three for each node that there may be, and at most 12 for each such node and each event over the lists, for
/// each document that is written whole and each size.
pub fn write_listing<O: Sink, L: Ledger>(
    alloc: Global,
    table: &mut Table,
    size: usize,
    after: Option<&Skeleton>,
    page: Option<u64>,
    out: &mut O,
    steps: &mut Steps<L>,
) -> ListingEnd
    requires some { 1 ≤ size }
    requires most { size ≤ 64 }
    requires page { IfSome page (λ k. 1 ≤ k) }
    requires listed { IfSome after (λ c. IsListed table.old.schema (lists table.old) size c.now) }
    requires grown { IfSome after (λ c. size_of c.now ≤ table.old.grown) }
    ensures ends { EndsAs (asked_of table.old size (option_map (λ c. c.now) after.entry)) page (O.taken out.old) (O.taken out.new) result }
    ensures cause { HasCauseOf (O.faults out.old) (O.faults out.new) result }
    ensures told { is_some (O.taken out.new) ≡ is_some (O.taken out.old) }
    ensures kept { Keeps table.old table.new }
    ensures costs { let each = each_of table.old size in
        HasCost (O.taken out.old) (O.taken out.new) table.old.spent (steps.old + group_total table.old * (table.old.limit + 1) + 3 * size + each * size) each
        steps.new (asked_of table.old size (option_map (λ c. c.now) after.entry)) page }
    ensures whole { let each = each_of table.old size in result ≡ ListingEnd.Whole →
        HasCost (O.taken out.old) (O.taken out.new) table.old.spent (steps.old + table.new.spent + 3 * size + each * size) each
        steps.new (asked_of table.old size (option_map (λ c. c.now) after.entry)) page }
    ensures grown { table.old.grown ≤ size → result ≡ ListingEnd.Whole → table.new.grown ≡ size }
{
    table.holds();
    let Ok((mut lister, mut lines)) = begin(alloc, table, size) else {
        return ListingEnd::OutOfMemory;
    };
    let mut left = page;
    match resume(&mut lister, table, after, &mut left, &mut lines, out, steps) {
        Ok(first) => list_sizes(
            &mut lister,
            table,
            first,
            size,
            &mut left,
            &mut lines,
            out,
            steps,
        ),
        Err(end) => end,
    }
}
