// The loops that write a listing.
ghost use Rattle.std.specs.Prelude.{◌≡◌, ℕ, ◌+◌, ◌≤◌, ◌<◌, List, Option, IfSome, IfErr, IsTrue, OnOk, Ok, true, false, is_some};
ghost use Rattle.rng_model.specs.Hedges.{Skeleton as SkeletonValue};
ghost use Rattle.event_lines.specs.Spelled.{AreSpellings};
ghost use Rattle.feasibility.specs.Tables.{lists};
ghost use Rattle.lister.specs.Walks.{IsWalkOf, IsSet};
ghost use Rattle.listing.specs.Progress.{HasLeft, walk_left};
ghost use Rattle.listing.specs.Endings.{IsReadyFor, Advances, Completes, IsCut, HasCauseIn};
ghost use Rattle.listing.specs.Doing.{IsReady};
ghost use Rattle.listing.specs.Held.{IsHeldAt};
ghost use Rattle.listing.specs.Summing.{each_of};
ghost use Rattle.listing.specs.Costs.{IsWrittenFor, CostsOn, CostsTo};

use crate::listing_end::ListingEnd;
use event_lines::DocumentLines;
use feasibility::Table;
use lister::Lister;
use outside::{Sink, Steps};
use std::sync::ledger::Ledger;

/// Takes one document from what is left of the page, if there is a page limit; whether the page is full then.
pub(crate) fn fills(left: &mut Option<u64>) -> bool
    requires { IfSome left.old (λ k. 1 ≤ k) }
    ensures full { (page : Option ℕ) (many : ℕ) → HasLeft page left.old many → IsTrue result → page ≡ Some (many + 1) }
    ensures more { (page : Option ℕ) (many : ℕ) → HasLeft page left.old many → result ≡ false → HasLeft page left.new (many + 1) }
    ensures some { result ≡ false → IfSome left.new (λ k. 1 ≤ k) }
{
    match left {
        Some(count) => {
            *count -= 1;
            *count == 0
        }
        None => false,
    }
}

/// Writes the next document of the walk's size, if there is one.
fn write_next<O: Sink, L: Ledger>(
    lister: &mut Lister,
    table: &Table,
    left: &mut Option<u64>,
    lines: &mut DocumentLines,
    out: &mut O,
    steps: &mut Steps<L>,
) -> Result<bool, ListingEnd>
    requires set { IsSet lister.old.stage }
    requires grown { lister.old.size ≤ table.now.grown }
    requires own { IsWalkOf table.now lister.old.size lister.old.stage }
    requires some { IfSome left.old (λ k. 1 ≤ k) }
    requires spelled { AreSpellings (lists table.now) lines.old.spellings }
    requires held { IsHeldAt lister.old.stage lines.old.codes }
    ensures advances { (n : ℕ) (after : Option SkeletonValue) (page : Option ℕ) (taken : Option (List ℕ)) →
        IsReadyFor table.now n after lister.old page left.old taken (O.taken out.old) →
        Advances table.now n after lister.new page left.new taken (O.taken out.new) result }
    ensures costs { (n x y each : ℕ) (after : Option SkeletonValue) (page : Option ℕ) (taken : Option (List ℕ)) → each_of table.now lister.old.room ≤ each →
        IsReady table.now n after (IsWrittenFor taken (O.taken out.old) x y each steps.old) page lister.old left.old →
        CostsOn table.now n after page taken (O.taken out.new) x y each steps.new lister.new left.new result }
    ensures cut { IfErr result IsCut }
    ensures left { OnOk result (IfSome left.new (λ k. 1 ≤ k)) }
    ensures set { IsSet lister.new.stage }
    ensures own { IsWalkOf table.now lister.new.size lister.new.stage }
    ensures same { (lister.new.room ≡ lister.old.room) × (lister.new.size ≡ lister.old.size) }
    ensures fewer { result ≡ Ok true → walk_left (lists table.now) lister.new.size lister.new.stage < walk_left (lists table.now) lister.old.size lister.old.stage }
    ensures spellings { lines.new.spellings ≡ lines.old.spellings }
    ensures held { IsHeldAt lister.new.stage lines.new.codes }
    ensures told { is_some (O.taken out.new) ≡ is_some (O.taken out.old) }
    ensures cause { HasCauseIn (O.faults out.old) (O.faults out.new) result }
{
    table.holds();
    if !lister.next(table, steps) {
        return Ok(false);
    }
    let unchanged = lister.unchanged();
    if lines.write(lister.codes(), unchanged, out).is_err() {
        return Err(ListingEnd::WriteFault);
    }
    if fills(left) {
        return Err(ListingEnd::Full);
    }
    Ok(true)
}

/// Writes the documents of the walk's size from the next one on.
pub(crate) fn write_size<O: Sink, L: Ledger>(
    lister: &mut Lister,
    table: &Table,
    left: &mut Option<u64>,
    lines: &mut DocumentLines,
    out: &mut O,
    steps: &mut Steps<L>,
) -> Result<(), ListingEnd>
    requires set { IsSet lister.old.stage }
    requires grown { lister.old.size ≤ table.now.grown }
    requires own { IsWalkOf table.now lister.old.size lister.old.stage }
    requires some { IfSome left.old (λ k. 1 ≤ k) }
    requires spelled { AreSpellings (lists table.now) lines.old.spellings }
    requires held { IsHeldAt lister.old.stage lines.old.codes }
    ensures completes { (n : ℕ) (after : Option SkeletonValue) (page : Option ℕ) (taken : Option (List ℕ)) →
        IsReadyFor table.now n after lister.old page left.old taken (O.taken out.old) →
        Completes table.now n after lister.old page left.new taken (O.taken out.new) result }
    ensures costs { (n x y each : ℕ) (after : Option SkeletonValue) (page : Option ℕ) (taken : Option (List ℕ)) → each_of table.now lister.old.room ≤ each →
        IsReady table.now n after (IsWrittenFor taken (O.taken out.old) x y each steps.old) page lister.old left.old →
        CostsTo table.now n after page taken (O.taken out.new) x (y + each) each steps.new (y + each) (lister.old.size + 1) left.new result }
    ensures cut { IfErr result IsCut }
    ensures left { OnOk result (IfSome left.new (λ k. 1 ≤ k)) }
    ensures room { lister.new.room ≡ lister.old.room }
    ensures spellings { lines.new.spellings ≡ lines.old.spellings }
    ensures told { is_some (O.taken out.new) ≡ is_some (O.taken out.old) }
    ensures cause { HasCauseIn (O.faults out.old) (O.faults out.new) result }
{
    while write_next(lister, table, left, lines, out, steps)? {}
    Ok(())
}
