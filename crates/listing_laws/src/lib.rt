//! Laws of a listing: what it writes before a page is full, before it stops, and when it is whole.
#![tactic(auto)]

ghost use Rattle.std.specs.Prelude.{◌≡◌, ℕ, ◌+◌, ◌≤◌, ◌<◌, Option, Some, None, List, [], ◌∷◌, ◌++◌, length};
ghost use Rattle.rng_model.specs.Hedges.{Skeleton, size};
ghost use Rattle.table_laws.specs.Walking.{codes_cmp, IsOfSize, IsFirst, IsNext, GoesThrough};
ghost use Rattle.std.specs.List.{AllByRecursion};
ghost use Rattle.std.specs.declared.cmp.Ordering.TheVariants.{Less};
ghost use Rattle.rng_model.specs.Universe.{Lists};
ghost use Rattle.rng_model.specs.Codes.{Code, IsInRange};
ghost use Rattle.listing_laws.specs.Pending.{Asked, first_size, IsOver, IsStop, AreAll, AreFirst, Ending, Ends};
ghost use Rattle.listing_laws.specs.Ranks.{rank, rank_total};
ghost use Rattle.listing_laws.specs.Fronts.{AreBelow, AreUpTo, IsBehind, NoStopBelow, Fits, BeginsWith};

mod countings;

pub use countings::one_counting;

/// What is written grows: from nothing before size 1 or at the cursor, by the first of a size and by the next one, to all of a size.
pub fn fronts_grow()
    ensures start { (a : Asked) → AreBelow a (first_size a.after) [] }
    ensures fresh { (a : Asked) → a.after ≡ None → AreBelow a 1 [] }
    ensures resumed { (a : Asked) (c : Skeleton) → a.after ≡ Some c → AreUpTo a c [] }
    ensures first { (a : Asked) (m : ℕ) (front : List Skeleton) (t : Skeleton) → AreBelow a m front → IsBehind a m → m ≤ a.size →
        IsFirst a.schema a.lists m t → AreUpTo a t (front ++ t ∷ []) }
    ensures next { (a : Asked) (m : ℕ) (front : List Skeleton) (last t : Skeleton) → AreUpTo a last front → m ≤ a.size → size last ≡ m →
        IsNext a.schema a.lists m last t → AreUpTo a t (front ++ t ∷ []) }
    ensures none { (a : Asked) (m : ℕ) (front : List Skeleton) → AreBelow a m front →
        ((s : Skeleton) → IsOfSize a.schema a.lists m s → ⊥) → AreBelow a (m + 1) front }
    ensures end { (a : Asked) (m : ℕ) (front : List Skeleton) (last : Skeleton) → AreUpTo a last front → size last ≡ m →
        GoesThrough a.schema a.lists m last [] → AreBelow a (m + 1) front }
{}

/// What is written is all where the last size is reached, or where a size has too many states. Before, it is a first part of all.
pub fn fronts_are_first()
    ensures whole { (a : Asked) (front : List Skeleton) → AreBelow a (a.size + 1) front → ((m : ℕ) → IsStop a m → ⊥) → AreAll a front }
    ensures stopped { (a : Asked) (m : ℕ) (front : List Skeleton) → AreBelow a m front → IsStop a m → AreAll a front }
    ensures to { (a : Asked) (front : List Skeleton) (last : Skeleton) → AreUpTo a last front → (IsOver a (size last) → ⊥) →
        AreFirst a (length front) front }
    ensures below { (a : Asked) (m : ℕ) (front : List Skeleton) → AreBelow a m front → NoStopBelow a m →
        AreFirst a (length front) front }
{}

/// A listing ends in one way, with one list of documents.
pub fn one_ending()
    ensures { (a : Asked) (page : Option ℕ) (e f : Ending) (queue other : List Skeleton) →
        Ends a page e queue → Ends a page f other → (e ≡ f) × (queue ≡ other) }
{}

/// What is written begins with each first part of all that fits on the page.
pub fn it_begins()
    ensures { (a : Asked) (page : Option ℕ) (front : List Skeleton) (e : Ending) (queue : List Skeleton) →
        AreFirst a (length front) front → Fits (length front) page → Ends a page e queue → BeginsWith front queue }
{}

/// Greater lists of codes have a greater rank, and no rank of a list of at most k codes is more than the total: so a walk through ever greater
/// lists ends.
pub fn ranks_grow()
    ensures less { (u : Lists) (k : ℕ) (cs ds : List Code) → AllByRecursion (IsInRange u) cs → AllByRecursion (IsInRange u) ds →
        length cs ≤ k → length ds ≤ k → codes_cmp cs ds ≡ Less → rank u k cs < rank u k ds }
    ensures small { (u : Lists) (k : ℕ) (cs : List Code) → AllByRecursion (IsInRange u) cs → length cs ≤ k → rank u k cs < rank_total u k }
{}
