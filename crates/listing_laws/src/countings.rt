// Numbers of states are counted in one way.
ghost use Rattle.std.specs.Prelude.{◌≡◌, ℕ, List};
ghost use Rattle.listing_laws.specs.Pending.{Asked, Ending};
ghost use Rattle.listing_laws.specs.StateCounts.{EndsCounting};

/// Counting states size by size ends in one way, with one list of numbers.
pub fn one_counting()
    ensures { (a : Asked) (e f : Ending) (xs ys : List ℕ) → EndsCounting a e xs → EndsCounting a f ys → (e ≡ f) × (xs ≡ ys) }
{}
