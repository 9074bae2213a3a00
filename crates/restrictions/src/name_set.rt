// Sets of the names of a short list.
ghost use Rattle.std.specs.Prelude.{◌≡◌, ◌≢◌, ℕ, ◌<◌, true, false, not, ◌&&◌, ◌||◌};
ghost use Rattle.restrictions.specs.NameSets.{has};

/// A set of the names of a list of at most 64, by their positions.
#[derive(Clone, Copy, Debug)]
pub(crate) struct NameSet {
    bits: u64,
}

/// How long a list may be of whose names there are sets.
pub(crate) const MOST: usize = 64;

impl NameSet {
    /// No name.
    pub(crate) fn none() -> NameSet
        ensures { (k : ℕ) → has result k ≡ false }
    {
        NameSet { bits: 0 }
    }

    /// All names.
    pub(crate) fn all() -> NameSet
        ensures { (k : ℕ) → k < 64 → has result k ≡ true }
    {
        NameSet { bits: u64::MAX }
    }

    /// The name at a position alone.
    pub(crate) fn only(position: usize) -> NameSet
        requires { position < 64 }
        ensures itself { has result position ≡ true }
        ensures others { (k : ℕ) → k ≢ position → has result k ≡ false }
    {
        NameSet {
            bits: 1 << position,
        }
    }

    /// Whether the name at a position is in it.
    pub(crate) fn has(self, position: usize) -> bool
        requires { position < 64 }
        ensures { result ≡ has self position }
    {
        (self.bits >> position) & 1 == 1
    }

    /// The names in one of both.
    pub(crate) fn union(self, other: NameSet) -> NameSet
        ensures { (k : ℕ) → has result k ≡ (has self k || has other k) }
    {
        NameSet {
            bits: self.bits | other.bits,
        }
    }

    /// The names in both.
    pub(crate) fn common(self, other: NameSet) -> NameSet
        ensures { (k : ℕ) → has result k ≡ (has self k && has other k) }
    {
        NameSet {
            bits: self.bits & other.bits,
        }
    }

    /// The names that aren't in the other.
    pub(crate) fn without(self, other: NameSet) -> NameSet
        ensures { (k : ℕ) → k < 64 → has result k ≡ (has self k && not (has other k)) }
    {
        NameSet {
            bits: self.bits & !other.bits,
        }
    }
}
