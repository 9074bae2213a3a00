// Laws of the least place.
ghost use Rattle.std.specs.Prelude.{◌≡◌, ℕ, List, ◌++◌};
ghost use Rattle.name_resolution.specs.Least.{IsLeast, least, lesser};

/// The least place of a list is a member of it, and no member is less; an empty list has none.
pub fn least_is_least()
    ensures { (xs : List ℕ) → IsLeast xs (least xs) }
{}

/// The least place of two lists is the lesser of theirs.
pub fn least_of_both()
    ensures { (xs ys : List ℕ) → least (xs ++ ys) ≡ lesser (least xs) (least ys) }
{}
