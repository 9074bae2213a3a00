//! Laws of the schemas `element NAME { empty }`, for every name: what they list, the states that they reach and their universe. No code.
#![tactic(auto)]

ghost use Rattle.std.specs.Prelude.{◌≡◌, ◌≤◌, ◌↔◌, ℕ, List, [], ◌∷◌};
ghost use Rattle.rng_model.specs.Texts.{Text};
ghost use Rattle.rng_model.specs.Names.{Name, IsName};
ghost use Rattle.rng_model.specs.Restrictions.{BreaksNoRule};
ghost use Rattle.rng_model.specs.Hedges.{Skeleton, IsSkeleton, size};
ghost use Rattle.rng_model.specs.Events.{events, Opening, Body, Closing};
ghost use Rattle.rng_model.specs.Universe.{Lists, AreLists};
ghost use Rattle.rng_model.specs.Listing.{IsListed};
ghost use Rattle.rng_model.specs.States.{ReachesMore};
ghost use Rattle.one_element_laws.specs.OneElement.{one_element, root};

/// `element NAME { empty }` breaks no restriction (RELAX NG, section Restrictions).
pub fn no_rule_is_broken()
    ensures { (name : Name) → BreaksNoRule (one_element name) }
{}

/// Of any size from 1 on, its root alone is listed, whatever the fresh names and extra texts.
pub fn one_skeleton()
    ensures { (name : Name) → IsName name → (count : ℕ) (extra : List Text) (u : Lists) → AreLists (one_element name) count extra u →
        (n : ℕ) → 1 ≤ n → (s : Skeleton) → IsListed (one_element name) u n s ↔ (s ≡ root name) }
{}

/// At most four states are reached.
pub fn four_states()
    ensures { (name : Name) (u : Lists) (m n : ℕ) → 4 ≤ n → ReachesMore (one_element name) u m n → ⊥ }
{}

/// It has a universe, with one fresh name in each namespace and no extra text.
pub fn its_lists()
    ensures { (name : Name) → IsName name → (u : Lists) × AreLists (one_element name) 1 [] u }
{}

/// Its root is a document of one node, whose events are the opening, the end of the tag and the end of the element.
pub fn its_root()
    ensures skeleton { (name : Name) → IsName name → IsSkeleton (root name) }
    ensures events { (name : Name) → events (root name) ≡ Opening name ∷ Body ∷ Closing ∷ [] }
    ensures size { (name : Name) → size (root name) ≡ 1 }
{}
