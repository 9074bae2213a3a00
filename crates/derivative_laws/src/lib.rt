//! Laws of acceptance: reading a document piece by piece decides whether a schema allows it. A code is a piece of a document, an
//! opening, an attribute, the end of a tag, a text or an end, by positions in the lists of names and texts.
#![tactic(auto)]

ghost use Rattle.std.specs.Prelude.{◌↔◌, ◌≡◌, ℕ, List, [], IsTrue};
ghost use Rattle.std.specs.List.{AllByRecursion};
ghost use Rattle.std.specs.List.Sorted.{IsStrictlySortedBy};
ghost use Rattle.rng_model.specs.Texts.{Text};
ghost use Rattle.rng_model.specs.Names.{name_cmp};
ghost use Rattle.rng_model.specs.Patterns.{Pattern, Schema, IsSimpleForm};
ghost use Rattle.rng_model.specs.Hedges.{none, text, Skeleton, IsSkeleton};
ghost use Rattle.rng_model.specs.Events.{events};
ghost use Rattle.rng_model.specs.Matching.{Matches, MatchesDocument, nullable, matches_text};
ghost use Rattle.rng_model.specs.Restrictions.{BreaksNoRule};
ghost use Rattle.rng_model.specs.Atoms.{Literals};
ghost use Rattle.rng_model.specs.Universe.{Lists, AreLists, AreLiterals, IsAlphabet};
ghost use Rattle.rng_model.specs.Codes.{Code, IsInRange, AreCodes};
ghost use Rattle.rng_model.specs.States.{State, step, after_codes, IsAllowed, Reach};
ghost use Rattle.rng_model.specs.Alike.{AreAlikeCodes};

/// The test whether a pattern takes nothing says what the rules of matching say of no attributes and no content.
pub fn nullable_is_matching()
    ensures { (g : Schema) (p : Pattern) → IsTrue (nullable p) ↔ Matches g [] none p }
{}

/// The test whether a pattern takes a text, by which the except of a datatype is read, says what the rules of matching say of no
/// attributes and that text alone.
pub fn text_is_matching()
    ensures { (g : Schema) (p : Pattern) (s : Text) → IsTrue (matches_text p s) ↔ Matches g [] (text s none) p }
{}

/// Where a schema breaks no rule, it matches a document exactly when the pattern after the document's codes takes nothing more. This
/// holds with every number of fresh names and all extra texts, and over all lists whose attribute names ascend.
pub fn acceptance_is_matching()
    ensures universe { (g : Schema) (fresh : ℕ) (extra : List Text) (u : Lists) → BreaksNoRule g → AreLists g fresh extra u →
        (s : Skeleton) → IsSkeleton s → (codes : List Code) → AreCodes u (events s) codes →
        MatchesDocument g s ↔ IsTrue (nullable (after_codes g u codes).pattern) }
    ensures lists { (g : Schema) (u : Lists) → BreaksNoRule g → IsStrictlySortedBy name_cmp u.attributes →
        (s : Skeleton) → IsSkeleton s → (codes : List Code) → AreCodes u (events s) codes →
        MatchesDocument g s ↔ IsTrue (nullable (after_codes g u codes).pattern) }
{}

/// Where a schema breaks no rule, codes that lead to a pattern which takes nothing more are the codes of a document.
pub fn accepted_codes_are_a_skeleton()
    ensures { (g : Schema) (u : Lists) → BreaksNoRule g → IsSimpleForm g → IsAlphabet u →
        (codes : List Code) → AllByRecursion (IsInRange u) codes → IsTrue (nullable (after_codes g u codes).pattern) →
        (s : Skeleton) × IsSkeleton s × AreCodes u (events s) codes }
{}

/// Two codes of one kind whose names and texts the schema doesn't tell apart, and which are both allowed at the place of a state
/// that is reached, lead from it to the same pattern.
pub fn alike_codes_lead_to_one_pattern()
    ensures { (g : Schema) (l : Literals) (u : Lists) → AreLiterals g l → (n : ℕ) (state : State) → Reach g u n state →
        (c d : Code) → AreAlikeCodes g l u c d → IsAllowed state.place c → IsAllowed state.place d →
        (step g u state c).pattern ≡ (step g u state d).pattern }
{}
