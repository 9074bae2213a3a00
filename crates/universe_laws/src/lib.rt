//! Laws of names and texts: overlaps of name classes are decided by finitely many names, and the finite lists of names and texts
//! are enough. What stands for a name, a text or a document in these lists is its representative.
#![tactic(auto)]

ghost use Rattle.std.specs.Prelude.{◌⊎◌, List, ◌<◌, ◌≡◌, ◌↔◌, ◌≤◌, ℕ, [], ◌∷◌, IsTrue, true, false, codes};
ghost use Rattle.std.specs.List.{list_any};
ghost use Rattle.rng_model.specs.Texts.{Text};
ghost use Rattle.rng_model.specs.Classes.{Class, any, any_except, namespace, one, Overlap};
ghost use Rattle.rng_model.specs.Atoms.{Literals};
ghost use Rattle.rng_model.specs.Patterns.{Schema};
ghost use Rattle.rng_model.specs.Hedges.{Skeleton, IsSkeleton, document, size};
ghost use Rattle.rng_model.specs.Universe.{NameStandsFor, AreLiterals, Lists, AreLists, IsElementClass, IsAlphabet};
ghost use Rattle.rng_model.specs.Matching.{MatchesDocument};
ghost use Rattle.rng_model.specs.Listing.{IsListed};
ghost use Rattle.rng_model.specs.Examples.{a_name, b_name, x_name, fresh_space};
ghost use Rattle.universe_laws.specs.Examples.{foreign, not_a, open_a, no_literals, with_attributes, p_and_q};
ghost use Rattle.universe_laws.specs.Mentioned.{IsSmall};
ghost use Rattle.universe_laws.specs.Representatives.{StandsFor, HasPlainKinds, HasDistinctRepresentatives, HasRepresentatives};
ghost use Rattle.universe_laws.specs.Meeting.{MeetsFirst};
ghost use Rattle.universe_laws.specs.Overlaps.{IsNameClass, overlaps, candidates, in_both};

/// The test for an overlap, which looks at finitely many names, is true exactly when some name at all is in both classes.
pub fn overlaps_is_overlap()
    ensures { (a b : Class) → IsNameClass a → IsNameClass b → IsTrue (overlaps a b) ↔ Overlap a b }
{}

/// Two classes overlap exactly when some name of a finite list is in both.
pub fn candidates_decide_overlap()
    ensures { (a b : Class) → IsNameClass a → IsNameClass b → IsTrue (list_any (in_both a b) (candidates a b)) ↔ Overlap a b }
{}

/// The universe is enough, for schemas whose kinds are `string` and `token` alone: such a schema matches a document, over any names
/// and texts, exactly when it matches the document's representative, and the two are of one size.
pub fn the_universe_is_enough()
    ensures { (g : Schema) (l : Literals) → AreLiterals g l → HasPlainKinds g → (d r : Skeleton) → IsSkeleton d →
        StandsFor g l d r → (MatchesDocument g d ↔ MatchesDocument g r) × (size d ≡ size r) }
{}

/// So for schemas whose kinds are `string` and `token` alone, the representative of each matched document of at most n nodes is in
/// the list for n, with any number of fresh names but none, and with any extra texts.
pub fn representatives_are_listed()
    ensures { (g : Schema) (fresh : ℕ) (extra : List Text) (u : Lists) → 0 < fresh → (are : AreLists g fresh extra u) →
        IsAlphabet u → HasPlainKinds g → (d r : Skeleton) (n : ℕ) → IsSkeleton d →
        StandsFor g are.literals d r → MatchesDocument g d → size d ≤ n → IsListed g u n r }
{}

/// A document has one representative at most.
pub fn one_representative()
    ensures { (g : Schema) (l : Literals) (d r s : Skeleton) → StandsFor g l d r → StandsFor g l d s → r ≡ s }
{}

/// A document has a representative exactly where the attributes of each of its elements have distinct ones.
pub fn distinct_attributes_have_representatives()
    ensures { (g : Schema) (l : Literals) → HasRepresentatives g l → (d : Skeleton) →
        HasDistinctRepresentatives g (document d) ↔ ((r : Skeleton) × StandsFor g l d r) }
{}

/// Each name and each text has a representative, in every schema with fewer names, namespaces and literals than there are numbers
/// of 64 digits.
pub fn small_schemas_have_representatives()
    ensures { (g : Schema) (l : Literals) → IsSmall g l → HasRepresentatives g l }
{}

/// The attributes of each element of a document have distinct representatives, or there is a first line whose attribute has one
/// representative with an earlier attribute of its element, and never both.
pub fn attributes_meet_or_not()
    ensures either { (g : Schema) (l : Literals) → HasRepresentatives g l → (d : Skeleton) →
        HasDistinctRepresentatives g (document d) ⊎ ((line : ℕ) × MeetsFirst g d line) }
    ensures never_both { (g : Schema) (d : Skeleton) (line : ℕ) →
        HasDistinctRepresentatives g (document d) → MeetsFirst g d line → ⊥ }
{}

/// Worked examples: the test sees excepts, names that stand in a class, fresh names of a namespace, and names of a namespace that
/// stands in neither class.
pub fn overlaps_by_each_test()
    ensures except { overlaps (any_except (one a_name)) (one a_name) ≡ false }
    ensures named { overlaps (any_except (one a_name)) (one b_name) ≡ true }
    ensures fresh { overlaps (namespace []) (any_except (one b_name)) ≡ true }
    ensures stranger { overlaps any any ≡ true }
    ensures spaces { overlaps (namespace []) (namespace (codes "u")) ≡ false }
{}

/// Worked examples: under `element * - a { empty }` the name `b` stands for `x`, and a name of another namespace for `x` in the
/// fresh one.
pub fn names_stand_for()
    ensures same_space { NameStandsFor (IsElementClass not_a) b_name x_name }
    ensures other_space { NameStandsFor (IsElementClass not_a) foreign fresh_space }
{}

/// Worked examples: under `element a { attribute * - b { text }* }` the attributes `a` and `b` stand for `x` and `b`, which come in
/// another order. The attributes `p` and `q` would both stand for `x`, which shows in line 3.
pub fn attributes_stand_for()
    ensures anew { StandsFor open_a no_literals (with_attributes ((a_name, codes "1") ∷ (b_name, codes "2") ∷ []))
        (with_attributes ((b_name, codes "t") ∷ (x_name, codes "t") ∷ [])) }
    ensures meet { (r : Skeleton) → StandsFor open_a no_literals p_and_q r → ⊥ }
    ensures line { MeetsFirst open_a p_and_q 3 }
{}
