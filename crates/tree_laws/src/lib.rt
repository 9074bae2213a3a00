//! Laws of the trees that tokens derive: what each of them has, whatever it says.
#![tactic(auto)]

ghost use Rattle.std.specs.Prelude.{ℕ, List, ◌++◌, length, Contains};
ghost use Rattle.token_laws.specs.Tokens.{Placed};
ghost use Rattle.token_laws.specs.Lexing.{Tokens};
ghost use Rattle.grammar_laws.specs.Trees.{File};
ghost use Rattle.grammar_laws.specs.Grammar.{Derives};
ghost use Rattle.tree_laws.specs.WholeBodies.{AreDistinct, IsWhole, AreDeclarationsWithin};
ghost use Rattle.tree_laws.specs.Examples.{late_reference, digit_name, lone_member, shared_place};

/// The tree of a schema file: its places are at most the file's length, the local names of its name classes are texts and NCNames, its lists
/// have two members or more, and no two of its references stand at one place.
pub fn trees_are_whole()
    ensures body { (bytes : List ℕ) (ts : List Placed) (f : File) → Tokens bytes ts → Derives ts f → IsWhole (length bytes) f.body }
    ensures declarations { (bytes : List ℕ) (ts : List Placed) (f : File) →
        Tokens bytes ts → Derives ts f → AreDeclarationsWithin (length bytes) f.declarations }
{}

/// Where the numbers of two lists, one behind the other, are distinct, so are those of each, and no number is in both.
pub fn distinct_parts()
    ensures front { (xs ys : List ℕ) → AreDistinct (xs ++ ys) → AreDistinct xs }
    ensures back { (xs ys : List ℕ) → AreDistinct (xs ++ ys) → AreDistinct ys }
    ensures apart { (xs ys : List ℕ) (a : ℕ) → AreDistinct (xs ++ ys) → Contains xs a → Contains ys a → ⊥ }
{}

/// Worked examples: bodies that are not whole, each by one of the four facts.
pub fn bodies_not_whole()
    ensures place { IsWhole 3 late_reference → ⊥ }
    ensures name { IsWhole 9 digit_name → ⊥ }
    ensures member { IsWhole 9 lone_member → ⊥ }
    ensures reference { IsWhole 9 shared_place → ⊥ }
{}
