//! The grammar of the compact syntax and the tree of a schema as it is written, and laws of them.
#![tactic(auto)]

ghost use Rattle.std.specs.Prelude.{◌≡◌, ℕ, List, ◌++◌, take};
ghost use Rattle.token_laws.specs.Tokens.{Placed};
ghost use Rattle.grammar_laws.specs.Trees.{File, Pattern, Items};
ghost use Rattle.grammar_laws.specs.Grammar.{Derives, Begins, ReadsPattern, ReadsItems};
ghost use Rattle.grammar_laws.specs.Nesting.{TooDeep};
ghost use Rattle.grammar_laws.specs.Faults.{ParseFault, SyntaxAt, Parses, ParseRefusal};
ghost use Rattle.grammar_laws.specs.Prefixes.{AgreeThrough, place_at};
ghost use Rattle.grammar_laws.specs.Examples.{one_element, element_tree, chains, chains_tree, annotated, annotated_tree, nested, comma_nested, mixed_chain};

/// A list of tokens has at most one tree.
pub fn one_tree()
    ensures { (ts : List Placed) (f g : File) → Derives ts f → Derives ts g → f ≡ g }
{}

/// A list of tokens is refused by at most one fault at one place.
pub fn one_parse_refusal()
    ensures { (ts : List Placed) (end : ℕ) (f g : ParseFault) (a b : ℕ) →
        ParseRefusal ts end f a → ParseRefusal ts end g b → (f ≡ g) × (a ≡ b) }
{}

/// A list of tokens that has a tree, and isn't nested too deep, isn't refused.
pub fn tree_or_refusal()
    ensures { (ts : List Placed) (end : ℕ) (t : File) (f : ParseFault) (a : ℕ) → Parses ts t → ParseRefusal ts end f a → ⊥ }
{}

/// Whether some tokens are a pattern, or items, doesn't depend on what follows them.
pub fn any_rest()
    ensures pattern { (ts us : List Placed) (p : Pattern) → ReadsPattern ts us p →
        (xs : List Placed) × (ts ≡ xs ++ us) × ((vs : List Placed) → ReadsPattern (xs ++ vs) vs p) }
    ensures items { (ts us : List Placed) (is : Items) → ReadsItems ts us is →
        (xs : List Placed) × (ts ≡ xs ++ us) × ((vs : List Placed) → ReadsItems (xs ++ vs) vs is) }
{}

/// The place of a syntax error: where the first k tokens begin a schema, and no list of tokens that is the same through the token k
/// has a tree, the error is at that token. Tokens count from 0, and the end of the file is a last token.
pub fn syntax_error_place()
    ensures { (k : ℕ) (ts : List Placed) (end : ℕ) → Begins (take k ts) →
        ((us : List Placed) (f : File) → AgreeThrough k ts us → Derives us f → ⊥) → SyntaxAt ts end (place_at ts end k) }
{}

/// Worked examples: the trees of `element a { empty }`, of `a, (b | c)+` and of `x [ ] start = empty`.
pub fn small_trees()
    ensures element { Derives one_element element_tree }
    ensures chains { Derives chains chains_tree }
    ensures annotated { Derives annotated annotated_tree }
{}

/// Worked examples: 129 times `(`, `empty` and 129 times `)` is too deep at the last `(`, and so is a comma with 129 times `(`
/// behind it.
pub fn too_deep()
    ensures nested { TooDeep nested 128 }
    ensures comma { TooDeep comma_nested 129 }
{}

/// Worked example: `a, b | c` fails at the bar.
pub fn stray_sign()
    ensures { SyntaxAt mixed_chain 8 5 }
{}
