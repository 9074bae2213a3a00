//! What a token begins in the compact syntax, and a reader of its grammar that looks at one token at a time, with laws of both.
#![tactic(auto)]

ghost use Rattle.std.specs.Prelude.{◌≡◌, ℕ, List, [], ◌∷◌, ◌++◌, length};
ghost use Rattle.token_laws.specs.Tokens.{Placed};
ghost use Rattle.grammar_laws.specs.Trees.{File};
ghost use Rattle.grammar_laws.specs.Grammar.{Begins, Derives};
ghost use Rattle.grammar_laws.specs.Faults.{SyntaxAt};
ghost use Rattle.grammar_laws.specs.Prefixes.{AgreeThrough, place_at};
ghost use Rattle.syntax_laws.specs.Expecting.{Part, declarations, body, end, Stands, Sticks};

mod forms;

pub use forms::{ClassForm, DeclarationForm, ItemForm, PatternForm};

/// The tokens that the reader of a file has passed begin a schema.
pub fn what_is_read_begins()
    ensures { (before us : List Placed) (ys : List Part) → Stands (declarations ∷ body ∷ end ∷ []) (before ++ us) ys us → Begins before }
{}

/// Where the tokens of a file have a tree, the reader reads them up to the end.
pub fn derived_is_read()
    ensures { (ts : List Placed) (f : File) → Derives ts f → Stands (declarations ∷ body ∷ end ∷ []) ts [] [] }
{}

/// Where the reader of a file is refused at a token, no tokens that are the same through that token have a tree. The end of the
/// file is a last token.
pub fn nothing_goes_on()
    ensures place { (ts us : List Placed) → Sticks (declarations ∷ body ∷ end ∷ []) ts us → (before : List Placed) × (ts ≡ before ++ us) }
    ensures refused { (ts before us vs : List Placed) (f : File) → Sticks (declarations ∷ body ∷ end ∷ []) ts us → ts ≡ before ++ us →
        AgreeThrough (length before) ts vs → Derives vs f → ⊥ }
{}

/// Where the reader of a file is refused is the place of the syntax error: the tokens before it begin a schema, and with it they
/// begin none.
pub fn refused_at_the_error()
    ensures { (ts us : List Placed) (end_place : ℕ) → Sticks (declarations ∷ body ∷ end ∷ []) ts us → SyntaxAt ts end_place (place_at us end_place 0) }
{}
