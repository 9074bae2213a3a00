//! The tokens of the compact syntax, and laws of them: what a schema file says doesn't depend on how it is read.
#![tactic(auto)]

ghost use Rattle.std.specs.Prelude.{◌≡◌, ℕ, List, codes, true, Contains, IsUtf8};
ghost use Rattle.rng_model.specs.Texts.{Text};
ghost use Rattle.rng_model.specs.Names.{is_ncname};
ghost use Rattle.token_laws.specs.Tokens.{Token, Placed, ◌at◌};
ghost use Rattle.token_laws.specs.Names.{names_of};
ghost use Rattle.token_laws.specs.Lexing.{Fault, Tokens, LexRefusal, bad_utf8, bad_character, open_literal, bad_escape, escape_refused};
ghost use Rattle.token_laws.specs.Examples.{one_element, ill_formed};

/// A schema file has at most one list of tokens.
pub fn one_token_list()
    ensures { (bytes : List ℕ) (ts us : List Placed) → Tokens bytes ts → Tokens bytes us → ts ≡ us }
{}

/// A schema file is refused by at most one fault at one place.
pub fn one_lex_refusal()
    ensures { (bytes : List ℕ) (f g : Fault) (p q : ℕ) → LexRefusal bytes f p → LexRefusal bytes g q → (f ≡ g) × (p ≡ q) }
{}

/// A schema file that has tokens isn't refused.
pub fn tokens_or_refusal()
    ensures { (bytes : List ℕ) (ts : List Placed) (f : Fault) (p : ℕ) → Tokens bytes ts → LexRefusal bytes f p → ⊥ }
{}

/// Each name in a token of a schema file is an NCName (Namespaces in XML, section 3).
pub fn names_are_ncnames()
    ensures { (bytes : List ℕ) (ts : List Placed) (t : Token) (a : ℕ) (name : Text) →
        Tokens bytes ts → Contains ts (t at a) → Contains (names_of t) name → IsUtf8 name × (is_ncname name ≡ true) }
{}

/// Worked example: the tokens of a small schema.
pub fn tokens_of_an_element()
    ensures { Tokens (codes "element a { empty }") one_element }
{}

/// Worked examples of faults, each with its place, counted in bytes from 0.
pub fn lexing_faults()
    ensures byte { LexRefusal ill_formed bad_utf8 9 }
    ensures character { LexRefusal (codes "element $ { empty }") bad_character 8 }
    ensures unclosed { LexRefusal (codes "element a { \"x") open_literal 12 }
    ensures beyond { LexRefusal (codes "element a { \"\\x{110000}\" }") bad_escape 13 }
    ensures quote { LexRefusal (codes "element a { \"\\x{22}\" }") escape_refused 13 }
    ensures outside { LexRefusal (codes "\\x{65}lement a { empty }") escape_refused 0 }
{}
