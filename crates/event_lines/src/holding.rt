// Holding the lines of a document's first codes.
ghost use Rattle.std.specs.Prelude.{◌≡◌, ◌≤◌, [], ◌∷◌, ◌++◌, IsTrue, false, length, take};
ghost use Rattle.std.specs.List.{All};
ghost use Rattle.skeleton.specs.Views.{code_of};
ghost use Rattle.event_lines.specs.Held.{BeginAlike, HoldsLines};
ghost use Rattle.event_lines.specs.Spelled.{HasSpelling};

use crate::held_lines::HeldLines;
use crate::spellings::Spellings;
use skeleton::Code;

/// Keeps the lines of the first codes, as many as are held, are unchanged, and are codes of this document.
fn keep_unchanged(held: &mut HeldLines, codes: &[Code], unchanged: usize, spellings: &Spellings)
    requires holds { HoldsLines spellings.now held.old }
    requires unchanged { BeginAlike unchanged held.old.codes codes.now }
    ensures holds { HoldsLines spellings.now held.new }
    ensures count { length held.new.codes ≤ length codes.now }
    ensures front { held.new.codes ≡ take (length held.new.codes) codes.now }
{
    let kept = unchanged.min(held.codes().len()).min(codes.len());
    held.keep(kept);
}

/// Adds the line of the event that a code is by position, where there is room.
fn hold(held: &mut HeldLines, code: Code, spellings: &Spellings) -> bool
    requires holds { HoldsLines spellings.now held.old }
    requires spelled { HasSpelling spellings.now (code_of code) }
    ensures holds { HoldsLines spellings.now held.new }
    ensures added { IsTrue result → held.new.codes ≡ held.old.codes ++ code ∷ [] }
    ensures full { result ≡ false → held.new ≡ held.old }
{
    match code {
        Code::Opening(name) => held.add(code, spellings.opening(name)),
        Code::Attr(name, text) => {
            held.add_parts(code, spellings.front(name), spellings.value(text))
        }
        Code::Body => held.add(code, b">\n"),
        Code::Chars(text) => held.add(code, spellings.text(text)),
        Code::Closing => held.add(code, b")\n"),
    }
}

/// Holds the lines of the first codes, as many as there is room for. Those of the codes that are unchanged stay, as far as they are
/// held already.
pub(crate) fn hold_front(
    held: &mut HeldLines,
    codes: &[Code],
    unchanged: usize,
    spellings: &Spellings,
)
    requires holds { HoldsLines spellings.now held.old }
    requires spelled { All (λ c. HasSpelling spellings.now (code_of c)) codes.now }
    requires unchanged { BeginAlike unchanged held.old.codes codes.now }
    ensures holds { HoldsLines spellings.now held.new }
    ensures count { length held.new.codes ≤ length codes.now }
    ensures front { held.new.codes ≡ take (length held.new.codes) codes.now }
{
    keep_unchanged(held, codes, unchanged, spellings);
    for position in held.codes().len()..codes.len() {
        if !hold(held, codes[position], spellings) {
            return;
        }
    }
}
