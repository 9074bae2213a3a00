// What leads from a state to one other.
ghost use Rattle.std.specs.Prelude.{◌≡◌, ◌+◌, ◌↔◌, IsTrue};
ghost use Rattle.skeleton.specs.Views.{code_of};
ghost use Rattle.transitions.specs.Runs.{GoesOn, IsNext};

use crate::state_id::StateId;
use skeleton::Code;

/// The codes from a first to the last of their kind, and of their name where they are attributes, that lead to one state.
#[derive(Clone, Copy, Debug, PartialEq, Eq)]
pub struct Arc {
    pub first: Code,
    /// The position of the last text or name.
    pub last: usize,
    pub next: StateId,
}

// Whether a position stands right behind another.
fn is_behind(last: usize, position: usize) -> bool
    ensures { IsTrue result ↔ (position ≡ last + 1) }
{
    last < position && position - last == 1
}

// Whether a code is the next of its kind, and of its name, behind the last position.
fn is_next(first: Code, last: usize, code: Code) -> bool
    ensures { IsTrue result ↔ IsNext (code_of first) last (code_of code) }
{
    match (first, code) {
        (Code::Chars(_), Code::Chars(position)) => is_behind(last, position),
        (Code::Opening(_), Code::Opening(position)) => is_behind(last, position),
        (Code::Attr(name, _), Code::Attr(other, position)) => {
            name == other && is_behind(last, position)
        }
        _ => false,
    }
}

impl Arc {
    /// Whether it goes on to another: that leads to the same state, and begins right behind it.
    pub fn goes_on(self, other: Arc) -> bool
        ensures { IsTrue result ↔ GoesOn self other }
    {
        self.next == other.next && is_next(self.first, self.last, other.first)
    }
}
