// What is open after the codes of a document.
ghost use Rattle.std.specs.Prelude.{◌≡◌, ◌<◌};
ghost use Rattle.skeleton.specs.Views.{code_of};
ghost use Rattle.lister.specs.OpenElements.{nothing_open, open_after, open_of};

use skeleton::Code;

/// How many elements are open after some codes, the tag of the innermost one with them or not. It has no padding, which a walk would copy
/// with each step.
#[derive(Clone, Copy)]
pub(crate) enum Standing {
    InTag(usize),
    NoTag(usize),
}

impl Standing {
    /// How many elements are open.
    pub fn depth(self) -> usize
        ensures { result ≡ (open_of self).depth }
    {
        match self {
            Standing::InTag(depth) | Standing::NoTag(depth) => depth,
        }
    }
}

/// Nothing is open before the first code.
pub(crate) fn at_start() -> Standing
    ensures { open_of result ≡ nothing_open }
{
    Standing::NoTag(0)
}

/// What is open after one code more.
pub(crate) fn after(standing: Standing, code: Code) -> Standing
    requires { (open_of standing).depth < 1000 }
    ensures { open_of result ≡ open_after (open_of standing) (code_of code) }
{
    let depth = standing.depth();
    match code {
        Code::Opening(_) => Standing::InTag(depth + 1),
        Code::Attr(_, _) => Standing::InTag(depth),
        Code::Body | Code::Chars(_) => Standing::NoTag(depth),
        Code::Closing => Standing::NoTag(depth.saturating_sub(1)),
    }
}
