// The end of a document in which no node is left.
ghost use Rattle.std.specs.Prelude.{◌≡◌, ◌+◌, ◌++◌, ◌*◌, ◌≤◌, length};
ghost use Rattle.table_laws.specs.Reaching.{weight};
ghost use Rattle.skeleton.specs.Views.{code_of};
ghost use Rattle.lister.specs.OpenElements.{open_at, closings, ending_codes};

use crate::path::Path;
use crate::standing::Standing;
use skeleton::Code;

/// How many nodes a code has: one, or none for the end of a tag or an element.
pub(crate) fn nodes(code: Code) -> usize
    ensures { result ≡ weight (code_of code) }
{
    match code {
        Code::Body | Code::Closing => 0,
        Code::Chars(_) | Code::Attr(_, _) | Code::Opening(_) => 1,
    }
}

// Ends so many elements.
fn close_elements(path: &mut Path, depth: usize)
    requires { length path.old.codes + length (closings depth) ≤ 3 * path.old.room }
    ensures codes { path.new.codes ≡ path.old.codes ++ closings depth }
    ensures states { path.new.states ≡ path.old.states }
    ensures room { path.new.room ≡ path.old.room }
{
    for _ in 0..depth {
        path.push(Code::Closing);
    }
}

/// Ends the tag and each element that is open.
pub(crate) fn close_all(path: &mut Path)
    requires room { length path.old.codes + length (ending_codes (open_at path.old.codes)) ≤ 3 * path.old.room }
    ensures codes { path.new.codes ≡ path.old.codes ++ ending_codes (open_at path.old.codes) }
    ensures states { path.new.states ≡ path.old.states }
    ensures room { path.new.room ≡ path.old.room }
{
    match path.standing() {
        Standing::InTag(depth) => {
            path.push(Code::Body);
            close_elements(path, depth);
        }
        Standing::NoTag(depth) => close_elements(path, depth),
    }
}
