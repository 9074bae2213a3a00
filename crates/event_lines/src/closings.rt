// The end of a document: the lines of its last Closing codes, and the empty line.
ghost use Rattle.std.specs.Prelude.{◌≡◌, ◌≤◌, ◌-◌, drop, length};
ghost use Rattle.event_lines.specs.declared.spellings.Spellings.{Spellings};
ghost use Rattle.event_lines.specs.Held.{closings};
ghost use Rattle.event_lines.specs.Spelled.{spelled_lines};

use skeleton::Code;

/// The most Closing codes at the end of a document whose lines are given at once.
const MOST: usize = 32;

/// How many of the last codes are Closing codes, up to 32.
pub(crate) fn closings_behind(codes: &[Code]) -> usize
    ensures most { result ≤ 32 }
    ensures count { result ≤ length codes.now }
    ensures closings { drop (length codes.now - result) codes.now ≡ closings result }
{
    let most = codes.len().min(MOST);
    for count in 0..most {
        if codes[codes.len() - 1 - count] != Code::Closing {
            return count;
        }
    }
    most
}

/// The lines of the most Closing codes, and an empty line.
fn most_lines() -> &'static [u8]
    ensures lines { (s : Spellings) → result.now ≡ spelled_lines s (closings 32) }
    ensures len { length result.now ≡ 65 }
{
    b")\n)\n)\n)\n)\n)\n)\n)\n)\n)\n)\n)\n)\n)\n)\n)\n)\n)\n)\n)\n)\n)\n)\n)\n)\n)\n)\n)\n)\n)\n)\n)\n\n"
}

/// The lines of so many Closing codes, and an empty line.
pub(crate) fn closing_lines(count: usize) -> &'static [u8]
    requires { count ≤ 32 }
    ensures { (s : Spellings) → result.now ≡ spelled_lines s (closings count) }
{
    &most_lines()[2 * (MOST - count)..]
}
