// Lines of numbers, in a fixed buffer.
ghost use Rattle.std.specs.Prelude.{◌≡◌, ◌≤◌, ◌++◌, length, codes, decimal};
ghost use Rattle.summary.specs.Summary.{size_text, number_line};

use arrayvec::ArrayString;
use itoa::Buffer;

/// A line of at most 64 bytes.
pub(crate) type Line = ArrayString<64>;

/// The line of a size of which some were counted.
pub(crate) fn size_line(size: u64, count: u64) -> Line
    ensures { result.bytes ≡ size_text size count }
{
    let mut digits = Buffer::new();
    let mut line = Line::new();
    line.push_str("size ");
    line.push_str(digits.format(size));
    line.push_str(" count ");
    line.push_str(digits.format(count));
    line.push_str("\n");
    line
}

/// The line of a word of at most 10 bytes and a number.
pub(crate) fn numbered(word: &str, number: u64) -> Line
    requires { length word.now ≤ 10 }
    ensures { result.bytes ≡ number_line word.now number }
{
    let mut digits = Buffer::new();
    let mut line = Line::new();
    line.push_str(word);
    line.push_str(digits.format(number));
    line.push_str("\n");
    line
}

/// The line of a size and a number, with a space between them.
pub(crate) fn state_line(size: u64, count: u64) -> Line
    ensures { result.bytes ≡ decimal size ++ codes " " ++ decimal count ++ codes "\n" }
{
    let mut digits = Buffer::new();
    let mut line = Line::new();
    line.push_str(digits.format(size));
    line.push_str(" ");
    line.push_str(digits.format(count));
    line.push_str("\n");
    line
}
