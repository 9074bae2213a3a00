// The limit on nodes.
ghost use Rattle.std.specs.Prelude.{◌≤◌, option_map};
ghost use Rattle.command_words.specs.Reading.{PassesNumber};

use crate::unread::Unread;

/// N: the most nodes that a listed document may have, 1 to 64.
#[derive(Clone, Copy, Debug, PartialEq, Eq)]
pub struct Size {
    pub nodes: u64,
    pub ghost least: { 1 ≤ nodes },
    pub ghost most: { nodes ≤ 64 },
}

impl Size {
    /// Passes a size, where the first word is one.
    pub(crate) fn read(words: &mut Unread<'_>) -> Option<Size>
        ensures { PassesNumber 1 64 words.old (option_map (λ size. size.nodes) result) words.new }
    {
        let nodes = words.number(1, 64)?;
        Some(Size { nodes })
    }
}
