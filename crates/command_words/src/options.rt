// The options behind a command's words.
ghost use Rattle.std.specs.Prelude.{◌↔◌, IsTrue, IfSome, IfNone};
ghost use Rattle.command_words.specs.Reading.{AreOptions, AreNoOptions, AreTaken};
ghost use Rattle.command_words.specs.Requests.{command_of};

use crate::command::Command;
use crate::extra_texts::ExtraTexts;
use crate::unread::Unread;

/// The options that are given, none where a word is left out.
#[derive(Drop)]
pub(crate) struct Options<'a> {
    pub(crate) page: Option<u64>,
    pub(crate) limit: Option<u64>,
    pub(crate) fresh: Option<u64>,
    pub(crate) texts: ExtraTexts<'a>,
}

impl<'a> Options<'a> {
    /// Whether the command takes those that are given.
    pub(crate) fn are_taken_by(&self, command: &Command<'_>) -> bool
        ensures { IsTrue result ↔ AreTaken (command_of command.now) self.now.page self.now.limit }
    {
        (self.page.is_none() || command.takes_page())
            && (self.limit.is_none() || command.takes_limit())
    }
}

/// The options, where all of the words are options in their order.
pub(crate) fn read_options<'a>(words: &mut Unread<'a>) -> Option<Options<'a>>
    ensures some { IfSome result (λ o. AreOptions words.old o.page o.limit o.fresh o.texts) }
    ensures none { IfNone result (AreNoOptions words.old) }
{
    let Ok(page) = words.option("max=", 1, 1_000_000_000) else {
        return None;
    };
    let Ok(limit) = words.option("states=", 1, 1_000_000) else {
        return None;
    };
    let Ok(fresh) = words.option("fresh=", 1, 3) else {
        return None;
    };
    let Some(texts) = words.texts() else {
        return None;
    };
    Some(Options {
        page,
        limit,
        fresh,
        texts,
    })
}
