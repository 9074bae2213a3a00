// The whole of the words.
ghost use Rattle.std.specs.Prelude.{map, string_bytes, IfSome, IfNone};
ghost use Rattle.command_words.specs.Words.{HasForm, HasNoForm};
ghost use Rattle.command_words.specs.Requests.{request_of};

use crate::command::Command;
use crate::command_line::CommandLine;
use crate::options::read_options;
use crate::unread::Unread;

/// How many states there may be where no limit is given.
const DEFAULT_LIMIT: u64 = 100_000;

/// How many fresh names there are in each namespace where no number is given.
const DEFAULT_FRESH: u64 = 1;

/// What the words ask for, where they have a form: a command with its words, then `max=K`, `states=L`, `fresh=F` and up to eight `text=T`,
/// as far as the command takes them, in this order.
pub fn read_words(words: &[String]) -> Option<CommandLine<'_>>
    ensures form { IfSome result (λ asked. HasForm (map string_bytes words.now) (request_of asked)) }
    ensures none { IfNone result (HasNoForm (map string_bytes words.now)) }
{
    let mut rest = Unread::new(words);
    let Some(command) = Command::read(&mut rest) else {
        return None;
    };
    let Some(options) = read_options(&mut rest) else {
        return None;
    };
    if !options.are_taken_by(&command) {
        return None;
    }
    Some(CommandLine {
        command,
        page: options.page,
        limit: options.limit.unwrap_or(DEFAULT_LIMIT),
        fresh: options.fresh.unwrap_or(DEFAULT_FRESH) as usize,
        texts: options.texts,
    })
}
