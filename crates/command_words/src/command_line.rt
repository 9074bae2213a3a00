// What a run is asked for.
ghost use Rattle.std.specs.Prelude.{◌≡◌, ◌≤◌, IfOk};
ghost use Rattle.std.specs.Option.{ForSome};

use crate::command::Command;
use crate::extra_texts::ExtraTexts;
use std::alloc::{AllocError, Global};
use text_atoms::TextList;

/// What a run is asked for: a command and its options.
#[derive(Drop)]
pub struct CommandLine<'a> {
    pub command: Command<'a>,
    /// K of `max=K`: how many documents are written at most. None: all.
    pub page: Option<u64>,
    /// L of `states=L`: how many states there may be.
    pub limit: u64,
    /// F of `fresh=F`: how many fresh names there are in each namespace.
    pub fresh: usize,
    /// The texts T of `text=T`.
    pub texts: ExtraTexts<'a>,
    pub ghost some_page: { ForSome page (λ k. 1 ≤ k) },
    pub ghost most_page: { ForSome page (λ k. k ≤ 1000000000) },
    pub ghost some_limit: { 1 ≤ limit },
    pub ghost most_limit: { limit ≤ 1000000 },
    pub ghost some_fresh: { 1 ≤ fresh },
    pub ghost few_fresh: { fresh ≤ 3 },
}

impl<'a> CommandLine<'a> {
    ghost use Rattle.command_words.specs.Requests.{request_of};

    /// A list of the extra texts.
    pub fn extra_texts(&self, alloc: Global) -> Result<TextList, AllocError>
        ensures { IfOk result (λ list. list ≡ (request_of self.now).texts) }
    {
        self.texts.to_list(alloc)
    }
}
