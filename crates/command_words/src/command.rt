// Commands, each with its words.
ghost use Rattle.std.specs.Prelude.{◌↔◌, ◌∷◌, IsTrue, IfSome, IfNone, codes};
ghost use Rattle.command_words.specs.Words.{HasFile, HasNoFile, TakesPage, TakesLimit};
ghost use Rattle.command_words.specs.Reading.{BeginsWith, BeginsWithNone};
ghost use Rattle.command_words.specs.Requests.{command_of};

use crate::size::Size;
use crate::unread::Unread;

/// A command with its words.
#[derive(Clone, Copy, Debug, PartialEq, Eq)]
pub enum Command<'a> {
    /// `list N FILE`: the documents of at most so many nodes, of the schema in the file.
    List {
        size: Size,
        file: &'a str,
    },
    /// `resume N FILE CURSOR`: those of them that follow the one whose text the file CURSOR has.
    Resume {
        size: Size,
        file: &'a str,
        cursor: &'a str,
    },
    /// `universe FILE`: the names and texts of the schema in the file.
    Universe {
        file: &'a str,
    },
    /// `states N FILE`: how many states there are, for each size up to N.
    States {
        size: Size,
        file: &'a str,
    },
    /// `seeded Z N`: a summary of the documents of the schema that is made for the number Z.
    Seeded {
        number: u32,
        size: Size,
    },
}

impl<'a> Command<'a> {
    /// The name of its schema's file.
    pub fn file(&self) -> Option<&'a str>
        ensures some { IfSome result (λ file. HasFile (command_of self.now) file.now) }
        ensures none { IfNone result (HasNoFile (command_of self.now)) }
    {
        match self {
            Command::List { file, .. } => Some(file),
            Command::Resume { file, .. } => Some(file),
            Command::Universe { file } => Some(file),
            Command::States { file, .. } => Some(file),
            Command::Seeded { .. } => None,
        }
    }

    /// Whether `max=K` may follow its words.
    pub(crate) fn takes_page(&self) -> bool
        ensures { IsTrue result ↔ TakesPage (command_of self.now) }
    {
        match self {
            Command::List { .. } | Command::Resume { .. } | Command::Seeded { .. } => true,
            Command::Universe { .. } | Command::States { .. } => false,
        }
    }

    /// Whether `states=L` may follow its words.
    pub(crate) fn takes_limit(&self) -> bool
        ensures { IsTrue result ↔ TakesLimit (command_of self.now) }
    {
        match self {
            Command::List { .. } | Command::Resume { .. } => true,
            Command::States { .. } | Command::Seeded { .. } => true,
            Command::Universe { .. } => false,
        }
    }

    /// Passes a command with its words, where the first words are one's.
    pub(crate) fn read(words: &mut Unread<'a>) -> Option<Command<'a>>
        ensures some { IfSome result (λ command. BeginsWith words.old (command_of command) words.new) }
        ensures none { IfNone result (BeginsWithNone words.old) }
    {
        match words.word()? {
            "list" => read_list(words),
            "resume" => read_resume(words),
            "universe" => read_universe(words),
            "states" => read_states(words),
            "seeded" => read_seeded(words),
            _ => None,
        }
    }
}

/// `N FILE` behind `list`.
fn read_list<'a>(words: &mut Unread<'a>) -> Option<Command<'a>>
    ensures some { IfSome result (λ command. BeginsWith (codes "list" ∷ words.old) (command_of command) words.new) }
    ensures none { IfNone result (BeginsWithNone (codes "list" ∷ words.old)) }
{
    let size = Size::read(words)?;
    let file = words.word()?;
    Some(Command::List { size, file })
}

/// `N FILE CURSOR` behind `resume`.
fn read_resume<'a>(words: &mut Unread<'a>) -> Option<Command<'a>>
    ensures some { IfSome result (λ command. BeginsWith (codes "resume" ∷ words.old) (command_of command) words.new) }
    ensures none { IfNone result (BeginsWithNone (codes "resume" ∷ words.old)) }
{
    let size = Size::read(words)?;
    let file = words.word()?;
    let cursor = words.word()?;
    Some(Command::Resume { size, file, cursor })
}

/// `FILE` behind `universe`.
fn read_universe<'a>(words: &mut Unread<'a>) -> Option<Command<'a>>
    ensures some { IfSome result (λ command. BeginsWith (codes "universe" ∷ words.old) (command_of command) words.new) }
    ensures none { IfNone result (BeginsWithNone (codes "universe" ∷ words.old)) }
{
    let file = words.word()?;
    Some(Command::Universe { file })
}

/// `N FILE` behind `states`.
fn read_states<'a>(words: &mut Unread<'a>) -> Option<Command<'a>>
    ensures some { IfSome result (λ command. BeginsWith (codes "states" ∷ words.old) (command_of command) words.new) }
    ensures none { IfNone result (BeginsWithNone (codes "states" ∷ words.old)) }
{
    let size = Size::read(words)?;
    let file = words.word()?;
    Some(Command::States { size, file })
}

/// `Z N` behind `seeded`.
fn read_seeded<'a>(words: &mut Unread<'a>) -> Option<Command<'a>>
    ensures some { IfSome result (λ command. BeginsWith (codes "seeded" ∷ words.old) (command_of command) words.new) }
    ensures none { IfNone result (BeginsWithNone (codes "seeded" ∷ words.old)) }
{
    let number = words.number(0, 4_294_967_295)?;
    let size = Size::read(words)?;
    Some(Command::Seeded {
        number: number as u32,
        size,
    })
}
