// Whole schemas, with the place where they are refused.
ghost use Rattle.std.specs.Prelude.{◌≡◌, ◌<◌, ◌^◌, map, IfOk, IfErr};
ghost use Rattle.grammar_laws.specs.Trees.{File};
ghost use Rattle.grammar_laws.specs.Files.{of_one};
ghost use Rattle.grammar_laws.specs.Faults.{Parses};
ghost use Rattle.schema_tree.specs.Files.{full_of, AreWithin};
ghost use Rattle.schema_tree.specs.Trees.{declaration_of, body_of};
ghost use Rattle.schema_tree.specs.Sound.{IsSoundBody};
ghost use Rattle.rnc_parser.specs.Parts.{tree_of_file};
ghost use Rattle.rnc_parser.specs.Refusals.{IsRefusal};

use crate::cursor::Cursor;
use crate::nesting::too_deep;
use crate::schema::file;
use crate::stop::Stop;
use rnc_lexer::Tokens;
use schema_tree::{FileList, Full, Parts};
use std::alloc::{AllocError, Global};
use syntax_laws::refused_at_the_error;
use text_atoms::Text;
use thiserror::Error;

/// Why tokens are no schema. A place counts the bytes before it.
#[derive(Clone, Copy, Debug, PartialEq, Eq, Error)]
pub enum ParseFault {
    /// The first token through which the tokens begin no schema; the end of the text is a last token.
    #[error("a syntax error at {at}")]
    Syntax { at: usize },
    /// The first `{` or `(` of nesting level 129.
    #[error("nested too deep at {at}")]
    TooDeep { at: usize },
    /// Memory ran out.
    #[error("out of memory")]
    OutOfMemory,
}

impl From<AllocError> for ParseFault {
    ghost use Rattle.rnc_parser.specs.declared.parser.ParseFault.TheVariants.{OutOfMemory};
    ghost use Rattle.std.specs.Prelude.{◌≡◌};

    ghost from_gives = { λ _ e. e ≡ OutOfMemory };

    fn from(_error: AllocError) -> ParseFault {
        ParseFault::OutOfMemory
    }
}

/// The tree of a schema in one file, which has no name and inherits the empty namespace: Annex C of RELAX NG, in this project's
/// profile. Braces and parentheses nest at most 128 levels deep.
pub fn parse(alloc: Global, tokens: &Tokens) -> Result<Full, ParseFault>
    ensures ok { IfOk result (λ full. (f : File) × Parses tokens.now.tokens f × (full_of full ≡ of_one tokens.now.end f)) }
    ensures refused { IfErr result (IsRefusal tokens.now.tokens tokens.now.end) }
{
    if let Some(at) = too_deep(tokens) {
        return Err(ParseFault::TooDeep { at });
    }
    let mut rest = Cursor::new(tokens);
    match file(alloc, &mut rest) {
        Ok(parts) => Ok(one_file(alloc, tokens.end_place(), parts)?),
        Err(Stop::Syntax) => {
            refused_at_the_error();
            let at = rest.place(tokens.end_place());
            Err(ParseFault::Syntax { at })
        }
        Err(Stop::OutOfMemory) => Err(ParseFault::OutOfMemory),
    }
}

/// The tree of a file of so many bytes.
fn one_file(alloc: Global, length: usize, parts: Parts) -> Result<Full, AllocError>
    requires fits { length < 2 ^ 63 }
    requires places { AreWithin length (map declaration_of parts.declarations) }
    requires sound { IsSoundBody length (body_of parts.body) }
    ensures { IfOk result (λ full. full_of full ≡ of_one length (tree_of_file parts)) }
{
    let Parts { declarations, body } = parts;
    let name = Text::from_string(String::new(alloc));
    let inherited = Text::from_string(String::new(alloc));
    let mut files = FileList::new(alloc);
    files.push(name, length, inherited, declarations)?;
    Ok(Full::of_files(files, body))
}
