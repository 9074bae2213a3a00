ghost use Rattle.std.specs.Prelude.{◌<◌, [], ◌∷◌, length, OnOk};
ghost use Rattle.grammar_laws.specs.Grammar.{ReadsLiteral, ReadsUri};
ghost use Rattle.syntax_laws.specs.Expecting as part;
ghost use Rattle.rnc_parser.specs.Reading.{Parsed};
ghost use Rattle.schema_tree.specs.Trees.{uri_of};

use crate::cursor::Cursor;
use crate::stop::Stop;
use rnc_lexer::{Keyword, Symbol};
use schema_tree::Uri;
use std::alloc::Global;
use text_atoms::Text;

/// Reads a literal: its segments joined.
pub(crate) fn literal(alloc: Global, tokens: &mut Cursor<'_>) -> Result<Text, Stop>
    ensures parsed { Parsed (part.literal ∷ []) ReadsLiteral tokens.old result tokens.new }
    ensures shorter { OnOk result (length tokens.new < length tokens.old) }
{
    let mut joined = String::new(alloc);
    loop {
        tokens.segment(&mut joined)?;
        if !tokens.eat(Symbol::Tilde) {
            return Ok(Text::from_string(joined));
        }
    }
}

/// Reads the URI of a declaration.
pub(crate) fn uri(alloc: Global, tokens: &mut Cursor<'_>) -> Result<Uri, Stop>
    ensures parsed { Parsed (part.uri ∷ []) (λ ts us u. ReadsUri ts us (uri_of u)) tokens.old result tokens.new }
    ensures shorter { OnOk result (length tokens.new < length tokens.old) }
{
    if tokens.is_inherit() {
        let at = tokens.word(Keyword::Inherit)?;
        return Ok(Uri::Inherit { at });
    }
    let text = literal(alloc, tokens)?;
    Ok(Uri::Literal(text))
}
