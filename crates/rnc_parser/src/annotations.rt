ghost use Rattle.std.specs.Prelude.{◌<◌, ◌≤◌, [], ◌∷◌, length, OnOk};
ghost use Rattle.grammar_laws.specs.Grammar.{ReadsBlock, ReadsBlocks, ReadsFollow};
ghost use Rattle.syntax_laws.specs.Expecting as part;
ghost use Rattle.rnc_parser.specs.Reading.{Parsed};

use crate::cursor::Cursor;
use crate::stop::Stop;
use rnc_lexer::Symbol;

/// Passes an annotation's block. Blocks in it may be nested to any depth.
pub(crate) fn block(tokens: &mut Cursor<'_>) -> Result<(), Stop>
    ensures parsed { Parsed (part.block ∷ []) (λ ts us x. ReadsBlock ts us) tokens.old result tokens.new }
    ensures shorter { OnOk result (length tokens.new < length tokens.old) }
{
    tokens.symbol(Symbol::OpenBracket)?;
    let _left = tokens.left();
    let mut depth: usize = 1;
    while depth > 0 {
        depth = tokens.in_block(depth)?;
    }
    Ok(())
}

/// Passes the annotations that stand before a part.
pub(crate) fn blocks(tokens: &mut Cursor<'_>) -> Result<(), Stop>
    ensures parsed { Parsed (part.blocks ∷ []) (λ ts us x. ReadsBlocks ts us) tokens.old result tokens.new }
    ensures shorter { OnOk result (length tokens.new ≤ length tokens.old) }
{
    while tokens.is(Symbol::OpenBracket) {
        block(tokens)?;
    }
    Ok(())
}

/// Passes the annotations that stand after a part.
pub(crate) fn follow(tokens: &mut Cursor<'_>) -> Result<(), Stop>
    ensures parsed { Parsed (part.follow ∷ []) (λ ts us x. ReadsFollow ts us) tokens.old result tokens.new }
    ensures shorter { OnOk result (length tokens.new ≤ length tokens.old) }
{
    while tokens.eat(Symbol::Follows) {
        tokens.annotation_name()?;
        block(tokens)?;
    }
    Ok(())
}
