ghost use Rattle.std.specs.Prelude.{◌<◌, ◌≤◌, [], ◌∷◌, length, map, option_map, OnOk};
ghost use Rattle.grammar_laws.specs.Grammar.{ReadsParameters, ReadsBraces, ReadsInherit};
ghost use Rattle.syntax_laws.specs.Expecting as part;
ghost use Rattle.rnc_parser.specs.Reading.{Parsed};
ghost use Rattle.rnc_parser.specs.Parts.{ReadsParameter};
ghost use Rattle.schema_tree.specs.Trees.{parameter_of, passed_of};

use crate::annotations::blocks;
use crate::cursor::Cursor;
use crate::literals::literal;
use crate::stop::Stop;
use rnc_lexer::{Keyword, Symbol};
use schema_tree::{Parameter, Passed};
use sqlite_items::Items;
use std::alloc::Global;

/// Reads the parameters of a datatype in their braces, if there are any.
pub(crate) fn braces(alloc: Global, tokens: &mut Cursor<'_>) -> Result<Items<Parameter>, Stop>
    ensures parsed { Parsed (part.braces ∷ []) (λ ts us ps. ReadsBraces ts us (map parameter_of ps)) tokens.old result tokens.new }
    ensures shorter { OnOk result (length tokens.new ≤ length tokens.old) }
{
    if !tokens.eat(Symbol::OpenBrace) {
        return Ok(Items::new(alloc));
    }
    let found = parameters(alloc, tokens)?;
    let _close = tokens.symbol(Symbol::CloseBrace)?;
    Ok(found)
}

fn parameters(alloc: Global, tokens: &mut Cursor<'_>) -> Result<Items<Parameter>, Stop>
    ensures parsed { Parsed (part.parameters ∷ []) (λ ts us ps. ReadsParameters ts us (map parameter_of ps)) tokens.old result tokens.new }
    ensures shorter { OnOk result (length tokens.new ≤ length tokens.old) }
{
    let mut found = Items::new(alloc);
    while tokens.begins_parameter() {
        let next = parameter(alloc, tokens)?;
        found.push(next)?;
    }
    Ok(found)
}

/// `NAME = LITERAL`
fn parameter(alloc: Global, tokens: &mut Cursor<'_>) -> Result<Parameter, Stop>
    ensures parsed { Parsed (part.parameter ∷ []) (λ ts us p. ReadsParameter ts us (parameter_of p)) tokens.old result tokens.new }
    ensures shorter { OnOk result (length tokens.new < length tokens.old) }
{
    blocks(tokens)?;
    let (name, at) = tokens.name(alloc)?;
    let _equals = tokens.symbol(Symbol::Equals)?;
    let literal = literal(alloc, tokens)?;
    Ok(Parameter { name, literal, at })
}

/// `inherit = PREFIX`, if it is there
pub(crate) fn passed(alloc: Global, tokens: &mut Cursor<'_>) -> Result<Option<Passed>, Stop>
    ensures parsed { Parsed (part.passed ∷ []) (λ ts us h. ReadsInherit ts us (option_map passed_of h)) tokens.old result tokens.new }
    ensures shorter { OnOk result (length tokens.new ≤ length tokens.old) }
{
    if !tokens.is_inherit() {
        return Ok(None);
    }
    let at = tokens.word(Keyword::Inherit)?;
    let _equals = tokens.symbol(Symbol::Equals)?;
    let (prefix, _place) = tokens.name(alloc)?;
    Ok(Some(Passed { prefix, at }))
}
