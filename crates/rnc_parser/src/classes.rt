ghost use Rattle.std.specs.Prelude.{◌<◌, ◌≤◌, true, [], ◌∷◌, length, OnOk};
ghost use Rattle.grammar_laws.specs.Grammar.{ReadsClass, ReadsSimple, ReadsBareClass};
ghost use Rattle.token_laws.specs.Tokens as kw;
ghost use Rattle.syntax_laws.specs.Expecting as part;
ghost use Rattle.rnc_parser.specs.Reading.{Parsed};
ghost use Rattle.rnc_parser.specs.Parts.{ReadsOpenClass, ReadsClassOperand};
ghost use Rattle.schema_tree.specs.Trees.{class_of};

use crate::annotations::{blocks, follow};
use crate::cursor::Cursor;
use crate::stop::Stop;
use rnc_lexer::Symbol;
use schema_tree::Class;
use sqlite_items::{Boxed, Items};
use std::alloc::Global;
use syntax_laws::ClassForm;

/// Reads a name class.
#[cycle(class)]
pub fn class(alloc: Global, tokens: &mut Cursor<'_>) -> Result<Class, Stop>
    ensures parsed { Parsed (part.class ∷ []) (λ ts us c. ReadsClass ts us (class_of c)) tokens.old result tokens.new }
    ensures shorter { OnOk result (length tokens.new < length tokens.old) }
{
    let first = simple(alloc, tokens)?;
    if !tokens.eat(Symbol::Bar) {
        return Ok(first);
    }
    let mut found = Items::new(alloc);
    found.push(first)?;
    loop {
        let next = simple(alloc, tokens)?;
        found.push(next)?;
        if !tokens.eat(Symbol::Bar) {
            return Ok(Class::Choice(found));
        }
    }
}

#[cycle(class)]
fn simple(alloc: Global, tokens: &mut Cursor<'_>) -> Result<Class, Stop>
    ensures parsed { Parsed (part.simple ∷ []) (λ ts us c. ReadsSimple ts us (class_of c)) tokens.old result tokens.new }
    ensures shorter { OnOk result (length tokens.new < length tokens.old) }
{
    blocks(tokens)?;
    let found = bare_class(alloc, tokens, true)?;
    follow(tokens)?;
    Ok(found)
}

/// Reads a name class without annotations; an except is taken only where it may stand.
#[cycle(class)]
fn bare_class(alloc: Global, tokens: &mut Cursor<'_>, may_except: bool) -> Result<Class, Stop>
    ensures parsed { Parsed (part.bare_class may_except ∷ []) (λ ts us c. ReadsOpenClass may_except ts us (class_of c)) tokens.old result tokens.new }
    ensures shorter { OnOk result (length tokens.new < length tokens.old) }
{
    match tokens.class_form() {
        ClassForm::Plain => plain_class(alloc, tokens),
        ClassForm::Prefixed => prefixed_class(alloc, tokens),
        ClassForm::Parentheses => class_in_parentheses(alloc, tokens),
        ClassForm::Any => any_class(alloc, tokens, may_except),
        ClassForm::Namespace => namespace_class(alloc, tokens, may_except),
        ClassForm::Other => Err(Stop::Syntax),
    }
}

fn plain_class(alloc: Global, tokens: &mut Cursor<'_>) -> Result<Class, Stop>
    ensures parsed { Parsed (part.name ∷ []) (λ ts us c. ReadsBareClass ts us (class_of c)) tokens.old result tokens.new }
    ensures shorter { OnOk result (length tokens.new < length tokens.old) }
{
    let (local, at) = tokens.name(alloc)?;
    Ok(Class::Plain { local, at })
}

fn prefixed_class(alloc: Global, tokens: &mut Cursor<'_>) -> Result<Class, Stop>
    ensures parsed { Parsed (part.prefixed_name ∷ []) (λ ts us c. ReadsBareClass ts us (class_of c)) tokens.old result tokens.new }
    ensures shorter { OnOk result (length tokens.new < length tokens.old) }
{
    let (prefix, local, at) = tokens.prefixed_name(alloc)?;
    Ok(Class::Prefixed { prefix, local, at })
}

#[cycle(class)]
fn class_in_parentheses(alloc: Global, tokens: &mut Cursor<'_>) -> Result<Class, Stop>
    ensures parsed { Parsed (part.sign kw.open_paren ∷ part.class ∷ part.sign kw.close_paren ∷ []) (λ ts us c. ReadsBareClass ts us (class_of c)) tokens.old result tokens.new }
    ensures shorter { OnOk result (length tokens.new < length tokens.old) }
{
    let _open = tokens.symbol(Symbol::OpenParen)?;
    let found = class(alloc, tokens)?;
    let _close = tokens.symbol(Symbol::CloseParen)?;
    Ok(found)
}

#[cycle(class)]
fn any_class(alloc: Global, tokens: &mut Cursor<'_>, may_except: bool) -> Result<Class, Stop>
    ensures parsed { Parsed (part.sign kw.star ∷ part.class_except may_except ∷ []) (λ ts us c. ReadsOpenClass may_except ts us (class_of c)) tokens.old result tokens.new }
    ensures shorter { OnOk result (length tokens.new < length tokens.old) }
{
    let at = tokens.symbol(Symbol::Star)?;
    let except = class_except(alloc, tokens, may_except)?;
    Ok(Class::Any { except, at })
}

#[cycle(class)]
fn namespace_class(alloc: Global, tokens: &mut Cursor<'_>, may_except: bool) -> Result<Class, Stop>
    ensures parsed { Parsed (part.namespace_name ∷ part.class_except may_except ∷ []) (λ ts us c. ReadsOpenClass may_except ts us (class_of c)) tokens.old result tokens.new }
    ensures shorter { OnOk result (length tokens.new < length tokens.old) }
{
    let (prefix, at) = tokens.namespace_name(alloc)?;
    let except = class_except(alloc, tokens, may_except)?;
    Ok(Class::Namespace { prefix, except, at })
}

/// Reads the except of a name class, if there is one. Its operand has no except of its own.
#[cycle(class)]
fn class_except(
    alloc: Global,
    tokens: &mut Cursor<'_>,
    may_except: bool,
) -> Result<Option<Boxed<Class>>, Stop>
    ensures parsed { Parsed (part.class_except may_except ∷ []) (ReadsClassOperand may_except) tokens.old result tokens.new }
    ensures shorter { OnOk result (length tokens.new ≤ length tokens.old) }
{
    if may_except {
        return class_operand(alloc, tokens);
    }
    Ok(None)
}

/// Reads the except of a name class where it may stand, if there is one.
#[cycle(class)]
fn class_operand(alloc: Global, tokens: &mut Cursor<'_>) -> Result<Option<Boxed<Class>>, Stop>
    ensures parsed { Parsed (part.class_except true ∷ []) (ReadsClassOperand true) tokens.old result tokens.new }
    ensures shorter { OnOk result (length tokens.new ≤ length tokens.old) }
{
    if !tokens.eat(Symbol::Minus) {
        return Ok(None);
    }
    blocks(tokens)?;
    let operand = bare_class(alloc, tokens, false)?;
    let operand = Boxed::new(alloc, operand)?;
    Ok(Some(operand))
}
