ghost use Rattle.std.specs.Prelude.{◌<◌, ◌≤◌, false, true, [], ◌∷◌, length, map, OnOk};
ghost use Rattle.grammar_laws.specs.Grammar.{ReadsBare, ReadsPattern, ReadsParticle, ReadsPrimary, ReadsItem, ReadsInner};
ghost use Rattle.grammar_laws.specs.Trees.{items_of};
ghost use Rattle.token_laws.specs.Tokens as kw;
ghost use Rattle.rnc_lexer.specs.Views.{symbol_of};
ghost use Rattle.syntax_laws.specs.Expecting as part;
ghost use Rattle.rnc_parser.specs.Reading.{Parsed};
ghost use Rattle.rnc_parser.specs.Parts.{ReadsOpen, ReadsOperand, ReadsBraced, BehindType, BehindPrimary, BehindParticle, BehindPostfix, BehindConnector, ReadsMore, ReadsOneItem, ReadsNext, ReadsMoreItems};
ghost use Rattle.schema_tree.specs.Trees.{pattern_of, item_of, type_of};

use crate::annotations::{block, blocks, follow};
use crate::classes::class;
use crate::cursor::Cursor;
use crate::datatypes::{braces, passed};
use crate::literals::literal;
use crate::stop::Stop;
use rnc_lexer::{Keyword, Symbol};
use schema_tree::{Item, Pattern, TypeName};
use sqlite_items::{Boxed, Items};
use std::alloc::Global;
use syntax_laws::{ItemForm, PatternForm};

/// Reads a pattern.
#[cycle(pattern)]
pub fn pattern(alloc: Global, tokens: &mut Cursor<'_>) -> Result<Pattern, Stop>
    ensures parsed { Parsed (part.pattern ∷ []) (λ ts us p. ReadsPattern ts us (pattern_of p)) tokens.old result tokens.new }
    ensures shorter { OnOk result (length tokens.new < length tokens.old) }
{
    let first = particle(alloc, tokens)?;
    more_patterns(alloc, tokens, first)
}

/// Reads what makes a group, a choice or an interleave of the first particle.
#[cycle(pattern)]
pub(crate) fn more_patterns(
    alloc: Global,
    tokens: &mut Cursor<'_>,
    first: Pattern,
) -> Result<Pattern, Stop>
    ensures parsed { Parsed (part.more_patterns ∷ []) (λ ts us p. BehindParticle (pattern_of first) ts us (pattern_of p)) tokens.old result tokens.new }
    ensures shorter { OnOk result (length tokens.new ≤ length tokens.old) }
{
    if tokens.eat(Symbol::Comma) {
        return group(alloc, tokens, first);
    }
    if tokens.eat(Symbol::Bar) {
        return choice(alloc, tokens, first);
    }
    if tokens.eat(Symbol::Ampersand) {
        return interleave(alloc, tokens, first);
    }
    Ok(first)
}

#[cycle(pattern)]
fn group(alloc: Global, tokens: &mut Cursor<'_>, first: Pattern) -> Result<Pattern, Stop>
    ensures parsed { Parsed (part.members kw.comma ∷ []) (λ ts us p. BehindConnector kw.comma (pattern_of first) ts us (pattern_of p)) tokens.old result tokens.new }
    ensures shorter { OnOk result (length tokens.new < length tokens.old) }
{
    let all = members(alloc, tokens, first, Symbol::Comma)?;
    Ok(Pattern::Group(all))
}

#[cycle(pattern)]
fn choice(alloc: Global, tokens: &mut Cursor<'_>, first: Pattern) -> Result<Pattern, Stop>
    ensures parsed { Parsed (part.members kw.bar ∷ []) (λ ts us p. BehindConnector kw.bar (pattern_of first) ts us (pattern_of p)) tokens.old result tokens.new }
    ensures shorter { OnOk result (length tokens.new < length tokens.old) }
{
    let all = members(alloc, tokens, first, Symbol::Bar)?;
    Ok(Pattern::Choice(all))
}

#[cycle(pattern)]
fn interleave(alloc: Global, tokens: &mut Cursor<'_>, first: Pattern) -> Result<Pattern, Stop>
    ensures parsed { Parsed (part.members kw.ampersand ∷ []) (λ ts us p. BehindConnector kw.ampersand (pattern_of first) ts us (pattern_of p)) tokens.old result tokens.new }
    ensures shorter { OnOk result (length tokens.new < length tokens.old) }
{
    let all = members(alloc, tokens, first, Symbol::Ampersand)?;
    Ok(Pattern::Interleave(all))
}

/// Reads the particles behind a sign, with the first before them.
#[cycle(pattern)]
fn members(
    alloc: Global,
    tokens: &mut Cursor<'_>,
    first: Pattern,
    sign: Symbol,
) -> Result<Items<Pattern>, Stop>
    ensures parsed { Parsed (part.members (symbol_of sign) ∷ []) (λ ts us ps. ReadsMore (symbol_of sign) (pattern_of first) ts us (map pattern_of ps)) tokens.old result tokens.new }
    ensures shorter { OnOk result (length tokens.new < length tokens.old) }
{
    let mut found = Items::new(alloc);
    found.push(first)?;
    loop {
        let next = particle(alloc, tokens)?;
        found.push(next)?;
        if !tokens.eat(sign) {
            return Ok(found);
        }
    }
}

#[cycle(pattern)]
fn particle(alloc: Global, tokens: &mut Cursor<'_>) -> Result<Pattern, Stop>
    ensures parsed { Parsed (part.particle ∷ []) (λ ts us p. ReadsParticle ts us (pattern_of p)) tokens.old result tokens.new }
    ensures shorter { OnOk result (length tokens.new < length tokens.old) }
{
    let found = primary(alloc, tokens)?;
    postfix(alloc, tokens, found)
}

/// Reads the sign of a repeated pattern, if there is one.
pub(crate) fn postfix(
    alloc: Global,
    tokens: &mut Cursor<'_>,
    first: Pattern,
) -> Result<Pattern, Stop>
    ensures parsed { Parsed (part.postfix ∷ []) (λ ts us p. BehindPrimary (pattern_of first) ts us (pattern_of p)) tokens.old result tokens.new }
    ensures shorter { OnOk result (length tokens.new ≤ length tokens.old) }
{
    if tokens.eat(Symbol::Question) {
        return optional(alloc, tokens, first);
    }
    if tokens.eat(Symbol::Star) {
        return zero_or_more(alloc, tokens, first);
    }
    if tokens.eat(Symbol::Plus) {
        return one_or_more(alloc, tokens, first);
    }
    Ok(first)
}

fn optional(alloc: Global, tokens: &mut Cursor<'_>, first: Pattern) -> Result<Pattern, Stop>
    ensures parsed { Parsed (part.follow ∷ []) (λ ts us p. BehindPostfix kw.question (pattern_of first) ts us (pattern_of p)) tokens.old result tokens.new }
    ensures shorter { OnOk result (length tokens.new ≤ length tokens.old) }
{
    let inner = Boxed::new(alloc, first)?;
    follow(tokens)?;
    Ok(Pattern::Optional(inner))
}

fn zero_or_more(alloc: Global, tokens: &mut Cursor<'_>, first: Pattern) -> Result<Pattern, Stop>
    ensures parsed { Parsed (part.follow ∷ []) (λ ts us p. BehindPostfix kw.star (pattern_of first) ts us (pattern_of p)) tokens.old result tokens.new }
    ensures shorter { OnOk result (length tokens.new ≤ length tokens.old) }
{
    let inner = Boxed::new(alloc, first)?;
    follow(tokens)?;
    Ok(Pattern::ZeroOrMore(inner))
}

fn one_or_more(alloc: Global, tokens: &mut Cursor<'_>, first: Pattern) -> Result<Pattern, Stop>
    ensures parsed { Parsed (part.follow ∷ []) (λ ts us p. BehindPostfix kw.plus (pattern_of first) ts us (pattern_of p)) tokens.old result tokens.new }
    ensures shorter { OnOk result (length tokens.new ≤ length tokens.old) }
{
    let inner = Boxed::new(alloc, first)?;
    follow(tokens)?;
    Ok(Pattern::OneOrMore(inner))
}

#[cycle(pattern)]
fn primary(alloc: Global, tokens: &mut Cursor<'_>) -> Result<Pattern, Stop>
    ensures parsed { Parsed (part.primary ∷ []) (λ ts us p. ReadsPrimary ts us (pattern_of p)) tokens.old result tokens.new }
    ensures shorter { OnOk result (length tokens.new < length tokens.old) }
{
    blocks(tokens)?;
    let found = bare(alloc, tokens, true)?;
    follow(tokens)?;
    Ok(found)
}

/// Reads a pattern without annotations; an except is taken only where it may stand.
#[cycle(pattern)]
pub(crate) fn bare(
    alloc: Global,
    tokens: &mut Cursor<'_>,
    may_except: bool,
) -> Result<Pattern, Stop>
    ensures parsed { Parsed (part.bare may_except ∷ []) (λ ts us p. ReadsOpen may_except ts us (pattern_of p)) tokens.old result tokens.new }
    ensures shorter { OnOk result (length tokens.new < length tokens.old) }
{
    match tokens.pattern_form() {
        PatternForm::Element => element(alloc, tokens),
        PatternForm::Attribute => attribute(alloc, tokens),
        PatternForm::List => list(alloc, tokens),
        PatternForm::Mixed => mixed(alloc, tokens),
        PatternForm::Reference => reference(alloc, tokens),
        PatternForm::Parent => parent(alloc, tokens),
        PatternForm::Empty => empty(tokens),
        PatternForm::Text => text(tokens),
        PatternForm::NotAllowed => not_allowed(tokens),
        PatternForm::Literal => value(alloc, tokens),
        PatternForm::Typed => datatype(alloc, tokens, may_except),
        PatternForm::External => external(alloc, tokens),
        PatternForm::Grammar => grammar(alloc, tokens),
        PatternForm::Parentheses => parentheses(alloc, tokens),
        PatternForm::Other => Err(Stop::Syntax),
    }
}

#[cycle(pattern)]
fn element(alloc: Global, tokens: &mut Cursor<'_>) -> Result<Pattern, Stop>
    ensures parsed { Parsed (part.word kw.element ∷ part.class ∷ part.braced ∷ []) (λ ts us p. ReadsBare ts us (pattern_of p)) tokens.old result tokens.new }
    ensures shorter { OnOk result (length tokens.new < length tokens.old) }
{
    let at = tokens.word(Keyword::Element)?;
    let class = class(alloc, tokens)?;
    let content = braced(alloc, tokens)?;
    Ok(Pattern::Element { class, content, at })
}

#[cycle(pattern)]
fn attribute(alloc: Global, tokens: &mut Cursor<'_>) -> Result<Pattern, Stop>
    ensures parsed { Parsed (part.word kw.attribute ∷ part.class ∷ part.braced ∷ []) (λ ts us p. ReadsBare ts us (pattern_of p)) tokens.old result tokens.new }
    ensures shorter { OnOk result (length tokens.new < length tokens.old) }
{
    let at = tokens.word(Keyword::Attribute)?;
    let class = class(alloc, tokens)?;
    let content = braced(alloc, tokens)?;
    Ok(Pattern::Attribute { class, content, at })
}

#[cycle(pattern)]
fn list(alloc: Global, tokens: &mut Cursor<'_>) -> Result<Pattern, Stop>
    ensures parsed { Parsed (part.word kw.list ∷ part.braced ∷ []) (λ ts us p. ReadsBare ts us (pattern_of p)) tokens.old result tokens.new }
    ensures shorter { OnOk result (length tokens.new < length tokens.old) }
{
    let at = tokens.word(Keyword::List)?;
    let content = braced(alloc, tokens)?;
    Ok(Pattern::List { content, at })
}

#[cycle(pattern)]
fn mixed(alloc: Global, tokens: &mut Cursor<'_>) -> Result<Pattern, Stop>
    ensures parsed { Parsed (part.word kw.mixed ∷ part.braced ∷ []) (λ ts us p. ReadsBare ts us (pattern_of p)) tokens.old result tokens.new }
    ensures shorter { OnOk result (length tokens.new < length tokens.old) }
{
    let _at = tokens.word(Keyword::Mixed)?;
    let content = braced(alloc, tokens)?;
    Ok(Pattern::Mixed(content))
}

/// `{ PATTERN }`
#[cycle(pattern)]
fn braced(alloc: Global, tokens: &mut Cursor<'_>) -> Result<Boxed<Pattern>, Stop>
    ensures parsed { Parsed (part.braced ∷ []) (λ ts us p. ReadsBraced ts us (pattern_of p)) tokens.old result tokens.new }
    ensures shorter { OnOk result (length tokens.new < length tokens.old) }
{
    let _open = tokens.symbol(Symbol::OpenBrace)?;
    let content = pattern(alloc, tokens)?;
    let content = Boxed::new(alloc, content)?;
    let _close = tokens.symbol(Symbol::CloseBrace)?;
    Ok(content)
}

fn reference(alloc: Global, tokens: &mut Cursor<'_>) -> Result<Pattern, Stop>
    ensures parsed { Parsed (part.plain_name ∷ []) (λ ts us p. ReadsBare ts us (pattern_of p)) tokens.old result tokens.new }
    ensures shorter { OnOk result (length tokens.new < length tokens.old) }
{
    let (name, at) = tokens.plain_name(alloc)?;
    Ok(Pattern::Ref { name, at })
}

fn parent(alloc: Global, tokens: &mut Cursor<'_>) -> Result<Pattern, Stop>
    ensures parsed { Parsed (part.word kw.parent ∷ part.plain_name ∷ []) (λ ts us p. ReadsBare ts us (pattern_of p)) tokens.old result tokens.new }
    ensures shorter { OnOk result (length tokens.new < length tokens.old) }
{
    let at = tokens.word(Keyword::Parent)?;
    let (name, _place) = tokens.plain_name(alloc)?;
    Ok(Pattern::Parent { name, at })
}

fn empty(tokens: &mut Cursor<'_>) -> Result<Pattern, Stop>
    ensures parsed { Parsed (part.word kw.empty ∷ []) (λ ts us p. ReadsBare ts us (pattern_of p)) tokens.old result tokens.new }
    ensures shorter { OnOk result (length tokens.new < length tokens.old) }
{
    let _at = tokens.word(Keyword::Empty)?;
    Ok(Pattern::Empty)
}

fn text(tokens: &mut Cursor<'_>) -> Result<Pattern, Stop>
    ensures parsed { Parsed (part.word kw.text ∷ []) (λ ts us p. ReadsBare ts us (pattern_of p)) tokens.old result tokens.new }
    ensures shorter { OnOk result (length tokens.new < length tokens.old) }
{
    let _at = tokens.word(Keyword::Text)?;
    Ok(Pattern::AnyText)
}

fn not_allowed(tokens: &mut Cursor<'_>) -> Result<Pattern, Stop>
    ensures parsed { Parsed (part.word kw.not_allowed ∷ []) (λ ts us p. ReadsBare ts us (pattern_of p)) tokens.old result tokens.new }
    ensures shorter { OnOk result (length tokens.new < length tokens.old) }
{
    let _at = tokens.word(Keyword::NotAllowed)?;
    Ok(Pattern::NotAllowed)
}

/// A literal of the default type.
fn value(alloc: Global, tokens: &mut Cursor<'_>) -> Result<Pattern, Stop>
    ensures parsed { Parsed (part.literal ∷ []) (λ ts us p. ReadsBare ts us (pattern_of p)) tokens.old result tokens.new }
    ensures shorter { OnOk result (length tokens.new < length tokens.old) }
{
    let literal = literal(alloc, tokens)?;
    Ok(Pattern::Value { of: None, literal })
}

#[cycle(pattern)]
fn datatype(alloc: Global, tokens: &mut Cursor<'_>, may_except: bool) -> Result<Pattern, Stop>
    ensures parsed { Parsed (part.type_name ∷ part.typed may_except ∷ []) (λ ts us p. ReadsOpen may_except ts us (pattern_of p)) tokens.old result tokens.new }
    ensures shorter { OnOk result (length tokens.new < length tokens.old) }
{
    let of = tokens.type_name(alloc)?;
    typed(alloc, tokens, of, may_except)
}

/// Reads a literal, or the parameters and the except, behind a type.
#[cycle(pattern)]
pub(crate) fn typed(
    alloc: Global,
    tokens: &mut Cursor<'_>,
    of: TypeName,
    may_except: bool,
) -> Result<Pattern, Stop>
    ensures parsed { Parsed (part.typed may_except ∷ []) (λ ts us p. BehindType may_except (type_of of) ts us (pattern_of p)) tokens.old result tokens.new }
    ensures shorter { OnOk result (length tokens.new ≤ length tokens.old) }
{
    if tokens.is_segment() {
        let literal = literal(alloc, tokens)?;
        return Ok(Pattern::Value {
            of: Some(of),
            literal,
        });
    }
    let parameters = braces(alloc, tokens)?;
    let except = except(alloc, tokens, may_except)?;
    Ok(Pattern::DataType {
        of,
        parameters,
        except,
    })
}

/// Reads the except of a datatype, if there is one. Its operand has no except of its own.
#[cycle(pattern)]
fn except(
    alloc: Global,
    tokens: &mut Cursor<'_>,
    may_except: bool,
) -> Result<Option<Boxed<Pattern>>, Stop>
    ensures parsed { Parsed (part.except may_except ∷ []) (ReadsOperand may_except) tokens.old result tokens.new }
    ensures shorter { OnOk result (length tokens.new ≤ length tokens.old) }
{
    if may_except {
        return operand(alloc, tokens);
    }
    Ok(None)
}

/// Reads the except of a datatype where it may stand, if there is one.
#[cycle(pattern)]
fn operand(alloc: Global, tokens: &mut Cursor<'_>) -> Result<Option<Boxed<Pattern>>, Stop>
    ensures parsed { Parsed (part.except true ∷ []) (ReadsOperand true) tokens.old result tokens.new }
    ensures shorter { OnOk result (length tokens.new ≤ length tokens.old) }
{
    if !tokens.eat(Symbol::Minus) {
        return Ok(None);
    }
    blocks(tokens)?;
    let operand = bare(alloc, tokens, false)?;
    let operand = Boxed::new(alloc, operand)?;
    Ok(Some(operand))
}

fn external(alloc: Global, tokens: &mut Cursor<'_>) -> Result<Pattern, Stop>
    ensures parsed { Parsed (part.word kw.external ∷ part.literal ∷ part.passed ∷ []) (λ ts us p. ReadsBare ts us (pattern_of p)) tokens.old result tokens.new }
    ensures shorter { OnOk result (length tokens.new < length tokens.old) }
{
    let at = tokens.word(Keyword::External)?;
    let literal = literal(alloc, tokens)?;
    let passed = passed(alloc, tokens)?;
    Ok(Pattern::External {
        literal,
        passed,
        at,
    })
}

#[cycle(pattern)]
fn grammar(alloc: Global, tokens: &mut Cursor<'_>) -> Result<Pattern, Stop>
    ensures parsed { Parsed (part.word kw.grammar ∷ part.sign kw.open_brace ∷ part.items false ∷ part.sign kw.close_brace ∷ []) (λ ts us p. ReadsBare ts us (pattern_of p)) tokens.old result tokens.new }
    ensures shorter { OnOk result (length tokens.new < length tokens.old) }
{
    let _at = tokens.word(Keyword::Grammar)?;
    let _open = tokens.symbol(Symbol::OpenBrace)?;
    let found = items(alloc, tokens, Items::new(alloc), false)?;
    let _close = tokens.symbol(Symbol::CloseBrace)?;
    Ok(Pattern::Grammar(found))
}

#[cycle(pattern)]
fn parentheses(alloc: Global, tokens: &mut Cursor<'_>) -> Result<Pattern, Stop>
    ensures parsed { Parsed (part.sign kw.open_paren ∷ part.pattern ∷ part.sign kw.close_paren ∷ []) (λ ts us p. ReadsBare ts us (pattern_of p)) tokens.old result tokens.new }
    ensures shorter { OnOk result (length tokens.new < length tokens.old) }
{
    let _open = tokens.symbol(Symbol::OpenParen)?;
    let found = pattern(alloc, tokens)?;
    let _close = tokens.symbol(Symbol::CloseParen)?;
    Ok(found)
}

/// Reads items up to what begins none, behind those that are given. In an include's braces there is no include.
#[cycle(pattern)]
pub fn items(
    alloc: Global,
    tokens: &mut Cursor<'_>,
    before: Items<Item>,
    inner: bool,
) -> Result<Items<Item>, Stop>
    ensures parsed { Parsed (part.items inner ∷ []) (λ ts us is. ReadsMoreItems inner (map item_of before) ts us (map item_of is)) tokens.old result tokens.new }
    ensures shorter { OnOk result (length tokens.new ≤ length tokens.old) }
{
    let mut found = before;
    while tokens.begins_item() {
        if let Some(item) = next_item(alloc, tokens, inner)? {
            found.push(item)?;
        }
    }
    Ok(found)
}

/// Reads an item, or an annotation in its place.
#[cycle(pattern)]
fn next_item(alloc: Global, tokens: &mut Cursor<'_>, inner: bool) -> Result<Option<Item>, Stop>
    ensures parsed { Parsed (part.next_item inner ∷ []) (ReadsNext inner) tokens.old result tokens.new }
    ensures shorter { OnOk result (length tokens.new < length tokens.old) }
{
    match tokens.item_form() {
        ItemForm::Annotated => annotated_item(alloc, tokens, inner),
        ItemForm::Named => named_item(alloc, tokens),
        ItemForm::Prefixed => annotation(alloc, tokens),
        ItemForm::Start => plain_item(alloc, tokens, inner),
        ItemForm::Div => plain_item(alloc, tokens, inner),
        ItemForm::Include => plain_item(alloc, tokens, inner),
        ItemForm::End => plain_item(alloc, tokens, inner),
        ItemForm::Other => plain_item(alloc, tokens, inner),
    }
}

#[cycle(pattern)]
fn plain_item(alloc: Global, tokens: &mut Cursor<'_>, inner: bool) -> Result<Option<Item>, Stop>
    ensures parsed { Parsed (part.item inner ∷ []) (ReadsNext inner) tokens.old result tokens.new }
    ensures shorter { OnOk result (length tokens.new < length tokens.old) }
{
    let found = item(alloc, tokens, inner)?;
    Ok(Some(found))
}

#[cycle(pattern)]
fn annotated_item(alloc: Global, tokens: &mut Cursor<'_>, inner: bool) -> Result<Option<Item>, Stop>
    ensures parsed { Parsed (part.blocks ∷ part.item inner ∷ []) (ReadsNext inner) tokens.old result tokens.new }
    ensures shorter { OnOk result (length tokens.new < length tokens.old) }
{
    blocks(tokens)?;
    let found = item(alloc, tokens, inner)?;
    Ok(Some(found))
}

fn annotation(alloc: Global, tokens: &mut Cursor<'_>) -> Result<Option<Item>, Stop>
    ensures parsed { Parsed (part.prefixed_name ∷ part.block ∷ []) (ReadsNext true) tokens.old result tokens.new }
    ensures shorter { OnOk result (length tokens.new < length tokens.old) }
{
    let _name = tokens.prefixed_name(alloc)?;
    block(tokens)?;
    Ok(None)
}

/// Reads a definition, or an annotation that is no item.
#[cycle(pattern)]
fn named_item(alloc: Global, tokens: &mut Cursor<'_>) -> Result<Option<Item>, Stop>
    ensures parsed { Parsed (part.named_item ∷ []) (ReadsNext true) tokens.old result tokens.new }
    ensures shorter { OnOk result (length tokens.new < length tokens.old) }
{
    let (name, at) = tokens.plain_name(alloc)?;
    if tokens.is(Symbol::OpenBracket) {
        block(tokens)?;
        return Ok(None);
    }
    let method = tokens.assign()?;
    let pattern = pattern(alloc, tokens)?;
    Ok(Some(Item::Define {
        name,
        method,
        pattern,
        at,
    }))
}

/// Reads an item without annotations before it.
#[cycle(pattern)]
pub(crate) fn item(alloc: Global, tokens: &mut Cursor<'_>, inner: bool) -> Result<Item, Stop>
    ensures parsed { Parsed (part.item inner ∷ []) (λ ts us i. ReadsOneItem inner ts us (item_of i)) tokens.old result tokens.new }
    ensures shorter { OnOk result (length tokens.new < length tokens.old) }
{
    match tokens.item_form() {
        ItemForm::Start => start(alloc, tokens),
        ItemForm::Named => define(alloc, tokens),
        ItemForm::Div => div(alloc, tokens, inner),
        ItemForm::Include => {
            if inner {
                return Err(Stop::Syntax);
            }
            include(alloc, tokens)
        }
        ItemForm::Annotated => Err(Stop::Syntax),
        ItemForm::Prefixed => Err(Stop::Syntax),
        ItemForm::End => Err(Stop::Syntax),
        ItemForm::Other => Err(Stop::Syntax),
    }
}

#[cycle(pattern)]
fn start(alloc: Global, tokens: &mut Cursor<'_>) -> Result<Item, Stop>
    ensures parsed { Parsed (part.word kw.start ∷ part.assign ∷ part.pattern ∷ []) (λ ts us i. ReadsOneItem true ts us (item_of i)) tokens.old result tokens.new }
    ensures shorter { OnOk result (length tokens.new < length tokens.old) }
{
    let at = tokens.word(Keyword::Start)?;
    let method = tokens.assign()?;
    let pattern = pattern(alloc, tokens)?;
    Ok(Item::Start {
        method,
        pattern,
        at,
    })
}

#[cycle(pattern)]
fn define(alloc: Global, tokens: &mut Cursor<'_>) -> Result<Item, Stop>
    ensures parsed { Parsed (part.plain_name ∷ part.assign ∷ part.pattern ∷ []) (λ ts us i. ReadsOneItem true ts us (item_of i)) tokens.old result tokens.new }
    ensures shorter { OnOk result (length tokens.new < length tokens.old) }
{
    let (name, at) = tokens.plain_name(alloc)?;
    let method = tokens.assign()?;
    let pattern = pattern(alloc, tokens)?;
    Ok(Item::Define {
        name,
        method,
        pattern,
        at,
    })
}

#[cycle(pattern)]
fn div(alloc: Global, tokens: &mut Cursor<'_>, inner: bool) -> Result<Item, Stop>
    ensures parsed { Parsed (part.word kw.div ∷ part.sign kw.open_brace ∷ part.items inner ∷ part.sign kw.close_brace ∷ []) (λ ts us i. ReadsOneItem inner ts us (item_of i)) tokens.old result tokens.new }
    ensures shorter { OnOk result (length tokens.new < length tokens.old) }
{
    let _at = tokens.word(Keyword::Div)?;
    let _open = tokens.symbol(Symbol::OpenBrace)?;
    let found = items(alloc, tokens, Items::new(alloc), inner)?;
    let _close = tokens.symbol(Symbol::CloseBrace)?;
    Ok(Item::Div(found))
}

#[cycle(pattern)]
fn include(alloc: Global, tokens: &mut Cursor<'_>) -> Result<Item, Stop>
    ensures parsed { Parsed (part.word kw.include ∷ part.literal ∷ part.passed ∷ part.inner ∷ []) (λ ts us i. ReadsItem ts us (item_of i)) tokens.old result tokens.new }
    ensures shorter { OnOk result (length tokens.new < length tokens.old) }
{
    let at = tokens.word(Keyword::Include)?;
    let literal = literal(alloc, tokens)?;
    let passed = passed(alloc, tokens)?;
    let inner = inner_items(alloc, tokens)?;
    Ok(Item::Include {
        literal,
        passed,
        inner,
        at,
    })
}

/// Reads the items in an include's braces, if there are any.
#[cycle(pattern)]
fn inner_items(alloc: Global, tokens: &mut Cursor<'_>) -> Result<Items<Item>, Stop>
    ensures parsed { Parsed (part.inner ∷ []) (λ ts us is. ReadsInner ts us (items_of (map item_of is))) tokens.old result tokens.new }
    ensures shorter { OnOk result (length tokens.new ≤ length tokens.old) }
{
    let found = Items::new(alloc);
    if !tokens.eat(Symbol::OpenBrace) {
        return Ok(found);
    }
    let found = items(alloc, tokens, found, true)?;
    let _close = tokens.symbol(Symbol::CloseBrace)?;
    Ok(found)
}
