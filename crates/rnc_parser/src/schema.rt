ghost use Rattle.std.specs.Prelude.{false, true, [], ◌∷◌};
ghost use Rattle.syntax_laws.specs.Expecting as part;
ghost use Rattle.rnc_parser.specs.Reading.{Parsed};
ghost use Rattle.rnc_parser.specs.Parts.{ReadsBody, BehindName, BehindBlocks, BehindBare, DerivesFile};
ghost use Rattle.schema_tree.specs.Trees.{pattern_of};

use crate::annotations::{block, blocks, follow};
use crate::cursor::Cursor;
use crate::patterns::{bare, item, items, more_patterns, pattern, postfix, typed};
use crate::prologue::declarations;
use crate::stop::Stop;
use rnc_lexer::Symbol;
use schema_tree::{Body, Item, Parts, Pattern, TypeName};
use sqlite_items::Items;
use std::alloc::Global;
use syntax_laws::ItemForm;
use text_atoms::Text;

/// Reads a whole file.
pub fn file(alloc: Global, tokens: &mut Cursor<'_>) -> Result<Parts, Stop>
    ensures { Parsed (part.declarations ∷ part.body ∷ part.end ∷ []) DerivesFile tokens.old result tokens.new }
{
    let declarations = declarations(alloc, tokens)?;
    let body = body(alloc, tokens)?;
    tokens.end()?;
    Ok(Parts { declarations, body })
}

/// Reads a pattern or items.
fn body(alloc: Global, tokens: &mut Cursor<'_>) -> Result<Body, Stop>
    ensures { Parsed (part.body ∷ []) ReadsBody tokens.old result tokens.new }
{
    match tokens.item_form() {
        ItemForm::Annotated => annotated_body(alloc, tokens),
        ItemForm::Named => named_body(alloc, tokens),
        ItemForm::Prefixed => typed_body(alloc, tokens),
        ItemForm::Other => pattern_body(alloc, tokens),
        ItemForm::Start => items_body(alloc, tokens),
        ItemForm::Div => items_body(alloc, tokens),
        ItemForm::Include => items_body(alloc, tokens),
        ItemForm::End => items_body(alloc, tokens),
    }
}

fn pattern_body(alloc: Global, tokens: &mut Cursor<'_>) -> Result<Body, Stop>
    ensures { Parsed (part.pattern ∷ []) ReadsBody tokens.old result tokens.new }
{
    let found = pattern(alloc, tokens)?;
    Ok(Body::Pattern(found))
}

fn items_body(alloc: Global, tokens: &mut Cursor<'_>) -> Result<Body, Stop>
    ensures { Parsed (part.items false ∷ []) ReadsBody tokens.old result tokens.new }
{
    let found = items(alloc, tokens, Items::new(alloc), false)?;
    Ok(Body::Items(found))
}

/// A body that begins with a name: an annotation, a definition or a reference.
fn named_body(alloc: Global, tokens: &mut Cursor<'_>) -> Result<Body, Stop>
    ensures { Parsed (part.plain_name ∷ part.named_body ∷ []) ReadsBody tokens.old result tokens.new }
{
    let (name, at) = tokens.plain_name(alloc)?;
    if tokens.is(Symbol::OpenBracket) {
        block(tokens)?;
        let found = items(alloc, tokens, Items::new(alloc), false)?;
        return Ok(Body::Items(found));
    }
    if tokens.is_assign() {
        return defined_body(alloc, tokens, name, at);
    }
    let found = rest_of_pattern(alloc, tokens, Pattern::Ref { name, at })?;
    Ok(Body::Pattern(found))
}

/// The items of a body that begins with the definition of the name.
fn defined_body(alloc: Global, tokens: &mut Cursor<'_>, name: Text, at: usize) -> Result<Body, Stop>
    ensures { Parsed (part.assign ∷ part.pattern ∷ part.items false ∷ []) (BehindName name at) tokens.old result tokens.new }
{
    let method = tokens.assign()?;
    let pattern = pattern(alloc, tokens)?;
    let mut found = Items::new(alloc);
    found.push(Item::Define {
        name,
        method,
        pattern,
        at,
    })?;
    let found = items(alloc, tokens, found, false)?;
    Ok(Body::Items(found))
}

/// A body that begins with a prefixed name: an annotation or a type.
fn typed_body(alloc: Global, tokens: &mut Cursor<'_>) -> Result<Body, Stop>
    ensures { Parsed (part.prefixed_name ∷ part.typed_body ∷ []) ReadsBody tokens.old result tokens.new }
{
    let (prefix, local, at) = tokens.prefixed_name(alloc)?;
    if tokens.is(Symbol::OpenBracket) {
        block(tokens)?;
        let found = items(alloc, tokens, Items::new(alloc), false)?;
        return Ok(Body::Items(found));
    }
    let of = TypeName::Prefixed { prefix, local, at };
    let found = typed(alloc, tokens, of, true)?;
    let found = rest_of_pattern(alloc, tokens, found)?;
    Ok(Body::Pattern(found))
}

/// A body that begins with an annotation.
fn annotated_body(alloc: Global, tokens: &mut Cursor<'_>) -> Result<Body, Stop>
    ensures { Parsed (part.blocks ∷ part.annotated_body ∷ []) ReadsBody tokens.old result tokens.new }
{
    blocks(tokens)?;
    match tokens.item_form() {
        ItemForm::Named => annotated_name(alloc, tokens),
        ItemForm::Start => annotated_items(alloc, tokens),
        ItemForm::Div => annotated_items(alloc, tokens),
        ItemForm::Include => annotated_items(alloc, tokens),
        ItemForm::Annotated => annotated_pattern(alloc, tokens),
        ItemForm::Prefixed => annotated_pattern(alloc, tokens),
        ItemForm::End => annotated_pattern(alloc, tokens),
        ItemForm::Other => annotated_pattern(alloc, tokens),
    }
}

fn annotated_name(alloc: Global, tokens: &mut Cursor<'_>) -> Result<Body, Stop>
    ensures { Parsed (part.plain_name ∷ part.annotated_name ∷ []) BehindBlocks tokens.old result tokens.new }
{
    let (name, at) = tokens.plain_name(alloc)?;
    if tokens.is_assign() {
        return defined_body(alloc, tokens, name, at);
    }
    let found = rest_of_pattern(alloc, tokens, Pattern::Ref { name, at })?;
    Ok(Body::Pattern(found))
}

fn annotated_items(alloc: Global, tokens: &mut Cursor<'_>) -> Result<Body, Stop>
    ensures { Parsed (part.item false ∷ part.items false ∷ []) BehindBlocks tokens.old result tokens.new }
{
    let first = item(alloc, tokens, false)?;
    let mut found = Items::new(alloc);
    found.push(first)?;
    let found = items(alloc, tokens, found, false)?;
    Ok(Body::Items(found))
}

fn annotated_pattern(alloc: Global, tokens: &mut Cursor<'_>) -> Result<Body, Stop>
    ensures { Parsed (part.bare true ∷ part.follow ∷ part.postfix ∷ part.more_patterns ∷ []) BehindBlocks tokens.old result tokens.new }
{
    let first = bare(alloc, tokens, true)?;
    let found = rest_of_pattern(alloc, tokens, first)?;
    Ok(Body::Pattern(found))
}

/// Reads a pattern from behind its first bare pattern.
fn rest_of_pattern(alloc: Global, tokens: &mut Cursor<'_>, first: Pattern) -> Result<Pattern, Stop>
    ensures { Parsed (part.follow ∷ part.postfix ∷ part.more_patterns ∷ []) (λ ts us p. BehindBare (pattern_of first) ts us (pattern_of p)) tokens.old result tokens.new }
{
    follow(tokens)?;
    let particle = postfix(alloc, tokens, first)?;
    more_patterns(alloc, tokens, particle)
}
