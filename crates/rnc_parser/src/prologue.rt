ghost use Rattle.std.specs.Prelude.{◌<◌, ◌≤◌, [], ◌∷◌, length, map, OnOk};
ghost use Rattle.grammar_laws.specs.Grammar.{ReadsDeclaration, ReadsDeclarations};
ghost use Rattle.token_laws.specs.Tokens as kw;
ghost use Rattle.syntax_laws.specs.Expecting as part;
ghost use Rattle.rnc_parser.specs.Reading.{Parsed};
ghost use Rattle.rnc_parser.specs.Parts.{ReadsPrefix};
ghost use Rattle.schema_tree.specs.Trees.{declaration_of};

use crate::cursor::Cursor;
use crate::literals::{literal, uri};
use crate::stop::Stop;
use rnc_lexer::{Keyword, Symbol};
use schema_tree::Declaration;
use sqlite_items::Items;
use std::alloc::Global;
use syntax_laws::DeclarationForm;
use text_atoms::Text;

/// Reads the declarations at the head of a schema.
pub fn declarations(alloc: Global, tokens: &mut Cursor<'_>) -> Result<Items<Declaration>, Stop>
    ensures { Parsed (part.declarations ∷ []) (λ ts us ds. ReadsDeclarations ts us (map declaration_of ds)) tokens.old result tokens.new }
{
    let mut found = Items::new(alloc);
    while tokens.begins_declaration() {
        let next = declaration(alloc, tokens)?;
        found.push(next)?;
    }
    Ok(found)
}

fn declaration(alloc: Global, tokens: &mut Cursor<'_>) -> Result<Declaration, Stop>
    ensures parsed { Parsed (part.declaration ∷ []) (λ ts us d. ReadsDeclaration ts us (declaration_of d)) tokens.old result tokens.new }
    ensures shorter { OnOk result (length tokens.new < length tokens.old) }
{
    match tokens.declaration_form() {
        DeclarationForm::Namespace => namespace(alloc, tokens),
        DeclarationForm::Default => default_namespace(alloc, tokens),
        DeclarationForm::Datatypes => datatypes(alloc, tokens),
        DeclarationForm::Other => Err(Stop::Syntax),
    }
}

/// `namespace PREFIX = URI`
fn namespace(alloc: Global, tokens: &mut Cursor<'_>) -> Result<Declaration, Stop>
    ensures parsed { Parsed (part.word kw.namespace ∷ part.name ∷ part.sign kw.equals ∷ part.uri ∷ []) (λ ts us d. ReadsDeclaration ts us (declaration_of d)) tokens.old result tokens.new }
    ensures shorter { OnOk result (length tokens.new < length tokens.old) }
{
    let at = tokens.word(Keyword::Namespace)?;
    let (prefix, _place) = tokens.name(alloc)?;
    tokens.symbol(Symbol::Equals)?;
    let uri = uri(alloc, tokens)?;
    Ok(Declaration::Namespace { prefix, uri, at })
}

/// `default namespace = URI`, with or without a prefix
fn default_namespace(alloc: Global, tokens: &mut Cursor<'_>) -> Result<Declaration, Stop>
    ensures parsed { Parsed (part.word kw.default ∷ part.word kw.namespace ∷ part.default_prefix ∷ part.sign kw.equals ∷ part.uri ∷ []) (λ ts us d. ReadsDeclaration ts us (declaration_of d)) tokens.old result tokens.new }
    ensures shorter { OnOk result (length tokens.new < length tokens.old) }
{
    let at = tokens.word(Keyword::Default)?;
    let _place = tokens.word(Keyword::Namespace)?;
    let prefix = default_prefix(alloc, tokens)?;
    tokens.symbol(Symbol::Equals)?;
    let uri = uri(alloc, tokens)?;
    Ok(Declaration::DefaultNamespace { prefix, uri, at })
}

fn default_prefix(alloc: Global, tokens: &mut Cursor<'_>) -> Result<Option<Text>, Stop>
    ensures parsed { Parsed (part.default_prefix ∷ []) ReadsPrefix tokens.old result tokens.new }
    ensures shorter { OnOk result (length tokens.new ≤ length tokens.old) }
{
    if !tokens.is_name() {
        return Ok(None);
    }
    let (prefix, _place) = tokens.name(alloc)?;
    Ok(Some(prefix))
}

/// `datatypes PREFIX = LITERAL`
fn datatypes(alloc: Global, tokens: &mut Cursor<'_>) -> Result<Declaration, Stop>
    ensures parsed { Parsed (part.word kw.datatypes ∷ part.name ∷ part.sign kw.equals ∷ part.literal ∷ []) (λ ts us d. ReadsDeclaration ts us (declaration_of d)) tokens.old result tokens.new }
    ensures shorter { OnOk result (length tokens.new < length tokens.old) }
{
    let at = tokens.word(Keyword::Datatypes)?;
    let (prefix, _place) = tokens.name(alloc)?;
    tokens.symbol(Symbol::Equals)?;
    let literal = literal(alloc, tokens)?;
    Ok(Declaration::Datatypes {
        prefix,
        literal,
        at,
    })
}
