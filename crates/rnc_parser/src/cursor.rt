ghost use Rattle.std.specs.Prelude.{◌≡◌, ◌+◌, ◌<◌, ◌^◌, length, Some, string_bytes};
ghost use Rattle.token_laws.specs.Tokens as model;
ghost use Rattle.grammar_laws.specs.Prefixes.{place_at};
ghost use Rattle.rnc_lexer.specs.Sound.{AreSound};
ghost use Rattle.rnc_lexer.specs.Views.{symbol_of, keyword_of, token_of};
ghost use Rattle.syntax_laws.specs.Expecting.{first, is_word, is_segment, is_name, begins_parameter, begins_declaration, begins_item, is_assign, pattern_form, class_form, item_form, declaration_form};
ghost use Rattle.syntax_laws.specs.Expecting as part;
ghost use Rattle.rnc_parser.specs.Reading.{Is, Eats, Takes, InBlock, AtEnd, IsTypeToken, IsMethodToken, IsSign, IsKeyword, IsName, IsPlainName, IsPrefixedName, IsNamespaceName, IsBeforeBlock, IsSegment, IsTypeName, IsMethod};

use crate::names::keyword_name;
use crate::stop::Stop;
use rnc_lexer::{Keyword, Lexed, Symbol, Token, Tokens};
use schema_tree::{Method, TypeName};
use std::alloc::Global;
use std::marker::Model;
use syntax_laws::{ClassForm, DeclarationForm, ItemForm, PatternForm};
use text_atoms::Text;

/// The tokens of a text that are still to be read.
#[derive(Drop)]
pub struct Cursor<'a> {
    rest: &'a [Lexed],
}

impl<'a> Model for Cursor<'a> {
    ghost use Rattle.std.specs.Prelude.{List};
    ghost use Rattle.token_laws.specs.Tokens.{Placed};

    ghost Value = { List Placed };

    ghost use Rattle.rnc_lexer.specs.Views.{placed_of};
    ghost use Rattle.std.specs.Prelude.{map};

    ghost view = { λ c. map placed_of c.rest.now };
}

impl<'a> Cursor<'a> {
    /// All tokens are left.
    pub fn new(tokens: &'a Tokens) -> Cursor<'a>
        ensures tokens { result ≡ tokens.now.tokens }
        ensures sound { AreSound tokens.now.end result }
    {
        Cursor {
            rest: tokens.as_slice(),
        }
    }

    /// Whether the symbol is next.
    pub(crate) fn is(&self, wanted: Symbol) -> bool
        ensures { Is (symbol_of wanted) self.now result }
    {
        if let Some((first, _rest)) = self.rest.split_first() {
            if let Token::Symbol(found) = first.token {
                return found == wanted;
            }
        }
        false
    }

    /// Whether the keyword `inherit` is next.
    pub(crate) fn is_inherit(&self) -> bool
        ensures { result ≡ is_word model.inherit (first self.now) }
    {
        match self.rest.split_first() {
            Some((first, _rest)) => match &first.token {
                Token::Keyword(Keyword::Inherit) => true,
                _ => false,
            },
            None => false,
        }
    }

    /// Passes the symbol, if it is next.
    pub(crate) fn eat(&mut self, wanted: Symbol) -> bool
        ensures { Eats (symbol_of wanted) self.old result self.new }
    {
        if let Some((first, rest)) = self.rest.split_first() {
            if let Token::Symbol(found) = first.token {
                if found == wanted {
                    self.rest = rest;
                    return true;
                }
            }
        }
        false
    }

    /// Whether a segment is next.
    pub(crate) fn is_segment(&self) -> bool
        ensures { result ≡ is_segment (first self.now) }
    {
        match self.rest.split_first() {
            Some((first, _rest)) => match &first.token {
                Token::Segment(_) => true,
                Token::Keyword(_) | Token::Ident(_) | Token::CName(_, _) | Token::NsName(_) =>
                    false,
                Token::Symbol(_) => false,
            },
            None => false,
        }
    }

    /// Whether an identifier or a keyword is next.
    pub(crate) fn is_name(&self) -> bool
        ensures { result ≡ is_name (first self.now) }
    {
        match self.rest.split_first() {
            Some((first, _rest)) => match &first.token {
                Token::Keyword(_) | Token::Ident(_) => true,
                Token::CName(_, _) | Token::NsName(_) | Token::Segment(_) | Token::Symbol(_) =>
                    false,
            },
            None => false,
        }
    }

    /// Passes the symbol, and gives its place.
    pub(crate) fn symbol(&mut self, wanted: Symbol) -> Result<usize, Stop>
        ensures { Takes (part.sign (symbol_of wanted)) (IsSign (symbol_of wanted)) self.old result self.new }
    {
        if let Some((first, rest)) = self.rest.split_first() {
            if let Token::Symbol(found) = first.token {
                if found == wanted {
                    self.rest = rest;
                    return Ok(first.place);
                }
            }
        }
        Err(Stop::Syntax)
    }

    /// Passes the keyword, and gives its place.
    pub(crate) fn word(&mut self, wanted: Keyword) -> Result<usize, Stop>
        ensures { Takes (part.word (keyword_of wanted)) (IsKeyword (keyword_of wanted)) self.old result self.new }
    {
        if let Some((first, rest)) = self.rest.split_first() {
            if let Token::Keyword(found) = first.token {
                if found == wanted {
                    self.rest = rest;
                    return Ok(first.place);
                }
            }
        }
        Err(Stop::Syntax)
    }

    /// Passes an identifier or a keyword, and gives its text and place.
    pub(crate) fn name(&mut self, alloc: Global) -> Result<(Text, usize), Stop>
        ensures { Takes part.name IsName self.old result self.new }
    {
        let Some((first, rest)) = self.rest.split_first() else {
            return Err(Stop::Syntax);
        };
        let text = match &first.token {
            Token::Keyword(keyword) => keyword_name(alloc, *keyword)?,
            Token::Ident(text) => text.copy(alloc)?,
            Token::CName(_, _) | Token::NsName(_) | Token::Segment(_) | Token::Symbol(_) =>
                return Err(Stop::Syntax),
        };
        self.rest = rest;
        Ok((text, first.place))
    }

    /// Passes an identifier, and gives its text and place.
    pub(crate) fn plain_name(&mut self, alloc: Global) -> Result<(Text, usize), Stop>
        ensures { Takes part.plain_name IsPlainName self.old result self.new }
    {
        if let Some((first, rest)) = self.rest.split_first() {
            if let Token::Ident(text) = &first.token {
                let text = text.copy(alloc)?;
                self.rest = rest;
                return Ok((text, first.place));
            }
        }
        Err(Stop::Syntax)
    }

    /// Passes a prefixed name, and gives its prefix, its local name and its place.
    pub(crate) fn prefixed_name(&mut self, alloc: Global) -> Result<(Text, Text, usize), Stop>
        ensures { Takes part.prefixed_name IsPrefixedName self.old result self.new }
    {
        if let Some((first, rest)) = self.rest.split_first() {
            if let Token::CName(prefix, local) = &first.token {
                let prefix = prefix.copy(alloc)?;
                let local = local.copy(alloc)?;
                self.rest = rest;
                return Ok((prefix, local, first.place));
            }
        }
        Err(Stop::Syntax)
    }

    /// Passes a namespace name, and gives its prefix and its place.
    pub(crate) fn namespace_name(&mut self, alloc: Global) -> Result<(Text, usize), Stop>
        ensures { Takes part.namespace_name IsNamespaceName self.old result self.new }
    {
        if let Some((first, rest)) = self.rest.split_first() {
            if let Token::NsName(prefix) = &first.token {
                let prefix = prefix.copy(alloc)?;
                self.rest = rest;
                return Ok((prefix, first.place));
            }
        }
        Err(Stop::Syntax)
    }

    /// Passes a segment, and adds its text to the literal.
    pub(crate) fn segment(&mut self, literal: &mut String) -> Result<(), Stop>
        ensures { Takes part.one_segment (IsSegment (string_bytes literal.old) (string_bytes literal.new)) self.old result self.new }
    {
        if let Some((first, rest)) = self.rest.split_first() {
            if let Token::Segment(text) = &first.token {
                literal.push_str(text.as_str())?;
                self.rest = rest;
                return Ok(());
            }
        }
        Err(Stop::Syntax)
    }

    /// Passes the name before an annotation's block.
    pub(crate) fn annotation_name(&mut self) -> Result<(), Stop>
        ensures { Takes part.annotation_name IsBeforeBlock self.old result self.new }
    {
        let Some((first, rest)) = self.rest.split_first() else {
            return Err(Stop::Syntax);
        };
        match &first.token {
            Token::Keyword(_) | Token::Ident(_) | Token::CName(_, _) => {
                self.rest = rest;
                Ok(())
            }
            Token::NsName(_) | Token::Segment(_) | Token::Symbol(_) => Err(Stop::Syntax),
        }
    }

    /// The place of the next token, or `end` where none is left.
    pub(crate) fn place(&self, end: usize) -> usize
        ensures { result ≡ place_at self.now end 0 }
    {
        match self.rest.split_first() {
            Some((first, _rest)) => first.place,
            None => end,
        }
    }

    /// How many tokens are left.
    pub fn left(&self) -> usize
        ensures count { result ≡ length self.now }
        ensures fits { length self.now < 2 ^ 63 }
    {
        self.rest.len()
    }

    /// Passes a token inside a block with `depth` brackets that aren't closed, and gives how many there are behind it.
    pub(crate) fn in_block(&mut self, depth: usize) -> Result<usize, Stop>
        requires some { 0 < depth }
        requires fits { depth + length self.old < 2 ^ 64 }
        ensures { InBlock depth self.old result self.new }
    {
        let Some((first, rest)) = self.rest.split_first() else {
            return Err(Stop::Syntax);
        };
        self.rest = rest;
        match &first.token {
            Token::Symbol(Symbol::OpenBracket) => Ok(depth + 1),
            Token::Symbol(Symbol::CloseBracket) => Ok(depth - 1),
            _ => Ok(depth),
        }
    }

    /// Passes the name of a type.
    pub(crate) fn type_name(&mut self, alloc: Global) -> Result<TypeName, Stop>
        ensures { Takes part.type_name IsTypeName self.old result self.new }
    {
        let Some((first, rest)) = self.rest.split_first() else {
            return Err(Stop::Syntax);
        };
        let name = type_of_token(alloc, &first.token, first.place)?;
        self.rest = rest;
        Ok(name)
    }

    /// Passes an assignment sign.
    pub(crate) fn assign(&mut self) -> Result<Method, Stop>
        ensures { Takes part.assign IsMethod self.old result self.new }
    {
        let Some((first, rest)) = self.rest.split_first() else {
            return Err(Stop::Syntax);
        };
        let Some(method) = method_of_token(&first.token) else {
            return Err(Stop::Syntax);
        };
        self.rest = rest;
        Ok(method)
    }

    /// Whether an assignment sign is next.
    pub(crate) fn is_assign(&self) -> bool
        ensures { result ≡ is_assign (first self.now) }
    {
        match self.rest.split_first() {
            Some((first, _rest)) => match &first.token {
                Token::Symbol(Symbol::Equals | Symbol::BarEquals | Symbol::AmpersandEquals) => true,
                _ => false,
            },
            None => false,
        }
    }

    /// Whether an annotation or a name is next.
    pub(crate) fn begins_parameter(&self) -> bool
        ensures { result ≡ begins_parameter (first self.now) }
    {
        match self.rest.split_first() {
            Some((first, _rest)) => match &first.token {
                Token::Keyword(_) | Token::Ident(_) | Token::Symbol(Symbol::OpenBracket) => true,
                _ => false,
            },
            None => false,
        }
    }

    /// Whether no token is left.
    pub(crate) fn end(&self) -> Result<(), Stop>
        ensures { AtEnd self.now result }
    {
        if self.rest.is_empty() {
            Ok(())
        } else {
            Err(Stop::Syntax)
        }
    }

    /// Whether a declaration begins.
    pub(crate) fn begins_declaration(&self) -> bool
        ensures { result ≡ begins_declaration (first self.now) }
    {
        match self.rest.split_first() {
            Some((first, _rest)) => match &first.token {
                Token::Keyword(Keyword::Namespace | Keyword::Default | Keyword::Datatypes) => true,
                _ => false,
            },
            None => false,
        }
    }

    /// Whether an item, or an annotation in its place, begins.
    pub(crate) fn begins_item(&self) -> bool
        ensures { result ≡ begins_item (first self.now) }
    {
        match self.rest.split_first() {
            Some((first, _rest)) => match &first.token {
                Token::Keyword(Keyword::Start | Keyword::Div | Keyword::Include) => true,
                Token::Ident(_) | Token::CName(_, _) | Token::Symbol(Symbol::OpenBracket) => true,
                _ => false,
            },
            None => false,
        }
    }

    /// Which bare pattern begins.
    pub(crate) fn pattern_form(&self) -> PatternForm
        ensures { result ≡ pattern_form (first self.now) }
    {
        match self.rest.split_first() {
            Some((first, _rest)) => match &first.token {
                Token::Keyword(keyword) => keyword_form(*keyword),
                Token::Ident(_) => PatternForm::Reference,
                Token::CName(_, _) => PatternForm::Typed,
                Token::Segment(_) => PatternForm::Literal,
                Token::Symbol(Symbol::OpenParen) => PatternForm::Parentheses,
                _ => PatternForm::Other,
            },
            None => PatternForm::Other,
        }
    }

    /// Which bare name class begins.
    pub(crate) fn class_form(&self) -> ClassForm
        ensures { result ≡ class_form (first self.now) }
    {
        match self.rest.split_first() {
            Some((first, _rest)) => match &first.token {
                Token::Keyword(_) | Token::Ident(_) => ClassForm::Plain,
                Token::CName(_, _) => ClassForm::Prefixed,
                Token::NsName(_) => ClassForm::Namespace,
                Token::Symbol(Symbol::OpenParen) => ClassForm::Parentheses,
                Token::Symbol(Symbol::Star) => ClassForm::Any,
                _ => ClassForm::Other,
            },
            None => ClassForm::Other,
        }
    }

    /// Which item begins.
    pub(crate) fn item_form(&self) -> ItemForm
        ensures { result ≡ item_form (first self.now) }
    {
        match self.rest.split_first() {
            Some((first, _rest)) => match &first.token {
                Token::Keyword(Keyword::Start) => ItemForm::Start,
                Token::Keyword(Keyword::Div) => ItemForm::Div,
                Token::Keyword(Keyword::Include) => ItemForm::Include,
                Token::Ident(_) => ItemForm::Named,
                Token::CName(_, _) => ItemForm::Prefixed,
                Token::Symbol(Symbol::OpenBracket) => ItemForm::Annotated,
                _ => ItemForm::Other,
            },
            None => ItemForm::End,
        }
    }

    /// Which declaration begins.
    pub(crate) fn declaration_form(&self) -> DeclarationForm
        ensures { result ≡ declaration_form (first self.now) }
    {
        match self.rest.split_first() {
            Some((first, _rest)) => match &first.token {
                Token::Keyword(Keyword::Namespace) => DeclarationForm::Namespace,
                Token::Keyword(Keyword::Default) => DeclarationForm::Default,
                Token::Keyword(Keyword::Datatypes) => DeclarationForm::Datatypes,
                _ => DeclarationForm::Other,
            },
            None => DeclarationForm::Other,
        }
    }
}

/// Which bare pattern the keyword begins.
fn keyword_form(keyword: Keyword) -> PatternForm
    ensures { result ≡ pattern_form (Some (model.keyword (keyword_of keyword))) }
{
    match keyword {
        Keyword::Element => PatternForm::Element,
        Keyword::Attribute => PatternForm::Attribute,
        Keyword::List => PatternForm::List,
        Keyword::Mixed => PatternForm::Mixed,
        Keyword::Parent => PatternForm::Parent,
        Keyword::Empty => PatternForm::Empty,
        Keyword::Text => PatternForm::Text,
        Keyword::NotAllowed => PatternForm::NotAllowed,
        Keyword::String | Keyword::Token => PatternForm::Typed,
        Keyword::External => PatternForm::External,
        Keyword::Grammar => PatternForm::Grammar,
        Keyword::Default | Keyword::Datatypes | Keyword::Div => PatternForm::Other,
        Keyword::Include | Keyword::Inherit | Keyword::Namespace | Keyword::Start =>
            PatternForm::Other,
    }
}

/// The type that the token names, at its place.
fn type_of_token(alloc: Global, token: &Token, at: usize) -> Result<TypeName, Stop>
    ensures { IsTypeToken (token_of token.now) at result }
{
    match token {
        Token::CName(prefix, local) => {
            let prefix = prefix.copy(alloc)?;
            let local = local.copy(alloc)?;
            Ok(TypeName::Prefixed { prefix, local, at })
        }
        Token::Keyword(Keyword::String) => Ok(TypeName::BuiltString { at }),
        Token::Keyword(Keyword::Token) => Ok(TypeName::BuiltToken { at }),
        _ => Err(Stop::Syntax),
    }
}

/// The method of an assignment sign.
fn method_of_token(token: &Token) -> Option<Method>
    ensures { IsMethodToken (token_of token.now) result }
{
    match token {
        Token::Symbol(Symbol::Equals) => Some(Method::Plain),
        Token::Symbol(Symbol::BarEquals) => Some(Method::Choice),
        Token::Symbol(Symbol::AmpersandEquals) => Some(Method::Interleave),
        _ => None,
    }
}
