ghost use Rattle.std.specs.Prelude.{◌≡◌, IfOk};
ghost use Rattle.token_laws.specs.Spellings.{keyword_text};
ghost use Rattle.rnc_lexer.specs.Views.{keyword_of};

use rnc_lexer::Keyword;
use std::alloc::{AllocError, Global};
use text_atoms::Text;

/// How the keyword is spelled.
fn spelling(keyword: Keyword) -> &'static str
    ensures { result.now ≡ keyword_text (keyword_of keyword) }
{
    match keyword {
        Keyword::Attribute => "attribute",
        Keyword::Default => "default",
        Keyword::Datatypes => "datatypes",
        Keyword::Div => "div",
        Keyword::Element => "element",
        Keyword::Empty => "empty",
        Keyword::External => "external",
        Keyword::Grammar => "grammar",
        Keyword::Include => "include",
        Keyword::Inherit => "inherit",
        Keyword::List => "list",
        Keyword::Mixed => "mixed",
        Keyword::Namespace => "namespace",
        Keyword::NotAllowed => "notAllowed",
        Keyword::Parent => "parent",
        Keyword::Start => "start",
        Keyword::String => "string",
        Keyword::Text => "text",
        Keyword::Token => "token",
    }
}

/// A keyword where it stands for a name.
pub(crate) fn keyword_name(alloc: Global, keyword: Keyword) -> Result<Text, AllocError>
    ensures { IfOk result (λ text. text ≡ keyword_text (keyword_of keyword)) }
{
    Ok(Text::from_string(String::from_str(alloc, spelling(keyword))?))
}
