// How trees are written to compare them: each part with its place behind it and its parts in parentheses.
use schema_tree::{
    Body, Class, Declaration, Item, Method, Parameter, Parts, Passed, Pattern, TypeName, Uri,
};
use sqlite_items::Boxed;
use std::alloc::{AllocError, Global};

/// Adds a word, and a place behind it.
fn add_at(alloc: Global, to: &mut String, word: &str, at: usize) -> Result<(), AllocError> {
    let text = format!(in alloc; "{word}@{at}")?;
    to.push_str(text.as_str())
}

/// Adds two words with a colon between, and a place behind them.
fn add_name(
    alloc: Global,
    to: &mut String,
    prefix: &str,
    local: &str,
    at: usize,
) -> Result<(), AllocError> {
    to.push_str(prefix)?;
    to.push(':')?;
    add_at(alloc, to, local, at)
}

/// Adds a literal in quotes.
fn add_literal(to: &mut String, literal: &str) -> Result<(), AllocError> {
    to.push('"')?;
    to.push_str(literal)?;
    to.push('"')
}

fn add_uri(alloc: Global, to: &mut String, uri: &Uri) -> Result<(), AllocError> {
    match uri {
        Uri::Literal(literal) => add_literal(to, literal.as_str()),
        Uri::Inherit { at } => add_at(alloc, to, "inherit", *at),
    }
}

fn add_declaration(
    alloc: Global,
    to: &mut String,
    declaration: &Declaration,
) -> Result<(), AllocError> {
    match declaration {
        Declaration::Namespace { prefix, uri, at } => {
            add_name(alloc, to, "namespace", prefix.as_str(), *at)?;
            add_uri(alloc, to, uri)
        }
        Declaration::DefaultNamespace { prefix, uri, at } => {
            let prefix = match prefix {
                Some(prefix) => prefix.as_str(),
                None => "",
            };
            add_name(alloc, to, "default", prefix, *at)?;
            add_uri(alloc, to, uri)
        }
        Declaration::Datatypes {
            prefix,
            literal,
            at,
        } => {
            add_name(alloc, to, "datatypes", prefix.as_str(), *at)?;
            add_literal(to, literal.as_str())
        }
    }
}

pub fn add_declarations(
    alloc: Global,
    to: &mut String,
    declarations: &[Declaration],
) -> Result<(), AllocError> {
    for declaration in declarations {
        add_declaration(alloc, to, declaration)?;
        to.push(' ')?;
    }
    Ok(())
}

#[cycle(class)]
pub fn add_class(alloc: Global, to: &mut String, class: &Class) -> Result<(), AllocError> {
    match class {
        Class::Plain { local, at } => add_at(alloc, to, local.as_str(), *at),
        Class::Prefixed { prefix, local, at } => {
            add_name(alloc, to, prefix.as_str(), local.as_str(), *at)
        }
        Class::Any { except, at } => {
            add_at(alloc, to, "*", *at)?;
            add_except(alloc, to, except)
        }
        Class::Namespace { prefix, except, at } => {
            add_name(alloc, to, prefix.as_str(), "*", *at)?;
            add_except(alloc, to, except)
        }
        Class::Choice(members) => add_classes(alloc, to, members.as_slice()),
    }
}

/// Adds classes, a bar before each.
#[cycle(class)]
fn add_classes(alloc: Global, to: &mut String, members: &[Class]) -> Result<(), AllocError> {
    for member in members {
        to.push('|')?;
        add_class(alloc, to, member)?;
    }
    Ok(())
}

/// Adds what is excepted, if anything is.
#[cycle(class)]
fn add_except(
    alloc: Global,
    to: &mut String,
    except: &Option<Boxed<Class>>,
) -> Result<(), AllocError> {
    let Some(except) = except else {
        return Ok(());
    };
    to.push_str(" - (")?;
    add_class(alloc, to, except.get())?;
    to.push(')')
}

fn add_type(alloc: Global, to: &mut String, of: &TypeName) -> Result<(), AllocError> {
    match of {
        TypeName::BuiltString { at } => add_at(alloc, to, "string", *at),
        TypeName::BuiltToken { at } => add_at(alloc, to, "token", *at),
        TypeName::Prefixed { prefix, local, at } => {
            add_name(alloc, to, prefix.as_str(), local.as_str(), *at)
        }
    }
}

fn add_parameters(
    alloc: Global,
    to: &mut String,
    parameters: &[Parameter],
) -> Result<(), AllocError> {
    for parameter in parameters {
        to.push(' ')?;
        add_at(alloc, to, parameter.name.as_str(), parameter.at)?;
        add_literal(to, parameter.literal.as_str())?;
    }
    Ok(())
}

/// Adds a reference to a file, and the namespace that is handed over.
fn add_file(
    alloc: Global,
    to: &mut String,
    literal: &str,
    passed: &Option<Passed>,
) -> Result<(), AllocError> {
    add_literal(to, literal)?;
    match passed {
        Some(passed) => add_name(alloc, to, "inherit", passed.prefix.as_str(), passed.at),
        None => Ok(()),
    }
}

/// Adds a pattern in parentheses behind a word.
#[cycle(tree)]
fn add_content(
    alloc: Global,
    to: &mut String,
    word: &str,
    content: &Pattern,
) -> Result<(), AllocError> {
    to.push_str(word)?;
    to.push('(')?;
    add_pattern(alloc, to, content)?;
    to.push(')')
}

/// Adds patterns in parentheses behind a word.
#[cycle(tree)]
fn add_members(
    alloc: Global,
    to: &mut String,
    word: &str,
    members: &[Pattern],
) -> Result<(), AllocError> {
    to.push_str(word)?;
    to.push('(')?;
    for member in members {
        add_pattern(alloc, to, member)?;
        to.push(' ')?;
    }
    to.push(')')
}

#[cycle(tree)]
pub fn add_pattern(alloc: Global, to: &mut String, pattern: &Pattern) -> Result<(), AllocError> {
    match pattern {
        Pattern::Element { class, content, at } => {
            add_at(alloc, to, "element", *at)?;
            to.push(' ')?;
            add_class(alloc, to, class)?;
            add_content(alloc, to, "", content.get())
        }
        Pattern::Attribute { class, content, at } => {
            add_at(alloc, to, "attribute", *at)?;
            to.push(' ')?;
            add_class(alloc, to, class)?;
            add_content(alloc, to, "", content.get())
        }
        Pattern::Group(members) => add_members(alloc, to, "group", members.as_slice()),
        Pattern::Choice(members) => add_members(alloc, to, "choice", members.as_slice()),
        Pattern::Interleave(members) => add_members(alloc, to, "interleave", members.as_slice()),
        Pattern::Optional(content) => add_content(alloc, to, "optional", content.get()),
        Pattern::ZeroOrMore(content) => add_content(alloc, to, "zeroOrMore", content.get()),
        Pattern::OneOrMore(content) => add_content(alloc, to, "oneOrMore", content.get()),
        Pattern::List { content, at } => {
            add_at(alloc, to, "list", *at)?;
            add_content(alloc, to, "", content.get())
        }
        Pattern::Mixed(content) => add_content(alloc, to, "mixed", content.get()),
        Pattern::Ref { name, at } => add_name(alloc, to, "ref", name.as_str(), *at),
        Pattern::Parent { name, at } => add_name(alloc, to, "parent", name.as_str(), *at),
        Pattern::Empty => to.push_str("empty"),
        Pattern::AnyText => to.push_str("text"),
        Pattern::NotAllowed => to.push_str("notAllowed"),
        Pattern::Value { of, literal } => {
            if let Some(of) = of {
                add_type(alloc, to, of)?;
            }
            add_literal(to, literal.as_str())
        }
        Pattern::DataType {
            of,
            parameters,
            except,
        } => {
            add_type(alloc, to, of)?;
            add_parameters(alloc, to, parameters.as_slice())?;
            match except {
                Some(except) => add_content(alloc, to, " - ", except.get()),
                None => Ok(()),
            }
        }
        Pattern::External {
            literal,
            passed,
            at,
        } => {
            add_at(alloc, to, "external", *at)?;
            add_file(alloc, to, literal.as_str(), passed)
        }
        Pattern::Grammar(items) => {
            to.push_str("grammar")?;
            add_items(alloc, to, items.as_slice())
        }
    }
}

fn method(method: Method) -> &'static str {
    match method {
        Method::Plain => " =",
        Method::Choice => " |=",
        Method::Interleave => " &=",
    }
}

/// Adds items in braces.
#[cycle(tree)]
pub fn add_items(alloc: Global, to: &mut String, items: &[Item]) -> Result<(), AllocError> {
    to.push('{')?;
    for item in items {
        add_item(alloc, to, item)?;
        to.push(' ')?;
    }
    to.push('}')
}

#[cycle(tree)]
fn add_item(alloc: Global, to: &mut String, item: &Item) -> Result<(), AllocError> {
    match item {
        Item::Start {
            method: how,
            pattern,
            at,
        } => {
            add_at(alloc, to, "start", *at)?;
            add_content(alloc, to, method(*how), pattern)
        }
        Item::Define {
            name,
            method: how,
            pattern,
            at,
        } => {
            add_at(alloc, to, name.as_str(), *at)?;
            add_content(alloc, to, method(*how), pattern)
        }
        Item::Div(inner) => {
            to.push_str("div")?;
            add_items(alloc, to, inner.as_slice())
        }
        Item::Include {
            literal,
            passed,
            inner,
            at,
        } => {
            add_at(alloc, to, "include", *at)?;
            add_file(alloc, to, literal.as_str(), passed)?;
            add_items(alloc, to, inner.as_slice())
        }
    }
}

/// Adds the declarations and the body of a file.
pub fn add_parts(alloc: Global, to: &mut String, parts: &Parts) -> Result<(), AllocError> {
    add_declarations(alloc, to, parts.declarations.as_slice())?;
    match &parts.body {
        Body::Pattern(pattern) => add_pattern(alloc, to, pattern),
        Body::Items(items) => add_items(alloc, to, items.as_slice()),
    }
}
