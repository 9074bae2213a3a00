// How the form of a node is made of the forms of the nodes that it leads to: section Simplification, from mixed element to empty element.
ghost use Rattle.std.specs.Prelude.{◌≡◌, ℕ, ◌<◌, [], length, IfOk};
ghost use Rattle.rng_model.specs.Constructors.{or_empty, one_or_more_of, interleave_of};
ghost use Rattle.rng_model.specs.Patterns as pattern;
ghost use Rattle.pattern_intern.specs.Schemas.{AreRefsBelow};
ghost use Rattle.pattern_intern.specs.Stored.{Extends, count, tree_at};
ghost use Rattle.schema_graph.specs.Shown.{IsMany};
ghost use Rattle.pattern_forms.specs.Making.{AreMade, AreWithin, IsInGraph, IsMaking, IsPath, IsReady, IsUnmade, first_of, form_at, made_of};
ghost use Rattle.pattern_forms.specs.Reaching.{definition_at};

use crate::joining::{Joint, chosen, form, nested};
use pattern_intern::{PatternId, Pool};
use schema_graph::{Graph, Node};
use std::alloc::{AllocError, Global};

/// Forms in the making: the pool, the form of each node that has one, and the nodes that were entered.
#[derive(Drop)]
pub(crate) struct Making {
    pub(crate) pool: Pool,
    pub(crate) forms: Vec<Option<PatternId>>,
    pub(crate) entered: Vec<bool>,
}

// No form for each of so many nodes.
fn no_forms(alloc: Global, count: usize) -> Result<Vec<Option<PatternId>>, AllocError>
    ensures each { IfOk result (λ r. length r.items ≡ count) }
    ensures none { IfOk result (λ r. IsUnmade r.items) }
{
    let mut forms = Vec::new(alloc);
    for _node in 0..count {
        forms.push(None)?;
    }
    Ok(forms)
}

impl Making {
    /// No form, and no node entered.
    pub(crate) fn new(alloc: Global, graph: &Graph) -> Result<Making, AllocError>
        ensures making { IfOk result (IsMaking graph.now) }
        ensures settled { IfOk result (λ m. IsPath graph.now m []) }
    {
        Ok(Making {
            pool: Pool::new(alloc)?,
            forms: no_forms(alloc, graph.nodes.len())?,
            entered: vec![in alloc; false; graph.nodes.len()]?,
        })
    }
}

// The pattern or empty.
fn optional(pool: &mut Pool, part: PatternId) -> Result<PatternId, AllocError>
    requires { part.0 < count pool.old }
    ensures within { IfOk result (λ id. id.0 < count pool.new) }
    ensures made { IfOk result (λ id. tree_at pool.new id.0 ≡ or_empty (tree_at pool.old part.0)) }
    ensures kept { Extends pool.old pool.new }
    ensures refs { (n : ℕ) → AreRefsBelow n pool.old → AreRefsBelow n pool.new }
{
    let empty = pool.empty();
    pool.choice(part, empty)
}

// The pattern once or more, or empty.
fn repeated(pool: &mut Pool, part: PatternId) -> Result<PatternId, AllocError>
    requires { part.0 < count pool.old }
    ensures within { IfOk result (λ id. id.0 < count pool.new) }
    ensures made { IfOk result (λ id. tree_at pool.new id.0 ≡ or_empty (one_or_more_of (tree_at pool.old part.0))) }
    ensures kept { Extends pool.old pool.new }
    ensures refs { (n : ℕ) → AreRefsBelow n pool.old → AreRefsBelow n pool.new }
{
    let some = pool.one_or_more(part)?;
    optional(pool, some)
}

// The pattern with text between.
fn mixed(pool: &mut Pool, part: PatternId) -> Result<PatternId, AllocError>
    requires { part.0 < count pool.old }
    ensures within { IfOk result (λ id. id.0 < count pool.new) }
    ensures made { IfOk result (λ id. tree_at pool.new id.0 ≡ interleave_of (tree_at pool.old part.0) pattern.text) }
    ensures kept { Extends pool.old pool.new }
    ensures refs { (n : ℕ) → AreRefsBelow n pool.old → AreRefsBelow n pool.new }
{
    let text = pool.any_text();
    pool.interleave(part, text)
}

// The form of a combined definition.
fn definition_form(
    pool: &Pool,
    forms: &[Option<PatternId>],
    graph: &Graph,
    definition: usize,
) -> PatternId
    requires definition { definition < length graph.now.definitions.items }
    requires within { AreWithin pool.now forms.now }
    requires made { AreMade forms.now (definition_at graph.now definition) }
    ensures within { result.0 < count pool.now }
    ensures tree { tree_at pool.now result.0 ≡ first_of (form_at pool.now forms.now) (definition_at graph.now definition) }
{
    form(pool, forms, graph.definitions[definition])
}

/// Makes the form of a node of those that it leads to.
pub(crate) fn make(
    pool: &mut Pool,
    forms: &[Option<PatternId>],
    graph: &Graph,
    node: &Node,
) -> Result<PatternId, AllocError>
    requires node { IsInGraph graph.now node.now }
    requires many { IsMany node.now }
    requires within { AreWithin pool.old forms.now }
    requires ready { IsReady graph.now forms.now node.now }
    ensures within { IfOk result (λ id. id.0 < count pool.new) }
    ensures made { IfOk result (λ id. tree_at pool.new id.0 ≡ made_of graph.now (form_at pool.old forms.now) node.now) }
    ensures kept { Extends pool.old pool.new }
    ensures refs { AreRefsBelow (length graph.now.elements.items) pool.old → AreRefsBelow (length graph.now.elements.items) pool.new }
{
    match node {
        Node::Element { number, .. } => pool.reference(*number),
        Node::Attribute { class, content } => {
            let part = form(pool, forms, *content);
            pool.attribute(class, part)
        }
        Node::Group(members) => nested(pool, forms, members.as_slice(), Joint::Group),
        Node::Choice(members) => chosen(pool, forms, members.as_slice()),
        Node::Interleave(members) => nested(pool, forms, members.as_slice(), Joint::Interleave),
        Node::Optional(part) => {
            let part = form(pool, forms, *part);
            optional(pool, part)
        }
        Node::ZeroOrMore(part) => {
            let part = form(pool, forms, *part);
            repeated(pool, part)
        }
        Node::OneOrMore(part) => {
            let part = form(pool, forms, *part);
            pool.one_or_more(part)
        }
        Node::Mixed(part) => {
            let part = form(pool, forms, *part);
            mixed(pool, part)
        }
        Node::Reference { definition, .. } | Node::Grammar { definition } => {
            Ok(definition_form(pool, forms, graph, *definition))
        }
        Node::Empty => Ok(pool.empty()),
        Node::AnyText => Ok(pool.any_text()),
        Node::NotAllowed => Ok(pool.not_allowed()),
        Node::Value { kind, literal } => pool.value(*kind, literal.as_str()),
        Node::DataType { kind, except: None } => pool.data_type(*kind, None),
        Node::DataType {
            kind,
            except: Some(part),
        } => {
            let part = form(pool, forms, *part);
            pool.data_type(*kind, Some(part))
        }
    }
}
