// Keys taken into index sets, with what stands beside them.
ghost use Rattle.std.specs.Prelude.{◌≡◌, IfOk, OnErr};
ghost use Rattle.name_classes.specs.Views.{class_of};
ghost use Rattle.pattern_intern.specs.Interned.{IsAttributeTaken, IsInterned, IsTaken, IsValueTaken};

use crate::facts::Facts;
use crate::id::{ClassId, LiteralId, PatternId};
use crate::node::Node;
use indexmap::IndexSet;
use name_classes::NameClass;
use std::alloc::AllocError;
use text_atoms::{Kind, Text};

/// The number of the node, which is added with its facts unless it is there.
pub(crate) fn intern_node(
    nodes: &mut IndexSet<Node>,
    facts: &mut Vec<Facts>,
    node: Node,
    fact: Facts,
) -> Result<PatternId, AllocError>
    ensures made { IfOk result (λ id. IsInterned nodes.old.keys facts.old.items node fact id.0 nodes.new.keys facts.new.items) }
    ensures nodes_kept { OnErr result (nodes.new.keys ≡ nodes.old.keys) }
    ensures facts_kept { OnErr result (facts.new.items ≡ facts.old.items) }
{
    match nodes.insert_full(node)? {
        (id, false) => Ok(PatternId(id)),
        (id, true) => match facts.push(fact) {
            Ok(()) => Ok(PatternId(id)),
            Err(_) => {
                nodes.truncate(id);
                Err(AllocError)
            }
        },
    }
}

/// The number of the class, which is added unless it is there.
pub(crate) fn intern_class(
    classes: &mut IndexSet<NameClass>,
    class: NameClass,
) -> Result<usize, AllocError>
    ensures made { IfOk result (λ id. IsTaken class_of classes.old.keys class id classes.new.keys) }
    ensures kept { OnErr result (classes.new.keys ≡ classes.old.keys) }
{
    let (id, _) = classes.insert_full(class)?;
    Ok(id)
}

/// The number of the literal, which is added unless it is there.
pub(crate) fn intern_literal(
    literals: &mut IndexSet<Text>,
    literal: Text,
) -> Result<usize, AllocError>
    ensures made { IfOk result (λ id. IsTaken (λ t. t) literals.old.keys literal id literals.new.keys) }
    ensures kept { OnErr result (literals.new.keys ≡ literals.old.keys) }
{
    let (id, _) = literals.insert_full(literal)?;
    Ok(id)
}

/// The number of the attribute with a content and a class, which is added unless it is there. Where memory is wanting, all stays as before.
pub(crate) fn intern_attribute(
    classes: &mut IndexSet<NameClass>,
    nodes: &mut IndexSet<Node>,
    facts: &mut Vec<Facts>,
    class: NameClass,
    content: PatternId,
    fact: Facts,
) -> Result<PatternId, AllocError>
    ensures made { IfOk result (λ id. IsAttributeTaken classes.old.keys nodes.old.keys facts.old.items class content fact id.0 classes.new.keys nodes.new.keys facts.new.items) }
    ensures classes_kept { OnErr result (classes.new.keys ≡ classes.old.keys) }
    ensures nodes_kept { OnErr result (nodes.new.keys ≡ nodes.old.keys) }
    ensures facts_kept { OnErr result (facts.new.items ≡ facts.old.items) }
{
    let before = classes.len();
    let number = intern_class(classes, class)?;
    match intern_node(
        nodes,
        facts,
        Node::Attribute(ClassId(number), content),
        fact,
    ) {
        Ok(id) => Ok(id),
        Err(error) => {
            classes.truncate(before);
            Err(error)
        }
    }
}

/// The number of the value of a kind and a literal, which is added unless it is there. Where memory is wanting, all stays as before.
pub(crate) fn intern_value(
    literals: &mut IndexSet<Text>,
    nodes: &mut IndexSet<Node>,
    facts: &mut Vec<Facts>,
    kind: Kind,
    literal: Text,
    fact: Facts,
) -> Result<PatternId, AllocError>
    ensures made { IfOk result (λ id. IsValueTaken literals.old.keys nodes.old.keys facts.old.items kind literal fact id.0 literals.new.keys nodes.new.keys facts.new.items) }
    ensures literals_kept { OnErr result (literals.new.keys ≡ literals.old.keys) }
    ensures nodes_kept { OnErr result (nodes.new.keys ≡ nodes.old.keys) }
    ensures facts_kept { OnErr result (facts.new.items ≡ facts.old.items) }
{
    let before = literals.len();
    let number = intern_literal(literals, literal)?;
    match intern_node(nodes, facts, Node::Value(kind, LiteralId(number)), fact) {
        Ok(id) => Ok(id),
        Err(error) => {
            literals.truncate(before);
            Err(error)
        }
    }
}
