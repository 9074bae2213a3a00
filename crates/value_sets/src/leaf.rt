// Patterns without parts other than any text: each takes a whole text or none.
ghost use Rattle.std.specs.Prelude.{◌≡◌, ◌<◌, false, IfNone, IfSome};
ghost use Rattle.rng_model.specs.Derivatives.{text_step, where_true};
ghost use Rattle.rng_model.specs.Patterns as pattern;
ghost use Rattle.pattern_intern.specs.Stored.{count, tree_at};
ghost use Rattle.value_sets.specs.Taken.{is_leaf, test_takes};

use pattern_intern::{Node, PatternId, Pool};
use text_atoms::{Kind, Text};

/// Whether the text is taken, by a pattern without parts other than any text; none for others.
#[tactic(auto, unfolding(rng_model::specs::Derivatives::text_step))]
pub fn leaf_takes(pool: &Pool, text: &Text, id: PatternId) -> Option<bool>
    requires { id.0 < count pool.now }
    ensures taken { IfSome result (λ taken. text_step text.now (tree_at pool.now id.0) ≡ where_true taken pattern.empty) }
    ensures none { IfNone result (is_leaf (tree_at pool.now id.0) ≡ false) }
{
    match pool.node(id) {
        Node::Value(kind, literal) => {
            Some(kind.equal(text.as_str(), pool.literal(literal).as_str()))
        }
        Node::DataType(kind, None) => Some(kind.allows(text.as_str())),
        Node::NotAllowed | Node::Empty | Node::Ref(_) | Node::Attribute(_, _) => Some(false),
        Node::DataType(_, Some(_)) => None,
        _ => None,
    }
}

/// A value, or a datatype without an except.
#[derive(Drop)]
pub(crate) enum Test {
    Value(Kind, Text),
    DataType(Kind),
}

impl Test {
    /// Whether it takes the text.
    pub(crate) fn takes(&self, text: &Text) -> bool
        ensures { result ≡ test_takes text.now self.now }
    {
        match self {
            Test::Value(kind, literal) => kind.equal(text.as_str(), literal.as_str()),
            Test::DataType(kind) => kind.allows(text.as_str()),
        }
    }
}
