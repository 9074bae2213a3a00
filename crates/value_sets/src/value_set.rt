// What a choice of values and datatypes takes.
ghost use Rattle.std.specs.Prelude.{◌≡◌, ◌<◌, true, false, IfNone, IfOk, IfSome, OnOk};
ghost use Rattle.std.specs.List.{list_any};
ghost use Rattle.rng_model.specs.Kinds.{Str, Token, equal};
ghost use Rattle.rng_model.specs.Texts.{Text as TextValue, normal};
ghost use Rattle.text_atoms.specs.Kinds.{kind_of};
ghost use Rattle.pattern_intern.specs.Stored.{count, tree_at};
ghost use Rattle.value_sets.specs.Taken.{Adds, Takes, has, is_leaf, is_whole, leaf_takes, takes_of, test_takes};

use crate::leaf::Test;
use crate::text_set::TextSet;
use pattern_intern::{Node, PatternId, Pool};
use std::alloc::{AllocError, Global};
use text_atoms::{Kind, Text, normal};

/// The texts that a choice takes: the literals of strings by their bytes, those of tokens by their normal forms, and tests of the rest.
#[derive(Drop)]
pub(crate) struct ValueSet {
    alloc: Global,
    strings: TextSet,
    tokens: TextSet,
    others: Vec<Test>,
}

impl ValueSet {
    /// No text.
    fn new(alloc: Global) -> ValueSet
        ensures { (s : TextValue) → takes_of result s ≡ false }
    {
        ValueSet {
            alloc,
            strings: TextSet::new(alloc),
            tokens: TextSet::new(alloc),
            others: Vec::new(alloc),
        }
    }

    /// The texts that the choice of a number takes; none where a member has parts or is any text.
    pub(crate) fn of(pool: &Pool, id: PatternId) -> Result<Option<ValueSet>, AllocError>
        requires { id.0 < count pool.now }
        ensures takes { IfOk result (λ r. IfSome r (λ set. Takes set (tree_at pool.now id.0))) }
        ensures none { IfOk result (λ r. IfNone r (is_whole (tree_at pool.now id.0) ≡ false)) }
    {
        let mut set = ValueSet::new(pool.allocator());
        let mut rest = id;
        while let Node::Choice(member, others) = pool.node(rest) {
            if !set.add(pool, member)? {
                return Ok(None);
            }
            rest = others;
        }
        if set.add(pool, rest)? {
            Ok(Some(set))
        } else {
            Ok(None)
        }
    }

    /// Whether the text is taken.
    pub(crate) fn takes(&self, text: &Text) -> Result<bool, AllocError>
        ensures { IfOk result (λ taken. taken ≡ takes_of self.now text.now) }
    {
        if self.strings.has(text) || self.tests(text) {
            return Ok(true);
        }
        self.has_token(text)
    }

    // Whether the text is a token's, by its normal form.
    fn has_token(&self, text: &Text) -> Result<bool, AllocError>
        ensures { IfOk result (λ taken. taken ≡ has self.now.tokens (normal text.now)) }
    {
        if self.tokens.is_empty() {
            return Ok(false);
        }
        let form = normal(self.alloc, text.as_str())?;
        Ok(self.tokens.has(&form))
    }

    // Whether one of the tests takes the text.
    fn tests(&self, text: &Text) -> bool
        ensures { result ≡ list_any (test_takes text.now) self.now.others.items }
    {
        self.others.iter().any(|test| test.takes(text))
    }

    // Adds what a member takes, unless it has parts or is any text.
    #[tactic(auto, using(crate::proofs::Joining::adds_nothing))]
    fn add(&mut self, pool: &Pool, member: PatternId) -> Result<bool, AllocError>
        requires { member.0 < count pool.now }
        ensures leaf { IfOk result (λ added. added ≡ is_leaf (tree_at pool.now member.0)) }
        ensures adds { IfOk result (λ added. added ≡ true → Adds self.old (λ s. leaf_takes s (tree_at pool.now member.0)) self.new) }
    {
        match pool.node(member) {
            Node::Value(kind, literal) => {
                self.add_value(kind, pool.literal(literal))?;
                Ok(true)
            }
            Node::DataType(kind, None) => {
                self.add_test(Test::DataType(kind))?;
                Ok(true)
            }
            Node::NotAllowed | Node::Empty | Node::Ref(_) | Node::Attribute(_, _) => Ok(true),
            Node::DataType(_, Some(_)) => Ok(false),
            _ => Ok(false),
        }
    }

    // Adds the texts that are equal to the literal in the kind.
    fn add_value(&mut self, kind: Kind, literal: &Text) -> Result<(), AllocError>
        ensures { OnOk result (Adds self.old (λ s. equal (kind_of kind) s literal.now) self.new) }
    {
        match kind {
            Kind::Str => self.add_string(literal),
            Kind::Token => self.add_token(literal),
            _ => {
                let literal = literal.copy(self.alloc)?;
                self.add_test(Test::Value(kind, literal))
            }
        }
    }

    // Adds the text of these bytes.
    #[tactic(auto, using(crate::proofs::Joining::string_added))]
    fn add_string(&mut self, literal: &Text) -> Result<(), AllocError>
        ensures { OnOk result (Adds self.old (λ s. equal Str s literal.now) self.new) }
    {
        let literal = literal.copy(self.alloc)?;
        self.strings.add(literal)?;
        Ok(())
    }

    // Adds the texts of this normal form.
    #[tactic(auto, using(crate::proofs::Joining::token_added))]
    fn add_token(&mut self, literal: &Text) -> Result<(), AllocError>
        ensures { OnOk result (Adds self.old (λ s. equal Token s literal.now) self.new) }
    {
        let form = normal(self.alloc, literal.as_str())?;
        self.tokens.add(form)?;
        Ok(())
    }

    // Adds the texts that the test takes.
    #[tactic(auto, using(crate::proofs::Joining::test_added))]
    fn add_test(&mut self, test: Test) -> Result<(), AllocError>
        ensures { OnOk result (Adds self.old (λ s. test_takes s test) self.new) }
    {
        self.others.push(test)?;
        Ok(())
    }
}
