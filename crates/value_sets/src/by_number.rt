// Sets by the numbers of choices.
ghost use Rattle.std.specs.Prelude.{◌≡◌, ◌<◌, false, cond, is_some, Some, IfNone, IfOk, IfSome, OnErr, OnOk};
ghost use Rattle.rng_model.specs.Derivatives.{text_step, where_true};
ghost use Rattle.rng_model.specs.Patterns.{empty};
ghost use Rattle.pattern_intern.specs.Gathered.{same_number};
ghost use Rattle.pattern_intern.specs.declared.id.PatternId.{PatternId as Id};
ghost use Rattle.pattern_intern.specs.Stored.{Stored, count, tree_at};
ghost use Rattle.value_sets.specs.Numbers.{AreSets, set_of};
ghost use Rattle.value_sets.specs.Taken.{is_whole, takes_of};

use crate::value_set::ValueSet;
use indexmap::IndexMap;
use pattern_intern::{PatternId, Pool};
use std::alloc::{AllocError, Global};
use text_atoms::Text;

/// What choices take, by their numbers, which is made once for each. It stays right as the pool grows.
#[derive(Drop)]
pub struct ValueSets {
    sets: IndexMap<PatternId, Option<ValueSet>>,
}

impl ValueSets {
    /// No set. It takes its memory from `alloc` as it grows.
    pub fn new(alloc: Global) -> ValueSets
        ensures { (s : Stored) → AreSets s result }
    {
        ValueSets {
            sets: IndexMap::new(alloc),
        }
    }

    /// Whether the choice of the number takes the text; none where a member has parts or is any text. Where memory is wanting, the sets are
    /// right too.
    pub fn takes(
        &mut self,
        pool: &Pool,
        text: &Text,
        id: PatternId,
    ) -> Result<Option<bool>, AllocError>
        requires inside { id.0 < count pool.now }
        requires sets { AreSets pool.now self.old }
        ensures taken { IfOk result (λ r. IfSome r (λ taken. text_step text.now (tree_at pool.now id.0) ≡ where_true taken empty)) }
        ensures none { IfOk result (λ r. IfNone r (is_whole (tree_at pool.now id.0) ≡ false)) }
        ensures sets { AreSets pool.now self.new }
    {
        if let Some(set) = self.sets.get(&id) {
            return asked(set, text);
        }
        let set = ValueSet::of(pool, id)?;
        let taken = asked(&set, text)?;
        self.keep(id, set)?;
        Ok(taken)
    }

    // Keeps the set of a number. Where memory is wanting, the sets stay as before.
    fn keep(&mut self, id: PatternId, set: Option<ValueSet>) -> Result<(), AllocError>
        ensures kept { OnOk result ((q : Id) → set_of self.new q ≡ cond (same_number id q) (Some set) (set_of self.old q)) }
        ensures unchanged { OnErr result (self.new.sets.entries ≡ self.old.sets.entries) }
    {
        self.sets.insert(id, set)?;
        Ok(())
    }
}

// Whether a set takes the text; none without one.
fn asked(set: &Option<ValueSet>, text: &Text) -> Result<Option<bool>, AllocError>
    ensures some { IfOk result (λ r. IfSome r (λ taken. IfSome set.now (λ x. taken ≡ takes_of x text.now))) }
    ensures same { IfOk result (λ r. is_some r ≡ is_some set.now) }
{
    match set {
        Some(set) => Ok(Some(set.takes(text)?)),
        None => Ok(None),
    }
}
