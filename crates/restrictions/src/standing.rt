// Where names stand in a pattern, from where they stand in its parts.
ghost use Rattle.std.specs.Prelude.{List};
ghost use Rattle.rng_model.specs.Kinds.{Kind};
ghost use Rattle.rng_model.specs.Names.{Name};
ghost use Rattle.rng_model.specs.Classes.{Class};
ghost use Rattle.rng_model.specs.Patterns.{Pattern, Schema, after, attribute, choice, data_except, group, interleave, one_or_more};
ghost use Rattle.restrictions.specs.NameSets.{IsSetOf};
ghost use Rattle.restrictions.specs.Shared.{IsStanding, named};
ghost use Rattle.restrictions.specs.Truths.{IsLeaf};
ghost use Rattle.restrictions.specs.declared.shared.Sought.{Sought};
ghost use Rattle.restrictions.specs.declared.shared.Sought.TheVariants.{Attributes, Elements};

use crate::name_set::NameSet;

/// Where the names of a list stand.
#[derive(Clone, Copy, Debug)]
pub(crate) struct Standing {
    /// The names inside the pattern.
    pub(crate) stands: NameSet,
    /// The names in both sides of a group or interleave inside the pattern.
    pub(crate) meets: NameSet,
}

impl Standing {
    /// Of a pattern without parts, from the names that it has.
    pub(crate) fn alone(own: NameSet) -> Standing
        ensures { (g : Schema) (k : Sought) (names : List Name) (p : Pattern) → IsLeaf p → IsSetOf names (λ n. named g k n p) own → IsStanding g k names p result }
    {
        Standing {
            stands: own,
            meets: NameSet::none(),
        }
    }

    /// Of a pattern with one part, from the names that it has itself and those of the part.
    pub(crate) fn around(self, own: NameSet) -> Standing
        ensures except { (g : Schema) (k : Sought) (names : List Name) (d : Kind) (p : Pattern) → IsStanding g k names p self → IsSetOf names (λ n. named g k n (data_except d p)) own → IsStanding g k names (data_except d p) result }
        ensures attribute { (g : Schema) (k : Sought) (names : List Name) (c : Class) (p : Pattern) → IsStanding g k names p self → IsSetOf names (λ n. named g k n (attribute c p)) own → IsStanding g k names (attribute c p) result }
        ensures one_or_more { (g : Schema) (k : Sought) (names : List Name) (p : Pattern) → IsStanding g k names p self → IsSetOf names (λ n. named g k n (one_or_more p)) own → IsStanding g k names (one_or_more p) result }
    {
        Standing {
            stands: own.union(self.stands),
            meets: self.meets,
        }
    }

    /// Of two patterns that may have the same names.
    pub(crate) fn beside(self, other: Standing) -> Standing
        ensures choice { (g : Schema) (k : Sought) (names : List Name) (p q : Pattern) → IsStanding g k names p self → IsStanding g k names q other → IsStanding g k names (choice p q) result }
        ensures after { (g : Schema) (k : Sought) (names : List Name) (p q : Pattern) → IsStanding g k names p self → IsStanding g k names q other → IsStanding g k names (after p q) result }
        ensures group { (g : Schema) (names : List Name) (p q : Pattern) → IsStanding g Elements names p self → IsStanding g Elements names q other → IsStanding g Elements names (group p q) result }
    {
        Standing {
            stands: self.stands.union(other.stands),
            meets: self.meets.union(other.meets),
        }
    }

    /// Of two patterns that may not have the same names.
    pub(crate) fn apart(self, other: Standing) -> Standing
        ensures group { (g : Schema) (names : List Name) (p q : Pattern) → IsStanding g Attributes names p self → IsStanding g Attributes names q other → IsStanding g Attributes names (group p q) result }
        ensures interleave { (g : Schema) (k : Sought) (names : List Name) (p q : Pattern) → IsStanding g k names p self → IsStanding g k names q other → IsStanding g k names (interleave p q) result }
    {
        let common = self.stands.common(other.stands);
        let deeper = self.meets.union(other.meets);
        Standing {
            stands: self.stands.union(other.stands),
            meets: common.union(deeper),
        }
    }
}
