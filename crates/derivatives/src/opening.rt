// What may follow the opening of an element.
ghost use Rattle.std.specs.Prelude.{◌≡◌, ◌↔◌, ◌<◌, [], false, All, IfOk, IsSome, OnOk, map};
ghost use Rattle.rng_model.specs.Constructors.{choice_of};
ghost use Rattle.rng_model.specs.Derivatives.{opening};
ghost use Rattle.rng_model.specs.Names as names;
ghost use Rattle.rng_model.specs.Patterns.{not_allowed};
ghost use Rattle.table_laws.specs.Heads.{choices_of};
ghost use Rattle.table_laws.specs.Remainders.{entered_at, remainders};
ghost use Rattle.pattern_intern.specs.Stored.{Extends, count, tree_at};
ghost use Rattle.derivatives.specs.OneNames.{Tell};
ghost use Rattle.derivatives.specs.Remainders.{AreSets, IsWithin, remainder_of, remainders_of, set_of};

use crate::gathering::make_set;
use crate::one_names::OneNames;
use crate::remainder::Remainder;
use crate::remainder_sets::RemainderSets;
use name_classes::Name;
use pattern_intern::{PatternId, Schema};
use std::alloc::AllocError;
use table_laws::opening_rows_of_heads;

/// What may follow the opening of an element of this name, which stands at the position in the universe. The pattern's remainders are
/// kept for all names.
#[tactic(auto, using(crate::proofs::OneNames::tell_later))]
pub(crate) fn opening(
    schema: &mut Schema,
    sets: &mut RemainderSets,
    known: &OneNames,
    name: &Name,
    position: usize,
    id: PatternId,
) -> Result<PatternId, AllocError>
    requires inside { id.0 < count schema.old.pool }
    requires sets { AreSets schema.old sets.old }
    requires tell { Tell schema.old name.now position known.now }
    ensures within { IfOk result (λ r. r.0 < count schema.new.pool) }
    ensures made { IfOk result (λ r. tree_at schema.new.pool r.0 ≡ opening schema.old.schema name.now (tree_at schema.old.pool id.0)) }
    ensures kept { Extends schema.old.pool schema.new.pool }
    ensures sets { AreSets schema.new sets.new }
    ensures schema { schema.new.schema ≡ schema.old.schema }
{
    opening_rows_of_heads();
    find_set(schema, sets, id)?;
    entered(schema, known, name, position, sets.get(id))
}

/// Whether some element may be opened, of whatever name.
pub(crate) fn opens(
    schema: &mut Schema,
    sets: &mut RemainderSets,
    id: PatternId,
) -> Result<bool, AllocError>
    requires inside { id.0 < count schema.old.pool }
    requires sets { AreSets schema.old sets.old }
    ensures opens { IfOk result (λ b. (b ≡ false) ↔ (remainders (tree_at schema.old.pool id.0) ≡ [])) }
    ensures nowhere { IfOk result (λ b. b ≡ false → (name : names.Name) → opening schema.old.schema name (tree_at schema.old.pool id.0) ≡ not_allowed) }
    ensures kept { Extends schema.old.pool schema.new.pool }
    ensures sets { AreSets schema.new sets.new }
    ensures schema { schema.new.schema ≡ schema.old.schema }
{
    opening_rows_of_heads();
    find_set(schema, sets, id)?;
    Ok(!sets.get(id).is_empty())
}

// Makes the set of a number, where it isn't kept. All sets are forgotten before, where too many are kept.
fn find_set(schema: &mut Schema, sets: &mut RemainderSets, id: PatternId) -> Result<(), AllocError>
    requires inside { id.0 < count schema.old.pool }
    requires sets { AreSets schema.old sets.old }
    ensures made { OnOk result (IsSome (set_of sets.new id)) }
    ensures kept { Extends schema.old.pool schema.new.pool }
    ensures sets { AreSets schema.new sets.new }
    ensures schema { schema.new.schema ≡ schema.old.schema }
{
    if sets.has(id) {
        return Ok(());
    }
    let is_empty = sets.make_room();
    make_set(schema, sets, id)?;
    if is_empty {
        sets.widen();
    }
    Ok(())
}

// The choice of what is entered by a name, joined from the last remainder on.
#[tactic(auto, using(crate::proofs::OneNames::tell_later))]
fn entered(
    schema: &mut Schema,
    known: &OneNames,
    name: &Name,
    position: usize,
    remainders: &[Remainder],
) -> Result<PatternId, AllocError>
    requires within { All (IsWithin schema.old) remainders.now }
    requires tell { Tell schema.old name.now position known.now }
    ensures within { IfOk result (λ r. r.0 < count schema.new.pool) }
    ensures made { IfOk result (λ r. tree_at schema.new.pool r.0 ≡ choices_of (map (entered_at schema.old.schema name.now) (remainders_of schema.old.pool remainders.now))) }
    ensures kept { Extends schema.old.pool schema.new.pool }
    ensures schema { schema.new.schema ≡ schema.old.schema }
{
    let mut made = schema.pool().not_allowed();
    let mut next = remainders.len();
    while next > 0 {
        next -= 1;
        made = entered_before(schema, known, name, position, remainders[next], made)?;
    }
    Ok(made)
}

// What is entered by a name, or else the others: the content of the definition and then the rest, where the name is in its class.
fn entered_before(
    schema: &mut Schema,
    known: &OneNames,
    name: &Name,
    position: usize,
    remainder: Remainder,
    others: PatternId,
) -> Result<PatternId, AllocError>
    requires tell { Tell schema.old name.now position known.now }
    requires remainder { IsWithin schema.old remainder }
    requires others { others.0 < count schema.old.pool }
    ensures within { IfOk result (λ r. r.0 < count schema.new.pool) }
    ensures made { IfOk result (λ r. tree_at schema.new.pool r.0 ≡ choice_of (entered_at schema.old.schema name.now (remainder_of schema.old.pool remainder)) (tree_at schema.old.pool others.0)) }
    ensures kept { Extends schema.old.pool schema.new.pool }
    ensures schema { schema.new.schema ≡ schema.old.schema }
{
    schema.holds();
    if known.has(schema, remainder.definition, name, position) {
        let content = schema.element_content(remainder.definition);
        let opened = schema.after(content, remainder.rest)?;
        schema.choice(opened, others)
    } else {
        Ok(others)
    }
}
