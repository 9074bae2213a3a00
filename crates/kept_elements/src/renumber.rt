// Patterns made again with the kept elements' new numbers.
ghost use Rattle.std.specs.Prelude.{◌≡◌, ℕ, ◌<◌, Some, length, slice_get, IfOk, Contains};
ghost use Rattle.std.specs.Ordering.{nat_cmp};
ghost use Rattle.std.specs.List.Sorted.{IsStrictlySortedBy};
ghost use Rattle.simple_form_laws.specs.Forms.{RefsIn};
ghost use Rattle.pattern_intern.specs.Schemas.{AreRefsBelow};
ghost use Rattle.pattern_intern.specs.Stored.{Extends, count, tree_at};
ghost use Rattle.kept_elements.specs.Marking.{IsMarked};
ghost use Rattle.kept_elements.specs.Numbering.{AreMade};
ghost use Rattle.kept_elements.specs.Renumbering.{AreRemade, IsClosedUnder, IsListed, IsRemade};
ghost use Rattle.kept_elements.specs.Wanted.{IsPartOf, IsWhole};

use crate::kept::place;
use pattern_intern::{Node, PatternId, Pool};
use std::alloc::{AllocError, Global};

/// Patterns made again, and by its number in the old pool the new number of each that is wanted.
#[derive(Drop)]
pub(crate) struct Remade {
    pub(crate) pool: Pool,
    pub(crate) made: Vec<PatternId>,
}

/// The new number of a pattern that stands in the table.
pub(crate) fn made_at(made: &[PatternId], id: PatternId) -> PatternId
    requires { id.0 < length made.now }
    ensures { slice_get made.now id.0 ≡ Some result }
{
    made[id.0]
}

// Makes a pattern again of its parts, which are made already.
fn remake(
    pool: &mut Pool,
    kept: &[usize],
    old: &Pool,
    made: &[PatternId],
    id: PatternId,
) -> Result<PatternId, AllocError>
    requires within { id.0 < count old.now }
    requires whole { IsWhole (tree_at old.now id.0) }
    requires ascending { IsStrictlySortedBy nat_cmp kept.now }
    requires refs { RefsIn (Contains kept.now) (tree_at old.now id.0) }
    requires parts { (i : ℕ) → i < id.0 → IsPartOf (tree_at old.now i) (tree_at old.now id.0) → IsListed old.now pool.old kept.now made.now i }
    ensures made { IfOk result (IsRemade old.now pool.new kept.now id.0) }
    ensures kept { Extends pool.old pool.new }
    ensures refs { AreRefsBelow (length kept.now) pool.old → AreRefsBelow (length kept.now) pool.new }
{
    match old.node(id) {
        Node::NotAllowed => Ok(pool.not_allowed()),
        Node::Empty => Ok(pool.empty()),
        Node::AnyText => Ok(pool.any_text()),
        Node::Ref(number) => Ok(pool.reference(place(kept, number))?),
        Node::Value(kind, literal) => Ok(pool.value(kind, old.literal(literal).as_str())?),
        Node::DataType(kind, None) => Ok(pool.data_type(kind, None)?),
        Node::DataType(kind, Some(except)) => {
            Ok(pool.data_type(kind, Some(made_at(made, except)))?)
        }
        Node::Attribute(class, content) => {
            Ok(pool.attribute(old.class(class), made_at(made, content))?)
        }
        Node::OneOrMore(part) => Ok(pool.one_or_more(made_at(made, part))?),
        Node::Choice(left, right) => { Ok(pool.choice(made_at(made, left), made_at(made, right))?) }
        Node::Group(left, right) => Ok(pool.group(made_at(made, left), made_at(made, right))?),
        Node::Interleave(left, right) => {
            Ok(pool.interleave(made_at(made, left), made_at(made, right))?)
        }
        Node::After(_, _) => unreachable!(),
    }
}

// Makes a pattern again if it is marked.
fn remake_marked(
    pool: &mut Pool,
    kept: &[usize],
    old: &Pool,
    marks: &[bool],
    made: &[PatternId],
    id: usize,
) -> Result<PatternId, AllocError>
    requires closed { IsClosedUnder old.now marks.now kept.now }
    requires ascending { IsStrictlySortedBy nat_cmp kept.now }
    requires within { id < length marks.now }
    requires made { AreMade old.now pool.old kept.now marks.now id made.now }
    ensures made { IfOk result (λ r. IsMarked marks.now id → IsRemade old.now pool.new kept.now id r) }
    ensures kept { Extends pool.old pool.new }
    ensures refs { AreRefsBelow (length kept.now) pool.old → AreRefsBelow (length kept.now) pool.new }
{
    if marks[id] {
        remake(pool, kept, old, made, PatternId(id))
    } else {
        Ok(pool.not_allowed())
    }
}

/// Makes the marked patterns again, parts first, with new numbers in their references. Those that aren't marked stand as notAllowed
/// in the table.
pub(crate) fn remake_all(
    alloc: Global,
    old: &Pool,
    marks: &[bool],
    kept: &[usize],
) -> Result<Remade, AllocError>
    requires closed { IsClosedUnder old.now marks.now kept.now }
    requires ascending { IsStrictlySortedBy nat_cmp kept.now }
    ensures { IfOk result (λ r. AreRemade old.now r.pool kept.now marks.now r.made.items) }
{
    let mut pool = Pool::new(alloc)?;
    let mut made = Vec::new(alloc);
    for id in 0..marks.len() {
        let new = remake_marked(&mut pool, kept, old, marks, &made, id)?;
        made.push(new)?;
    }
    Ok(Remade { pool, made })
}
