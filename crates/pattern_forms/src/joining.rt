// How the members of a group, a choice or an interleave are joined.
ghost use Rattle.std.specs.Prelude.{◌≡◌, ◌≢◌, ℕ, ◌<◌, [], map, IfOk};
ghost use Rattle.simple_form_laws.specs.Meaning.{Choice, connect};
ghost use Rattle.pattern_intern.specs.Members.{AreIn, trees_at};
ghost use Rattle.pattern_intern.specs.Schemas.{AreRefsBelow};
ghost use Rattle.pattern_intern.specs.Stored.{Extends, count, tree_at};
ghost use Rattle.pattern_forms.specs.Making.{AreMade, AreWithin, all_joined, connective_of, form_at};
ghost use Rattle.pattern_forms.specs.Outcomes.{IsMade};

use pattern_intern::{PatternId, Pool};
use std::alloc::AllocError;

/// What joins members one after the other.
#[derive(Clone, Copy)]
pub(crate) enum Joint {
    Group,
    Interleave,
}

/// The form of a node.
pub(crate) fn form(pool: &Pool, forms: &[Option<PatternId>], node: usize) -> PatternId
    requires within { AreWithin pool.now forms.now }
    requires made { IsMade forms.now node }
    ensures within { result.0 < count pool.now }
    ensures tree { tree_at pool.now result.0 ≡ form_at pool.now forms.now node }
{
    match forms[node] {
        Some(id) => id,
        None => unreachable!(),
    }
}

// Two members joined.
fn join(pool: &mut Pool, a: PatternId, b: PatternId, joint: Joint) -> Result<PatternId, AllocError>
    requires left { a.0 < count pool.old }
    requires right { b.0 < count pool.old }
    ensures within { IfOk result (λ id. id.0 < count pool.new) }
    ensures made { IfOk result (λ id. tree_at pool.new id.0 ≡ connect (connective_of joint) (tree_at pool.old a.0) (tree_at pool.old b.0)) }
    ensures kept { Extends pool.old pool.new }
    ensures refs { (n : ℕ) → AreRefsBelow n pool.old → AreRefsBelow n pool.new }
{
    match joint {
        Joint::Group => pool.group(a, b),
        Joint::Interleave => pool.interleave(a, b),
    }
}

/// The forms of members, nested to the left.
pub(crate) fn nested(
    pool: &mut Pool,
    forms: &[Option<PatternId>],
    members: &[usize],
    joint: Joint,
) -> Result<PatternId, AllocError>
    requires within { AreWithin pool.old forms.now }
    requires made { AreMade forms.now members.now }
    requires many { members.now ≢ [] }
    ensures within { IfOk result (λ id. id.0 < count pool.new) }
    ensures made { IfOk result (λ id. tree_at pool.new id.0 ≡ all_joined (connective_of joint) (map (form_at pool.old forms.now) members.now)) }
    ensures kept { Extends pool.old pool.new }
    ensures refs { (n : ℕ) → AreRefsBelow n pool.old → AreRefsBelow n pool.new }
{
    let mut made = form(pool, forms, members[0]);
    for k in 1..members.len() {
        let next = form(pool, forms, members[k]);
        made = join(pool, made, next, joint)?;
    }
    Ok(made)
}

// The forms of members.
fn forms_of(
    pool: &Pool,
    forms: &[Option<PatternId>],
    members: &[usize],
) -> Result<Vec<PatternId>, AllocError>
    requires within { AreWithin pool.now forms.now }
    requires made { AreMade forms.now members.now }
    ensures within { IfOk result (λ r. AreIn pool.now r.items) }
    ensures trees { IfOk result (λ r. trees_at pool.now r.items ≡ map (form_at pool.now forms.now) members.now) }
{
    let mut parts = Vec::new(pool.allocator());
    for k in 0..members.len() {
        parts.push(form(pool, forms, members[k]))?;
    }
    Ok(parts)
}

/// The choice of the forms of members, which is made at once.
pub(crate) fn chosen(
    pool: &mut Pool,
    forms: &[Option<PatternId>],
    members: &[usize],
) -> Result<PatternId, AllocError>
    requires within { AreWithin pool.old forms.now }
    requires made { AreMade forms.now members.now }
    ensures within { IfOk result (λ id. id.0 < count pool.new) }
    ensures made { IfOk result (λ id. tree_at pool.new id.0 ≡ all_joined Choice (map (form_at pool.old forms.now) members.now)) }
    ensures kept { Extends pool.old pool.new }
    ensures refs { (n : ℕ) → AreRefsBelow n pool.old → AreRefsBelow n pool.new }
{
    let parts = forms_of(pool, forms, members)?;
    pool.choice_of_all(parts.as_slice())
}
