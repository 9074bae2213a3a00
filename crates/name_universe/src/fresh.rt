// Fresh names and the fresh namespace.
ghost use Rattle.std.specs.Prelude.{◌≡◌, ◌≤◌, Contains, IfOk, OnOk, codes};
ghost use Rattle.rng_model.specs.Fresh.{numbered, IsFirstFree, IsAmongFree};
ghost use Rattle.name_universe.specs.Sets.{IsTakenIn, Puts, origin_in};

use crate::origin::Origin;
use name_classes::{Name, NotNcName};
use std::alloc::{AllocError, Global};
use std::collections::{BTreeMap, BTreeSet};
use text_atoms::Text;

// `x`, or `x` and the number.
fn numbered_local(alloc: Global, number: usize) -> Result<Text, AllocError>
    ensures { IfOk result (λ t. t ≡ numbered (codes "x") number) }
{
    let string = if number == 0 {
        String::from_str(alloc, "x")?
    } else {
        format!(in alloc; "x{number}")?
    };
    Ok(Text::from_string(string))
}

// `urn:x`, or `urn:x` and the number.
fn numbered_space(alloc: Global, number: usize) -> Result<Text, AllocError>
    ensures { IfOk result (λ t. t ≡ numbered (codes "urn:x") number) }
{
    let string = if number == 0 {
        String::from_str(alloc, "urn:x")?
    } else {
        format!(in alloc; "urn:x{number}")?
    };
    Ok(Text::from_string(string))
}

/// The name of the namespace with the local name of this number among `x`, `x1`, `x2`, ..
pub(crate) fn numbered_name(alloc: Global, ns: &Text, number: usize) -> Result<Name, AllocError>
    ensures { IfOk result (λ n. n ≡ record { ns = ns.now; local = numbered (codes "x") number }) }
{
    let local = numbered_local(alloc, number)?;
    let ns = ns.copy(alloc)?;
    match Name::new(ns, local) {
        Ok(name) => Ok(name),
        Err(NotNcName) => unreachable!(),
    }
}

/// The first of `urn:x`, `urn:x1`, `urn:x2`, .. that isn't mentioned. Of one more than are mentioned, one isn't.
pub(crate) fn fresh_space(alloc: Global, spaces: &BTreeSet<Text>) -> Result<Text, AllocError>
    ensures { IfOk result (λ t. IsFirstFree (Contains spaces.now.keys) (codes "urn:x") t) }
{
    for number in 0..spaces.len() + 1 {
        let text = numbered_space(alloc, number)?;
        if !spaces.contains(&text) {
            return Ok(text);
        }
    }
    unreachable!()
}

/// The name of the namespace with the first of `x`, `x1`, `x2`, .. that makes no mentioned name.
pub(crate) fn first_fresh(
    alloc: Global,
    ns: &Text,
    taken: &BTreeSet<Name>,
) -> Result<Name, AllocError>
    ensures space { IfOk result (λ n. n.ns ≡ ns.now) }
    ensures first { IfOk result (λ n. IsFirstFree (IsTakenIn taken.now.keys ns.now) (codes "x") n.local) }
{
    for number in 0..taken.len() + 1 {
        let name = numbered_name(alloc, ns, number)?;
        if !taken.contains(&name) {
            return Ok(name);
        }
    }
    unreachable!()
}

/// Adds a name with its origin.
pub(crate) fn put(
    names: &mut BTreeMap<Name, Origin>,
    name: Name,
    origin: Origin,
) -> Result<(), AllocError>
    ensures { OnOk result (Puts (origin_in names.old) (origin_in names.new) origin (λ n. n ≡ name)) }
{
    names.insert(name, origin)?;
    Ok(())
}

/// Adds the names of the namespace with the first `fresh` of `x`, `x1`, `x2`, .. that make no mentioned name. Of so many more
/// than are mentioned, as many aren't.
pub(crate) fn put_fresh(
    alloc: Global,
    names: &mut BTreeMap<Name, Origin>,
    ns: &Text,
    taken: &BTreeSet<Name>,
    fresh: usize,
    origin: Origin,
) -> Result<(), AllocError>
    requires { fresh ≤ 3 }
    ensures { OnOk result (Puts (origin_in names.old) (origin_in names.new) origin (λ n. (n.ns ≡ ns.now) × IsAmongFree (IsTakenIn taken.now.keys ns.now) fresh (codes "x") n.local)) }
{
    let mut found = 0;
    for number in 0..taken.len() + fresh + 1 {
        if found == fresh {
            return Ok(());
        }
        let name = numbered_name(alloc, ns, number)?;
        if !taken.contains(&name) {
            put(names, name, origin)?;
            found += 1;
        }
    }
    unreachable!()
}
