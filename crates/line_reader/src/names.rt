// Names read from their spellings.
ghost use Rattle.std.specs.Prelude.{◌≡◌, ◌<◌, ◌↔◌, ◌∷◌, ℕ, List, length, IsTrue, IfOk, MatchOption};
ghost use Rattle.rng_model.specs.Names.{IsName};
ghost use Rattle.rng_model.specs.Names as names;
ghost use Rattle.rng_model.specs.Lines.{name_spelling};

use crate::escapes::Escapes;
use crate::texts::{read_front, text_of};
use name_classes::Name;
use std::alloc::{AllocError as OutOfMemory, Global};

/// The name of the parts, where they make one.
fn name_of(alloc: Global, ns: Vec<u8>, local: &[u8]) -> Result<Option<Name>, OutOfMemory>
    ensures { IfOk result (λ read. MatchOption read
        (IsName (record { ns = ns.items; local = local.now }) → ⊥)
        (λ name. name ≡ record { ns = ns.items; local = local.now })) }
{
    let local = Vec::from_slice(alloc, local)?;
    match (text_of(ns), text_of(local)) {
        (Some(ns), Some(local)) => Ok(Name::new(ns, local).ok()),
        _ => Ok(None),
    }
}

/// What stands behind the `}` with which the bytes begin.
fn behind_brace(bytes: &[u8]) -> Option<&[u8]>
    ensures { MatchOption result ((rest : List ℕ) → bytes.now ≡ 125 ∷ rest → ⊥) (λ rest. bytes.now ≡ 125 ∷ rest.now) }
{
    match bytes {
        [b'}', rest @ ..] => Some(rest),
        _ => None,
    }
}

/// Whether the namespace is written: the empty one is left out, with its braces.
fn is_written(ns: &Vec<u8>) -> bool
    ensures { IsTrue result ↔ (0 < length ns.now.items) }
{
    !ns.is_empty()
}

/// The name whose spelling is `{` and the bytes.
fn read_qualified(alloc: Global, bytes: &[u8]) -> Result<Option<Name>, OutOfMemory>
    ensures { IfOk result (λ read. MatchOption read
        ((name : names.Name) → IsName name → name_spelling name ≡ 123 ∷ bytes.now → ⊥)
        (λ name. name_spelling name ≡ 123 ∷ bytes.now)) }
{
    let (ns, len) = read_front(alloc, Escapes::Namespace, bytes)?;
    match behind_brace(&bytes[len..]) {
        Some(local) if is_written(&ns) => name_of(alloc, ns, local),
        _ => Ok(None),
    }
}

/// The name whose spelling the bytes are, where they are one: the local name, behind the namespace in braces unless it is
/// empty.
pub(crate) fn read_name(alloc: Global, bytes: &[u8]) -> Result<Option<Name>, OutOfMemory>
    ensures { IfOk result (λ read. MatchOption read
        ((name : names.Name) → IsName name → name_spelling name ≡ bytes.now → ⊥)
        (λ name. name_spelling name ≡ bytes.now)) }
{
    match bytes {
        [b'{', rest @ ..] => read_qualified(alloc, rest),
        _ => name_of(alloc, Vec::new(alloc), bytes),
    }
}
