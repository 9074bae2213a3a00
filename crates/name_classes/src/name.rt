// Names.
ghost use Rattle.std.specs.Prelude.{◌≡◌, ◌↔◌, false, IfOk, IsErr, IsTrue, Some, refl};
ghost use Rattle.std.proofs.Common.{rules};
ghost use Rattle.std.specs.Cmp.{partial_order_from_agreeing_total};
ghost use Rattle.std.specs.Cmp.Lexicographic.{on_texts};
ghost use Rattle.std.specs.Cmp.Rules.{comparing};
ghost use Rattle.rng_model.specs.Names.{IsName, is_ncname, name_cmp, name_key, same_name};
ghost use Rattle.name_classes.specs.NameOrder.{ties, name_input, alike_names};

use std::alloc::{AllocError, Global};
use std::cmp::Ordering;
use std::hash::{Hash, Hasher};
use std::marker::Model;
use text_atoms::{Text, is_ncname};
use thiserror::Error;

/// A name: a namespace, which may be empty, and a local name, which is an NCName (Namespaces in XML, section 3).
#[derive(Debug, Drop)]
pub struct Name {
    ns: Text,
    local: Text,
}

impl Model for Name {
    ghost use Rattle.rng_model.specs.Names.{Name as NameValue, IsName};

    ghost Value = { NameValue };

    ghost view = { λ n. record { ns = n.ns; local = n.local } };

    ghost invariant = { λ n. IsName (record { ns = n.ns; local = n.local }) };
}

/// The local part of a name is no NCName.
#[derive(Clone, Copy, Debug, PartialEq, Eq, Error)]
#[error("the local part of a name is no NCName")]
pub struct NotNcName;

impl Name {
    /// The name of a namespace and a local name. It is refused where the local name is no NCName; both texts are dropped then.
    pub fn new(ns: Text, local: Text) -> Result<Name, NotNcName>
        ensures ok { IfOk result (λ name. name ≡ record { ns = ns; local = local }) }
        ensures not_ncname { IsErr result ↔ (is_ncname local ≡ false) }
    {
        if is_ncname(local.as_str()) {
            Ok(Name { ns, local })
        } else {
            Err(NotNcName)
        }
    }

    /// The namespace.
    pub fn ns(&self) -> &Text
        ensures value { result.now ≡ self.now.ns }
        ensures is_name { IsName self.now }
    {
        &self.ns
    }

    /// The local name.
    pub fn local(&self) -> &Text
        ensures value { result.now ≡ self.now.local }
        ensures is_name { IsName self.now }
    {
        &self.local
    }

    /// An equal name; refused for want of memory alone.
    pub fn copy(&self, alloc: Global) -> Result<Name, AllocError>
        ensures { IfOk result (λ name. name ≡ self.now) }
    {
        Ok(Name {
            ns: self.ns.copy(alloc)?,
            local: self.local.copy(alloc)?,
        })
    }
}

impl PartialEq for Name {
    ghost eq = { same_name };

    ghost laws = { Prim.search (comparing, rules) };

    fn eq(&self, other: &Name) -> bool
        ensures value { result ≡ same_name self.now other.now }
        ensures same { IsTrue result ↔ (self.now ≡ other.now) }
    {
        self.ns.as_str() == other.ns.as_str() && self.local.as_str() == other.local.as_str()
    }
}

impl Eq for Name {
    ghost laws = { Prim.search (comparing, rules) };
}

impl Hash for Name {
    ghost hash_input = { name_input };

    ghost respects_eq = { alike_names };

    fn hash<H: Hasher>(&self, state: &mut H) {
        self.ns.hash(state);
        self.local.hash(state);
    }
}

impl PartialOrd for Name {
    ghost partial_cmp = { λ m n. Some (name_cmp m n) };

    ghost laws = { partial_order_from_agreeing_total name_cmp (on_texts name_key) (λ m n. refl) ties };

    fn partial_cmp(&self, other: &Name) -> Option<Ordering> {
        Some(self.cmp(other))
    }
}

impl Ord for Name {
    ghost cmp = { name_cmp };

    ghost total = { on_texts name_key };

    ghost matches_partial_cmp = { λ m n. refl };

    ghost matches_eq = { ties };

    #[tactic(auto, using(crate::specs::NameOrder::by_parts))]
    fn cmp(&self, other: &Name) -> Ordering {
        match self.ns.as_str().cmp(other.ns.as_str()) {
            Ordering::Equal => self.local.as_str().cmp(other.local.as_str()),
            order => order,
        }
    }
}
