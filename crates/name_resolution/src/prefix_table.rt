// URIs by prefixes.
ghost use Rattle.std.specs.Prelude.{◌≡◌, [], ◌∷◌, ◌++◌, OnOk, option_map, is_some, if◌then◌else◌};
ghost use Rattle.rng_model.specs.Texts.{Text};
ghost use Rattle.simple_form_laws.specs.Prefixes.{look_up};
ghost use Rattle.name_resolution.specs.Bindings.{as_table};

use indexmap::IndexMap;
use std::alloc::{AllocError, Global};
use std::marker::Model;

/// A table of URIs by prefixes, in which the first URI that a prefix is bound to counts.
#[derive(Drop)]
pub struct PrefixTable<'a> {
    uris: IndexMap<&'a str, &'a str>,
}

impl<'a> Model for PrefixTable<'a> {
    ghost use Rattle.std.specs.Prelude.{map};
    ghost use Rattle.simple_form_laws.specs.Prefixes.{Table};

    ghost Value = { Table };

    ghost view = { λ t. map (λ e. (e.0.now, e.1.now)) t.uris.entries };
}

impl<'a> PrefixTable<'a> {
    /// No prefix is bound.
    pub fn new(alloc: Global) -> PrefixTable<'a>
        ensures { result ≡ [] }
    {
        PrefixTable {
            uris: IndexMap::new(alloc),
        }
    }

    /// The URI of a prefix.
    #[tactic(auto, using(crate::proofs::Tables::look_up_entries))]
    pub fn get(&self, prefix: &str) -> Option<&'a str>
        ensures { option_map (λ u. u.now) result ≡ look_up self.now prefix.now }
    {
        self.uris.get(prefix).copied()
    }

    #[tactic(auto, using(crate::proofs::Tables::bound_first))]
    /// Binds a prefix to a URI, where there is one and it isn't bound before.
    pub fn add(&mut self, binding: Option<(&'a str, &'a str)>) -> Result<(), AllocError>
        ensures { OnOk result ((p : Text) → look_up self.new p ≡ look_up (self.old ++ as_table binding.entry) p) }
    {
        if let Some((prefix, uri)) = binding {
            self.bind(prefix, uri)?;
        }
        Ok(())
    }

    // Binds a prefix to a URI, where it isn't bound before.
    #[tactic(auto, using(crate::proofs::Tables::pairs_with))]
    fn bind(&mut self, prefix: &'a str, uri: &'a str) -> Result<(), AllocError>
        ensures { OnOk result (self.new ≡ (if is_some (look_up self.old prefix.now) then self.old else self.old ++ (prefix.now, uri.now) ∷ [])) }
    {
        if self.get(prefix).is_none() {
            self.uris.insert(prefix, uri)?;
        }
        Ok(())
    }
}
