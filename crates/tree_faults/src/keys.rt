// Which names are defined.
ghost use Rattle.std.specs.Prelude.{◌≡◌, ◌||◌, false, Option, OnOk, option_map};
ghost use Rattle.rng_model.specs.Texts.{Text};
ghost use Rattle.simple_form_laws.specs.Parts.{same_key};
ghost use Rattle.tree_faults.specs.Keys.{has_key};

use indexmap::IndexSet;
use std::alloc::{AllocError, Global};

/// Names of definitions, and whether there is a start, which has no name.
#[derive(Drop)]
pub struct Keys<'a> {
    has_start: bool,
    names: IndexSet<&'a str>,
}

impl<'a> Keys<'a> {
    /// Neither a start nor a name.
    pub fn new(alloc: Global) -> Keys<'a>
        ensures { (k : Option Text) → has_key result k ≡ false }
    {
        Keys {
            has_start: false,
            names: IndexSet::new(alloc),
        }
    }

    /// Whether the name is there; with none, whether a start is.
    pub fn has(&self, key: Option<&str>) -> bool
        ensures { result ≡ has_key self.now (option_map (λ u. u.now) key.entry) }
    {
        match key {
            Some(name) => self.names.contains(name),
            None => self.has_start,
        }
    }

    /// Adds the name, or with none a start.
    #[tactic(auto, using(crate::proofs::KeySets::with_name, crate::proofs::KeySets::with_start))]
    pub fn add(&mut self, key: Option<&'a str>) -> Result<(), AllocError>
        ensures { OnOk result ((k : Option Text) → has_key self.new k ≡ (has_key self.old k || same_key k (option_map (λ u. u.now) key.entry))) }
    {
        match key {
            Some(name) => {
                self.names.insert(name)?;
            }
            None => self.has_start = true,
        }
        Ok(())
    }
}
