// A list of names.
ghost use Rattle.std.specs.Prelude.{◌≡◌, ◌<◌, ◌==◌, [], ◌∷◌, ◌++◌, length, Some, slice_get, OnOk, OnErr};
ghost use Rattle.std.specs.List.{AllByRecursion};
ghost use Rattle.rng_model.specs.Names.{IsName};

use name_classes::Name;
use std::alloc::{AllocError, Global};
use std::marker::Model;

/// A list of names.
#[derive(Debug, Drop)]
pub struct NameList {
    names: Vec<Name>,
}

impl Model for NameList {
    ghost use Rattle.std.specs.Prelude.{List};
    ghost use Rattle.std.specs.List.{AllByRecursion};
    ghost use Rattle.rng_model.specs.Names.{Name as NameValue, IsName};

    ghost Value = { List NameValue };

    ghost view = { λ l. l.names.items };

    ghost invariant = { λ l. AllByRecursion IsName l.names.items };
}

// A name is one.
fn is_name(name: &Name)
    ensures { IsName name.now }
{
    let _ = name.local();
}

impl NameList {
    /// The empty list. It takes its memory from `alloc` as it grows.
    pub fn new(alloc: Global) -> NameList
        ensures { result ≡ [] }
    {
        NameList {
            names: Vec::new(alloc),
        }
    }

    /// Adds the name at the end. Where memory is wanting, the list stays as before and the name is dropped.
    pub fn push(&mut self, name: Name) -> Result<(), AllocError>
        ensures ok { OnOk result (self.new ≡ self.old ++ name ∷ []) }
        ensures err { OnErr result (self.new ≡ self.old) }
    {
        is_name(&name);
        self.names.push(name)?;
        Ok(())
    }

    /// How many names it has.
    pub fn len(&self) -> usize
        ensures length { result ≡ length self.now }
        ensures are_names { AllByRecursion IsName self.now }
    {
        self.names.len()
    }

    /// Whether it has none.
    pub fn is_empty(&self) -> bool
        ensures { result ≡ (length self.now == 0) }
    {
        self.names.is_empty()
    }

    /// The name at a position, counted from 0.
    pub fn get(&self, position: usize) -> &Name
        requires { position < length self.now }
        ensures { slice_get self.now position ≡ Some result.now }
    {
        &self.names[position]
    }

    /// The names in their order.
    pub fn as_slice(&self) -> &[Name]
        ensures { result.now ≡ self.now }
    {
        self.names.as_slice()
    }
}
