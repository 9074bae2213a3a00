// The first fault of a tree.
ghost use Rattle.std.specs.Prelude.{◌≡◌, None, Some, IfOk};
ghost use Rattle.schema_tree.specs.Files.{full_of};
ghost use Rattle.simple_form_laws.specs.Faults.{SimplifyRefusal, bad_values};
ghost use Rattle.name_resolution.specs.Least.{IsLeast};
ghost use Rattle.tree_faults.specs.Firsts.{IsClean, IsFound, fault_of, first, first_of_grammars, first_of_names};

use crate::fault::Fault;
use crate::grammars::{self, GrammarFaults};
use crate::names::{self, NameFaults};
use name_resolution::Namespaces;
use schema_tree::Full;
use std::alloc::{AllocError, Global};

// The least places of all faults.
#[derive(Clone, Copy)]
struct Found {
    names: NameFaults,
    prefix_twice: Option<usize>,
    reserved_prefix: Option<usize>,
    grammars: GrammarFaults,
}

impl Found {
    // The first fault in declarations and names.
    fn first_of_names(&self) -> Option<Fault>
        ensures { result ≡ first_of_names self.now }
    {
        if let Some(at) = self.names.unbound_prefix {
            return Some(Fault::UnboundPrefix { at });
        }
        if let Some(at) = self.prefix_twice {
            return Some(Fault::PrefixTwice { at });
        }
        if let Some(at) = self.reserved_prefix {
            return Some(Fault::ReservedPrefix { at });
        }
        if let Some(at) = self.names.constraint {
            return Some(Fault::ClassConstraint { at });
        }
        if let Some(at) = self.names.xmlns_attribute {
            return Some(Fault::XmlnsAttribute { at });
        }
        None
    }

    // The first fault in grammars and references.
    fn first_of_grammars(&self) -> Option<Fault>
        ensures { result ≡ first_of_grammars self.now }
    {
        if self.grammars.lacks_start {
            return Some(Fault::NoStart);
        }
        if let Some(at) = self.grammars.undefined {
            return Some(Fault::UndefinedName { at });
        }
        if let Some(at) = self.grammars.outside {
            return Some(Fault::ParentOutside { at });
        }
        if let Some(at) = self.grammars.mixed {
            return Some(Fault::CombineMixed { at });
        }
        if let Some(at) = self.grammars.twice {
            return Some(Fault::DefinedTwice { at });
        }
        None
    }

    // The first fault.
    fn first(&self) -> Option<Fault>
        ensures { result ≡ first self.now }
    {
        match self.first_of_names() {
            Some(fault) => Some(fault),
            None => self.first_of_grammars(),
        }
    }
}

// The faults of a tree, each with its least place.
fn find(alloc: Global, full: &Full, names: &Namespaces<'_>) -> Result<Found, AllocError>
    requires { names.now ≡ full.now.files }
    ensures { IfOk result (IsFound (full_of full.now)) }
{
    Ok(Found {
        names: names::in_body(names, full.body()),
        prefix_twice: names.prefix_twice(alloc)?,
        reserved_prefix: names.reserved_prefix(),
        grammars: grammars::in_body(alloc, full.body())?,
    })
}

/// The first fault of a schema's tree: in the order of the faults, and of several of one kind the one with the least place. A loop of
/// references, too deep a pattern and a value that its type doesn't allow come behind all of these.
pub fn first_fault(
    alloc: Global,
    full: &Full,
    names: &Namespaces<'_>,
) -> Result<Option<Fault>, AllocError>
    requires files { names.now ≡ full.now.files }
    ensures found { IfOk result (λ r. (x : Fault) → r ≡ Some x → SimplifyRefusal (full_of full.now) (fault_of x)) }
    ensures none { IfOk result (λ r. r ≡ None → IsClean (full_of full.now)) }
{
    let found = find(alloc, full, names)?;
    Ok(found.first())
}

/// The least place of a value that its type doesn't allow (section value element), that of its type.
pub fn bad_value(full: &Full, names: &Namespaces<'_>) -> Option<usize>
    requires files { names.now ≡ full.now.files }
    ensures { IsLeast (bad_values (full_of full.now)) result }
{
    names::in_body(names, full.body()).bad_value
}
