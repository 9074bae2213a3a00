// Why a tree is refused.
ghost use Rattle.grammar_laws.specs.Files.{Full};
ghost use Rattle.simple_form_laws.specs.Faults.{SimplifyRefusal};
ghost use Rattle.tree_faults.specs.Firsts.{fault_of};
ghost use Rattle.simplify.specs.Refusals.{IsRefusal};

use kept_elements::SchemaFault;
use pattern_forms::FormsFault;
use std::alloc::AllocError;
use thiserror::Error;
use tree_faults::Fault;

/// Why a tree has no schema. A place counts the bytes before it.
#[derive(Clone, Copy, Debug, PartialEq, Eq, Error)]
pub enum SimplifyFault {
    /// A prefix of a name class or of a datatype that isn't bound.
    #[error("a prefix that isn't bound at {at}")]
    UnboundPrefix { at: usize },
    /// A declaration that binds what an earlier one of its file binds.
    #[error("a prefix that is bound twice at {at}")]
    PrefixTwice { at: usize },
    /// A declaration of `xml`, `xmlns` or `xsd`, or of their namespaces, that isn't theirs.
    #[error("a reserved prefix at {at}")]
    ReservedPrefix { at: usize },
    /// A wildcard in an except that may not have it (section Restrictions, name classes).
    #[error("a wildcard in an except at {at}")]
    ClassConstraint { at: usize },
    /// An attribute whose name class has `xmlns` or a name of its namespace (section Restrictions, attribute names).
    #[error("an attribute named xmlns at {at}")]
    XmlnsAttribute { at: usize },
    /// A grammar without a start.
    #[error("a grammar has no start")]
    NoStart,
    /// A reference to a name that its grammar doesn't define.
    #[error("an undefined name at {at}")]
    UndefinedName { at: usize },
    /// A `parent` where there is no grammar outside.
    #[error("a parent reference outside a nested grammar at {at}")]
    ParentOutside { at: usize },
    /// Definitions of a name that are combined in both ways.
    #[error("two ways of combining at {at}")]
    CombineMixed { at: usize },
    /// A second definition of a name by `=`.
    #[error("a name defined twice at {at}")]
    DefinedTwice { at: usize },
    /// A reference that leads back to itself without an element between (section Restrictions, recursive references).
    #[error("a reference leads back to itself at {at}")]
    Loop { at: usize },
    /// A pattern or a name class of the simple form that is deeper than 1,024 levels.
    #[error("a pattern or a name class of the simple form is too deep")]
    ExpandedTooDeep,
    /// A value that its type doesn't allow.
    #[error("a value that its type doesn't allow at {at}")]
    BadValue { at: usize },
    /// Memory ran out.
    #[error("out of memory")]
    OutOfMemory,
}

impl SimplifyFault {
    // A fault of a tree.
    pub(crate) fn of_tree(fault: Fault) -> SimplifyFault
        ensures { (f : Full) → SimplifyRefusal f (fault_of fault) → IsRefusal f result }
    {
        match fault {
            Fault::UnboundPrefix { at } => SimplifyFault::UnboundPrefix { at },
            Fault::PrefixTwice { at } => SimplifyFault::PrefixTwice { at },
            Fault::ReservedPrefix { at } => SimplifyFault::ReservedPrefix { at },
            Fault::ClassConstraint { at } => SimplifyFault::ClassConstraint { at },
            Fault::XmlnsAttribute { at } => SimplifyFault::XmlnsAttribute { at },
            Fault::NoStart => SimplifyFault::NoStart,
            Fault::UndefinedName { at } => SimplifyFault::UndefinedName { at },
            Fault::ParentOutside { at } => SimplifyFault::ParentOutside { at },
            Fault::CombineMixed { at } => SimplifyFault::CombineMixed { at },
            Fault::DefinedTwice { at } => SimplifyFault::DefinedTwice { at },
        }
    }
}

impl From<AllocError> for SimplifyFault {
    ghost use Rattle.simplify.specs.declared.fault.SimplifyFault.TheVariants.{OutOfMemory};
    ghost use Rattle.std.specs.Prelude.{◌≡◌};

    ghost from_gives = { λ _ e. e ≡ OutOfMemory };

    fn from(_error: AllocError) -> SimplifyFault {
        SimplifyFault::OutOfMemory
    }
}

impl From<FormsFault> for SimplifyFault {
    ghost use Rattle.simplify.specs.Refusals.{IsOfForms};

    ghost from_gives = { IsOfForms };

    fn from(fault: FormsFault) -> SimplifyFault {
        match fault {
            FormsFault::Loop { at } => SimplifyFault::Loop { at },
            FormsFault::OutOfMemory => SimplifyFault::OutOfMemory,
        }
    }
}

impl From<SchemaFault> for SimplifyFault {
    ghost use Rattle.simplify.specs.Refusals.{IsOfSchema};

    ghost from_gives = { IsOfSchema };

    fn from(fault: SchemaFault) -> SimplifyFault {
        match fault {
            SchemaFault::ExpandedTooDeep => SimplifyFault::ExpandedTooDeep,
            SchemaFault::OutOfMemory => SimplifyFault::OutOfMemory,
        }
    }
}
