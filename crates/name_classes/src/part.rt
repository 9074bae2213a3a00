// The parts of name classes.
ghost use Rattle.std.specs.Prelude.{◌≡◌, IfOk};
ghost use Rattle.name_classes.specs.Parts.{in_part, excepts, is_choice, is_open};

use crate::name::Name;
use std::alloc::{AllocError, Global};
use std::hash::Hash;
use text_atoms::Text;

/// One part of a name class, in front of the classes that it holds. Parts are ordered by kind, as the kinds stand here, then by the
/// namespace or the name, with no except before an except.
#[derive(Drop, PartialEq, Eq, PartialOrd, Ord, Hash)]
pub enum Part {
    /// anyName, and whether its except follows.
    Any { excepts: bool },
    /// nsName, and whether its except follows.
    Namespace { ns: Text, excepts: bool },
    /// name: this name alone.
    One(Name),
    /// choice: its two classes follow.
    Choice,
}

/// A name, or any of the names that a class doesn't tell apart.
#[derive(Clone, Copy)]
pub enum Sample<'a> {
    /// This name.
    Name(&'a Name),
    /// A name of the namespace that stands nowhere in the class.
    Fresh(&'a Text),
    /// A name of a namespace that stands nowhere in the class.
    Stranger,
}

impl Part {
    /// Whether an except follows.
    pub fn excepts(&self) -> bool
        ensures { result ≡ excepts self.now }
    {
        match self {
            Part::Any { excepts } => *excepts,
            Part::Namespace { excepts, .. } => *excepts,
            Part::One(_) | Part::Choice => false,
        }
    }

    /// Whether it is the choice of the two classes behind it.
    pub fn is_choice(&self) -> bool
        ensures { result ≡ is_choice self.now }
    {
        matches!(self, Part::Choice)
    }

    /// Whether it is an any-name or a namespace class.
    pub fn is_open(&self) -> bool
        ensures { result ≡ is_open self.now }
    {
        match self {
            Part::Any { .. } | Part::Namespace { .. } => true,
            Part::One(_) | Part::Choice => false,
        }
    }

    // Whether the sample is in the part, whatever follows.
    pub(crate) fn takes(&self, sample: Sample<'_>) -> bool
        ensures { result ≡ in_part sample.entry self.now }
    {
        match (self, sample) {
            (Part::Any { .. }, _) => true,
            (Part::Namespace { ns, .. }, Sample::Name(name)) => name.ns().as_str() == ns.as_str(),
            (Part::Namespace { ns, .. }, Sample::Fresh(own)) => own.as_str() == ns.as_str(),
            (Part::One(other), Sample::Name(name)) => name == other,
            _ => false,
        }
    }

    /// An equal part; refused for want of memory alone.
    pub(crate) fn copy(&self, alloc: Global) -> Result<Part, AllocError>
        ensures { IfOk result (λ part. part ≡ self.now) }
    {
        Ok(match self {
            Part::Any { excepts } => Part::Any { excepts: *excepts },
            Part::Namespace { ns, excepts } => Part::Namespace {
                ns: ns.copy(alloc)?,
                excepts: *excepts,
            },
            Part::One(name) => Part::One(name.copy(alloc)?),
            Part::Choice => Part::Choice,
        })
    }
}
