// The faults of simplification.

/// A fault of a schema's tree. A place is counted in bytes through all files, each with one place more than it has bytes.
#[derive(Clone, Copy, Debug, PartialEq, Eq)]
pub enum Fault {
    /// A prefix of a name class or of a type isn't bound, at the name or type (sections ns attribute and datatypeLibrary attribute).
    UnboundPrefix { at: usize },
    /// A declaration binds what an earlier one of its file bound, at its keyword (Annex C, declarations).
    PrefixTwice { at: usize },
    /// A declaration binds a reserved prefix or URI, at its keyword (Annex C, declarations).
    ReservedPrefix { at: usize },
    /// A wildcard in an except that mustn't have it, at the wildcard (section Simplification, name classes).
    ClassConstraint { at: usize },
    /// The name or namespace of `xmlns` in an attribute's class, at the name (section Simplification, name classes).
    XmlnsAttribute { at: usize },
    /// A grammar has no start (section grammar element).
    NoStart,
    /// A reference to a name that its grammar doesn't define, at the reference (section grammar element).
    UndefinedName { at: usize },
    /// `parent` without a grammar around its own, at the keyword (section grammar element).
    ParentOutside { at: usize },
    /// `|=` behind `&=` of one name or the reverse, at the later definition (section combine attribute).
    CombineMixed { at: usize },
    /// `=` behind `=` of one name, at the later definition (section combine attribute).
    DefinedTwice { at: usize },
}
