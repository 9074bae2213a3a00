// Why a name is in a list of names.

/// Why a name is in a list of a universe. Each name has one origin.
#[derive(Clone, Copy, Debug, PartialEq, Eq, Drop)]
pub enum Origin {
    /// It stands in a name class, inside excepts too.
    Mentioned,
    /// It is fresh in a mentioned namespace.
    FreshLocal,
    /// It is in the fresh namespace.
    FreshSpace,
}
