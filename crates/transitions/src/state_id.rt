// The numbers of states.

/// The number of a state in its table.
#[derive(Clone, Copy, Debug, PartialEq, Eq, Hash)]
pub struct StateId(pub usize);
