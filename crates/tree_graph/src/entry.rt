// Starts and definitions that were walked.

/// A start or a definition: the number of what it is combined to, whether by interleave, and its node.
#[derive(Clone, Copy)]
pub struct Entry {
    pub definition: usize,
    pub interleaves: bool,
    pub node: usize,
}
