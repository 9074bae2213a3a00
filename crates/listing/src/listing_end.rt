// How a listing ends.

/// How a listing ended.
#[derive(Clone, Copy, Debug, PartialEq, Eq)]
pub enum ListingEnd {
    /// As many documents are written as fit on the page.
    Full,
    /// More states than the limit are reached at this size; `count` is the limit and one. All smaller documents are written.
    Stopped { size: usize, count: usize },
    /// All documents are written.
    Whole,
    /// A write failed.
    WriteFault,
    OutOfMemory,
}
