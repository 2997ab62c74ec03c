//! Runs: words of one table that change one after another.
use vs_types::{Rights, Size};

/// How the words of a run change.
#[derive(Clone, Copy, Debug, PartialEq, Eq)]
pub enum Change {
    /// The word of the page with number i, from 0 on, becomes the first number plus i times the second.
    Write(u64, u64),
    /// Each becomes 0.
    Clear,
    /// Each gets these rights, and keeps its other bits.
    Allow(Rights),
    /// Each loses its accessed and its dirty flag, bits 5 and 6, and keeps its other bits.
    Unflag,
}

/// What each processor that may have used the page table has to forget after a run, before it goes on.
#[derive(Clone, Copy, Debug, PartialEq, Eq)]
pub enum Forget {
    /// Nothing.
    Nothing,
    /// The translations of so many pages of this size, from the one at this base on.
    Pages(u64, Size, usize),
}

/// Words of one table, which a caller changes from the first to the last, each by one exchange of what is there: so it keeps the
/// flags that a processor has set meanwhile. Each store changes what is translated for its own page, and for nothing else.
#[derive(Clone, Copy, Debug, PartialEq, Eq)]
pub struct Run {
    /// The size of the pages.
    pub size: Size,
    /// How many pages: 1 to 512.
    pub count: usize,
    /// The number of the table's frame.
    pub frame: u64,
    /// The index of the first word in it. The last is index + count - 1, and at most 511.
    pub index: usize,
    /// How the words change.
    pub change: Change,
    /// What has to be forgotten then.
    pub forget: Forget,
}
