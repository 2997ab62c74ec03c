//! A descent through the tables, down to the entry where it ends.

/// The length of a path: an index for each level that there can be, of which 0 is of none.
pub(crate) const PATH_LENGTH: usize = 6;

/// The end of a descent through the tables.
#[derive(Clone, Copy)]
pub(crate) struct Descent {
    /// The frame numbers of the tables on the path, by level.
    pub(crate) path: [u64; PATH_LENGTH],
    /// The level of the last of them. As wide as the other fields, so that no gap between them is copied.
    pub(crate) level: usize,
    /// The frame number of the last of them.
    pub(crate) number: u64,
    /// The word of its entry.
    pub(crate) word: u64,
}
