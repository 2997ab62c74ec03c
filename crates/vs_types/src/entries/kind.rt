//! What an entry is at its level, in any format.

/// What an entry is at its level, where entries allow rights of this type.
#[derive(Clone, Copy, Debug, PartialEq, Eq)]
pub enum EntryKind<R> {
    /// Nothing is mapped.
    Absent,
    /// A reserved bit is set, and a walk faults.
    Reserved,
    /// The table of the next lower level, by its frame number, with the rights that this entry allows.
    Table(u64, R),
    /// A page: its physical address, with the rights that this entry allows.
    Leaf(u64, R),
}
