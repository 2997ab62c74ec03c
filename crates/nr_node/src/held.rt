//! What a node holds.
/// What a node holds: updates that are on their way to the log, or have a place there and are not yet answered.
#[derive(Clone, Copy, Debug, PartialEq, Eq)]
pub enum Held {
    /// No update.
    Nothing,
    /// So many updates, which have no place yet.
    Unplaced(usize),
    /// The place of the first, and how many there are: they are one after another.
    Placed(u64, usize),
}
