//! The state words: each says what lies in its slot, or that it is out with a thread.
/// The slot is empty.
pub(crate) const EMPTY: u64 = 0;

/// The slot is out with a thread that steps on it.
pub(crate) const BUSY: u64 = 1;

/// An update waits in the slot.
pub(crate) const POSTED: u64 = 2;

/// A combiner has the update.
pub(crate) const TAKEN: u64 = 3;

/// An answer waits in the slot.
pub(crate) const READY: u64 = 4;
