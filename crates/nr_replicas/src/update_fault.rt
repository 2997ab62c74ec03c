//! Why an update, or a read, was not answered.
/// Why an update was not answered.
#[derive(Clone, Copy, Debug, PartialEq, Eq)]
pub enum UpdateFault {
    /// The thread's slot is not empty: an update of it was ended or stopped before. The pass has looked at the log;
    /// nothing else was done.
    Occupied,
    /// The log has no room for a batch: its tail is above 65,520. The update of this call may still be placed.
    Ended(u32),
    /// The turns of this call were used up, its gate said stop, or its replica did not confirm it. The update may still be placed.
    Stopped(u32),
}

/// The turns of a read were used up.
#[derive(Clone, Copy, Debug, PartialEq, Eq)]
pub struct Stopped;
