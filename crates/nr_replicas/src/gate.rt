//! The question to a thread whether it goes on.
/// How far a thread has come with a call.
#[derive(Clone, Copy, Debug, PartialEq, Eq)]
pub enum Point {
    /// The call is made, and nothing is done for it yet.
    Called,
    /// The thread has appended a batch to the log, and holds no lock.
    Appended,
    /// The call has its answer, and is not yet replied to.
    Answered,
}

/// Whether a thread goes on.
#[derive(Clone, Copy, Debug, PartialEq, Eq)]
pub enum Signal {
    Go,
    Stop,
}

/// Is asked at certain points whether a thread goes on. The thread holds no lock then; after `Stop` it makes no further step.
pub trait Gate {
    /// Whether this thread goes on from the point that it has come to.
    fn at(&self, thread: u16, point: Point) -> Signal;
}
