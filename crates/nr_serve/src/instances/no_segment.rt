//! Why there is no segment.

/// Why there is no segment. All threads that were started have ended, and were joined.
#[derive(Clone, Copy, Debug, PartialEq, Eq)]
pub enum NoSegment {
    /// A thread could not be started.
    NoThread,
    /// The log could not be cut: an update has no answer yet, or it has more calls than the threads made.
    NotCut,
}
