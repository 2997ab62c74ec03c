//! What came of a call.

use vs_types::Answer as Told;

/// What came of a call.
#[derive(Clone, Copy, Debug, PartialEq, Eq)]
pub enum CallOutcome {
    /// It was answered. The number is the place of an update in the log, and for a read how many entries it saw.
    Answer(u32, Told),
    /// The thread stopped before it replied; the call is its last.
    Stopped,
}
