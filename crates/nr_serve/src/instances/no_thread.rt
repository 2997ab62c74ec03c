//! Why a run doesn't begin.

/// A thread could not be started. Those that were have ended, and were joined.
#[derive(Clone, Copy, Debug, PartialEq, Eq)]
pub struct NoThread;
