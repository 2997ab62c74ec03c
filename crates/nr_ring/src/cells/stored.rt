//! The value of a log's cell.
use crate::ring::log_event::LogEvent;
use std::collections::LinkedList;

/// The value of the cell that a log is kept in. Contracts speak of it; no value of the type is made.
pub struct Stored {
    /// The events of the log, from the first on.
    pub history: LinkedList<LogEvent>,
    /// The ring that each entry lies in, from place 0 on.
    pub rings: LinkedList<u64>,
}
