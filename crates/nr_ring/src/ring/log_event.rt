//! The events of a log.
use std::collections::LinkedList;
use vs_types::LogEntry;

/// What happens to a log. Contracts speak of events; no value of the type is made.
pub enum LogEvent {
    /// A batch is at the end of the log.
    Append(LinkedList<LogEntry>),
    /// A replica has taken the entries up to a place: its local tail is that place.
    Advance(u64, u64),
}
