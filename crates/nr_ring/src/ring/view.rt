//! What a pass knows of a log.
use crate::ring::log_event::LogEvent;
use std::collections::LinkedList;

/// What a pass knows of the log. Contracts speak of views; no value of the type is made.
pub struct View {
    /// The events that it has seen, from the first on.
    pub seen: LinkedList<LogEvent>,
    /// Which of the events it made, by their numbers from 0, rising.
    pub mine: LinkedList<u64>,
    /// The replicas that it owns.
    pub owns: LinkedList<u64>,
    /// How many of the rights to make events it has.
    pub rights: u64,
    /// What the passes that were joined to it had seen.
    pub told: LinkedList<LinkedList<LogEvent>>,
}
