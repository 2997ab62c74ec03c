//! What a seat at the table of a cell knows.
use std::collections::LinkedList;

/// What a seat knows, beside its caller's view. No value of it is made.
pub struct Doing<V, X> {
    /// The value that it saw last.
    pub value: X,
    /// Whether it saw that value at its own last look or exchange, and not by meeting another.
    pub fresh: bool,
    /// The index at which the words that belong to it begin.
    pub from: u64,
    /// What lies in them.
    pub own: LinkedList<u64>,
    pub client: V,
}
