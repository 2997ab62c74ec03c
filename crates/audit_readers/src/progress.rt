//! What gets how far an audit has come, and how much it has found.

use nr_audit::Totals;

/// What gets how far the audit of a chain has come, and how much a right trace or chain has. What is printed doesn't depend on it.
pub trait Progress {
    /// An audit begins that is to be watched, of an input with so many bytes, if their number is known.
    fn start(&mut self, size: Option<u64>);

    /// So many bytes more were read.
    fn read(&mut self, bytes: usize);

    /// A segment more is right, and its order has so many calls.
    fn right(&mut self, calls: usize);

    /// Whether it wants to know what is counted of a right trace or chain.
    fn wants_counts(&self) -> bool;

    /// A trace or a chain is right, and so much is counted of it; 0 where that wasn't wanted, but for the calls of a trace.
    fn counted(&mut self, totals: Totals);

    /// The audit has ended.
    fn end(&mut self);
}

/// Nobody watches the audit.
#[derive(Drop)]
pub struct Unwatched;

impl Progress for Unwatched {
    fn start(&mut self, _size: Option<u64>) {}

    fn read(&mut self, _bytes: usize) {}

    fn right(&mut self, _calls: usize) {}

    fn wants_counts(&self) -> bool {
        false
    }

    fn counted(&mut self, _totals: Totals) {}

    fn end(&mut self) {}
}
