//! What an audit of a chain finds.

use nr_audit::Order;
use nr_trace::Fault;

/// What an audit of a chain finds.
#[derive(Debug, Drop)]
pub enum ChainVerdict {
    /// All segments are right, with these orders of their calls, one after the other.
    Yes(Vec<Order>),
    /// So many segments are right, with these orders, and the next one has this fault, its first.
    No(Vec<Order>, Fault),
}
