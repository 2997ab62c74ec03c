//! What is said of a whole chain, or of a part of it.

use crate::chain::evidence::SegmentEvidence;
use nr_trace::Fault;

/// How much a right chain has. A number above 2^64 - 1 is given as that.
#[derive(Clone, Copy, Debug, PartialEq, Eq)]
pub struct ChainCounts {
    pub segments: u64,
    /// The calls of the orders: the updates and the reads.
    pub calls: u64,
    pub updates: u64,
    pub reads: u64,
    pub touches: u64,
    pub releases: u64,
    /// The dumps that are there.
    pub dumps: u64,
    pub replicas: u8,
    /// The pages of the space after the last segment.
    pub pages: u64,
    /// The answered updates and reads that were open while another one of their segment was.
    pub overlapping: u64,
    /// The answered touches that were open while an update of their segment was that changes how their address looks.
    pub beside: u64,
    /// The touches that are right only since an update of their address is open.
    pub since_open: u64,
    /// The faults that are right only by rights that were kept after an answered update that gave more.
    pub since_kept: u64,
    /// The faults that are right only by a table that lags.
    pub since_lagging: u64,
    /// The most of these faults, by kept rights or a table that lags, of one thread at one address in one segment.
    pub repeated: u64,
}

/// What an audit of a chain finds, and what shows it.
#[derive(Debug, Drop)]
pub enum ChainExplanation {
    /// All segments are right, and the chain has so much.
    Yes(ChainCounts),
    /// So many segments are right, and the next one has this fault, its first, which this shows.
    No(u64, Fault, SegmentEvidence),
}
