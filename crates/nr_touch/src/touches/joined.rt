//! What the touches and the releases of a segment are compared with.

use crate::changes::history::History;
use vs_plain::PlainSpace;

/// A segment's own changes, joined to those that earlier segments left, and to how it ends.
#[derive(Debug, Drop)]
pub(crate) struct Joined {
    /// The columns of the changes of the segment.
    pub(crate) history: History,
    /// The columns of the changes that earlier segments left, in levels.
    pub(crate) earlier: Vec<History>,
    /// The space behind the segment.
    pub(crate) space: PlainSpace,
    /// How many places the log of the segment has.
    pub(crate) places: u32,
}
