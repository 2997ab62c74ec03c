//! What the segments so far leave for the next one.

use nr_touch::Tail;
use vs_plain::PlainSpace;

/// What the segments so far leave for the next one: the space after them, and how addresses may still be found to look otherwise,
/// since updates that changed that were never answered, or only gave rights.
#[derive(Debug, Drop)]
pub struct Past {
    pub space: PlainSpace,
    pub tail: Tail,
}
