//! Memory that is given to somebody else, as it was recorded.

use vs_types::Size;

/// A release: memory that is given to somebody else while a trace is recorded.
#[derive(Clone, Copy, Debug)]
pub struct Release {
    /// The index of the event at which it is made: from here on the memory is somebody else's.
    pub made: u32,
    /// How much memory it is.
    pub size: Size,
    /// The physical address at which the memory begins: a multiple of the size.
    pub phys: u64,
    /// Whether it is answered by `Done`, or not at all.
    pub is_done: bool,
}
