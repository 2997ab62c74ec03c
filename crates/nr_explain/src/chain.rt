//! What shows the first fault of a chain: facts of the segment that has it, over the space with which that begins.

pub(crate) mod answers;
pub(crate) mod differences;
pub(crate) mod evidence;
pub(crate) mod explaining;
pub(crate) mod explanation;
pub(crate) mod origins;
pub(crate) mod progress;
pub(crate) mod reader;
pub(crate) mod refusing;
pub(crate) mod releases;
pub(crate) mod spaces;
pub(crate) mod starts;
pub(crate) mod touches;
pub(crate) mod windows;
