//! Looks into a trace: an event by its index, a thread's last call, its reply, the space after so many places.

pub(crate) mod asking;
pub(crate) mod events;
pub(crate) mod known;
pub(crate) mod memory;
pub(crate) mod nearest;
pub(crate) mod replies;
pub(crate) mod spaces;
