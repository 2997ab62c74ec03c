//! What the updates of a segment change: the replay of its log, its changes by page and place, and the searches in them.

pub(crate) mod bounds;
pub(crate) mod change;
pub(crate) mod history;
pub(crate) mod replay;
pub(crate) mod search;
pub(crate) mod sights;
pub(crate) mod undo;
