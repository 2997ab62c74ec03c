//! What is checked of a run, one kind of fault after the other.

pub(crate) mod answers;
pub(crate) mod calls;
pub(crate) mod dumps;
pub(crate) mod floors;
pub(crate) mod needs;
pub(crate) mod order;
pub(crate) mod reads;
pub(crate) mod releases;
pub(crate) mod requests;
pub(crate) mod tables;
pub(crate) mod touches;
