//! Plans and ranges: each call with ample memory, and requests that are refused.

pub(crate) mod again;
pub(crate) mod carried;
pub(crate) mod drawn;
pub(crate) mod memory;
pub(crate) mod pruned;
pub(crate) mod ranges;
pub(crate) mod refused;
pub(crate) mod resized;
pub(crate) mod worked;
