//! Touches, each compared with the moments that are still allowed, and what a segment leaves for later ones.

pub(crate) mod beside;
pub(crate) mod between;
pub(crate) mod excuse;
pub(crate) mod joined;
pub(crate) mod looks;
pub(crate) mod stale;
pub(crate) mod tail;
pub(crate) mod touch;
