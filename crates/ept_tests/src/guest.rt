//! What extended page tables map, and what their entries allow.

use vs_types::Size;

/// How a processor reads extended page tables (Intel SDM volume 3C, chapter "VMX Support for Address Translation").
#[derive(Clone, Copy, Debug, PartialEq, Eq)]
pub struct Ept {
    /// Whether each mode has a bit of its own to execute ("mode-based execute control").
    pub by_mode: bool,
}

/// What an entry allows at the addresses of a guest.
#[derive(Clone, Copy, Debug, PartialEq, Eq)]
pub struct EptRights {
    /// A read.
    pub read: bool,
    /// A write.
    pub write: bool,
    /// An instruction fetch in supervisor mode, or in either mode where they have one bit.
    pub execute: bool,
    /// An instruction fetch in user mode.
    pub user_execute: bool,
}

/// A run of a guest's physical addresses that is translated as one.
#[derive(Clone, Copy, Debug, PartialEq, Eq)]
pub struct GuestPage {
    /// The first address.
    pub base: u64,
    pub size: Size,
    /// The physical address to which it is translated.
    pub phys: u64,
    pub rights: EptRights,
}
