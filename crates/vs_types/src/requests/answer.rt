//! What operations, resolves and accesses are answered.

use crate::addresses::page::{Rights, Size};

/// What an operation, a resolve or an access is answered. All numbers are bytes, but for `Full` and `Fault`.
#[derive(Clone, Copy, Debug, PartialEq, Eq)]
pub enum Answer {
    /// The page was added.
    Done,
    /// A page covers an address of the new one; the least base of such a page.
    Overlap(u64),
    /// The space with the page would need this many tables, which is above the limit.
    Full(u64),
    /// The page was removed: its physical address, size and rights.
    Removed(u64, Size, Rights),
    /// No page covers the address.
    NotMapped,
    /// A page covers the address, and begins at this base.
    Inside(u64),
    /// The rights were changed; those from before.
    Changed(Rights),
    /// The physical address to which the address is translated, with the size and rights of its page.
    Mapped(u64, Size, Rights),
    /// An access is allowed: the physical address to which its address is translated.
    Allowed(u64),
    /// An access is refused: the error code of its page fault.
    Fault(u64),
}
