//! The statuses of the calls from C.

ghost use Rattle.std.specs.Prelude.{◌≡◌};
ghost use Rattle.nrvs_c.specs.Status.{status_of};

use vs_types::BadOp;

/// The call did what it was asked; a reply was written.
pub(crate) const OK: u32 = 0;

/// The handle was never made by `nrvs_table_new`.
pub(crate) const NO_TABLE: u32 = 1;

/// The number of levels is neither 4 nor 5.
pub(crate) const BAD_LEVELS: u32 = 2;

/// More than 4,096 frames are lent, or none.
pub(crate) const BAD_FRAMES: u32 = 3;

/// There are fewer marks than frames.
pub(crate) const BAD_MARKS: u32 = 4;

/// The last frame's number isn't below 2^40.
pub(crate) const BAD_BASE: u32 = 5;

/// The code means no size.
pub(crate) const BAD_SIZE: u32 = 6;

/// The code means no rights.
pub(crate) const BAD_RIGHTS: u32 = 7;

/// The code means no mode.
pub(crate) const BAD_MODE: u32 = 8;

/// The code means no access.
pub(crate) const BAD_ACCESS: u32 = 9;

/// The address isn't canonical.
pub(crate) const NOT_CANONICAL: u32 = 10;

/// The address is no multiple of the page's size, or of 4,096.
pub(crate) const UNALIGNED: u32 = 11;

/// The physical address is no multiple of the page's size.
pub(crate) const PHYS_UNALIGNED: u32 = 12;

/// The page doesn't lie below physical 2^51.
pub(crate) const PHYS_RANGE: u32 = 13;

/// The status of an operation that is not well formed.
pub(crate) fn status_of(fault: BadOp) -> u32
    ensures { result ≡ status_of fault }
{
    match fault {
        BadOp::NotCanonical => NOT_CANONICAL,
        BadOp::Unaligned => UNALIGNED,
        BadOp::PhysUnaligned => PHYS_UNALIGNED,
        BadOp::PhysRange => PHYS_RANGE,
    }
}
