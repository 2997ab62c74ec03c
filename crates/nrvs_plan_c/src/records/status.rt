//! What a call returns, by number.
ghost use Rattle.std.specs.Prelude.{◌≡◌};
ghost use Rattle.nrvs_plan_c.specs.Status.{status_of};

use vs_plan::BadRequest;

/// The plan is there.
pub(crate) const PLANNED: u32 = 0;

/// The number of levels is neither 4 nor 5.
pub(crate) const BAD_LEVELS: u32 = 2;

/// The code means no size.
pub(crate) const BAD_SIZE: u32 = 6;

/// The code means no rights.
pub(crate) const BAD_RIGHTS: u32 = 7;

/// The address isn't canonical.
pub(crate) const NOT_CANONICAL: u32 = 10;

/// The address is no multiple of the page's size, or of 4,096.
pub(crate) const UNALIGNED: u32 = 11;

/// The physical address is no multiple of the page's size.
pub(crate) const PHYS_UNALIGNED: u32 = 12;

/// The page doesn't lie below physical 2^51, or not within the physical addresses.
pub(crate) const PHYS_RANGE: u32 = 13;

/// Physical addresses have 36 to 52 bits.
pub(crate) const PHYS_BITS: u32 = 14;

/// A bit is set that no map may set.
pub(crate) const BAD_BITS: u32 = 15;

/// The root lies beyond the physical addresses.
pub(crate) const BAD_ROOT: u32 = 16;

/// The plan doesn't ask for that.
pub(crate) const NOT_ASKED: u32 = 17;

/// The words of a frame are to be shown.
pub(crate) const SEE: u32 = 32;

/// Parts that are to be removed are none, all, or not all among 512.
pub(crate) const BAD_PART: u32 = 18;

/// A frame is to be given.
pub(crate) const GIVE: u32 = 33;

/// A run is there.
pub(crate) const RUN: u32 = 34;

/// A run that takes flags away is there.
pub(crate) const HARVEST: u32 = 35;

/// No page lies there.
pub(crate) const ABSENT: u32 = 36;

/// The page that begins there ends beyond the range.
pub(crate) const BEYOND: u32 = 37;

/// The status of a request for which there is no plan.
pub(crate) fn status_of(fault: BadRequest) -> u32
    ensures { result ≡ status_of fault }
{
    match fault {
        BadRequest::PhysBits => PHYS_BITS,
        BadRequest::RootRange => BAD_ROOT,
        BadRequest::NotCanonical => NOT_CANONICAL,
        BadRequest::Unaligned => UNALIGNED,
        BadRequest::PhysUnaligned => PHYS_UNALIGNED,
        BadRequest::PhysRange => PHYS_RANGE,
        BadRequest::Bits => BAD_BITS,
        BadRequest::Part => BAD_PART,
    }
}
