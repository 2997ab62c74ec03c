//! What may be asked of a planner, and when it is refused.
ghost use Rattle.std.specs.Prelude.{◌≡◌, ◌+◌, ◌^◌, ◌≤◌, ℕ, min, nat_lt, IsTrue, MatchResult, None, Some};
ghost use Rattle.vs_plan.specs.Request.{address_of, lowest_of, request_fault, page_fault, base_fault, part_fault};

use crate::plans::target::Target;
use std::error::Error;
use std::fmt;
use vs_types::{Page, Rights, are_bits};

/// What is to be done to a page table, or asked of it.
#[derive(Clone, Copy, Debug, PartialEq, Eq)]
pub enum Request {
    /// Adds a page, whose entry has these bits beside its address and its rights: 3 PWT, 4 PCD, 5 accessed, 6 dirty, 7 PAT, 8 global,
    /// 11:9 and 58:52 for software, 62:59 the protection key. PAT is moved to bit 12 where the page is larger than 4 KiB.
    Map(Page, u64),
    /// Removes the page that begins at this address.
    Unmap(u64),
    /// Gives the page that begins at this address these rights, and leaves the other bits of its entry as they are.
    Protect(u64, Rights),
    /// Translates this address.
    Ask(u64),
    /// Lets the page that begins at this address lead to this physical address, with these rights. Its size stays, and so do the other
    /// bits of its entry.
    Remap(u64, u64, Rights),
    /// Puts 512 pages of the next smaller size in the place of the page of 2 MiB or 1 GiB that begins at this address. They translate
    /// as it does, and their entries have its bits.
    Split(u64),
    /// Puts one page of the next larger size in the place of the 512 pages of a table, the first of which begins at this address.
    /// It translates as they do, and its entry has their bits, with both flags set.
    Join(u64),
    /// Unlinks the table in which the way of this address ends, where it has no entry that is present. Its words stay as they are.
    Prune(u64),
    /// Removes parts of the page of 2 MiB or 1 GiB that begins at this address: of its 512 parts of the next smaller size so many (the
    /// third number), from this one on (the second). The others translate as it did, and their entries have its bits.
    UnmapPart(u64, u64, u64),
    /// Puts one page of the next larger size, at this physical address and with these rights, in the place of the 512 pages of a table,
    /// the first of which begins at this address. They have the same rights and the same bits, wherever they lie; its entry has their
    /// bits, with both flags set. What lies at the physical address is the caller's, and that nobody writes to the pages meanwhile.
    Collapse(u64, u64, Rights),
}

/// Why there is no plan for a request: the first reason that holds.
#[derive(Clone, Copy, Debug, PartialEq, Eq)]
pub enum BadRequest {
    /// The number of physical address bits is none of 36 to 52.
    PhysBits,
    /// The root's frame lies beyond the physical addresses.
    RootRange,
    /// The address is not canonical.
    NotCanonical,
    /// A map's base is no multiple of its size, or another base none of 4,096.
    Unaligned,
    /// A map's physical address is no multiple of its size.
    PhysUnaligned,
    /// A map's page does not lie below physical 2^51, or not within the physical addresses.
    PhysRange,
    /// A bit is set that is none of those that a map may set.
    Bits,
    /// The parts that are to be removed are none, all, or not all among 0 to 511.
    Part,
}

impl fmt::Display for BadRequest {
    fn fmt<W: fmt::Write>(&self, f: &mut fmt::Formatter<W>) -> fmt::Result {
        match self {
            BadRequest::PhysBits => write!(f, "physical addresses have 36 to 52 bits"),
            BadRequest::RootRange => write!(f, "the root lies beyond the physical addresses"),
            BadRequest::NotCanonical => write!(f, "the address is not canonical"),
            BadRequest::Unaligned => write!(f, "the address is not aligned"),
            BadRequest::PhysUnaligned => {
                write!(f, "the physical address is not aligned to the size")
            }
            BadRequest::PhysRange => write!(f, "the page lies beyond the physical addresses"),
            BadRequest::Bits => write!(f, "a bit is set that no map may set"),
            BadRequest::Part => write!(f, "the parts are none, all, or not among 512"),
        }
    }
}

impl Error for BadRequest {}

impl Request {
    /// The address whose way through the tables is gone.
    pub(crate) fn address(self) -> u64
        ensures { result ≡ address_of self }
    {
        match self {
            Request::Map(page, _) => page.base,
            Request::Unmap(address)
            | Request::Protect(address, _)
            | Request::Ask(address)
            | Request::Remap(address, _, _)
            | Request::Split(address)
            | Request::Join(address)
            | Request::Prune(address)
            | Request::UnmapPart(address, _, _)
            | Request::Collapse(address, _, _) => address,
        }
    }

    /// The level at which its way ends at the latest.
    pub(crate) fn lowest(self) -> u8
        ensures { result ≡ lowest_of self }
    {
        match self {
            Request::Map(page, _) => page.size.level(),
            Request::Unmap(_)
            | Request::Protect(_, _)
            | Request::Ask(_)
            | Request::Remap(_, _, _)
            | Request::Split(_)
            | Request::Join(_)
            | Request::Prune(_)
            | Request::UnmapPart(_, _, _)
            | Request::Collapse(_, _, _) => 1,
        }
    }

    /// Whether tables may be unlinked for it.
    pub(crate) fn unlinks(self) -> bool
        ensures all { (base : ℕ) → self ≡ Request.Unmap base → IsTrue result }
        ensures only { IsTrue result → (base : ℕ) × (self ≡ Request.Unmap base) }
    {
        matches!(self, Request::Unmap(_))
    }

    /// Tests whether there can be a plan for it.
    ///
    /// # Errors
    ///
    /// `BadRequest`, the first that holds.
    #[inline(always)]
    pub fn test(self, target: Target) -> Result<(), BadRequest>
        ensures { MatchResult result (λ _. request_fault target self ≡ None)
            (λ e. request_fault target self ≡ Some e) }
    {
        if target.phys_bits < 36 || target.phys_bits > 52 {
            return Err(BadRequest::PhysBits);
        }
        if target.root >> (target.phys_bits - 12) != 0 {
            return Err(BadRequest::RootRange);
        }
        if !target.depth.is_canonical(self.address()) {
            return Err(BadRequest::NotCanonical);
        }
        match self {
            Request::Map(page, bits) => test_page(page, bits, target.phys_bits),
            Request::Unmap(base)
            | Request::Protect(base, _)
            | Request::Remap(base, _, _)
            | Request::Split(base)
            | Request::Join(base)
            | Request::Collapse(base, _, _) => test_base(base),
            Request::UnmapPart(base, first, count) => test_part(base, first, count),
            Request::Ask(_) | Request::Prune(_) => Ok(()),
        }
    }
}

/// Tests a page that is to be mapped, whose base is canonical.
#[inline(always)]
fn test_page(page: Page, bits: u64, phys_bits: u8) -> Result<(), BadRequest>
    requires { phys_bits ≤ 52 }
    ensures { MatchResult result (λ _. page_fault page bits phys_bits ≡ None)
        (λ e. page_fault page bits phys_bits ≡ Some e) }
{
    let bytes = page.size.bytes();
    if page.base % bytes != 0 {
        return Err(BadRequest::Unaligned);
    }
    if page.phys % bytes != 0 {
        return Err(BadRequest::PhysUnaligned);
    }
    if ends_beyond(page.phys, bytes, phys_bits) {
        return Err(BadRequest::PhysRange);
    }
    if !are_bits(bits) {
        return Err(BadRequest::Bits);
    }
    Ok(())
}

/// Whether so many bytes at this physical address end beyond 2^51 or 2^phys_bits.
pub fn ends_beyond(phys: u64, bytes: u64, phys_bits: u8) -> bool
    requires { phys_bits ≤ 52 }
    ensures { result ≡ nat_lt (2 ^ min phys_bits 51) (phys + bytes) }
{
    let end = 1u64 << phys_bits.min(51);
    phys > end || end - phys < bytes
}

/// Tests the canonical base of a page that is there.
fn test_base(base: u64) -> Result<(), BadRequest>
    ensures { MatchResult result (λ _. base_fault base ≡ None) (λ e. base_fault base ≡ Some e) }
{
    if base % 4096 != 0 {
        return Err(BadRequest::Unaligned);
    }
    Ok(())
}

/// Tests the canonical base of a page, and which of its parts are to be removed.
fn test_part(base: u64, first: u64, count: u64) -> Result<(), BadRequest>
    ensures { MatchResult result (λ _. part_fault base first count ≡ None)
        (λ e. part_fault base first count ≡ Some e) }
{
    if base % 4096 != 0 {
        return Err(BadRequest::Unaligned);
    }
    if count < 1 || count > 511 || first > 512 - count {
        return Err(BadRequest::Part);
    }
    Ok(())
}
