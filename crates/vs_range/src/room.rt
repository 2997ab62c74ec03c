//! How many pages there is room for.
ghost use Rattle.std.specs.Prelude.{◌≡◌, ◌+◌, ◌*◌, ◌<◌, ◌≤◌, ◌⊎◌, ◌^◌, ℕ, min, nat_lt};
ghost use Rattle.vs_types.specs.Page.{bytes_of};
ghost use Rattle.vs_range.specs.Planner.{are_pages};

use vs_types::{Page, Size};

/// Whether so many bytes are those of pages of this size, of one at least.
pub fn are_pages(size: Size, bytes: u64) -> bool
    ensures { result ≡ are_pages size bytes }
{
    bytes != 0 && bytes % size.bytes() == 0
}

/// Whether so many bytes from a base on go beyond the last address.
pub fn ends_late(base: u64, bytes: u64) -> bool
    ensures { result ≡ nat_lt (2 ^ 64) (base + bytes) }
{
    base > 0 && u64::MAX - (base - 1) < bytes
}

/// How many pages of this size so many bytes have room for.
pub(crate) fn pages_in(size: Size, bytes: u64) -> u64
    ensures within { (count : ℕ) → count ≤ result → count * bytes_of size ≤ bytes }
    ensures some { bytes_of size ≤ bytes → 1 ≤ result }
    ensures most { bytes < (result + 1) * bytes_of size }
{
    match size {
        Size::K4 => bytes >> 12,
        Size::M2 => bytes >> 21,
        Size::G1 => bytes >> 30,
    }
}

/// How many pages that follow on from this one lie within the physical addresses and below 2^51: at most 512.
pub(crate) fn phys_room(page: Page, phys_bits: u8) -> usize
    requires { phys_bits ≤ 52 }
    ensures low { 1 ≤ result → (count : ℕ) → count ≤ result
        → page.phys + count * bytes_of page.size ≤ 2 ^ 51 }
    ensures own { 1 ≤ result → (count : ℕ) → count ≤ result
        → page.phys + count * bytes_of page.size ≤ 2 ^ phys_bits }
    ensures most { (result ≡ 512)
        ⊎ (2 ^ min phys_bits 51 < page.phys + (result + 1) * bytes_of page.size) }
{
    let end = phys_end(phys_bits);
    if page.phys > end {
        return 0;
    }
    pages_in(page.size, end - page.phys).min(512) as usize
}

/// The first physical address that no page may have.
pub(crate) fn phys_end(phys_bits: u8) -> u64
    requires { phys_bits ≤ 52 }
    ensures { result ≡ 2 ^ min phys_bits 51 }
{
    1u64 << phys_bits.min(51)
}
