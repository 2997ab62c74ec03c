//! How many levels a page table has, and which addresses it translates.
ghost use Rattle.std.specs.Prelude.{◌≡◌, ◌*◌, ◌<◌, ◌≤◌, ◌^◌};
ghost use Rattle.vs_types.specs.declared.limits.TheConstants.{MOST_LEVELS};
ghost use Rattle.vs_types.specs.Depth.{entry_bytes, index_at};

use crate::requests::op::BadOp;

/// How many levels of tables a translation goes through (Intel SDM volume 3A, chapter "Paging").
#[derive(Clone, Copy, Debug, PartialEq, Eq)]
pub enum Depth {
    /// 4-level paging: 48 bits of an address are translated.
    Four,
    /// 5-level paging: 57 bits.
    Five,
}

impl Depth {
    ghost use Rattle.vs_types.specs.Depth.{canonical_from, half_bytes, is_canonical, levels};
    ghost use Rattle.vs_types.specs.Operation.{base_fault};
    ghost use Rattle.vs_types.specs.Faults.{GivesUnless};

    /// The number of levels; the root is a table of the highest.
    pub fn levels(self) -> u8
        ensures { result ≡ levels self }
    {
        match self {
            Depth::Four => 4,
            Depth::Five => 5,
        }
    }

    /// Whether all bits of an address above the translated ones equal the highest translated one.
    pub fn is_canonical(self, address: u64) -> bool
        ensures { result ≡ is_canonical self address }
    {
        let half = 1u64 << (11 + 9 * self.levels());
        address.wrapping_add(half) < 2 * half
    }

    /// The address whose translated bits are these: the bits above repeat the highest of them.
    pub fn canonical_from(self, bits: u64) -> u64
        requires { bits < 2 * half_bytes self }
        ensures { result ≡ canonical_from self bits }
    {
        let half = 1u64 << (11 + 9 * self.levels());
        if bits < half {
            bits
        } else {
            bits + (u64::MAX - half - half + 1)
        }
    }

    pub(crate) fn test_base(self, base: u64) -> Result<(), BadOp>
        ensures { GivesUnless (base_fault self base) record {} result }
    {
        if !self.is_canonical(base) {
            return Err(BadOp::NotCanonical);
        }
        if base % 4096 != 0 {
            return Err(BadOp::Unaligned);
        }
        Ok(())
    }
}

/// What one entry of a table of this level represents, in bytes.
#[inline]
pub fn entry_bytes(level: u8) -> u64
    requires { level ≤ MOST_LEVELS }
    ensures is { result ≡ entry_bytes level }
    ensures some { 1 ≤ result }
    ensures most { result ≤ 2 ^ 48 }
{
    1u64 << (3 + 9 * level)
}

/// How many bytes behind the first address of a table of this level those of its entry of this index begin.
#[inline]
pub fn entry_offset(level: u8, index: usize) -> u64
    requires few { level ≤ MOST_LEVELS }
    requires low { index < 512 }
    ensures { result ≡ index * entry_bytes level }
{
    index as u64 * entry_bytes(level)
}

/// The index of the entry for an address in a table of this level: 0 to 511. The level of a root is the highest.
pub fn index_at(level: u8, address: u64) -> usize
    requires { level ≤ MOST_LEVELS }
    ensures is { result ≡ index_at level address }
    ensures low { result < 512 }
{
    (address / entry_bytes(level) % 512) as usize
}
