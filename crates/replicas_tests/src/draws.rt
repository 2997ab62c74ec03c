//! Requests that are drawn from a seed.
ghost use Rattle.std.specs.Prelude.{◌<◌};

use std::process::Abort;
use vs_types::{Access, Depth, Mode, Op, Query, Rights, Size};

/// A linear congruential generator (Knuth's MMIX), of which the upper 32 bits are taken.
#[derive(Clone, Copy)]
pub struct Draws {
    state: u64,
}

impl Draws {
    pub fn new(seed: u64) -> Draws {
        Draws { state: seed }
    }

    /// A number below `end`.
    pub fn below(&mut self, end: u32) -> u32
        requires { 0 < end }
        ensures { result < end }
    {
        self.state = self
            .state
            .wrapping_mul(6364136223846793005)
            .wrapping_add(1442695040888963407);
        ((self.state >> 32) as u32) % end
    }

    fn rights(&mut self) -> Rights {
        Rights {
            write: self.below(2) == 0,
            user: self.below(2) == 0,
            exec: self.below(2) == 0,
        }
    }

    fn size(&mut self) -> Size {
        match self.below(6) {
            0 => Size::G1,
            1 => Size::M2,
            _ => Size::K4,
        }
    }

    /// A multiple of the size, one of a few near one another, in either half of the address space.
    fn base(&mut self, depth: Depth, size: Size) -> u64 {
        let high = match depth {
            Depth::Four => 0xFFFF_8000_0000_0000,
            Depth::Five => 0xFF00_0000_0000_0000,
        };
        let half = if self.below(4) == 0 { high } else { 0 };
        half + u64::from(self.below(3)) * size.bytes()
    }

    fn access(&mut self) -> Access {
        match self.below(3) {
            0 => Access::Read,
            1 => Access::Write,
            _ => Access::Fetch,
        }
    }

    /// An update, of pages that overlap; or a read or an access of them.
    pub fn query(&mut self, rt: &impl Abort, depth: Depth) -> Query {
        let size = self.size();
        let base = self.base(depth, size);
        let rights = self.rights();
        let phys = u64::from(self.below(4)) * size.bytes();
        let op = match self.below(8) {
            0 | 1 => Op::map(depth, base, size, phys, rights),
            2 => Op::unmap(depth, base),
            3 => Op::protect(depth, base, rights),
            4 => {
                let mode = if self.below(2) == 0 {
                    Mode::User
                } else {
                    Mode::Supervisor
                };
                return Query::Access(base.wrapping_add(0x123), mode, self.access());
            }
            _ => return Query::Resolve(base.wrapping_add(u64::from(self.below(4096)))),
        };
        Query::Update(op.expect(rt, "an update"))
    }
}
