//! The page table that is planned for.
use vs_types::Depth;

/// The page table that a plan is for.
#[derive(Clone, Copy, Debug, PartialEq, Eq)]
pub struct Target {
    /// How many levels of tables there are.
    pub depth: Depth,
    /// Tables to which entries of this level and above lead are never unlinked, since other roots may lead to them too. 0: there are none.
    /// 1: no table is unlinked.
    pub pinned: u8,
    /// How many bits a physical address has: 36 to 52.
    pub phys_bits: u8,
    /// The frame number of the root.
    pub root: u64,
}

impl Target {
    ghost use Rattle.std.specs.Prelude.{◌≡◌, ◌≤◌, ◌^◌};
    ghost use Rattle.vs_types.specs.Depth.{levels};
    ghost use Rattle.vs_plan.specs.Target.{highest_link, frames_end, HasPhysBits};

    /// The level of the highest tables whose links may be cleared.
    pub(crate) fn highest_link(self) -> u8
        ensures is { result ≡ highest_link self }
        ensures most { result ≤ levels self.depth }
    {
        if self.pinned == 0 {
            self.depth.levels()
        } else {
            self.depth.levels().min(self.pinned - 1)
        }
    }

    /// The number of frames that there can be: 2^24 to 2^40.
    pub fn frames_end(self) -> u64
        requires { HasPhysBits self }
        ensures is { result ≡ frames_end self }
        ensures most { result ≤ 2 ^ 40 }
    {
        1 << (self.phys_bits - 12)
    }
}
