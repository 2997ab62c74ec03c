//! What can be wrong with a dump.

ghost use Rattle.std.specs.Prelude.{◌≡◌};
ghost use Rattle.nr_dump.specs.inside.Checking.{of_walk};

use vs_walk::WalkFault;

/// What is wrong with a dump. Frames are named by their numbers, words by their indexes in their frames.
#[derive(Clone, Copy, Debug, PartialEq, Eq)]
pub enum DumpFault {
    /// The tables lead to this frame, which the dump does not have.
    MissingFrame(u64),
    /// The tables lead to this frame twice.
    SharedFrame(u64),
    /// The word of this frame at this index, from 0 to 511, has a reserved bit set.
    ReservedBit(u64, u16),
    /// The tables do not lead to this frame of the dump, the least such one.
    StrayFrame(u64),
    /// This canonical address, the least such one, is not translated as in the space: to another physical address, by a
    /// page of another size, with other rights, or in only one of the two.
    Differs(u64),
}

impl From<WalkFault> for DumpFault {
    ghost from_gives = { λ fault own. own ≡ of_walk fault };

    fn from(fault: WalkFault) -> DumpFault {
        match fault {
            WalkFault::Missing(number) => DumpFault::MissingFrame(number),
            WalkFault::Shared(number) => DumpFault::SharedFrame(number),
            WalkFault::Reserved(number, index) => DumpFault::ReservedBit(number, index),
        }
    }
}
