//! The check of a dump: its tables, its frames, and what it translates.

ghost use Rattle.std.specs.Prelude.{ℕ, Contains, IfErr, OnOk, IfSome, IfNone, IsSome};
ghost use Rattle.std.specs.FinMap as finite;
ghost use Rattle.vs_types.specs.Refusal.{IfRefused};
ghost use Rattle.vs_walk.specs.Differences.{IsLeast};
ghost use Rattle.vs_walk.specs.Dump.{IsDump};
ghost use Rattle.nr_dump.specs.inside.Checking.{IsOutside};
ghost use Rattle.nr_dump.specs.Faults.{IsFirstOfDump, HasNoFault, FitsSpace};

use crate::comparison::Comparison;
use crate::fault::DumpFault;
use std::alloc::Global;
use vs_plain::PlainSpace;
use vs_types::Fail;
use vs_walk::{Dump, Reached, traverse};

/// The least frame of a dump that is not among these of its frames.
fn least_outside(dump: &Dump, numbers: &Reached) -> Option<u64>
    requires { (number : ℕ) → Contains numbers.now number
        → IsSome (finite.get dump.now.frames number) }
    ensures none { IfNone result ((number : ℕ) → IsOutside dump.now.frames numbers.now number → ⊥) }
    ensures some { IfSome result (IsLeast (IsOutside dump.now.frames numbers.now)) }
    ensures is_dump { IsDump dump.now }
{
    if numbers.as_slice().len() == dump.count() {
        return None;
    }
    for k in 0..dump.count() {
        let number = dump.number(k);
        if !numbers.contains(number) {
            return Some(number);
        }
    }
    None
}

/// Checks that a dump fits a space, at the space's depth: that it translates each canonical address as the space does,
/// that its tables lead to no frame twice, and that they lead to each of its frames.
///
/// It goes once through the tables, by index, and compares each page as it is found with the next page of the space. It
/// allocates memory for the numbers of the frames that are reached, and none for pages.
///
/// # Errors
///
/// `Memory` where a growth was refused. Else the first fault. `MissingFrame`, `SharedFrame` and `ReservedBit` come
/// first, the one that the traversal of the tables meets first. Then comes `StrayFrame`, of the least frame, and then
/// `Differs`, at the least address, where the low half of the addresses comes before the high half.
pub fn check(alloc: Global, dump: &Dump, space: &PlainSpace) -> Result<(), Fail<DumpFault>>
    ensures fits { OnOk result (FitsSpace space.now.depth dump.now space.now.space) }
    ensures faultless { OnOk result (HasNoFault space.now.depth dump.now space.now.space) }
    ensures first { IfErr result
        (IfRefused (IsFirstOfDump space.now.depth dump.now space.now.space)) }
{
    let mut comparison = Comparison::new(space.iter());
    let reached = match traverse(alloc, dump, dump.root(), space.depth(), &mut comparison) {
        Ok(reached) => reached,
        Err(Fail::Memory) => return Err(Fail::Memory),
        Err(Fail::Refused(fault)) => return Err(Fail::Refused(DumpFault::from(fault))),
    };
    if let Some(number) = least_outside(dump, &reached) {
        return Err(Fail::Refused(DumpFault::StrayFrame(number)));
    }
    match comparison.difference() {
        None => Ok(()),
        Some(address) => Err(Fail::Refused(DumpFault::Differs(address))),
    }
}
