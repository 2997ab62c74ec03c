//! The last pass: each dump beside the space after the entries that it has applied.

ghost use Rattle.std.specs.Prelude.{◌≡◌, ◌+◌, ◌<◌, OnOk, IfOk, IfErr, length};
ghost use Rattle.vs_types.specs.Refusal.{IfRefused};
ghost use Rattle.vs_types.specs.Space.{Space};
ghost use Rattle.nr_audit.specs.Dumps.{at_replica, IsFoundBeside};
ghost use Rattle.nr_audit.specs.inside.Dumps.{AreFound, AreCompared, IsServed};
ghost use Rattle.nr_audit.specs.inside.Passes.{IsDumpFault, IsDumpFaultAt};
ghost use Rattle.nr_audit.specs.inside.Prefixes.{AreNeeds};
ghost use Rattle.nr_audit.specs.inside.Search.{HasNoneFrom, IsFirstAmongFrom};

use nr_dump::{DumpFault, check};
use nr_trace::{Fault, Trace};
use std::alloc::Global;
use vs_plain::PlainSpace;
use vs_types::{Fail, Memory, REPLICAS};
use vs_walk::Dump;

/// The fault of a dump as that of its replica.
pub fn fault_at(replica: u8, fault: DumpFault) -> Fault
    ensures { result ≡ at_replica replica fault }
{
    match fault {
        DumpFault::MissingFrame(number) => Fault::MissingFrame(replica, number),
        DumpFault::SharedFrame(number) => Fault::SharedFrame(replica, number),
        DumpFault::ReservedBit(number, index) => Fault::ReservedBit(replica, number, index),
        DumpFault::StrayFrame(number) => Fault::StrayFrame(replica, number),
        DumpFault::Differs(address) => Fault::Differs(replica, address),
    }
}

/// What is wrong with the tables of a dump beside a space, or `None`. Allocates the memory of the check.
///
/// # Errors
///
/// `Memory` where a growth of memory was refused.
pub fn table_fault(
    alloc: Global,
    dump: &Dump,
    space: &PlainSpace,
) -> Result<Option<DumpFault>, Memory>
    ensures { IfOk result (IsFoundBeside dump.now space.now) }
{
    match check(alloc, dump, space) {
        Ok(()) => Ok(None),
        Err(Fail::Memory) => Err(Memory),
        Err(Fail::Refused(fault)) => Ok(Some(fault)),
    }
}

/// Compares the dumps that have applied just so many entries with a space. What is wrong with a dump is kept under its
/// replica.
pub(crate) fn compare_dumps(
    alloc: Global,
    trace: &Trace,
    applied: usize,
    space: &PlainSpace,
    faults: &mut [Option<DumpFault>; REPLICAS as usize],
) -> Result<(), Memory>
    ensures { OnOk result
        (AreCompared trace.now space.now applied (length trace.now.dumps) faults.old faults.new) }
{
    for replica in 0..trace.dumps().len() {
        let dump = &trace.dumps()[replica];
        if dump.applied() as usize == applied {
            let found = table_fault(alloc, dump, space)?;
            faults[replica] = found;
        }
    }
    Ok(())
}

/// Looks for what is wrong with a replica's dump, where one is there: with how many entries it has applied, and then with its tables.
fn check_dump(
    trace: &Trace,
    replica: usize,
    needed: &[u64; REPLICAS as usize],
    faults: &[Option<DumpFault>; REPLICAS as usize],
) -> Result<(), Fail<Fault>>
    requires replica { replica < length trace.now.dumps }
    requires needed { AreNeeds trace.now (length trace.now.events) needed.now }
    ensures clean { (start : Space) → AreFound start trace.now (length trace.now.log + 1) faults.now
        → OnOk result (HasNoneFrom start (IsDumpFaultAt replica) trace.now) }
    ensures first { (start : Space) → AreFound start trace.now (length trace.now.log + 1) faults.now
        → IfErr result (IfRefused (IsFirstAmongFrom start (IsDumpFaultAt replica) trace.now)) }
{
    let dump = &trace.dumps()[replica];
    if dump.count() == 0 {
        return Ok(());
    }
    let applied = dump.applied() as usize;
    if applied > trace.log().len() {
        return Err(Fail::Refused(Fault::PrefixPastLog(replica as u8)));
    }
    if (applied as u64) < needed[replica] {
        return Err(Fail::Refused(Fault::PrefixShort(replica as u8)));
    }
    match faults[replica] {
        None => Ok(()),
        Some(fault) => Err(Fail::Refused(fault_at(replica as u8, fault))),
    }
}

/// Looks for what is wrong with the dumps, in the order of the replicas. It is given what each replica needs, what was found
/// in the dumps that have not applied the whole log, and the space after it. The others are compared with that space.
/// Allocates memory for what the check of a dump takes.
pub(crate) fn check_dumps(
    alloc: Global,
    trace: &Trace,
    needed: &[u64; REPLICAS as usize],
    space: &PlainSpace,
    faults: &mut [Option<DumpFault>; REPLICAS as usize],
) -> Result<(), Fail<Fault>>
    requires needed { AreNeeds trace.now (length trace.now.events) needed.now }
    ensures clean { (start : Space) → IsServed start trace.now space.now faults.old
        → OnOk result (HasNoneFrom start IsDumpFault trace.now) }
    ensures first { (start : Space) → IsServed start trace.now space.now faults.old
        → IfErr result (IfRefused (IsFirstAmongFrom start IsDumpFault trace.now)) }
{
    compare_dumps(alloc, trace, trace.log().len(), space, faults)?;
    for replica in 0..trace.dumps().len() {
        check_dump(trace, replica, needed, faults)?;
    }
    Ok(())
}
