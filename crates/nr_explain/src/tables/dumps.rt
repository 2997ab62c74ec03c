//! What shows a fault of a dump.

ghost use Rattle.std.specs.Prelude.{◌≡◌, ◌≤◌, IfOk, length};
ghost use Rattle.nr_trace.specs.Faults.{HasDump, HasFaultFrom};
ghost use Rattle.nr_trace.specs.declared.refusals.fault.Fault.TheVariants.{Differs, MissingFrame, PrefixPastLog, ReservedBit, SharedFrame};
ghost use Rattle.nr_trace.specs.declared.refusals.fault.Fault.TheVariants.{StrayFrame};
ghost use Rattle.nr_trace.specs.Recording.{IsRecording};
ghost use Rattle.nr_audit.specs.Verdict.{space_of};
ghost use Rattle.nr_explain.specs.Dumps.{IsFirstOfItsDump};
ghost use Rattle.nr_explain.specs.Evidence.{IsDifference, IsDifferenceFrom, IsEvidence, IsLongPrefix, IsStrayTable};

use crate::calls::floors::short_prefix;
use crate::calls::places::places;
use crate::search::spaces::{last_look, no_pages};
use crate::tables::faults::{missing_table, reserved_entry, shared_table};
use crate::tables::paths::entries_read;
use crate::trace::evidence::{Difference, Evidence, LongPrefix, Owner, StrayTable};
use nr_trace::{Fault, Trace};
use std::alloc::Global;
use vs_plain::PlainSpace;
use vs_types::Memory;
use vs_walk::translate;

/// The replica whose dump has applied more entries than the log has.
fn long_prefix(trace: &Trace, replica: u8) -> LongPrefix
    requires { IsFirstOfItsDump trace.now (PrefixPastLog replica) }
    ensures replica { result.replica ≡ replica }
    ensures is { IsLongPrefix trace.now result }
{
    LongPrefix {
        replica,
        applied: trace.dumps()[replica as usize].applied(),
        places: places(trace),
    }
}

/// A frame that the dump of a replica lacks.
fn missing_in_dump(
    alloc: Global,
    trace: &Trace,
    replica: u8,
    frame: u64,
) -> Result<Evidence, Memory>
    requires { IsFirstOfItsDump trace.now (MissingFrame replica frame) }
    ensures { IfOk result (IsEvidence trace.now (MissingFrame replica frame)) }
{
    let dump = &trace.dumps()[replica as usize];
    let depth = trace.layout().depth();
    let wrong = missing_table(alloc, Owner::Dump(replica), dump, depth, frame)?;
    Ok(Evidence::MissingFrame(wrong))
}

/// A frame to which the tables of a dump lead twice.
fn shared_in_dump(alloc: Global, trace: &Trace, replica: u8, frame: u64) -> Result<Evidence, Memory>
    requires { IsFirstOfItsDump trace.now (SharedFrame replica frame) }
    ensures { IfOk result (IsEvidence trace.now (SharedFrame replica frame)) }
{
    let dump = &trace.dumps()[replica as usize];
    let depth = trace.layout().depth();
    let wrong = shared_table(alloc, Owner::Dump(replica), dump, depth, frame)?;
    Ok(Evidence::SharedFrame(wrong))
}

/// An entry of a dump with a reserved bit set.
fn reserved_in_dump(
    alloc: Global,
    trace: &Trace,
    replica: u8,
    frame: u64,
    index: u16,
) -> Result<Evidence, Memory>
    requires { IsFirstOfItsDump trace.now (ReservedBit replica frame index) }
    ensures { IfOk result (IsEvidence trace.now (ReservedBit replica frame index)) }
{
    let dump = &trace.dumps()[replica as usize];
    let depth = trace.layout().depth();
    let wrong = reserved_entry(alloc, Owner::Dump(replica), dump, depth, frame, index)?;
    Ok(Evidence::ReservedBit(wrong))
}

/// A law: a trace is a recording.
fn is_a_recording(trace: &Trace)
    ensures { IsRecording trace.now }
{
    let _dumps = trace.dumps();
}

/// The frame of a dump to which its tables do not lead.
fn stray_table(trace: &Trace, replica: u8, frame: u64) -> StrayTable
    requires { IsFirstOfItsDump trace.now (StrayFrame replica frame) }
    ensures replica { result.replica ≡ replica }
    ensures frame { result.frame ≡ frame }
    ensures is { IsStrayTable trace.now result }
{
    is_a_recording(trace);
    StrayTable { replica, frame }
}

/// How the dump of a replica translates an address and by which entries, how the address looks in the space, from this space on, and
/// the last update that made it so. Allocates the entries, and memory for the space.
///
/// # Errors
///
/// `Memory` where a growth of memory was refused.
pub fn difference(
    alloc: Global,
    trace: &Trace,
    start: PlainSpace,
    replica: u8,
    address: u64,
) -> Result<Difference, Memory>
    requires start { start ≡ space_of trace.now.layout start.space }
    requires few { HasDump trace.now replica (λ dump. dump.applied ≤ length trace.now.log) }
    requires differs { HasFaultFrom start.space trace.now (Differs replica address) }
    ensures replica { IfOk result (λ wrong. wrong.replica ≡ replica) }
    ensures address { IfOk result (λ wrong. wrong.address ≡ address) }
    ensures is { IfOk result (λ wrong.
        HasDump trace.now wrong.replica (IsDifferenceFrom start.space trace.now wrong)) }
{
    let dump = &trace.dumps()[replica as usize];
    let depth = trace.layout().depth();
    let applied = dump.applied();
    let found = translate(dump, dump.root(), depth, address);
    let path = entries_read(alloc, dump, depth, address)?;
    let (wanted, changed) = last_look(trace, start, address, applied)?;
    Ok(Difference {
        replica,
        applied,
        address,
        found,
        path,
        wanted,
        changed,
    })
}

/// The same of a trace, from no pages on.
fn trace_difference(
    alloc: Global,
    trace: &Trace,
    replica: u8,
    address: u64,
) -> Result<Difference, Memory>
    requires { IsFirstOfItsDump trace.now (Differs replica address) }
    ensures replica { IfOk result (λ wrong. wrong.replica ≡ replica) }
    ensures address { IfOk result (λ wrong. wrong.address ≡ address) }
    ensures is { IfOk result (λ wrong.
        HasDump trace.now wrong.replica (IsDifference trace.now wrong)) }
{
    difference(alloc, trace, no_pages(alloc, trace), replica, address)
}

/// What shows the first fault of a dump. Allocates it, and for a difference a space.
///
/// # Errors
///
/// `Memory` where a growth of memory was refused.
pub fn explain_dump(alloc: Global, trace: &Trace, fault: Fault) -> Result<Evidence, Memory>
    requires { IsFirstOfItsDump trace.now fault }
    ensures { IfOk result (IsEvidence trace.now fault) }
{
    match fault {
        Fault::PrefixPastLog(replica) => Ok(Evidence::PrefixPastLog(long_prefix(trace, replica))),
        Fault::PrefixShort(replica) => Ok(Evidence::PrefixShort(short_prefix(trace, replica))),
        Fault::MissingFrame(replica, frame) => missing_in_dump(alloc, trace, replica, frame),
        Fault::SharedFrame(replica, frame) => shared_in_dump(alloc, trace, replica, frame),
        Fault::ReservedBit(replica, frame, index) => {
            reserved_in_dump(alloc, trace, replica, frame, index)
        }
        Fault::StrayFrame(replica, frame) => Ok(Evidence::StrayFrame(stray_table(
            trace, replica, frame,
        ))),
        Fault::Differs(replica, address) => {
            Ok(Evidence::Differs(trace_difference(alloc, trace, replica, address)?))
        }
        _ => unreachable!(),
    }
}
