//! The first fault of each dump, and what shows it.

ghost use Rattle.std.specs.Prelude.{◌≡◌, ◌<◌, ℕ, IfOk, List, length};
ghost use Rattle.nr_trace.specs.Spelling.{Spells};
ghost use Rattle.nr_explain.specs.Dumps.{replica_of, told_replica, is_other, AreToldOfDumps, IsFullExplanationOf, IsToldOfDump};
ghost use Rattle.nr_explain.specs.Units.{ReadsUnits};
ghost use Rattle.nr_explain.specs.inside.Searches.{IsFoundOfDump};

use crate::calls::places::places;
use crate::search::replies::first_resting;
use crate::search::spaces::space_at;
use crate::tables::dumps::explain_dump;
use crate::trace::evidence::Evidence;
use crate::trace::explaining::{Explanation, explain_trace};
use crate::units::Unread;
use nr_audit::{fault_at, table_fault};
use nr_trace::{Fault, Trace};
use std::alloc::Global;
use vs_types::Memory;

/// What is found wrong with the dump of a replica.
#[derive(Debug, Drop)]
pub enum DumpExplanation {
    /// Nothing is wrong with the dump of this replica.
    Sound(u8),
    /// The first fault of the dump of this replica, and what shows it.
    Faulty(u8, Fault, Evidence),
}

/// What an audit finds, and what is wrong with each dump beside it.
#[derive(Debug, Drop)]
pub struct FullExplanation {
    pub explanation: Explanation,
    /// Each dump but the one that the first fault is of, in the order of the replicas; none where there is no fault, or one of the
    /// format.
    pub dumps: Vec<DumpExplanation>,
}

/// The first fault of the dump of a replica, or `None` where nothing is wrong with it. Allocates memory for a space, and that of
/// the check of a dump.
fn first_of_dump(alloc: Global, trace: &Trace, replica: u8) -> Result<Option<Fault>, Memory>
    requires { replica < length trace.now.dumps }
    ensures { IfOk result (IsFoundOfDump trace.now replica) }
{
    let dump = &trace.dumps()[replica as usize];
    if dump.count() == 0 {
        return Ok(None);
    }
    let applied = dump.applied();
    if applied > places(trace) {
        return Ok(Some(Fault::PrefixPastLog(replica)));
    }
    if let Some(_) = first_resting(trace, replica, applied) {
        return Ok(Some(Fault::PrefixShort(replica)));
    }
    let space = space_at(alloc, trace, applied)?;
    match table_fault(alloc, dump, &space)? {
        None => Ok(None),
        Some(fault) => Ok(Some(fault_at(replica, fault))),
    }
}

/// The first fault of the dump of a replica, and what shows it; or that nothing is wrong with it.
fn told_of_dump(alloc: Global, trace: &Trace, replica: u8) -> Result<DumpExplanation, Memory>
    requires { replica < length trace.now.dumps }
    ensures replica { IfOk result (λ told. told_replica told ≡ replica) }
    ensures told { IfOk result (IsToldOfDump trace.now) }
{
    match first_of_dump(alloc, trace, replica)? {
        None => Ok(DumpExplanation::Sound(replica)),
        Some(fault) => {
            let shown = explain_dump(alloc, trace, fault)?;
            Ok(DumpExplanation::Faulty(replica, fault, shown))
        }
    }
}

/// Whether a replica is not that one, if one is given.
fn is_other(own: Option<u8>, replica: u8) -> bool
    ensures { result ≡ is_other own replica }
{
    match own {
        None => true,
        Some(own) => replica != own,
    }
}

/// The replica whose dump a fault is of.
pub(crate) fn replica_of(fault: Fault) -> Option<u8>
    ensures { result ≡ replica_of fault }
{
    match fault {
        Fault::PrefixPastLog(replica)
        | Fault::PrefixShort(replica)
        | Fault::MissingFrame(replica, _)
        | Fault::SharedFrame(replica, _)
        | Fault::ReservedBit(replica, _, _)
        | Fault::StrayFrame(replica, _)
        | Fault::Differs(replica, _) => Some(replica),
        _ => None,
    }
}

/// What is wrong with each dump but the one of a replica, if one is given.
fn told_of_dumps(
    alloc: Global,
    trace: &Trace,
    own: Option<u8>,
) -> Result<Vec<DumpExplanation>, Memory>
    ensures { IfOk result (λ dumps. AreToldOfDumps trace.now own dumps.items) }
{
    let mut dumps = Vec::new(alloc);
    for replica in 0..trace.dumps().len() {
        if is_other(own, replica as u8) {
            let told = told_of_dump(alloc, trace, replica as u8)?;
            dumps.push(told)?;
        }
    }
    Ok(dumps)
}

/// The verdict on a trace with what shows it, and what is wrong with each other dump.
fn explain_all(alloc: Global, trace: &Trace) -> Result<FullExplanation, Memory>
    ensures { (bytes : List ℕ) → Spells bytes trace.now → IfOk result (IsFullExplanationOf bytes) }
{
    let explanation = explain_trace(alloc, trace)?;
    let dumps = match &explanation {
        Explanation::Yes(_, _) => Vec::new(alloc),
        Explanation::No(fault, _) => told_of_dumps(alloc, trace, replica_of(*fault))?,
    };
    Ok(FullExplanation { explanation, dumps })
}

/// The same as `explain_read`, and where the first fault is not of the format also what is wrong with each dump that this fault is not
/// of: the first fault of that dump, and what shows it, or that nothing is wrong with it.
///
/// Takes what `explain_read` takes, then for each such dump a space and what the check of a dump takes, and what shows its fault.
///
/// # Errors
///
/// `Memory` where a growth of memory was refused, here or as the bytes were read.
pub fn explain_all_read(
    alloc: Global,
    read: Result<Trace, Unread>,
) -> Result<FullExplanation, Memory>
    ensures { (bytes : List ℕ) → ReadsUnits bytes read
        → IfOk result (IsFullExplanationOf bytes) }
{
    match read {
        Ok(trace) => explain_all(alloc, &trace),
        Err(Unread::Memory) => Err(Memory),
        Err(Unread::Bad(bad)) => {
            let explanation = Explanation::No(Fault::Format(bad.fault), Evidence::Format(bad));
            Ok(FullExplanation {
                explanation,
                dumps: Vec::new(alloc),
            })
        }
    }
}
