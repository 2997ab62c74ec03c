//! The walk of an address in a dump of a trace.

ghost use Rattle.std.specs.Prelude.{◌≡◌, ℕ, IfOk, IfErr, List, MatchResult, string_bytes};
ghost use Rattle.vs_types.specs.Depth.{IsCanonical};
ghost use Rattle.vs_types.specs.Finds.{Finds};
ghost use Rattle.vs_text.specs.Words.{SpellsAddress};
ghost use Rattle.nr_trace.specs.Feed.{Reads};
ghost use Rattle.nr_trace.specs.Spelling.{Spells};
ghost use Rattle.audit_readers.specs.Answers.{HasReadFew, IsResolve, IsWalk, WritesReport, walk_lines};
ghost use Rattle.audit_readers.specs.Refusals.{IsWalkFault, IsResolveFault, WritesAnswersAlone};
ghost use Rattle.audit_readers.specs.Ends.{RefusesUnreadable};

use crate::ends::write_report;
use crate::fault::ProgFault;
use crate::report::Report;
use crate::source::Source;
use crate::unit_input::read_trace;
use audit_texts::{no_text, push_steps, walk_text};
use nr_explain::entries_read;
use nr_trace::{Fault, Format, Trace};
use std::alloc::Global;
use std::io::Write;
use vs_text::parse_address;
use vs_types::{Depth, Fail, Memory};
use vs_walk::{Dump, translate};

/// The address that a word of the command line spells.
fn spelled_address(word: &str) -> Option<u64>
    ensures { Finds (SpellsAddress word.now) result }
{
    parse_address(word.as_bytes())
}

/// The line of where the walk of an address ends in a dump, and with steps those of the entries that it reads.
fn walk_lines(
    alloc: Global,
    dump: &Dump,
    depth: Depth,
    address: u64,
    with_steps: bool,
) -> Result<String, Memory>
    requires { IsCanonical depth address }
    ensures { IfOk result (λ text. string_bytes text
        ≡ walk_lines with_steps depth dump.now address) }
{
    let walk = translate(dump, dump.root(), depth, address);
    let mut text = walk_text(alloc, walk)?;
    if with_steps {
        let path = entries_read(alloc, dump, depth, address)?;
        push_steps(alloc, &mut text, path.as_slice())?;
    }
    Ok(text)
}

/// The report of where the walk of an address ends in a replica's dump of a trace.
fn walk_report(
    alloc: Global,
    trace: &Trace,
    address: u64,
    replica: u8,
    with_steps: bool,
) -> Result<Report, ProgFault>
    ensures { (bytes : List ℕ) → Spells bytes trace.now → MatchResult result
        (λ report. IsWalk address replica with_steps bytes (string_bytes report.text) report.status)
        (IsWalkFault bytes address replica) }
{
    let depth = trace.layout().depth();
    if !depth.is_canonical(address) {
        return Err(ProgFault::NotCanonical);
    }
    let Some(dump) = trace.dumps().get(replica as usize) else {
        return Err(ProgFault::NoSuchReplica);
    };
    let text = walk_lines(alloc, dump, depth, address, with_steps)?;
    Ok(Report { text, status: 0 })
}

/// What `resolve` answers to what was read of an input: where the walk of the address ends in a replica's dump, and with steps
/// the entries that it reads, with status 0; or the line of the format fault, with status 1. Allocates memory for the text and
/// the entries.
///
/// # Errors
///
/// The first that holds of `NotCanonical`, where the address is not canonical at the trace's depth, and `NoSuchReplica`; `Memory`
/// where a growth of memory was refused, here or as the input was read.
pub fn resolve_read(
    alloc: Global,
    read: Result<Trace, Fail<Format>>,
    address: u64,
    replica: u8,
    with_steps: bool,
) -> Result<Report, ProgFault>
    ensures { (bytes : List ℕ) → Reads bytes read → MatchResult result
        (λ report. IsWalk address replica with_steps bytes (string_bytes report.text) report.status)
        (IsWalkFault bytes address replica) }
{
    match read {
        Ok(trace) => walk_report(alloc, &trace, address, replica, with_steps),
        Err(Fail::Refused(fault)) => {
            let text = no_text(alloc, Fault::Format(fault))?;
            Ok(Report { text, status: 1 })
        }
        Err(Fail::Memory) => Err(ProgFault::Memory),
    }
}

/// Reads a trace, and writes where the walk of an address ends in a replica's dump, and with steps the entries that it reads. It
/// tests the spelling of the address, then reads, then tests whether the address is canonical at the trace's depth, then the
/// replica. The status is 0, or 1 where the input spells no trace. It reads in blocks, and stops as soon as a whole unit has a
/// fault, or a byte is after the last unit. If it gives no answer, some input may have been read, and nothing was written but
/// where that failed.
///
/// # Errors
///
/// The first that holds of `BadAddress`, `CannotRead`, `NotCanonical`, `NoSuchReplica`, `CannotWrite`; `Memory` where a growth
/// of memory was refused.
pub fn resolve_io<R: Source, W: Write>(
    alloc: Global,
    reader: &mut R,
    writer: &mut W,
    address: &str,
    replica: u8,
    with_steps: bool,
) -> Result<u8, ProgFault>
    ensures ok { IfOk result (WritesReport (IsResolve address.now replica with_steps)
        (R.remaining reader.old) (W.contents writer.old) (W.contents writer.new)) }
    ensures err { IfErr result
        (IsResolveFault address.now replica with_steps (R.remaining reader.old)) }
    ensures alone { WritesAnswersAlone writer.old writer.new result }
    ensures few { HasReadFew (R.remaining reader.old) (R.remaining reader.new) }
    ensures unread { RefusesUnreadable 70647893 (R.remaining reader.old) (R.remaining reader.new)
        (R.last_read reader.new) result }
{
    let address = spelled_address(address).ok_or(ProgFault::BadAddress)?;
    let read = read_trace(alloc, reader)?;
    let report = resolve_read(alloc, read, address, replica, with_steps)?;
    write_report(writer, &report)
}
