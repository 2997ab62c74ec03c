//! The engine of `pages`, over a reader and a writer.

ghost use Rattle.std.specs.Prelude.{◌≡◌, ℕ, IfErr, IfOk, List, MatchResult, string_bytes};
ghost use Rattle.nr_trace.specs.Feed.{Reads};
ghost use Rattle.audit_readers.specs.Answers.{HasReadFew, WritesReport};
ghost use Rattle.audit_readers.specs.Ends.{RefusesUnreadable};
ghost use Rattle.audit_readers.specs.Refusals.{WritesAnswersAlone};
ghost use Rattle.audit_readers.specs.PagesAnswers.{dump_fault, IsPages, IsPagesFault, IsPagesRefusal, ShowsDump};

use crate::ends::write_report;
use crate::fault::ProgFault;
use crate::report::Report;
use crate::source::Source;
use crate::unit_input::read_trace;
use audit_texts::{dump_text, no_text};
use nr_trace::{Fault, Format, Trace};
use std::alloc::Global;
use std::io::Write;
use vs_types::{Depth, Fail, Memory};
use vs_walk::{Dump, WalkFault};

/// The fault of a trace that a fault of the traversal of a replica's dump is.
fn dump_fault(replica: u8, fault: WalkFault) -> Fault
    ensures { result ≡ dump_fault replica fault }
{
    match fault {
        WalkFault::Missing(number) => Fault::MissingFrame(replica, number),
        WalkFault::Shared(number) => Fault::SharedFrame(replica, number),
        WalkFault::Reserved(number, index) => Fault::ReservedBit(replica, number, index),
    }
}

/// What `pages` answers to the dump of a replica.
fn show_dump(
    alloc: Global,
    dump: &Dump,
    depth: Depth,
    replica: u8,
    as_ranges: bool,
) -> Result<Report, Memory>
    ensures { IfOk result (λ report.
        ShowsDump as_ranges replica depth dump.now (string_bytes report.text) report.status) }
{
    match dump_text(alloc, dump, depth, as_ranges) {
        Ok(text) => Ok(Report { text, status: 0 }),
        Err(Fail::Refused(fault)) => {
            let text = no_text(alloc, dump_fault(replica, fault))?;
            Ok(Report { text, status: 1 })
        }
        Err(Fail::Memory) => Err(Memory),
    }
}

/// What `pages` answers to what was read of an input: the pages of a replica's dump, one by one or as ranges, with status 0; or the
/// line of the first fault of the dump's traversal, or of the format fault, with status 1. Allocates memory for the text and what
/// `dump_text` does.
///
/// # Errors
///
/// `NoSuchReplica` where the trace has no replica of this number; `Memory` where a growth of memory was refused, here or as the input
/// was read.
pub fn pages_read(
    alloc: Global,
    read: Result<Trace, Fail<Format>>,
    replica: u8,
    as_ranges: bool,
) -> Result<Report, ProgFault>
    ensures { (bytes : List ℕ) → Reads bytes read → MatchResult result
        (λ report. IsPages as_ranges replica bytes (string_bytes report.text) report.status)
        (IsPagesRefusal bytes replica) }
{
    match read {
        Ok(trace) => {
            let depth = trace.layout().depth();
            let Some(dump) = trace.dumps().get(replica as usize) else {
                return Err(ProgFault::NoSuchReplica);
            };
            let report = show_dump(alloc, dump, depth, replica, as_ranges)?;
            Ok(report)
        }
        Err(Fail::Refused(fault)) => {
            let text = no_text(alloc, Fault::Format(fault))?;
            Ok(Report { text, status: 1 })
        }
        Err(Fail::Memory) => Err(ProgFault::Memory),
    }
}

/// Reads a trace, and writes the pages of a replica's dump by rising base: a line for each, or, as ranges, one for all that follow one
/// another with one size and the same rights, virtually and physically. The status is 0; or 1 where the input spells no trace, or the
/// traversal of the dump meets a fault, whose line is written then. It reads in blocks, and stops as soon as a whole unit has a fault, or a
/// byte is after the last unit. If it gives no answer, some input may have been read, and nothing was written but where that failed.
///
/// # Errors
///
/// The first that holds of `CannotRead`, `NoSuchReplica`, `CannotWrite`; `Memory` where a growth of memory was refused.
pub fn pages_io<R: Source, W: Write>(
    alloc: Global,
    reader: &mut R,
    writer: &mut W,
    replica: u8,
    as_ranges: bool,
) -> Result<u8, ProgFault>
    ensures ok { IfOk result (WritesReport (IsPages as_ranges replica) (R.remaining reader.old)
        (W.contents writer.old) (W.contents writer.new)) }
    ensures err { IfErr result (IsPagesFault as_ranges replica (R.remaining reader.old)) }
    ensures alone { WritesAnswersAlone writer.old writer.new result }
    ensures few { HasReadFew (R.remaining reader.old) (R.remaining reader.new) }
    ensures unread { RefusesUnreadable 70647893 (R.remaining reader.old) (R.remaining reader.new)
        (R.last_read reader.new) result }
{
    let read = read_trace(alloc, reader)?;
    let report = pages_read(alloc, read, replica, as_ranges)?;
    write_report(writer, &report)
}
