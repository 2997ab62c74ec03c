//! The verdict on a trace: judged, and printed.

ghost use Rattle.std.specs.Prelude.{◌≡◌, ℕ, nat_lt, IfOk, IfErr, List, false, string_bytes, true};
ghost use Rattle.nr_audit.specs.Meetings.{overlapping};
ghost use Rattle.nr_trace.specs.Feed.{Reads};
ghost use Rattle.nr_audit.specs.Verdict.{verdict_status};
ghost use Rattle.audit_readers.specs.Refusals.{IsEndFault, WritesAnswersAlone};
ghost use Rattle.audit_readers.specs.Answers.{audit_status, HasReadFew, IsAudit, IsNamedAudit, WritesReport};
ghost use Rattle.audit_readers.specs.Ends.{RefusesUnreadable};
ghost use Rattle.audit_readers.specs.inside.Found.{IsFound};
ghost use Rattle.audit_texts.specs.AuditJson.{named_verdict, told_verdict};

use crate::ends::write_report;
use crate::fault::ProgFault;
use crate::progress::Progress;
use crate::report::Report;
use crate::source::Source;
use crate::unit_input::read_trace;
use audit_texts::{named_verdict, told_verdict};
use nr_audit::{Totals, Verdict, judge_read, overlapping};
use nr_trace::{Fault, Format, Trace};
use std::alloc::{AllocError, Global};
use std::io::Write;
use vs_types::{Fail, Memory};

/// What an audit finds of a trace.
#[derive(Drop)]
struct Found {
    verdict: Verdict,
    /// How many calls of a right trace overlap another one; 0 where that isn't counted.
    overlapping: u64,
}

impl Found {
    /// Gives the progress how much a right trace has.
    fn show<P: Progress>(&self, progress: &mut P) {
        if let Verdict::Yes(order) = &self.verdict {
            let mut totals = Totals::none();
            totals.calls = order.calls().len() as u64;
            totals.met.overlapping = self.overlapping;
            progress.counted(totals);
        }
    }
}

/// How many calls of a trace overlap another one, where that is to be counted.
fn count(alloc: Global, trace: &Trace, counts: bool) -> Result<u64, Memory>
    ensures { counts ≡ true → IfOk result (λ count. count ≡ overlapping trace.now) }
{
    if counts {
        overlapping(alloc, trace)
    } else {
        Ok(0)
    }
}

/// Whether what is answered, or shown, depends on how many calls overlap.
pub(crate) fn depends(as_json: bool, least: u32, is_shown: bool) -> bool
    ensures { result ≡ false → (as_json ≡ false) × (least ≡ 0) }
{
    as_json || least > 0 || is_shown
}

/// What is found of what was read.
fn find(alloc: Global, read: Result<Trace, Fail<Format>>, counts: bool) -> Result<Found, Memory>
    ensures { (bytes : List ℕ) → Reads bytes read → IfOk result (IsFound counts bytes) }
{
    match read {
        Ok(trace) => {
            let overlapping = count(alloc, &trace, counts)?;
            let verdict = judge_read(alloc, Ok(trace))?;
            Ok(Found {
                verdict,
                overlapping,
            })
        }
        Err(Fail::Memory) => Err(Memory),
        Err(Fail::Refused(fault)) => Ok(Found {
            verdict: Verdict::No(Fault::Format(fault)),
            overlapping: 0,
        }),
    }
}

fn status_of(verdict: &Verdict) -> u8
    ensures { result ≡ verdict_status verdict.now }
{
    match verdict {
        Verdict::Yes(_) => 0,
        Verdict::No(_) => 1,
    }
}

/// Whether fewer calls overlap than are asked for.
pub(crate) fn is_fewer(overlapping: u64, least: u32) -> bool
    ensures { result ≡ nat_lt overlapping least }
{
    overlapping < u64::from(least)
}

/// The status where so many calls are to overlap.
fn counted_status(found: &Found, least: u32) -> u8
    ensures { result ≡ audit_status least found.now.verdict found.now.overlapping }
{
    match found.verdict {
        Verdict::Yes(_) => {
            if is_fewer(found.overlapping, least) {
                2
            } else {
                0
            }
        }
        Verdict::No(_) => 1,
    }
}

/// What is answered to what was found.
fn report_of(alloc: Global, found: &Found, as_json: bool, least: u32) -> Result<Report, AllocError>
    ensures text { IfOk result (λ report. string_bytes report.text
        ≡ told_verdict as_json found.now.verdict found.now.overlapping) }
    ensures status { IfOk result (λ report.
        report.status ≡ audit_status least found.now.verdict found.now.overlapping) }
{
    let text = told_verdict(alloc, as_json, &found.verdict, found.overlapping)?;
    Ok(Report {
        text,
        status: counted_status(found, least),
    })
}

/// What `audit` answers to what was read of an input: the lines of its verdict, or its JSON object on a line, and 0 where it is a right
/// trace, else 1. Allocates memory for the judgement, the object and the text.
///
/// # Errors
///
/// `Memory` where a growth of memory was refused, here or as the input was read.
pub fn audit_read(
    alloc: Global,
    read: Result<Trace, Fail<Format>>,
    as_json: bool,
) -> Result<Report, Memory>
    ensures { (bytes : List ℕ) → Reads bytes read → IfOk result (λ report.
        IsAudit as_json 0 bytes (string_bytes report.text) report.status) }
{
    let found = find(alloc, read, as_json)?;
    let report = report_of(alloc, &found, as_json, 0)?;
    Ok(report)
}

/// Reads a trace in blocks, judges it, and writes the verdict, as lines or as a JSON object on a line; the status is 0 where it is right,
/// else 1. Where fewer of the calls of a right trace overlap another one than `least`, it is 2, and what is written the same. It stops
/// reading as soon as a whole unit has a fault, or a byte comes after the last unit. If it gives no answer, some input may have been read,
/// and nothing was written but where that failed.
///
/// The progress gets how much a right trace has. What is written doesn't depend on it. Its overlapping calls are counted where the object
/// has them, the least number is above 0, or the progress wants them; that takes four bytes for each event.
///
/// # Errors
///
/// `CannotRead` and `CannotWrite` where an end gave an error, `Memory` where a growth of memory was refused.
pub fn audit_io<R: Source, W: Write, P: Progress>(
    alloc: Global,
    reader: &mut R,
    writer: &mut W,
    as_json: bool,
    least: u32,
    progress: &mut P,
) -> Result<u8, ProgFault>
    ensures ok { IfOk result (WritesReport (IsAudit as_json least) (R.remaining reader.old)
        (W.contents writer.old) (W.contents writer.new)) }
    ensures err { IfErr result IsEndFault }
    ensures alone { WritesAnswersAlone writer.old writer.new result }
    ensures few { HasReadFew (R.remaining reader.old) (R.remaining reader.new) }
    ensures unread { RefusesUnreadable 70647893 (R.remaining reader.old) (R.remaining reader.new)
        (R.last_read reader.new) result }
{
    let read = read_trace(alloc, reader)?;
    let counts = depends(as_json, least, progress.wants_counts());
    let found = find(alloc, read, counts)?;
    let report = report_of(alloc, &found, as_json, least)?;
    let status = write_report(writer, &report)?;
    found.show(progress);
    Ok(status)
}

/// What is answered to what was found of the file of this name.
fn named_report_of(
    alloc: Global,
    name: &str,
    found: &Found,
    as_json: bool,
) -> Result<Report, AllocError>
    ensures text { IfOk result (λ report. string_bytes report.text
        ≡ named_verdict as_json name.now found.now.verdict found.now.overlapping) }
    ensures status { IfOk result (λ report.
        report.status ≡ verdict_status found.now.verdict) }
{
    let text = named_verdict(alloc, as_json, name, &found.verdict, found.overlapping)?;
    Ok(Report {
        text,
        status: status_of(&found.verdict),
    })
}

/// What is answered to what was read of the file of this name, and 0 where it is a right trace, else 1. The answer is a line of the name, a
/// colon and the first line of the verdict, or the JSON object of the verdict with this name. Needs the memory of `audit_read`.
///
/// # Errors
///
/// `Memory` where a growth of memory was refused, here or as the input was read.
pub fn named_audit_read(
    alloc: Global,
    name: &str,
    read: Result<Trace, Fail<Format>>,
    as_json: bool,
) -> Result<Report, Memory>
    ensures { (bytes : List ℕ) → Reads bytes read → IfOk result (λ report.
        IsNamedAudit as_json name.now bytes (string_bytes report.text) report.status) }
{
    let found = find(alloc, read, as_json)?;
    let report = named_report_of(alloc, name, &found, as_json)?;
    Ok(report)
}

/// Reads a trace as `audit_io` does, judges it, and writes a line: this name, a colon and the first line of the verdict, or the JSON object
/// of the verdict with this name. Needs the memory of `audit_io`. The progress gets how much a right trace has.
///
/// # Errors
///
/// Those of `audit_io`.
pub fn named_audit_io<R: Source, W: Write, P: Progress>(
    alloc: Global,
    reader: &mut R,
    writer: &mut W,
    name: &str,
    as_json: bool,
    progress: &mut P,
) -> Result<u8, ProgFault>
    ensures ok { IfOk result (WritesReport (IsNamedAudit as_json name.now) (R.remaining reader.old)
        (W.contents writer.old) (W.contents writer.new)) }
    ensures err { IfErr result IsEndFault }
    ensures alone { WritesAnswersAlone writer.old writer.new result }
    ensures few { HasReadFew (R.remaining reader.old) (R.remaining reader.new) }
    ensures unread { RefusesUnreadable 70647893 (R.remaining reader.old) (R.remaining reader.new)
        (R.last_read reader.new) result }
{
    let read = read_trace(alloc, reader)?;
    let counts = depends(as_json, 0, progress.wants_counts());
    let found = find(alloc, read, counts)?;
    let report = named_report_of(alloc, name, &found, as_json)?;
    let status = write_report(writer, &report)?;
    found.show(progress);
    Ok(status)
}
