//! The pages with which a chain begins, and those after its last segment.

ghost use Rattle.std.specs.Prelude.{◌≡◌, ◌-◌, ◌^◌, ℕ, [], IfErr, IfOk, List, None, OnOk, Option, Result, length, string_bytes};
ghost use Rattle.vs_types.specs.declared.requests.refusal.Fail.{Fail};
ghost use Rattle.vs_types.specs.Refusal.{IfRefused};
ghost use Rattle.vs_types.specs.Space.{pages};
ghost use Rattle.nr_trace.specs.Feed.{EndsSegment, FedSegment};
ghost use Rattle.nr_trace.specs.Feed.Fed.{Taken};
ghost use Rattle.nr_trace.specs.Recording.{IsRecording, Recording};
ghost use Rattle.nr_trace.specs.declared.refusals.fault.Format.{Format};
ghost use Rattle.nr_trace.specs.Run.{Run};
ghost use Rattle.nr_chain.specs.Fed.{IsKeptOf};
ghost use Rattle.nr_audit.specs.Faults.{IsFirstAfter, IsSoundAfter};
ghost use Rattle.nr_audit.specs.Start.{first_space};
ghost use Rattle.audit_readers.specs.Answers.{WritesReport};
ghost use Rattle.audit_readers.specs.Ends.{RefusesUnreadable};
ghost use Rattle.audit_readers.specs.Refusals.{IsEndFault, WritesAnswersAlone};
ghost use Rattle.audit_texts.specs.Listing.{pages_text};
ghost use Rattle.audit_readers.specs.ChainAudit.{HasReadFewOfChain};
ghost use Rattle.audit_readers.specs.ChainPages.{HasReadFewOfStart, IsChainEnd, IsChainStart};
ghost use Rattle.audit_readers.specs.inside.Begun.{BeginsSo, HasReadFirst, SaysOfFirst, SaysUnread};
ghost use Rattle.audit_readers.specs.inside.Judged.{IsTextAfter, SaysEnd, SaysFault};

use crate::chain::audit::{Judged, MOST_BLOCKS, judge_blocks};
use crate::ends::{BLOCK, read_block, write_report};
use crate::fault::ProgFault;
use crate::progress::Unwatched;
use crate::report::Report;
use crate::source::Source;
use audit_texts::{Style, dump_text, end_lines, space_text};
use nr_audit::judge_segment;
use nr_chain::Chain;
use nr_trace::{Fault, Format, SegmentFeed, Trace};
use std::alloc::Global;
use std::io::{self, Write};
use vs_types::{Fail, Memory};

/// What is said of a chain whose segment of this number is the first with a fault.
fn fault_report(alloc: Global, number: u64, fault: Fault) -> Result<Report, Memory>
    ensures { IfOk result
        (λ report. SaysFault number fault (string_bytes report.text) report.status) }
{
    let text = end_lines(alloc, number, Some(fault))?;
    Ok(Report { text, status: 1 })
}

/// Reads blocks and feeds each, until the first segment is whole, or can't be any more. What the feed ends with is then what was read.
fn feed_first<R: Source>(
    reader: &mut R,
    first: &mut SegmentFeed,
    block: &mut [u8],
) -> Result<(), ProgFault>
    requires empty { let nothing : FedSegment = record { before = None; pieces = Taken [] } in
        first.old ≡ nothing }
    requires block { length block.old ≡ 4096 }
    ensures ok { OnOk result ((read : Result Recording (Fail Format)) → EndsSegment first.new read
        → HasReadFirst (R.remaining reader.old) read) }
    ensures err { IfErr result (λ fault. fault ≡ ProgFault.CannotRead) }
    ensures few { HasReadFewOfStart (R.remaining reader.old) (R.remaining reader.new) }
    ensures unread { RefusesUnreadable (2 ^ 52 - 1) (R.remaining reader.old)
        (R.remaining reader.new) (R.last_read reader.new) result }
{
    let mut room = MOST_BLOCKS;
    while room > 0 {
        let count = read_block(reader, block)?;
        if count == 0 {
            return Ok(());
        }
        if let Err(_fail) = first.feed(&block[..count]) {
            return Ok(());
        }
        if first.is_whole() {
            return Ok(());
        }
        room -= 1;
    }
    Err(ProgFault::CannotRead)
}

/// Reads the first segment.
fn read_first<R: Source>(
    alloc: Global,
    reader: &mut R,
    block: &mut [u8],
) -> Result<Result<Trace, Fail<Format>>, ProgFault>
    requires { length block.old ≡ 4096 }
    ensures ok { IfOk result (HasReadFirst (R.remaining reader.old)) }
    ensures err { IfErr result (λ fault. fault ≡ ProgFault.CannotRead) }
    ensures few { HasReadFewOfStart (R.remaining reader.old) (R.remaining reader.new) }
    ensures unread { RefusesUnreadable (2 ^ 52 - 1) (R.remaining reader.old)
        (R.remaining reader.new) (R.last_read reader.new) result }
{
    let mut first = SegmentFeed::new(alloc, None);
    feed_first(reader, &mut first, block)?;
    Ok(first.end())
}

/// The pages of the start of a segment that is right as the first one.
fn start_text(alloc: Global, segment: &Trace, as_ranges: bool) -> Result<String, Memory>
    requires { IsSoundAfter None segment.now }
    ensures { IfOk result (λ text.
        string_bytes text ≡ pages_text as_ranges (pages (first_space None segment.now))) }
{
    let depth = segment.layout().depth();
    let Some(start) = segment.start() else {
        return Ok(String::new(alloc));
    };
    match dump_text(alloc, start, depth, as_ranges) {
        Ok(text) => Ok(text),
        Err(Fail::Memory) => Err(Memory),
        Err(Fail::Refused(_)) => unreachable!(),
    }
}

/// Judges the first segment of a chain.
fn judge_first(alloc: Global, segment: &Trace) -> Result<(), Fail<Fault>>
    ensures sound { OnOk result (IsSoundAfter None segment.now) }
    ensures first { IfErr result (IfRefused (IsFirstAfter None segment.now)) }
{
    match judge_segment(alloc, segment, None, false) {
        Ok(_) => Ok(()),
        Err(fail) => Err(fail),
    }
}

/// What is said of the start of a chain with this first segment.
fn first_report(alloc: Global, segment: &Trace, as_ranges: bool) -> Result<Report, Memory>
    ensures { IfOk result (λ report.
        SaysOfFirst as_ranges segment.now (string_bytes report.text) report.status) }
{
    match judge_first(alloc, segment) {
        Ok(()) => {
            let text = start_text(alloc, segment, as_ranges)?;
            Ok(Report { text, status: 0 })
        }
        Err(Fail::Memory) => Err(Memory),
        Err(Fail::Refused(fault)) => fault_report(alloc, 0, fault),
    }
}

/// What is said of a chain whose first segment can't be read.
fn unread_report(alloc: Global, fail: Fail<Format>) -> Result<Report, Memory>
    ensures { IfOk result (λ report. SaysUnread fail (string_bytes report.text) report.status) }
{
    match fail {
        Fail::Refused(fault) => fault_report(alloc, 0, Fault::Format(fault)),
        Fail::Memory => Err(Memory),
    }
}

/// What is said of the start of a chain of which this was read.
fn start_report(
    alloc: Global,
    read: Result<Trace, Fail<Format>>,
    as_ranges: bool,
) -> Result<Report, Memory>
    ensures { (bytes : List ℕ) → BeginsSo bytes read
        → IfOk result (λ report.
        IsChainStart as_ranges bytes (string_bytes report.text) report.status) }
{
    match read {
        Ok(segment) => first_report(alloc, &segment, as_ranges),
        Err(fail) => unread_report(alloc, fail),
    }
}

/// Reads the first segment of a chain, judges it, and writes the pages of its start by rising base, with status 0. It writes a line for
/// each page, or, as ranges, one for all that follow one another with one size and the same rights, virtually and physically. It writes
/// nothing if there is no start. If the segment has a fault, it writes the last lines of an audit in place of the pages, and the status
/// is 1. It reads in blocks of 4,096 bytes, and none behind that with which the segment is whole or has a fault of the format.
///
/// It allocates what the segment says, what its judgement takes, and the lines. If it gives no answer, nothing was written but where
/// that failed.
///
/// # Errors
///
/// `CannotRead` where the last read gave an error, or the segment isn't whole within 2^52 - 1 reads; `CannotWrite` where the writer gave
/// an error, `Memory` where a growth of memory was refused.
pub fn chain_start_io<R: Source, W: Write>(
    alloc: Global,
    reader: &mut R,
    writer: &mut W,
    as_ranges: bool,
) -> Result<u8, ProgFault>
    ensures ok { IfOk result (WritesReport (IsChainStart as_ranges) (R.remaining reader.old)
        (W.contents writer.old) (W.contents writer.new)) }
    ensures err { IfErr result IsEndFault }
    ensures alone { WritesAnswersAlone writer.old writer.new result }
    ensures few { HasReadFewOfStart (R.remaining reader.old) (R.remaining reader.new) }
    ensures unread { RefusesUnreadable (2 ^ 52 - 1) (R.remaining reader.old)
        (R.remaining reader.new) (R.last_read reader.new) result }
{
    let read = read_first(alloc, reader, &mut [0; BLOCK])?;
    let report = start_report(alloc, read, as_ranges)?;
    write_report(writer, &report)
}

/// The pages after the last segment of a chain, if there is one.
fn last_text(alloc: Global, chain: &Chain, as_ranges: bool) -> Result<String, Memory>
    ensures { (run : Option Run) → IsKeptOf run chain.now.kept
        → IfOk result (λ text. IsTextAfter as_ranges run (string_bytes text)) }
{
    match chain.space() {
        Some(space) => space_text(alloc, space, as_ranges),
        None => Ok(String::new(alloc)),
    }
}

/// What is said of the end of a chain that was judged.
fn end_report(alloc: Global, judged: Judged, as_ranges: bool) -> Result<Report, Memory>
    ensures { IfOk result
        (λ report. SaysEnd as_ranges judged (string_bytes report.text) report.status) }
{
    match judged {
        Judged::Ended(chain, number, _) => {
            let text = last_text(alloc, &chain, as_ranges);
            let found = chain.end();
            let text = text?;
            match found {
                None => Ok(Report { text, status: 0 }),
                Some(fault) => fault_report(alloc, number, fault),
            }
        }
        Judged::Faulty(number, fault) => fault_report(alloc, number, fault),
    }
}

/// Reads a chain in blocks of 4,096 bytes, judges each segment as soon as it is whole, and at the end writes the pages after the last
/// segment, as `chain_start_io` has those of a start. The status is 0. If a segment has a fault, it writes the last lines of an audit
/// in place of the pages, and the status is 1. It reads nothing behind the block in which the first fault shows.
///
/// It allocates what one segment says, the space before it, what its judgement takes, and the lines. If it gives no answer, nothing
/// was written but where that failed.
///
/// # Errors
///
/// Those of `audit_chain_io`.
pub fn chain_end_io<R: Source, W: Write>(
    alloc: Global,
    reader: &mut R,
    writer: &mut W,
    as_ranges: bool,
) -> Result<u8, ProgFault>
    ensures ok { IfOk result (WritesReport (IsChainEnd as_ranges) (R.remaining reader.old)
        (W.contents writer.old) (W.contents writer.new)) }
    ensures err { IfErr result IsEndFault }
    ensures alone { WritesAnswersAlone writer.old writer.new result }
    ensures few { HasReadFewOfChain (R.remaining reader.old) (R.remaining reader.new) }
    ensures unread { RefusesUnreadable (2 ^ 52 - 1) (R.remaining reader.old)
        (R.remaining reader.new) (R.last_read reader.new) result }
{
    let style = Style {
        as_json: false,
        quiet: true,
    };
    let mut nobody = Unwatched;
    let judged = judge_blocks(
        alloc,
        reader,
        &mut io::sink(),
        &mut [0; BLOCK],
        style,
        false,
        &mut nobody,
    )?;
    let report = end_report(alloc, judged, as_ranges)?;
    write_report(writer, &report)
}
