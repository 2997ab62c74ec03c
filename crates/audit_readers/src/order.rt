//! An order of the calls of a trace: looked for, and printed.

ghost use Rattle.std.specs.Prelude.{◌≡◌, IfErr, IfOk};
ghost use Rattle.std.specs.Io.KnownBytes.{Appends};
ghost use Rattle.audit_readers.specs.Answers.{HasReadFew, WritesReport};
ghost use Rattle.audit_readers.specs.Ends.{AppendsPart, RefusesUnreadable};
ghost use Rattle.audit_readers.specs.OrderAnswers.{finding_status, told_finding, told_right, IsOrderAnswer};
ghost use Rattle.audit_readers.specs.Refusals.{IsEndFault, WritesAnswersAlone};

use crate::ends::write_text;
use crate::fault::ProgFault;
use crate::source::Source;
use crate::unit_input::read_trace;
use audit_texts::{no_text, yes_text};
use nr_order::{Finding, Ordered, find_order_read};
use nr_trace::write;
use std::alloc::Global;
use std::io::Write;
use vs_types::Memory;

/// What is written of a right trace: `yes` and its order; or, as a trace, the one that has the order as its log.
fn told_right(alloc: Global, ordered: &Ordered, as_trace: bool) -> Result<Vec<u8>, Memory>
    ensures { IfOk result (λ bytes. bytes.items ≡ told_right as_trace ordered.now) }
{
    if as_trace {
        return write(alloc, &ordered.trace);
    }
    Ok(yes_text(alloc, ordered.order.calls())?.into_bytes())
}

/// What is written of a finding.
fn told_finding(alloc: Global, finding: &Finding, as_trace: bool) -> Result<Vec<u8>, Memory>
    ensures { IfOk result (λ bytes. bytes.items ≡ told_finding as_trace finding.now) }
{
    match finding {
        Finding::Right(ordered) => told_right(alloc, ordered, as_trace),
        Finding::Wrong(fault) => Ok(no_text(alloc, *fault)?.into_bytes()),
        Finding::NoVerdict => Ok(String::from_str(alloc, "no verdict\n")?.into_bytes()),
    }
}

fn status_of(finding: &Finding) -> u8
    ensures { result ≡ finding_status finding.now }
{
    match finding {
        Finding::Right(_) => 0,
        Finding::Wrong(_) => 1,
        Finding::NoVerdict => 2,
    }
}

/// Writes the bytes and nothing else, and gives the status.
fn write_told<W: Write>(writer: &mut W, told: &[u8], status: u8) -> Result<u8, ProgFault>
    ensures ok { IfOk result (λ given. (given ≡ status)
        × Appends (W.contents writer.old) (W.contents writer.new) told.now) }
    ensures err { IfErr result (λ fault. fault ≡ ProgFault.CannotWrite) }
    ensures part { IfErr result (λ _.
        AppendsPart (W.contents writer.old) (W.contents writer.new) told.now) }
{
    write_text(writer, told)?;
    Ok(status)
}

/// Reads a trace in blocks, and looks for an order of its calls with at most so many steps. It writes what is found: `yes` and an order,
/// status 0; a fault that needs no order, status 1; or `no verdict`, status 2. As a trace it writes, in place of a yes, the bytes of the
/// trace that has the order as its log. The log and the `at`s that are recorded aren't judged. It reads as `audit_io` does. If it gives no
/// answer, some input may have been read, and nothing was written but where that failed.
///
/// # Errors
///
/// `CannotRead` and `CannotWrite` where an end gave an error, `Memory` where a growth of memory was refused.
pub fn order_io<R: Source, W: Write>(
    alloc: Global,
    reader: &mut R,
    writer: &mut W,
    as_trace: bool,
    steps: u32,
) -> Result<u8, ProgFault>
    ensures ok { IfOk result (WritesReport (IsOrderAnswer as_trace) (R.remaining reader.old)
        (W.contents writer.old) (W.contents writer.new)) }
    ensures err { IfErr result IsEndFault }
    ensures alone { WritesAnswersAlone writer.old writer.new result }
    ensures few { HasReadFew (R.remaining reader.old) (R.remaining reader.new) }
    ensures unread { RefusesUnreadable 70647893 (R.remaining reader.old) (R.remaining reader.new)
        (R.last_read reader.new) result }
{
    let read = read_trace(alloc, reader)?;
    let finding = find_order_read(alloc, read, steps)?;
    let told = told_finding(alloc, &finding, as_trace)?;
    write_told(writer, &told, status_of(&finding))
}
