//! What `explain` answers to a trace that is read in blocks: the verdict with what shows its fault, as lines or as JSON, and with `--all`
//! what is wrong with each other dump.

ghost use Rattle.std.specs.Prelude.{◌≡◌, ℕ, IfOk, IfErr, List, string_bytes};
ghost use Rattle.nr_explain.specs.Units.{ReadsUnits};
ghost use Rattle.audit_texts.specs.Explained.{explanation_status, told_explanation, IsExplained};
ghost use Rattle.audit_texts.specs.FullExplained.{told_full, IsFullyExplained};
ghost use Rattle.audit_readers.specs.Answers.{HasReadFew, WritesReport};
ghost use Rattle.audit_readers.specs.Ends.{RefusesUnreadable};
ghost use Rattle.audit_readers.specs.Refusals.{IsEndFault, WritesAnswersAlone};

use crate::ends::write_report;
use crate::fault::ProgFault;
use crate::report::Report;
use crate::source::Source;
use crate::unit_input::read_units;
use audit_texts::{told_explanation, told_full};
use nr_explain::{Explanation, FullExplanation, Unread, explain_all_read, explain_read};
use nr_trace::Trace;
use std::alloc::Global;
use std::io::Write;
use vs_types::Memory;

/// 0 where the trace is right, else 1.
fn status_of(explanation: &Explanation) -> u8
    ensures { result ≡ explanation_status explanation.now }
{
    match explanation {
        Explanation::Yes(_, _) => 0,
        Explanation::No(_, _) => 1,
    }
}

/// The report of an explanation.
fn explanation_report(
    alloc: Global,
    as_json: bool,
    explanation: &Explanation,
) -> Result<Report, Memory>
    ensures { IfOk result (λ report.
        (string_bytes report.text ≡ told_explanation as_json explanation.now)
        × (report.status ≡ explanation_status explanation.now)) }
{
    let text = told_explanation(alloc, as_json, explanation)?;
    Ok(Report {
        text,
        status: status_of(explanation),
    })
}

/// What `explain` answers to what was read of an input: the lines of its explanation, or the JSON object of it, and 0 where it
/// is a right trace, else 1. Allocates memory for the judgement, the evidence and the text.
///
/// # Errors
///
/// `Memory` where a growth of memory was refused, here or as the input was read.
pub fn explained_read(
    alloc: Global,
    read: Result<Trace, Unread>,
    as_json: bool,
) -> Result<Report, Memory>
    ensures { (bytes : List ℕ) → ReadsUnits bytes read → IfOk result (λ report.
        IsExplained as_json bytes (string_bytes report.text) report.status) }
{
    let explanation = explain_read(alloc, read)?;
    explanation_report(alloc, as_json, &explanation)
}

/// Reads a trace in blocks, judges it, and writes the verdict. For a no it adds a sentence and what shows the fault, as lines or as one
/// JSON object. The status is 0 where it is right, else 1. It stops reading as soon as a whole unit has a fault, or a byte is after the
/// last unit. If it gives no answer, some input may have been read, and nothing was written but where that failed.
///
/// # Errors
///
/// `CannotRead` and `CannotWrite` where an end gave an error, `Memory` where a growth of memory was refused.
pub fn explain_io<R: Source, W: Write>(
    alloc: Global,
    reader: &mut R,
    writer: &mut W,
    as_json: bool,
) -> Result<u8, ProgFault>
    ensures ok { IfOk result (WritesReport (IsExplained as_json) (R.remaining reader.old)
        (W.contents writer.old) (W.contents writer.new)) }
    ensures err { IfErr result IsEndFault }
    ensures alone { WritesAnswersAlone writer.old writer.new result }
    ensures few { HasReadFew (R.remaining reader.old) (R.remaining reader.new) }
    ensures unread { RefusesUnreadable 70647893 (R.remaining reader.old) (R.remaining reader.new)
        (R.last_read reader.new) result }
{
    let read = read_units(alloc, reader)?;
    let report = explained_read(alloc, read, as_json)?;
    write_report(writer, &report)
}

/// The report of a full explanation.
fn full_report(alloc: Global, as_json: bool, full: &FullExplanation) -> Result<Report, Memory>
    ensures { IfOk result (λ report. (string_bytes report.text ≡ told_full as_json full.now)
        × (report.status ≡ explanation_status full.now.explanation)) }
{
    let text = told_full(alloc, as_json, full)?;
    Ok(Report {
        text,
        status: status_of(&full.explanation),
    })
}

/// What `explain --all` answers to what was read of an input: as `explained_read`, and then what is wrong with each dump that the first
/// fault is not of, where there is a fault and it is not of the format. Allocates memory for the judgement, the evidence and the text.
///
/// # Errors
///
/// `Memory` where a growth of memory was refused, here or as the input was read.
pub fn fully_explained_read(
    alloc: Global,
    read: Result<Trace, Unread>,
    as_json: bool,
) -> Result<Report, Memory>
    ensures { (bytes : List ℕ) → ReadsUnits bytes read → IfOk result (λ report.
        IsFullyExplained as_json bytes (string_bytes report.text) report.status) }
{
    let full = explain_all_read(alloc, read)?;
    full_report(alloc, as_json, &full)
}

/// As `explain_io`, and after the explanation writes what is wrong with each dump that the first fault is not of: the first fault of
/// that dump with a sentence and what shows it, or that it has none. For a right trace, and for an input that spells none, it writes what
/// `explain_io` writes.
///
/// # Errors
///
/// `CannotRead` and `CannotWrite` where an end gave an error, `Memory` where a growth of memory was refused.
pub fn explain_all_io<R: Source, W: Write>(
    alloc: Global,
    reader: &mut R,
    writer: &mut W,
    as_json: bool,
) -> Result<u8, ProgFault>
    ensures ok { IfOk result (WritesReport (IsFullyExplained as_json) (R.remaining reader.old)
        (W.contents writer.old) (W.contents writer.new)) }
    ensures err { IfErr result IsEndFault }
    ensures alone { WritesAnswersAlone writer.old writer.new result }
    ensures few { HasReadFew (R.remaining reader.old) (R.remaining reader.new) }
    ensures unread { RefusesUnreadable 70647893 (R.remaining reader.old) (R.remaining reader.new)
        (R.last_read reader.new) result }
{
    let read = read_units(alloc, reader)?;
    let report = fully_explained_read(alloc, read, as_json)?;
    write_report(writer, &report)
}
