//! Files that are audited as tests: lines of the Test Anything Protocol.

ghost use Rattle.std.specs.Prelude.{◌≡◌, ◌++◌, IfErr, IfOk, OnOk, codes, decimal, false, map, string_bytes};
ghost use Rattle.std.specs.Io.KnownBytes.{Appends};
ghost use Rattle.audit_commands.specs.Tasks.{AuditsTests, IsUnjudged, IsVerdictLine, IsVerdictOn, WritesTest};
ghost use Rattle.audit_commands.specs.Tasks.{passed_words, plan_lines, refused_words, test_head};
ghost use Rattle.audit_readers.specs.Refusals.{refusal_status};

use crate::diagnostics::Diagnostics;
use crate::files::FilesByName;
use crate::refusal::tell_named;
use crate::remarks::remark;
use crate::task::Task;
use audit_readers::{
    Input, ProgFault, Report, named_audit_read, read_trace, write_report, write_text,
};
use itoa::Buffer;
use std::alloc::Global;
use std::io::{Read, Write};

/// The verdict on an input.
fn judge<R: Read>(alloc: Global, name: &str, input: &mut Input<R>) -> Result<Report, ProgFault>
    ensures ok { IfOk result (λ report. IsVerdictOn (R.remaining input.old.reader) name.now
        (string_bytes report.text) report.status) }
    ensures err { IfErr result IsUnjudged }
{
    let read = read_trace(alloc, input)?;
    let report = named_audit_read(alloc, name, read, false)?;
    Ok(report)
}

/// The verdict on an input; says on the errors why there is none, and what the input is, if it is no trace.
fn judge_input<R: Read, E: Diagnostics>(
    alloc: Global,
    name: &str,
    input: &mut Input<R>,
    errors: &mut E,
) -> Result<Report, ProgFault>
    ensures ok { IfOk result (λ report. IsVerdictOn (R.remaining input.old.reader) name.now
        (string_bytes report.text) report.status) }
    ensures err { IfErr result IsUnjudged }
{
    let outcome = judge(alloc, name, input);
    if let Err(fault) = &outcome {
        let _ = tell_named(alloc, fault, name, input.error(), errors);
    }
    if let Some(text) = Task::Audit(false, 0).remark(input.form()) {
        remark(Some(name), text, errors);
    }
    outcome
}

/// The verdict on the file of this name, or standard input where that is `-`; says on the errors why it can't be opened.
fn judge_file<F: FilesByName, R: Read, E: Diagnostics>(
    files: &F,
    alloc: Global,
    name: &str,
    input: &mut Input<R>,
    errors: &mut E,
) -> Result<Report, ProgFault>
    ensures ok { IfOk result (λ report. IsVerdictLine false (F.file_bytes files.now) name.now
        (string_bytes report.text) report.status) }
    ensures own { name.now ≡ codes "-" → IfOk result (λ report. IsVerdictOn
        (R.remaining input.old.reader) name.now (string_bytes report.text) report.status) }
    ensures err { IfErr result IsUnjudged }
{
    if name == "-" {
        return judge_input(alloc, name, input, errors);
    }
    match files.open(name) {
        Ok(file) => {
            let mut opened = Input::new(file);
            judge_input(alloc, name, &mut opened, errors)
        }
        Err(error) => {
            let _ = tell_named(alloc, &ProgFault::CannotRead, name, Some(error), errors);
            Err(ProgFault::CannotRead)
        }
    }
}

/// Whether a test passed, by the status of its file.
#[tactic(auto, unfolding(crate::specs::Tasks::passed_words))]
fn passed_words(status: u8) -> &'static str
    ensures { result.now ≡ passed_words status }
{
    match status {
        0 => "ok ",
        _ => "not ok ",
    }
}

/// Writes a number in decimal.
fn write_number<W: Write>(number: usize, output: &mut W) -> Result<(), ProgFault>
    ensures ok { OnOk result
        (Appends (W.contents output.old) (W.contents output.new) (decimal number)) }
    ensures err { IfErr result (λ fault. fault ≡ ProgFault.CannotWrite) }
{
    write_text(output, Buffer::new().format(number).as_bytes())
}

/// Writes the beginning of a test's line, before the words on the file.
fn write_head<W: Write>(number: usize, status: u8, output: &mut W) -> Result<(), ProgFault>
    ensures ok { OnOk result
        (Appends (W.contents output.old) (W.contents output.new) (test_head number status)) }
    ensures err { IfErr result (λ fault. fault ≡ ProgFault.CannotWrite) }
{
    write_text(output, passed_words(status).as_bytes())?;
    write_number(number, output)?;
    write_text(output, b" - ")
}

/// Writes the test of a file that has no verdict.
fn write_refused<W: Write>(
    number: usize,
    name: &str,
    fault: &ProgFault,
    output: &mut W,
) -> Result<u8, ProgFault>
    ensures ok { IfOk result (λ status. (status ≡ refusal_status fault.now)
        × Appends (W.contents output.old) (W.contents output.new)
        (test_head number status ++ refused_words name.now fault.now)) }
    ensures err { IfErr result (λ fault. fault ≡ ProgFault.CannotWrite) }
{
    let status = fault.status();
    write_head(number, status, output)?;
    write_text(output, name.as_bytes())?;
    write_text(output, b": ")?;
    fault.tell(output)?;
    Ok(status)
}

/// Audits a file, and writes its test. Gives its status.
fn write_test<F: FilesByName, R: Read, W: Write, E: Diagnostics>(
    files: &F,
    alloc: Global,
    number: usize,
    name: &str,
    input: &mut Input<R>,
    output: &mut W,
    errors: &mut E,
) -> Result<u8, ProgFault>
    ensures ok { IfOk result (WritesTest (F.file_bytes files.now) number name.now
        (W.contents output.old) (W.contents output.new)) }
    ensures err { IfErr result (λ fault. fault ≡ ProgFault.CannotWrite) }
{
    match judge_file(files, alloc, name, input, errors) {
        Ok(report) => {
            write_head(number, report.status, output)?;
            write_report(output, &report)
        }
        Err(fault) => write_refused(number, name, &fault, output),
    }
}

/// Writes how many tests come.
fn write_plan<W: Write>(count: usize, output: &mut W) -> Result<(), ProgFault>
    ensures ok { OnOk result
        (Appends (W.contents output.old) (W.contents output.new) (plan_lines count)) }
    ensures err { IfErr result (λ fault. fault ≡ ProgFault.CannotWrite) }
{
    write_text(output, b"TAP version 13\n1..")?;
    write_number(count, output)?;
    write_text(output, b"\n")
}

/// Audits each file as a test: writes how many there are, and then the tests. The status is the worst of the files'.
pub(crate) fn audit_tests<F: FilesByName, R: Read, W: Write, E: Diagnostics>(
    files: &F,
    alloc: Global,
    names: &[&str],
    input: &mut Input<R>,
    output: &mut W,
    errors: &mut E,
) -> Result<u8, ProgFault>
    ensures ok { IfOk result
        (AuditsTests (F.file_bytes files.now) (map (λ name. name.now) names.now)
        (W.contents output.old) (W.contents output.new)) }
    ensures err { IfErr result (λ fault. fault ≡ ProgFault.CannotWrite) }
{
    write_plan(names.len(), output)?;
    let mut worst = 0u8;
    for (index, name) in names.iter().enumerate() {
        let status = write_test(files, alloc, index + 1, *name, input, output, errors)?;
        worst = worst.max(status);
    }
    Ok(worst)
}
