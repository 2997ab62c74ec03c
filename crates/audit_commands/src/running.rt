//! An inspection of the input, of one file or of several.

ghost use Rattle.std.specs.Prelude.{◌≡◌, IfErr, IfOk, map};
ghost use Rattle.audit_readers.specs.Answers.{IsNamedAudit, WritesReport};
ghost use Rattle.audit_readers.specs.Refusals.{IsEndFault, WritesAnswersAlone};
ghost use Rattle.audit_commands.specs.Tasks.{AuditsEach, AuditsOne, RunsInspection};
ghost use Rattle.audit_commands.specs.Tasks.{RunsTask, RunsTaskOnFile, WritesLine};

use crate::diagnostics::Diagnostics;
use crate::files::FilesByName;
use crate::inspection::Inspection;
use crate::refusal::{refused_status, tell_outcome};
use crate::remarks::{remark, remark_address, tell_few};
use crate::tap::audit_tests;
use crate::task::Task;
use audit_readers::{Input, ProgFault, Sink, named_audit_io};
use std::alloc::Global;
use std::io::Read;

/// Says on the errors what an input is, if it is none of those that the task reads; but not where the output failed.
fn remark_form<R, E: Diagnostics>(
    task: Task<'_>,
    outcome: &Result<u8, ProgFault>,
    name: Option<&str>,
    input: &Input<R>,
    errors: &mut E,
) {
    if matches!(outcome, Err(ProgFault::CannotWrite)) {
        return;
    }
    if let Some(text) = task.remark(input.form()) {
        remark(name, text, errors);
    }
}

/// Does the task on an input. On the errors it says why there is no answer, or that fewer calls overlap than are asked for. It also says
/// there what the input is, if it is none of those that the task reads. The size is that of an input that is watched.
fn run_task<R: Read, W: Sink, E: Diagnostics>(
    alloc: Global,
    task: Task<'_>,
    name: Option<&str>,
    size: Option<u64>,
    input: &mut Input<R>,
    output: &mut W,
    errors: &mut E,
) -> Result<u8, ProgFault>
    ensures { RunsTask task.entry (R.remaining input.old.reader) W.contents output.old output.new
        result }
{
    if task.is_watched() {
        errors.start(size);
    }
    let outcome = task.run(alloc, input, output, errors);
    errors.end();
    let _ = tell_outcome(alloc, &outcome, name, input.error(), &*output, errors);
    if matches!(outcome, Ok(2)) {
        tell_few(task.least(), errors);
    }
    if let (Err(ProgFault::BadAddress), Some(word)) = (&outcome, task.word()) {
        remark_address(alloc, name, word, errors);
    }
    remark_form(task, &outcome, name, &*input, errors);
    outcome
}

/// How many bytes the input of a task has that is watched, if that is known.
fn watched_size<F: FilesByName>(files: &F, task: Task<'_>, name: Option<&str>) -> Option<u64> {
    if task.is_watched() {
        files.size(name)
    } else {
        None
    }
}

/// Does the task on the file of this name.
fn run_on_file<F: FilesByName, W: Sink, E: Diagnostics>(
    files: &F,
    alloc: Global,
    task: Task<'_>,
    name: &str,
    output: &mut W,
    errors: &mut E,
) -> Result<u8, ProgFault>
    ensures { RunsTaskOnFile task.entry (F.file_bytes files.now name.now) W.contents output.old
        output.new result }
{
    match files.open(name) {
        Ok(file) => {
            let mut input = Input::new(file);
            let size = watched_size(files, task, Some(name));
            run_task(alloc, task, Some(name), size, &mut input, output, errors)
        }
        Err(error) => {
            let outcome = Err(ProgFault::CannotRead);
            let _ = tell_outcome(alloc, &outcome, Some(name), Some(error), &*output, errors);
            outcome
        }
    }
}

/// Audits one of several inputs, and writes its line; says on the errors why it has none, but where the output failed, and what the input
/// is, if it is no trace.
fn write_own_line<R: Read, W: Sink, E: Diagnostics>(
    alloc: Global,
    as_json: bool,
    name: &str,
    input: &mut Input<R>,
    output: &mut W,
    errors: &mut E,
) -> Result<u8, ProgFault>
    ensures ok { IfOk result (WritesReport (IsNamedAudit as_json name.now) (R.remaining input.old.reader)
        (W.contents output.old) (W.contents output.new)) }
    ensures err { IfErr result IsEndFault }
    ensures alone { WritesAnswersAlone output.old output.new result }
{
    let outcome = named_audit_io(alloc, input, output, name, as_json, errors);
    if !matches!(outcome, Err(ProgFault::CannotWrite)) {
        let _ = tell_outcome(alloc, &outcome, Some(name), input.error(), &*output, errors);
    }
    remark_form(
        Task::Audit(as_json, 0),
        &outcome,
        Some(name),
        &*input,
        errors,
    );
    outcome
}

/// Audits the file of this name, and writes its line.
fn write_line<F: FilesByName, R: Read, W: Sink, E: Diagnostics>(
    files: &F,
    alloc: Global,
    as_json: bool,
    name: &str,
    input: &mut Input<R>,
    output: &mut W,
    errors: &mut E,
) -> Result<u8, ProgFault>
    ensures { WritesLine as_json (F.file_bytes files.now) name.now W.contents output.old output.new
        result }
{
    if name == "-" {
        return write_own_line(alloc, as_json, name, input, output, errors);
    }
    match files.open(name) {
        Ok(file) => {
            let mut opened = Input::new(file);
            write_own_line(alloc, as_json, name, &mut opened, output, errors)
        }
        Err(error) => {
            let outcome = Err(ProgFault::CannotRead);
            let _ = tell_outcome(alloc, &outcome, Some(name), Some(error), &*output, errors);
            outcome
        }
    }
}

/// Audits one of several files, and writes its line; why it has none is written to the errors. Gives its status.
fn audit_one<F: FilesByName, R: Read, W: Sink, E: Diagnostics>(
    files: &F,
    alloc: Global,
    as_json: bool,
    name: &str,
    input: &mut Input<R>,
    output: &mut W,
    errors: &mut E,
) -> Result<u8, ProgFault>
    ensures ok { IfOk result
        (AuditsOne as_json (F.file_bytes files.now) name.now (W.contents output.old)
        (W.contents output.new)) }
    ensures err { IfErr result (λ fault. fault ≡ ProgFault.CannotWrite) }
{
    match write_line(files, alloc, as_json, name, input, output, errors) {
        Ok(status) => Ok(status),
        Err(fault) => refused_status(fault),
    }
}

/// Audits each of the files. The status is the worst of theirs.
fn audit_each<F: FilesByName, R: Read, W: Sink, E: Diagnostics>(
    files: &F,
    alloc: Global,
    as_json: bool,
    names: &[&str],
    input: &mut Input<R>,
    output: &mut W,
    errors: &mut E,
) -> Result<u8, ProgFault>
    ensures ok { IfOk result
        (AuditsEach as_json (F.file_bytes files.now) (map (λ name. name.now) names.now)
        (W.contents output.old) (W.contents output.new)) }
    ensures err { IfErr result (λ fault. fault ≡ ProgFault.CannotWrite) }
{
    let mut worst = 0u8;
    for name in names {
        let status = audit_one(files, alloc, as_json, *name, input, output, errors)?;
        worst = worst.max(status);
    }
    Ok(worst)
}

/// Makes the inspection, of standard input or of the files that are named. If there is no answer, the reason is written to the errors, as
/// `tell_outcome` says, and then what else helps a person, as `remark` says. How far the audit of a chain has come is shown there too, and
/// how many calls the right traces have. The files are taken one after the other, each in the memory that its task needs.
///
/// # Errors
///
/// One input: `CannotRead` if the file couldn't be opened, and those of `Task::run`. Several files, or
/// tests: `CannotWrite`.
pub fn run_inspection<F: FilesByName, R: Read, W: Sink, E: Diagnostics>(
    files: &F,
    alloc: Global,
    inspection: Inspection<'_>,
    input: &mut Input<R>,
    output: &mut W,
    errors: &mut E,
) -> Result<u8, ProgFault>
    ensures { RunsInspection (F.file_bytes files.now) inspection.entry
        (R.remaining input.old.reader) W.contents output.old output.new result }
{
    match inspection {
        Inspection::One(task, None) => {
            let size = watched_size(files, task, None);
            run_task(alloc, task, None, size, input, output, errors)
        }
        Inspection::One(task, Some(name)) => run_on_file(files, alloc, task, name, output, errors),
        Inspection::Each(as_json, names) => {
            let names = names.as_slice();
            let outcome = audit_each(files, alloc, as_json, names, input, output, errors);
            errors.end();
            let _ = tell_outcome(alloc, &outcome, None, None, &*output, errors);
            outcome
        }
        Inspection::Tests(names) => {
            let names = names.as_slice();
            let outcome = audit_tests(files, alloc, names, input, output, errors);
            let _ = tell_outcome(alloc, &outcome, None, None, &*output, errors);
            outcome
        }
    }
}
