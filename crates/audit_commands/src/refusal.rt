//! How a program ends: what it writes where there is no answer, and its status.

ghost use Rattle.std.specs.Prelude.{◌≡◌, ◌≢◌, IfErr, IfOk, None, OnOk, false};
ghost use Rattle.std.specs.Io.KnownBytes.{Appends};
ghost use Rattle.clap.specs.Words.{kind_of};
ghost use Rattle.audit_readers.specs.Refusals.{exit_status, refusal_line, refusal_status};
ghost use Rattle.audit_commands.specs.Tasks.{is_shown, TellsRefusal};

use crate::diagnostics::Diagnostics;
use crate::remarks::{remark, try_text};
use audit_readers::{ProgFault, Sink, write_text};
use clap::Error;
use clap::error::ErrorKind;
use std::alloc::{AllocError, Global};
use std::io::{self, Write};

/// Whether help or the version was asked for, which go to the output.
fn is_shown(kind: ErrorKind) -> bool
    ensures { result ≡ is_shown kind }
{
    matches!(kind, ErrorKind::DisplayHelp | ErrorKind::DisplayVersion)
}

/// Writes what clap answers to the words: help on the output, a fault of the command line on the errors. Allocates the text.
///
/// # Errors
///
/// `CannotWrite` where the output or the errors couldn't be written to, `Memory` where there was none, or clap had none.
pub fn tell_refusal<W: Write, E: Write>(
    alloc: Global,
    refusal: Error,
    output: &mut W,
    errors: &mut E,
) -> Result<u8, ProgFault>
    ensures { TellsRefusal (kind_of refusal) output.old output.new result }
{
    let kind = refusal.kind();
    if kind == ErrorKind::OutOfMemory {
        return Err(ProgFault::Memory);
    }
    let text = format!(in alloc; "{refusal}")?;
    if is_shown(kind) {
        write_text(output, text.as_bytes())?;
        Ok(0)
    } else {
        write_text(errors, text.as_bytes())?;
        Ok(2)
    }
}

/// The exit status of an outcome.
pub fn exit_status(outcome: Result<u8, ProgFault>) -> u8
    ensures { result ≡ exit_status outcome }
{
    match outcome {
        Ok(status) => status,
        Err(fault) => fault.status(),
    }
}

/// Why a read failed, as the system says it.
fn reason_text(alloc: Global, error: io::Error) -> Result<String, AllocError> {
    format!(in alloc; "{error}")
}

/// Writes that the output couldn't be written to, but on a terminal not where nobody reads it any more: who ends a pipe knows.
fn tell_unwritten<W: Sink, E: Diagnostics>(
    fault: &ProgFault,
    output: &W,
    errors: &mut E,
) -> Result<(), ProgFault>
    ensures { E.is_seen errors.old ≡ false → OnOk result
        (Appends (E.contents errors.old) (E.contents errors.new) (refusal_line fault.now)) }
{
    if errors.is_terminal() && output.is_closed() {
        return Ok(());
    }
    fault.tell(errors)
}

/// Writes a fault of standard input: its words alone. Where the errors are a terminal, the error of an input that can't be read is a
/// further line.
fn tell_alone<E: Diagnostics>(
    alloc: Global,
    fault: &ProgFault,
    reason: Option<io::Error>,
    errors: &mut E,
) -> Result<(), ProgFault>
    ensures { E.is_seen errors.old ≡ false → OnOk result
        (Appends (E.contents errors.old) (E.contents errors.new) (refusal_line fault.now)) }
{
    if !errors.is_terminal() {
        return fault.tell(errors);
    }
    fault.tell(errors)?;
    if let (ProgFault::CannotRead, Some(error)) = (fault, reason) {
        if let Ok(text) = reason_text(alloc, error) {
            remark(None, text.as_str(), errors);
        }
    }
    Ok(())
}

/// Writes a fault of a named file behind its name, and behind `cannot read` the error that the file gave, where memory for it is there.
pub(crate) fn tell_named<E: Diagnostics>(
    alloc: Global,
    fault: &ProgFault,
    name: &str,
    reason: Option<io::Error>,
    errors: &mut E,
) -> Result<(), ProgFault> {
    write_text(errors, name.as_bytes())?;
    write_text(errors, b": ")?;
    if let (ProgFault::CannotRead, Some(error)) = (fault, reason) {
        if let Ok(text) = reason_text(alloc, error) {
            write_text(errors, b"cannot read: ")?;
            write_text(errors, text.as_bytes())?;
            return write_text(errors, b"\n");
        }
    }
    fault.tell(errors)
}

/// Writes to the errors why there is no answer, where there is none. Of standard input the words of the fault are a line alone. Of a named
/// file they come behind its name, and `cannot read` has the error of the file behind it. `bad address` is alone in both cases. What
/// else helps a person is a line of its own: `remark` says when.
///
/// # Errors
///
/// `CannotWrite` where the errors couldn't be written to.
pub fn tell_outcome<W: Sink, E: Diagnostics>(
    alloc: Global,
    outcome: &Result<u8, ProgFault>,
    name: Option<&str>,
    reason: Option<io::Error>,
    output: &W,
    errors: &mut E,
) -> Result<(), ProgFault>
    ensures alone { IfErr outcome.now (λ fault. name.entry ≡ None → E.is_seen errors.old ≡ false
        → OnOk result
        (Appends (E.contents errors.old) (E.contents errors.new) (refusal_line fault))) }
    ensures address { IfErr outcome.now (λ fault. fault ≡ ProgFault.BadAddress
        → E.is_seen errors.old ≡ false → OnOk result
        (Appends (E.contents errors.old) (E.contents errors.new) (refusal_line fault))) }
{
    match outcome {
        Ok(_) => Ok(()),
        Err(ProgFault::CannotWrite) => tell_unwritten(&ProgFault::CannotWrite, output, errors),
        Err(ProgFault::BadAddress) => tell_alone(alloc, &ProgFault::BadAddress, None, errors),
        Err(fault) => match name {
            None => tell_alone(alloc, fault, reason, errors),
            Some(name) => tell_named(alloc, fault, name, reason, errors),
        },
    }
}

/// The status of a file that has no line; that the output failed is passed on.
pub(crate) fn refused_status(fault: ProgFault) -> Result<u8, ProgFault>
    ensures ok { IfOk result (λ status.
        (status ≡ refusal_status fault) × (fault ≢ ProgFault.CannotWrite)) }
    ensures err { IfErr result (λ why. why ≡ ProgFault.CannotWrite) }
{
    match fault {
        ProgFault::CannotWrite => Err(ProgFault::CannotWrite),
        fault => Ok(fault.status()),
    }
}
