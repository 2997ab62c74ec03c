//! The ends of an engine: a block that is read, a text and a report that are written.

ghost use Rattle.std.specs.Prelude.{◌≡◌, ◌<◌, [], IfOk, IfErr, OnOk, length, string_bytes, take};
ghost use Rattle.std.specs.Result.{result_ok};
ghost use Rattle.std.specs.Io.{ReadsAtMost, WritesAtMost};
ghost use Rattle.std.specs.Io.KnownBytes.{Appends, Consumes, IsAtEnd, Keeps};
ghost use Rattle.audit_readers.specs.Ends.{AppendsPart};

use crate::fault::ProgFault;
use crate::report::Report;
use crate::source::Source;
use std::io::{ErrorKind, Write};

/// The most bytes that are read at a time.
pub const BLOCK: usize = 4096;

/// Reads into the block: how many bytes, none at the end of the input. A read that was interrupted is tried again.
///
/// # Errors
///
/// `CannotRead` where the reader gave another error, or was interrupted 2^64 - 1 times.
pub fn read_block<R: Source>(reader: &mut R, block: &mut [u8]) -> Result<usize, ProgFault>
    ensures bound { ReadsAtMost result block.new }
    ensures ok { IfOk result (λ count.
        Consumes (R.remaining reader.old) (R.remaining reader.new) (take count block.new)) }
    ensures end { IfOk result (λ count. count ≡ 0 → 0 < length block.old
        → IsAtEnd (R.remaining reader.new)) }
    ensures err { IfErr result (λ fault. fault ≡ ProgFault.CannotRead) }
    ensures kept { IfErr result (λ _. Keeps (R.remaining reader.old) (R.remaining reader.new)) }
    ensures last { R.last_read reader.new ≡ result_ok result }
{
    for _ in 1..u64::MAX {
        match reader.read_some(block) {
            Ok(count) => return Ok(count),
            Err(error) => {
                if error.kind() != ErrorKind::Interrupted {
                    return Err(ProgFault::CannotRead);
                }
            }
        }
    }
    reader.read_some(block).map_err(|_| ProgFault::CannotRead)
}

/// Writes once: how many bytes were taken, none where the write was interrupted.
fn write_some<W: Write>(writer: &mut W, bytes: &[u8]) -> Result<usize, ProgFault>
    ensures bound { WritesAtMost result bytes.now }
    ensures ok { IfOk result (λ count.
        Appends (W.contents writer.old) (W.contents writer.new) (take count bytes.now)) }
    ensures err { IfErr result (λ fault. fault ≡ ProgFault.CannotWrite) }
    ensures nothing { IfErr result (λ _.
        Appends (W.contents writer.old) (W.contents writer.new) []) }
{
    match writer.write(bytes) {
        Ok(0) => Err(ProgFault::CannotWrite),
        Ok(count) => Ok(count),
        Err(error) => {
            if error.kind() == ErrorKind::Interrupted {
                Ok(0)
            } else {
                Err(ProgFault::CannotWrite)
            }
        }
    }
}

/// Writes the text. A write that was interrupted is tried again.
fn write_whole<W: Write>(writer: &mut W, text: &[u8]) -> Result<(), ProgFault>
    ensures ok { OnOk result (Appends (W.contents writer.old) (W.contents writer.new) text.now) }
    ensures err { IfErr result (λ fault. fault ≡ ProgFault.CannotWrite) }
    ensures part { IfErr result (λ _.
        AppendsPart (W.contents writer.old) (W.contents writer.new) text.now) }
{
    let mut rest = text;
    for _ in 0..u64::MAX {
        if rest.is_empty() {
            return Ok(());
        }
        let count = write_some(writer, rest)?;
        rest = &rest[count..];
    }
    Err(ProgFault::CannotWrite)
}

/// Writes the text and nothing else. A flush that fails is a failed write.
///
/// # Errors
///
/// `CannotWrite` where a write or the flush fails. A part of the text may be written then, from its beginning on.
pub fn write_text<W: Write>(writer: &mut W, text: &[u8]) -> Result<(), ProgFault>
    ensures ok { OnOk result (Appends (W.contents writer.old) (W.contents writer.new) text.now) }
    ensures err { IfErr result (λ fault. fault ≡ ProgFault.CannotWrite) }
    ensures part { IfErr result (λ _.
        AppendsPart (W.contents writer.old) (W.contents writer.new) text.now) }
{
    write_whole(writer, text)?;
    writer.flush().map_err(|_| ProgFault::CannotWrite)
}

/// Writes a report's lines and nothing else, and gives its status.
///
/// # Errors
///
/// Those of `write_text`.
pub fn write_report<W: Write>(writer: &mut W, report: &Report) -> Result<u8, ProgFault>
    ensures ok { IfOk result (λ status. (status ≡ report.now.status)
        × Appends (W.contents writer.old) (W.contents writer.new) (string_bytes report.now.text)) }
    ensures err { IfErr result (λ fault. fault ≡ ProgFault.CannotWrite) }
    ensures part { IfErr result (λ _. AppendsPart (W.contents writer.old) (W.contents writer.new)
        (string_bytes report.now.text)) }
{
    write_text(writer, report.text.as_bytes())?;
    Ok(report.status)
}
