//! Scripts, as they are read.
ghost use Rattle.std.specs.Prelude.{◌≡◌, ◌≤◌, IfErr, IfOk, None, length, map};
ghost use Rattle.vs_types.specs.Config.{Layout};
ghost use Rattle.vs_types.specs.Query.{AreScripts};
ghost use Rattle.audit_readers.specs.Answers.{IsReadOf};
ghost use Rattle.nrvs.specs.Simulation.{HasReadAtMost, HasReadScript, IsInputFault, IsScriptFault, script_fault};

use audit_readers::{BLOCK, ProgFault, Source, read_block};
use nr_script::{BadLine, Script, read_script};
use std::alloc::Global;
use vs_types::{Depth, Fail};

/// The most bytes that are read of a script: one more than it may have, so that a longer one is known.
const MOST_BYTES: usize = 16_777_217;

/// Reads the whole input in blocks, unless it is too long.
fn read_blocks<R: Source>(
    alloc: Global,
    reader: &mut R,
    block: &mut [u8],
) -> Result<Vec<u8>, ProgFault>
    requires { length block.old ≡ 4096 }
    ensures whole { IfOk result (λ bytes. IsReadOf (R.remaining reader.old) bytes.items) }
    ensures short { IfOk result (λ bytes. length bytes.items ≤ 16777216) }
    ensures err { IfErr result (IsInputFault (R.remaining reader.old)) }
    ensures few { HasReadAtMost 16777217 (R.remaining reader.old) (R.remaining reader.new) }
    ensures unread { IfErr result (λ fault. fault ≡ ProgFault.CannotRead
        → R.last_read reader.new ≡ None) }
{
    let mut bytes = Vec::new(alloc);
    let mut room = MOST_BYTES;
    while room > 0 {
        let piece = &mut block[..room.min(BLOCK)];
        let count = read_block(reader, piece)?;
        if count == 0 {
            return Ok(bytes);
        }
        bytes.extend_from_slice(&piece[..count])?;
        room -= count;
    }
    Err(ProgFault::InputTooLong)
}

/// Why bytes are no script.
pub(crate) fn script_fault(fail: Fail<BadLine>) -> ProgFault
    ensures { result ≡ script_fault fail }
{
    match fail {
        Fail::Memory => ProgFault::Memory,
        Fail::Refused(BadLine(number)) => ProgFault::BadLine(number),
    }
}

/// Reads an input to its end in blocks of at most 4,096 bytes: the script that it is, whose requests are well formed at the depth.
/// It reads at most 16,777,217 bytes, one more than a script has. Allocates memory for the bytes, and for the requests and steps.
///
/// # Errors
///
/// In this order: `CannotRead` where the reader gave an error that is no interruption, `InputTooLong` where there are more than
/// 16,777,216 bytes, `BadLine`, the first line that is none of a script. `Memory` where a growth of memory was refused; it may come
/// before.
pub fn input_script<R: Source>(
    alloc: Global,
    depth: Depth,
    reader: &mut R,
) -> Result<Script, ProgFault>
    ensures ok { IfOk result (HasReadScript depth (R.remaining reader.old)) }
    ensures threads { IfOk result (λ script. (1 ≤ script.threads) × (script.threads ≤ 64)) }
    ensures scripts { IfOk result (λ script. (layout : Layout) → layout.depth ≡ depth
        → layout.threads ≡ script.threads
        → AreScripts layout (map (λ list. list.items) script.requests.items)) }
    ensures err { IfErr result (IsScriptFault depth (R.remaining reader.old)) }
    ensures few { HasReadAtMost 16777217 (R.remaining reader.old) (R.remaining reader.new) }
    ensures unread { IfErr result (λ fault. fault ≡ ProgFault.CannotRead
        → R.last_read reader.new ≡ None) }
{
    let bytes = read_blocks(alloc, reader, &mut [0; BLOCK])?;
    match read_script(alloc, depth, bytes.as_slice()) {
        Ok(script) => Ok(script),
        Err(fail) => Err(script_fault(fail)),
    }
}
