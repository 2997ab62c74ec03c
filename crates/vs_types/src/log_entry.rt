//! Entries of the log, and the two words that spell one.
ghost use Rattle.std.specs.Prelude.{◌≡◌, ◌<◌, ◌%◌, ◌/◌};
ghost use Rattle.vs_types.specs.Finds.{Finds};
ghost use Rattle.vs_types.specs.LogEntry.{SpellsEntry, log_words};
ghost use Rattle.vs_types.specs.declared.addresses.depth.Depth.{Depth};
ghost use Rattle.vs_types.specs.inside.Telling.{action_in, rights_in, size_in};

use crate::addresses::depth::Depth;
use crate::addresses::page::{Page, Rights, Size};
use crate::limits::CALLS;
use crate::requests::fields::RequestFields;
use crate::requests::op::{Action, Op};
use crate::requests::request::{Query, Request};

/// What one call counts in the second word of an entry: the number of a page's first frame is below it.
const CALL_UNIT: u64 = 1 << 39;

/// An operation in the log, with the number of the call that asked for it.
#[derive(Clone, Copy, Debug, PartialEq, Eq)]
pub struct LogEntry {
    /// Below `CALLS`.
    pub call: u32,
    pub op: Op,
}

impl Default for LogEntry {
    /// Call 0 unmaps address 0. It fills the unused places of an `ArrayVec`.
    fn default() -> LogEntry {
        match Op::unmap(Depth::Four, 0) {
            Ok(op) => LogEntry { call: 0, op },
            Err(_) => unreachable!(),
        }
    }
}

/// The two words that spell an entry.
pub fn pack(entry: LogEntry) -> [u64; 2]
    requires { entry.call < CALLS }
    ensures { result ≡ log_words entry }
{
    let fields = entry.op.fields();
    let codes = u64::from(fields.kind) + 4 * u64::from(fields.size) + 16 * u64::from(fields.rights);
    [
        fields.address + codes,
        fields.physical / 4096 + u64::from(entry.call) * CALL_UNIT,
    ]
}

/// The entry that two words spell at a depth. `None` where the kind or the size is 3, bits 11 to 7 of the first word or a field
/// that the kind does not use are not 0, the operation is not well formed, or the call is not below `CALLS`.
pub fn unpack(depth: Depth, words: [u64; 2]) -> Option<LogEntry>
    ensures { Finds (SpellsEntry depth words) result }
{
    let [operation, rest] = words;
    let codes = operation % 4096;
    let call = rest / CALL_UNIT;
    if codes >= 128 || call >= u64::from(CALLS) {
        return None;
    }
    let request = Request::of_fields(
        depth,
        RequestFields {
            kind: (codes % 4) as u8,
            size: (codes / 4 % 4) as u8,
            rights: (codes / 16) as u8,
            address: operation - codes,
            physical: rest % CALL_UNIT * 4096,
        },
    )?;
    match request.query() {
        Query::Update(op) => Some(LogEntry {
            call: call as u32,
            op,
        }),
        _ => None,
    }
}

fn size_in(code: u64) -> Size
    ensures { result ≡ size_in code }
{
    match code {
        0 => Size::K4,
        1 => Size::M2,
        _ => Size::G1,
    }
}

fn rights_in(code: u64) -> Rights
    ensures { result ≡ rights_in code }
{
    Rights {
        write: code % 2 != 0,
        user: code / 2 % 2 != 0,
        exec: code / 4 != 0,
    }
}

fn action_in(codes: u64, address: u64, physical: u64) -> Action
    ensures { result ≡ action_in (codes % 4) (codes / 4 % 4) (codes / 16) address physical }
{
    match codes % 4 {
        0 => Action::Map(Page {
            base: address,
            size: size_in(codes / 4 % 4),
            rights: rights_in(codes / 16),
            phys: physical,
        }),
        1 => Action::Unmap(address),
        _ => Action::Protect(address, rights_in(codes / 16)),
    }
}

/// The entry that two words spell, at whatever depth; nothing is tested.
pub fn entry_of(words: [u64; 2]) -> LogEntry
    requires { (depth : Depth) × (entry : LogEntry) × SpellsEntry depth words entry }
    ensures { (depth : Depth) (entry : LogEntry) → SpellsEntry depth words entry
        → result ≡ entry }
{
    let [operation, rest] = words;
    let codes = operation % 4096;
    let action = action_in(codes, operation - codes, rest % CALL_UNIT * 4096);
    LogEntry {
        call: (rest / CALL_UNIT) as u32,
        op: Op::of(action),
    }
}
