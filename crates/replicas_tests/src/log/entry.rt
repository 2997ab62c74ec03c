//! Entries of the log.
ghost use Rattle.vs_types.specs.LogEntry.{IsLogEntry};

use std::process::Abort;
use vs_types::{CALLS, Depth, LogEntry, Op};

/// The entry by which a call asks for an operation at this depth.
pub fn entry(rt: &impl Abort, depth: Depth, call: u32, op: Op) -> LogEntry
    ensures { IsLogEntry depth result }
{
    assert!(rt; op.fits(depth));
    assert!(rt; call < CALLS);
    LogEntry { call, op }
}
