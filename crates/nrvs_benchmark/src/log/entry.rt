//! The entries that are appended.

ghost use Rattle.std.specs.Prelude.{◌<◌};
ghost use Rattle.vs_types.specs.LogEntry.{IsLogEntry};
ghost use Rattle.vs_types.specs.declared.addresses.depth.Depth.TheVariants.{Four};

use vs_types::{Depth, LogEntry, Op};

/// An entry of this call, which unmaps address 0.
pub fn entry_of(call: u32) -> LogEntry
    requires { call < 131072 }
    ensures { IsLogEntry Four result }
{
    match Op::unmap(Depth::Four, 0) {
        Ok(op) => LogEntry { call, op },
        Err(_) => unreachable!(),
    }
}
