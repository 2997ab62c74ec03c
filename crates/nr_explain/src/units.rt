//! The unit of a trace or of a segment that shows a fault of the format.

ghost use Rattle.std.specs.Prelude.{◌≡◌};
ghost use Rattle.nr_explain.specs.declared.units.Unread.TheVariants as reasons;

use crate::fields::BadField;
use nr_trace::{Format, TraceUnit};
use std::alloc::{AllocError, AllocFailed};

/// How many bytes the header of a trace has: magic, version and counts. Of a segment's they say as much of its events.
pub const HEADER_BYTES: usize = 20;

/// The unit that shows a fault of the format.
#[derive(Debug, Drop)]
pub struct BadUnit {
    pub fault: Format,
    pub unit: TraceUnit,
    /// How many bytes come before it.
    pub offset: u64,
    /// Its bytes, or as many of them as there are.
    pub read: Vec<u8>,
    /// The first field that isn't what it may be, of an event that is no call and no reply.
    pub field: Option<BadField>,
}

/// Why bytes were not read as a trace.
#[derive(Debug, Drop)]
pub enum Unread {
    /// A growth of memory was refused.
    Memory,
    /// They spell no trace, as this unit shows.
    Bad(BadUnit),
}

impl From<AllocError> for Unread {
    ghost from_gives = { λ _ unread. unread ≡ reasons.Memory };

    fn from(_error: AllocError) -> Unread {
        Unread::Memory
    }
}

impl<T: Drop> From<AllocFailed<T>> for Unread {
    ghost from_gives = { λ _ unread. unread ≡ reasons.Memory };

    fn from(_error: AllocFailed<T>) -> Unread {
        Unread::Memory
    }
}
