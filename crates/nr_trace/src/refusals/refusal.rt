//! Where bytes are refused: the unit that shows their first fault.

ghost use Rattle.std.specs.Prelude.{◌≡◌, ◌+◌, ◌<◌, ◌^◌, length};
ghost use Rattle.nr_trace.specs.FirstFault.{and_then, refusal_at, unit_size};

use crate::refusals::fault::Format;

/// A unit of a trace, or of a segment. Places, events, replicas and the frames of a dump or a start are counted from 0.
#[derive(Clone, Copy, Debug, PartialEq, Eq)]
pub enum TraceUnit {
    Magic,
    Version,
    /// The counts of a trace.
    Counts,
    /// The counts of a segment, the frames of its start among them.
    SegmentCounts,
    /// The number of the root of a segment's start.
    StartRoot,
    /// The number of a frame of the start.
    StartNumber(u32),
    /// The words of a frame of the start.
    StartWords(u32),
    Place(u32),
    Event(u32),
    /// The head of a replica's dump.
    DumpHead(u8),
    /// The number of a frame in the dump of a replica.
    FrameNumber(u8, u32),
    /// The words of a frame in the dump of a replica.
    FrameWords(u8, u32),
    /// What comes after the last unit.
    Behind,
}

impl TraceUnit {
    /// How many bytes it has. Behind the last unit one byte is looked at.
    pub fn size(self) -> usize
        ensures { result ≡ unit_size self }
    {
        match self {
            TraceUnit::Magic | TraceUnit::Place(_) => 4,
            TraceUnit::Version => 2,
            TraceUnit::Counts => 14,
            TraceUnit::SegmentCounts => 18,
            TraceUnit::StartRoot | TraceUnit::StartNumber(_) | TraceUnit::FrameNumber(_, _) => 8,
            TraceUnit::Event(_) => 24,
            TraceUnit::DumpHead(_) => 16,
            TraceUnit::StartWords(_) | TraceUnit::FrameWords(_, _) => 4096,
            TraceUnit::Behind => 1,
        }
    }
}

/// The first fault of bytes, and the unit that shows it.
#[derive(Clone, Copy, Debug, PartialEq, Eq)]
pub struct Refusal {
    pub fault: Format,
    pub unit: TraceUnit,
    /// How many of the bytes are left from the unit's first byte on.
    pub left: usize,
}

impl Refusal {
    /// The refusal of the unit that the rest begins with.
    pub(crate) fn of(fault: Format, unit: TraceUnit, rest: &[u8]) -> Refusal
        ensures { result ≡ refusal_at unit rest.now fault }
    {
        Refusal {
            fault,
            unit,
            left: rest.len(),
        }
    }

    /// The same refusal, where these bytes come after.
    pub(crate) fn and_then(self, rest: &[u8]) -> Refusal
        requires { self.left + length rest.now < 2 ^ 64 }
        ensures { result ≡ and_then rest.now self }
    {
        Refusal {
            left: self.left + rest.len(),
            ..self
        }
    }
}
