//! How far a trace is read.

ghost use Rattle.std.specs.Prelude.{◌≡◌, ◌≤◌, ◌<◌, ◌++◌, [], length, None, Some, MatchOption};

use crate::formats::fields::Counts;
use crate::formats::layout::TraceLayout;
use crate::formats::version::{Form, Version};
use crate::reading::dumps::{
    number_unit, take_dump_head, take_frame_number, take_words, words_unit,
};
use crate::reading::header::{counts_unit, take_header, take_magic, take_root, take_version};
use crate::reading::lists::{take_events, take_places};
use crate::recordings::recorded::Recorded;
use crate::recordings::trace::Trace;
use crate::refusals::fault::Format;
use crate::refusals::refusal::{Refusal, TraceUnit};
use std::alloc::Global;
use std::cmp::{max, min};
use vs_types::{FRAME_WORDS, Fail};
use vs_walk::{Dump, OpenDump};

/// What is read of a trace after its header.
#[derive(Drop)]
pub(crate) struct Parts {
    pub(crate) alloc: Global,
    pub(crate) form: Form,
    pub(crate) version: Version,
    pub(crate) layout: TraceLayout,
    pub(crate) start: Option<Dump>,
    pub(crate) log: Vec<u32>,
    pub(crate) events: Vec<Recorded>,
    pub(crate) dumps: Vec<Dump>,
}

/// The replica whose dump is coming.
#[derive(Clone, Copy)]
pub(crate) enum Owner {
    /// It is the start; so many places and events come after it.
    Start(u32, u32),
    /// It is that of the next replica.
    Replica,
}

/// A dump that lacks its last frames, and how many.
#[derive(Drop)]
pub(crate) struct Opened {
    pub(crate) dump: Dump,
    pub(crate) left: u32,
    pub(crate) owner: Owner,
}

/// A dump of which a frame is coming, the index of that frame, and how many frames the dump lacks, this one among them.
#[derive(Drop)]
pub(crate) struct OpenFrame {
    pub(crate) dump: OpenDump,
    pub(crate) index: u32,
    pub(crate) left: u32,
    pub(crate) owner: Owner,
}

/// How many units a run has, where this many are whole and there are at most so many: all of these, but at least one.
fn units_of(whole: usize, most: usize) -> usize
    requires { 1 ≤ most }
    ensures some { 1 ≤ result }
    ensures few { result ≤ most }
    ensures whole { (1 ≤ whole → result ≤ whole) × (whole ≡ 0 → result ≡ 1) }
{
    max(1, min(whole, most))
}

/// A reader of a trace that takes whole units, named by the unit that comes next. What it takes at a time is a run: one
/// unit, or some places of the log, events or words of a frame, a unit each.
#[derive(Drop)]
pub(crate) enum Reader {
    Magic(Global, Form),
    Version(Global, Form),
    Header(Global, Form, Version),
    /// The root of the start.
    Root(Parts, Counts),
    /// So many places are left, and then so many events.
    Log(Parts, u32, u32),
    /// So many events are left.
    Events(Parts, u32),
    /// The head of the next dump, or the end.
    Dumps(Parts),
    /// The number of a frame; the one before it.
    Frame(Parts, Opened, Option<u64>),
    /// The next words of a frame.
    Words(Parts, OpenFrame),
}

impl Reader {
    ghost use Rattle.nr_trace.specs.Spelling.{SpellsAs};
    ghost use Rattle.nr_trace.specs.FirstFault.{HasRefusalAs};
    ghost use Rattle.nr_trace.specs.inside.Progress.{cut_off, form_of, said, unit_bytes, unit_of, HasRead, IsReady, IsRun, Takes};

    /// A reader at the beginning of what is to have the form. It allocates no memory.
    pub(crate) fn new(alloc: Global, form: Form) -> Reader
        ensures { HasRead form [] (HasRefusalAs form) result }
    {
        Reader::Magic(alloc, form)
    }

    /// How many bytes the next unit has; `None` at the end.
    pub(crate) fn unit_len(&self) -> Option<usize>
        ensures { result ≡ unit_bytes self.now }
    {
        match self {
            Reader::Magic(_, _) => Some(4),
            Reader::Version(_, _) => Some(2),
            Reader::Header(_, _, version) => Some(version.counts_len()),
            Reader::Root(_, _) => Some(8),
            Reader::Log(_, _, _) => Some(4),
            Reader::Events(_, _) => Some(24),
            Reader::Dumps(parts) => {
                if parts.dumps.len() < parts.layout.replicas() as usize {
                    Some(16)
                } else {
                    None
                }
            }
            Reader::Frame(_, _, _) => Some(8),
            Reader::Words(_, _) => Some(8),
        }
    }

    /// How many bytes the next run has, of so many that there are: those of its whole units, else those of one unit;
    /// `None` at the end.
    pub(crate) fn run_len(&self, have: usize) -> Option<usize>
        requires { IsReady self.now }
        ensures { MatchOption result (unit_bytes self.now ≡ None)
            (λ len. IsRun self.now len × (have < len → unit_bytes self.now ≡ Some len)) }
    {
        match self {
            Reader::Log(_, places, _) => Some(4 * units_of(have / 4, *places as usize)),
            Reader::Events(_, events) => Some(24 * units_of(have / 24, *events as usize)),
            Reader::Words(_, frame) => {
                let most = FRAME_WORDS - frame.dump.words_come();
                Some(8 * units_of(have / 8, most))
            }
            _ => self.unit_len(),
        }
    }

    /// Takes the next run. It allocates memory for what it says. A refusal is that of any bytes that begin with what
    /// was taken so far and this run.
    pub(crate) fn take_run(self, run: &[u8]) -> Result<Reader, Fail<Refusal>>
        requires ready { IsReady self }
        requires run { IsRun self (length run.now) }
        ensures { Takes self run.now result }
    {
        match self {
            Reader::Magic(alloc, form) => take_magic(alloc, form, run),
            Reader::Version(alloc, form) => take_version(alloc, form, run),
            Reader::Header(alloc, form, version) => take_header(alloc, form, version, run),
            Reader::Root(parts, numbers) => take_root(parts, numbers, run),
            Reader::Log(parts, places, events) => take_places(parts, places, events, run),
            Reader::Events(parts, events) => take_events(parts, events, run),
            Reader::Dumps(parts) => take_dump_head(parts, run),
            Reader::Frame(parts, opened, last) => take_frame_number(parts, opened, last, run),
            Reader::Words(parts, frame) => take_words(parts, frame, run),
        }
    }

    /// The unit that comes next, or of which words have come.
    fn unit(&self) -> TraceUnit
        requires { IsReady self.now }
        ensures { result ≡ unit_of self.now }
    {
        match self {
            Reader::Magic(_, _) => TraceUnit::Magic,
            Reader::Version(_, _) => TraceUnit::Version,
            Reader::Header(_, _, version) => counts_unit(*version),
            Reader::Root(_, _) => TraceUnit::StartRoot,
            Reader::Log(parts, _, _) => TraceUnit::Place(parts.log.len() as u32),
            Reader::Events(parts, _) => TraceUnit::Event(parts.events.len() as u32),
            Reader::Dumps(parts) => TraceUnit::DumpHead(parts.dumps.len() as u8),
            Reader::Frame(parts, opened, _) => {
                number_unit(parts, opened.owner, opened.dump.count() as u32)
            }
            Reader::Words(parts, frame) => { words_unit(parts, frame.owner, frame.index) }
        }
    }

    /// How it is refused where no more bytes come than these, which begin a unit.
    pub(crate) fn cut_off(&self, begun: &[u8]) -> Refusal
        requires { IsReady self.now }
        ensures { result ≡ cut_off self.now begun.now }
    {
        let unit = self.unit();
        match self {
            Reader::Words(_, frame) => Refusal {
                fault: Format::Truncated,
                unit,
                left: 8 * frame.dump.words_come() + begun.len(),
            },
            _ => Refusal::of(Format::Truncated, unit, begun),
        }
    }

    /// The recording, where no unit is left.
    pub(crate) fn finish(self) -> Trace
        requires ready { IsReady self }
        requires ended { unit_bytes self ≡ None }
        ensures { SpellsAs (form_of self) (said self) result }
    {
        match self {
            Reader::Dumps(parts) => {
                Trace::of(
                    parts.version,
                    parts.layout,
                    parts.start,
                    parts.log,
                    parts.events,
                    parts.dumps,
                )
            }
            _ => unreachable!(),
        }
    }
}
