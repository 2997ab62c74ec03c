//! The versions of the format, and what each knows.

ghost use Rattle.std.specs.Prelude.{◌≡◌, ◌↔◌, All, IsTrue};
ghost use Rattle.nr_trace.specs.Versions.{version_code, FitsFirst, KnowsAnswer, KnowsAsked, KnowsDepth, KnowsEvent, KnowsQuery, KnowsTouch};
ghost use Rattle.nr_trace.specs.Versions.{least_frames, most_frames, most_start, most_tables, most_threads, Follows, IsVersionOf};
ghost use Rattle.nr_trace.specs.FirstFault.{counts_bytes};
ghost use Rattle.nr_trace.specs.declared.formats.version.Version.TheVariants.{V1};

use crate::formats::layout::TraceLayout;
use crate::recordings::event::{Asked, Event};
use crate::recordings::recorded::Recorded;
use vs_types::{Answer, Depth, FRAMES, Query, TABLES, THREADS};

/// What bytes are to spell: a trace; or a segment of a chain, which is laid out as the one before it, where there is one.
#[derive(Clone, Copy, Debug, PartialEq, Eq)]
pub enum Form {
    Trace,
    Segment(Option<TraceLayout>),
}

impl Form {
    /// Whether what has the form is laid out so.
    pub(crate) fn follows(&self, layout: &TraceLayout) -> bool
        ensures { IsTrue result ↔ Follows self.now layout.now }
    {
        match self {
            Form::Segment(Some(before)) => before == layout,
            _ => true,
        }
    }
}

/// The version of the format in which a trace or a segment is spelled.
#[derive(Clone, Copy, Debug, PartialEq, Eq)]
pub enum Version {
    /// Four levels, and reads that resolve.
    V1,
    /// Four or five levels, and reads that ask for rights too.
    V2,
    /// A segment of a chain: as version 2, with more threads, tables and frames, with a start, touches, and dumps that are left out.
    Segment,
}

impl Version {
    /// The number of the version: 1 or 2 of a trace, 1 of a segment.
    pub(crate) fn code(self) -> u16
        ensures { result ≡ version_code self }
    {
        match self {
            Version::V1 => 1,
            Version::V2 => 2,
            Version::Segment => 1,
        }
    }

    /// Whether what has the form is spelled in the version.
    pub(crate) fn is_of(self, form: Form) -> bool
        ensures { IsTrue result ↔ IsVersionOf form self }
    {
        match (form, self) {
            (Form::Trace, Version::Segment) => false,
            (Form::Segment(_), Version::V1 | Version::V2) => false,
            _ => true,
        }
    }

    /// How many bytes the counts have.
    pub(crate) fn counts_len(self) -> usize
        ensures { result ≡ counts_bytes self }
    {
        match self {
            Version::Segment => 18,
            _ => 14,
        }
    }

    /// The most threads.
    pub(crate) fn most_threads(self) -> u16
        ensures { result ≡ most_threads self }
    {
        match self {
            Version::Segment => FRAMES,
            _ => THREADS,
        }
    }

    /// The most tables of each replica.
    pub(crate) fn most_tables(self) -> u16
        ensures { result ≡ most_tables self }
    {
        match self {
            Version::Segment => FRAMES,
            _ => TABLES,
        }
    }

    /// The most frames of a dump.
    pub(crate) fn most_frames(self) -> u16
        ensures { result ≡ most_frames self }
    {
        match self {
            Version::Segment => FRAMES,
            _ => TABLES,
        }
    }

    /// The least frames of a dump.
    pub(crate) fn least_frames(self) -> u16
        ensures { result ≡ least_frames self }
    {
        match self {
            Version::Segment => 0,
            _ => 1,
        }
    }

    /// The most frames of a start.
    pub(crate) fn most_start(self) -> u16
        ensures { result ≡ most_start self }
    {
        match self {
            Version::Segment => FRAMES,
            _ => 0,
        }
    }

    /// Whether there may be touches and releases.
    pub(crate) fn knows_touch(self) -> bool
        ensures { IsTrue result ↔ KnowsTouch self }
    {
        match self {
            Version::Segment => true,
            _ => false,
        }
    }

    /// Whether a trace of the version may have the depth.
    pub(crate) fn knows_depth(self, depth: Depth) -> bool
        ensures { IsTrue result ↔ KnowsDepth self depth }
    {
        match (self, depth) {
            (Version::V1, Depth::Five) => false,
            _ => true,
        }
    }

    /// Whether a call in a trace of the version may have the request.
    pub(crate) fn knows_query(self, query: Query) -> bool
        ensures { IsTrue result ↔ KnowsQuery self query }
    {
        match (self, query) {
            (Version::V1, Query::Access(_, _, _)) => false,
            _ => true,
        }
    }

    /// Whether a reply in a trace of the version may have the answer.
    pub(crate) fn knows_answer(self, answer: Answer) -> bool
        ensures { IsTrue result ↔ KnowsAnswer self answer }
    {
        match (self, answer) {
            (Version::V1, Answer::Allowed(_) | Answer::Fault(_)) => false,
            _ => true,
        }
    }

    /// Whether a call in a trace of the version may ask that.
    pub(crate) fn knows_asked(self, asked: Asked) -> bool
        ensures { IsTrue result ↔ KnowsAsked self asked }
    {
        match asked {
            Asked::Request(request) => self.knows_query(request.query()),
            Asked::Touch(_, _, _) | Asked::Release(_, _) => self.knows_touch(),
        }
    }

    /// Whether a trace of the version may have the event.
    fn knows_event(self, event: Event) -> bool
        ensures { IsTrue result ↔ KnowsEvent self event }
    {
        match event {
            Event::Call { asked, .. } => self.knows_asked(asked),
            Event::Reply { answer, .. } => self.knows_answer(answer),
        }
    }

    /// Whether a trace of the version may have all of the events.
    fn knows_events(self, events: &[Recorded]) -> bool
        ensures { IsTrue result ↔ All (KnowsEvent self) events.now }
    {
        for event in events {
            if !self.knows_event(event.event()) {
                return false;
            }
        }
        true
    }

    /// The least version in which a trace may have the depth and the events.
    pub fn least(depth: Depth, events: &[Recorded]) -> Version
        ensures first { (result ≡ V1) ↔ FitsFirst depth events.now }
        ensures of_trace { IsVersionOf Form.Trace result }
    {
        if Version::V1.knows_depth(depth) && Version::V1.knows_events(events) {
            Version::V1
        } else {
            Version::V2
        }
    }
}
