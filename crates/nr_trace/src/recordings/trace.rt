//! A recorded run, which a trace or a segment spells.

ghost use Rattle.std.specs.Prelude.{◌≡◌, ◌↔◌, ◌≤◌, length, All, None, MatchResult, option_copied};

use crate::formats::layout::TraceLayout;
use crate::formats::ranges::{all_have_frames, first_out_of_range, is_start};
use crate::formats::version::{Form, Version};
use crate::recordings::recorded::Recorded;
use crate::refusals::fault::Format;
use std::marker::Model;
use vs_types::{CALLS, Config, LOG_PLACES};
use vs_walk::Dump;

/// A recorded run, within the ranges of its version of the format. It has its layout, the page table with which it begins where
/// that is answered, the call at each place of the log, the events in order, and a dump of each replica. Contracts see its
/// recording.
#[derive(Debug, Drop)]
pub struct Trace {
    version: Version,
    layout: TraceLayout,
    start: Option<Dump>,
    log: Vec<u32>,
    events: Vec<Recorded>,
    dumps: Vec<Dump>,
}

impl Model for Trace {
    ghost use Rattle.std.specs.Prelude.{ℕ, List, Option, refl};
    ghost use Rattle.std.specs.Coded.{code_by, coded×, coded_ℕ, coded_list, coded_option};
    ghost use Rattle.vs_types.specs.Config.{Layout};
    ghost use Rattle.nr_trace.specs.contracts.formats.layout.TraceLayout as layout_contract;
    ghost use Rattle.vs_walk.specs.Dump.{Image, image_code};
    ghost use Rattle.nr_trace.specs.declared.formats.version.Version.{Version};
    ghost use Rattle.nr_trace.specs.contracts.formats.version.Version as version_contract;
    ghost use Rattle.nr_trace.specs.declared.recordings.event.Event.{Event};
    ghost use Rattle.nr_trace.specs.contracts.recordings.event.Event as event_contract;
    ghost use Rattle.nr_trace.specs.Recording.{Recording, IsRecording};

    ghost Value = { Recording };

    ghost coded = { code_by
        (Version × (Layout × (Option Image × (List ℕ × (List Event × List Image)))))
        (coded× version_contract.the_row.coded (coded× layout_contract.the_row.coded
        (coded× (coded_option image_code) (coded× (coded_list coded_ℕ)
        (coded× (coded_list event_contract.the_row.coded) (coded_list image_code))))))
        (λ t. (t.version, (t.layout, (t.start, (t.log, (t.events, t.dumps))))))
        (λ p.
        record {
          version = p.0;
          layout = p.1.0;
          start = p.1.1.0;
          log = p.1.1.1.0;
          events = p.1.1.1.1.0;
          dumps = p.1.1.1.1.1;
        }) (λ _. refl) };

    ghost view = { λ t.
        record {
          version = t.version;
          layout = t.layout;
          start = t.start;
          log = t.log.items;
          events = t.events.items;
          dumps = t.dumps.items;
        } };

    ghost invariant = { λ t. IsRecording
        (record {
          version = t.version;
          layout = t.layout;
          start = t.start;
          log = t.log.items;
          events = t.events.items;
          dumps = t.dumps.items;
        }) };
}

impl Trace {
    ghost use Rattle.vs_types.specs.Config.{Layout};
    ghost use Rattle.nr_trace.specs.Recording.{Recording, IsEvent, IsRecording};
    ghost use Rattle.nr_trace.specs.Parts.{HasFrames, IsPartsFault};
    ghost use Rattle.nr_trace.specs.Versions.{FitsFirst, IsVersionOf};
    ghost use Rattle.nr_trace.specs.declared.formats.version.Version.TheVariants.{V1, V2};

    /// A trace of these parts.
    ///
    /// # Errors
    ///
    /// `BadCount` for a layout or a start that the version does not know, for a number of places, events or dumps, or for a number of a
    /// dump's frames; `BadEvent` for the first event that is out of its range or that the version does not know.
    pub fn new(
        version: Version,
        layout: TraceLayout,
        start: Option<Dump>,
        log: Vec<u32>,
        events: Vec<Recorded>,
        dumps: Vec<Dump>,
    ) -> Result<Trace, Format>
        ensures { let parts : Recording =
            record {
              version = version;
              layout = layout;
              start = start;
              log = log.items;
              events = events.items;
              dumps = dumps.items;
            } in
            MatchResult result (λ trace. (trace ≡ parts) × IsRecording parts) (IsPartsFault parts) }
    {
        if !layout.is_in(version) {
            return Err(Format::BadCount);
        }
        if !version.knows_depth(layout.depth()) {
            return Err(Format::BadCount);
        }
        if !is_start(version, &start) {
            return Err(Format::BadCount);
        }
        if log.len() > LOG_PLACES as usize {
            return Err(Format::BadCount);
        }
        if events.len() > CALLS as usize {
            return Err(Format::BadCount);
        }
        if dumps.len() != layout.replicas() as usize {
            return Err(Format::BadCount);
        }
        if let Some(index) = first_out_of_range(version, layout, &events) {
            return Err(Format::BadEvent(index as u32));
        }
        if !all_have_frames(version, &dumps) {
            return Err(Format::BadCount);
        }
        Ok(Trace::of(version, layout, start, log, events, dumps))
    }

    /// The trace of a run of this configuration: its log, events and dumps, in the least version that can say it.
    pub fn of_run(config: Config, log: Vec<u32>, events: Vec<Recorded>, dumps: Vec<Dump>) -> Trace
        requires log { length log.items ≤ LOG_PLACES }
        requires events { (length events.items ≤ CALLS) × All (IsEvent V2 config) events.items }
        requires dumps { (length dumps.items ≡ config.replicas)
            × All (HasFrames V1) dumps.items }
        ensures run { result
            ≡ record {
              version = result.version;
              layout = config;
              start = None;
              log = log.items;
              events = events.items;
              dumps = dumps.items;
            } }
        ensures in_range { IsRecording result }
        ensures of_trace { IsVersionOf Form.Trace result.version }
        ensures version { (result.version ≡ V1) ↔ FitsFirst config.depth events.items }
    {
        let layout = TraceLayout::of(config);
        let version = Version::least(config.depth(), &events);
        if !all_have_frames(version, &dumps) {
            unreachable!()
        }
        Trace::of(version, layout, None, log, events, dumps)
    }

    /// A trace of these parts.
    pub(crate) fn of(
        version: Version,
        layout: TraceLayout,
        start: Option<Dump>,
        log: Vec<u32>,
        events: Vec<Recorded>,
        dumps: Vec<Dump>,
    ) -> Trace
        requires { IsRecording
            (record {
              version = version;
              layout = layout;
              start = start;
              log = log.items;
              events = events.items;
              dumps = dumps.items;
            }) }
        ensures is { result
            ≡ record {
              version = version;
              layout = layout;
              start = start;
              log = log.items;
              events = events.items;
              dumps = dumps.items;
            } }
        ensures in_range { IsRecording result }
    {
        Trace {
            version,
            layout,
            start,
            log,
            events,
            dumps,
        }
    }

    /// The version of the format.
    pub fn version(&self) -> Version
        ensures reads { result ≡ self.now.version }
        ensures in_range { IsRecording self.now }
    {
        self.version
    }

    /// How the service was laid out.
    pub fn layout(&self) -> TraceLayout
        ensures reads { result ≡ self.now.layout }
        ensures in_range { IsRecording self.now }
    {
        self.layout
    }

    /// The page table with which the run begins, where that is answered: not of a trace.
    pub fn start(&self) -> Option<&Dump>
        ensures reads { option_copied result ≡ self.now.start }
        ensures in_range { IsRecording self.now }
    {
        self.start.as_ref()
    }

    /// The call at each place of the log: at most `LOG_PLACES` of them.
    pub fn log(&self) -> &[u32]
        ensures reads { result.now ≡ self.now.log }
        ensures in_range { IsRecording self.now }
    {
        &self.log
    }

    /// What was recorded, in order: at most `CALLS` events.
    pub fn events(&self) -> &[Recorded]
        ensures reads { result.now ≡ self.now.events }
        ensures in_range { IsRecording self.now }
    {
        &self.events
    }

    /// The dump of each replica, by number.
    pub fn dumps(&self) -> &[Dump]
        ensures reads { result.now ≡ self.now.dumps }
        ensures in_range { IsRecording self.now }
    {
        &self.dumps
    }
}
