//! How far a thread has come with its call, and what a batch has of an update.
ghost use Rattle.std.specs.Prelude.{◌≡◌};

use nr_trace::Event;
use vs_types::{Answer, LogEntry, Op, Request};

/// The answer of a call.
#[derive(Clone, Copy, Debug, PartialEq, Eq)]
pub(crate) struct Answered {
    pub(crate) call: u32,
    /// The place of an update; for a read how many entries its replica had applied.
    pub(crate) at: u32,
    pub(crate) answer: Answer,
}

impl Answered {
    ghost use Rattle.vs_types.specs.Config.{Layout};
    ghost use Rattle.nr_trace.specs.Recording.{IsEvent};
    ghost use Rattle.nr_trace.specs.declared.recordings.event.Event.TheVariants.{Reply};
    ghost use Rattle.nr_trace.specs.declared.formats.version.Version.TheVariants.{V2};

    /// The reply as it is recorded. Its numbers are in the ranges of any trace of version 2.
    pub(crate) fn reply(self) -> Event
        ensures is { result ≡ Reply self.call self.at self.answer }
        ensures in_range { (layout : Layout) → IsEvent V2 layout result }
    {
        Event::Reply {
            call: self.call,
            at: self.at,
            answer: self.answer,
        }
    }
}

/// How far a thread has come with its call. Its slot is empty but where the stage says otherwise.
#[derive(Clone, Copy, Debug, PartialEq, Eq)]
pub(crate) enum Stage {
    /// No call is open.
    Idle,
    /// The call is made: an update that is not yet posted, or a read that has not yet looked.
    Called {
        call: u32,
        request: Request,
    },
    /// The update is in the slot.
    Posted {
        call: u32,
        op: Op,
    },
    /// A combiner has taken the update of this call from the slot.
    Taken {
        call: u32,
    },
    /// The update's answer is in the slot.
    Ready {
        answered: Answered,
    },
    /// The read has looked, and noted the completed tail.
    Looked {
        call: u32,
        request: Request,
        completed: u32,
    },
    /// The read has its answer.
    HasRead {
        answered: Answered,
    },
}

/// An update in a replica's batch.
#[derive(Clone, Copy, Debug, PartialEq, Eq)]
pub(crate) struct Collected {
    /// The thread from whose slot it was taken.
    pub(crate) thread: u16,
    pub(crate) entry: LogEntry,
    /// Its answer, once the replica has applied it.
    pub(crate) noted: Option<Answered>,
}
