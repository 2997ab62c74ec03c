//! A trace with the reply to each of its calls.

ghost use Rattle.std.specs.Prelude.{◌≡◌, ◌<◌, IfSome, length, option_map, is_some};
ghost use Rattle.nr_trace.specs.Calls.{address_of, call_of, operation_in, operation_of, touch_of, IsCall};
ghost use Rattle.nr_trace.specs.Recording.{IsRecording};
ghost use Rattle.nr_audit.specs.inside.Begun.{is_protect};
ghost use Rattle.nr_audit.specs.inside.LastEvents.{IsLastEvent};
ghost use Rattle.nr_audit.specs.inside.Replies.{position_of};
ghost use Rattle.nr_audit.specs.inside.Tables.{AreReplies, IsReplyBelow};

use crate::checks::requests::request_of;
use crate::checks::tables::MaybeIndex;
use crate::histories::last_events::position_at;
use nr_trace::{Event, Recorded, Trace};
use std::marker::Model;
use vs_types::{Action, Query, Request};

/// The calls of a trace by number, the index of the event: what kind each is, where it was made, and the reply to it.
///
/// Each call has one reply at most. Contracts see the trace's recording.
#[derive(Drop)]
pub(crate) struct History<'a> {
    trace: &'a Trace,
    /// By call number the index of the reply.
    replies: Vec<MaybeIndex>,
}

impl<'a> Model for History<'a> {
    ghost use Rattle.nr_trace.specs.Recording.{Recording};
    ghost use Rattle.nr_trace.specs.contracts.recordings.trace.Trace as trace_contract;
    ghost use Rattle.nr_audit.specs.inside.Tables.{AreReplies};

    ghost Value = { Recording };

    ghost coded = { trace_contract.the_row.coded };

    ghost view = { λ h. h.trace.now };

    ghost invariant = { λ h. AreReplies h.trace.now h.replies.items };
}

impl<'a> History<'a> {
    /// The history of a trace, with the index of the reply to each of its calls.
    pub(crate) fn of(trace: &'a Trace, replies: Vec<MaybeIndex>) -> History<'a>
        requires { AreReplies trace.now replies.items }
        ensures { result ≡ trace.now }
    {
        History { trace, replies }
    }

    pub(crate) fn log(&self) -> &[u32]
        ensures reads { result.now ≡ self.now.log }
        ensures in_range { IsRecording self.now }
    {
        self.trace.log()
    }

    pub(crate) fn events(&self) -> &[Recorded]
        ensures reads { result.now ≡ self.now.events }
        ensures in_range { IsRecording self.now }
    {
        self.trace.events()
    }

    /// Whether an update has this number.
    pub(crate) fn is_update(&self, call: u32) -> bool
        ensures { result ≡ is_some (operation_of self.now call) }
    {
        match request_of(self.trace, call) {
            Some(request) => matches!(request.query(), Query::Update(_)),
            None => false,
        }
    }

    /// Whether a protect has this number.
    pub(crate) fn is_protect(&self, call: u32) -> bool
        ensures { result ≡ is_protect (operation_of self.now call) }
    {
        match request_of(self.trace, call) {
            Some(request) => protects(request),
            None => false,
        }
    }

    /// Whether a read has this number: a call that asks for a resolve or an access.
    pub(crate) fn is_read(&self, call: u32) -> bool
        ensures { result ≡ is_some (address_of self.now call) }
    {
        match request_of(self.trace, call) {
            Some(request) => matches!(request.query(), Query::Resolve(_) | Query::Access(..)),
            None => false,
        }
    }

    /// Whether a touch or a release has this number.
    pub(crate) fn is_touch(&self, call: u32) -> bool
        ensures { result ≡ is_some (touch_of self.now call) }
    {
        match self.trace.events().get(call as usize) {
            Some(event) => event.event().is_unordered(),
            None => false,
        }
    }

    /// The replica at which a call was made, or `None` where no call has this number.
    pub(crate) fn replica(&self, call: u32) -> Option<u8>
        ensures made { result ≡ option_map (λ made. made.replica) (call_of self.now call) }
        ensures in_range { IfSome result (λ replica. replica < 4) }
    {
        match self.trace.events().get(call as usize)?.event() {
            Event::Call { replica, .. } => Some(replica),
            _ => None,
        }
    }

    /// The event that is the reply to a call, or `None` if it has none.
    #[inline(always)]
    pub(crate) fn reply(&self, call: u32) -> Option<u32>
        ensures { IsReplyBelow self.now (length self.now.events) call result }
    {
        if call as usize >= self.replies.len() {
            return None;
        }
        self.replies[call as usize].get()
    }

    /// The position that the reply to a call gives, or `None` where it has none: the place of an update, and for a read how
    /// many entries it saw.
    #[inline(always)]
    pub(crate) fn position(&self, call: u32) -> Option<u32>
        ensures { result ≡ position_of self.now call }
    {
        let index = self.reply(call)?;
        position_at(self.trace, index)
    }

    /// The last event of a call: the reply to it, or the call itself where it has none.
    pub(crate) fn last_event(&self, call: u32) -> u32
        requires { IsCall self.now call }
        ensures { IsLastEvent self.now call result }
    {
        match self.replies[call as usize].get() {
            Some(index) => index,
            None => call,
        }
    }
}

/// Whether a request is a protect.
fn protects(request: Request) -> bool
    ensures { result ≡ is_protect (operation_in request) }
{
    match request.query() {
        Query::Update(op) => matches!(op.action(), Action::Protect(_, _)),
        Query::Resolve(_) => false,
        Query::Access(_, _, _) => false,
    }
}
