//! The steps of a thread on its own call, up to where it waits for an answer.
ghost use Rattle.std.specs.Prelude.{◌≡◌, Some, None, MatchOption, MatchResult};
ghost use Rattle.nr_core.specs.Run.{IsStepped};
ghost use Rattle.nr_core.specs.Steps as steps;
ghost use Rattle.nr_core.specs.inside.Views.{MayCall};

use crate::states::stage::Stage;
use crate::states::state::Core;
use nr_trace::{Asked, Event, Recorded};
use vs_types::{Memory, Query, Request};

impl Core {
    /// The next request of the script is recorded as a call.
    pub(crate) fn call(&mut self, thread: u16) -> Result<bool, Memory>
        ensures { MatchResult result
            (λ done. IsStepped self.old (steps.call self.old thread) done self.new)
            (λ _. self.new ≡ self.old) }
    {
        let Some(request) = self.next_request(thread) else {
            return Ok(false);
        };
        self.record_call(thread, request)?;
        Ok(true)
    }

    /// The next request of a thread's script, where there is one, and no call is open.
    fn next_request(&self, thread: u16) -> Option<Request>
        ensures { MatchOption result (steps.call self.now thread ≡ None) (MayCall self.now thread) }
    {
        let t = usize::from(thread);
        if t >= self.threads.len() {
            return None;
        }
        let state = &self.threads[t];
        let Stage::Idle = state.stage else {
            return None;
        };
        let made = state.made;
        let len = state.script.len();
        if made < len {
            Some(state.script[made])
        } else {
            None
        }
    }

    /// The thread's call is recorded, and open.
    fn record_call(&mut self, thread: u16, request: Request) -> Result<(), Memory>
        requires { MayCall self.old thread request }
        ensures { MatchResult result (λ _. Some self.new ≡ steps.call self.old thread)
            (λ _. self.new ≡ self.old) }
    {
        let call = self.events.len() as u32;
        let replica = (thread % u16::from(self.config.replicas())) as u8;
        let event = Event::Call {
            replica,
            thread,
            asked: Asked::Request(request),
        };
        if self.events.push(Recorded::of(event)).is_err() {
            return Err(Memory);
        }
        let state = &mut self.threads[usize::from(thread)];
        state.made += 1;
        state.stage = Stage::Called { call, request };
        Ok(())
    }

    /// The update of the open call is in the slot.
    pub(crate) fn post(&mut self, thread: u16) -> bool
        ensures { IsStepped self.old (steps.post self.old thread) result self.new }
    {
        let Some(stage) = self.stage(thread) else {
            return false;
        };
        let Stage::Called { call, request } = stage else {
            return false;
        };
        let Query::Update(op) = request.query() else {
            return false;
        };
        self.set_stage(thread, Stage::Posted { call, op });
        true
    }

    /// The read of the open call notes the completed tail.
    pub(crate) fn look(&mut self, thread: u16) -> bool
        ensures { IsStepped self.old (steps.look self.old thread) result self.new }
    {
        let Some(stage) = self.stage(thread) else {
            return false;
        };
        let Stage::Called { call, request } = stage else {
            return false;
        };
        if let Query::Update(_) = request.query() {
            return false;
        }
        let completed = self.completed();
        self.set_stage(
            thread,
            Stage::Looked {
                call,
                request,
                completed,
            },
        );
        true
    }
}
