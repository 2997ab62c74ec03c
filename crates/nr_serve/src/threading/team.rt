//! What all threads of a run share, and what each does for one request.
ghost use Rattle.std.specs.Prelude.{◌≡◌, ◌+◌, ◌<◌, IfSome, None};
ghost use Rattle.vs_types.specs.Query.{IsQuery};
ghost use Rattle.vs_types.specs.declared.limits.TheConstants.{CALLS};
ghost use Rattle.nr_ring.specs.LogHistory.{log_after};
ghost use Rattle.nr_record.specs.Pen.{calls_in};
ghost use Rattle.nr_replicas.specs.Replicas.{HasHeard};
ghost use Rattle.nr_serve.specs.inside.Calls.{IsTrueAt};
ghost use Rattle.nr_serve.specs.inside.Working.{HasCalled, IsNamed};

use crate::endings::call_outcome::CallOutcome;
use nr_record::{Clock, Pen};
use nr_replicas::{Gate, Point, Replicas, ReplicasName, Signal};
use nr_ring::{LogName, LogPass};
use std::sync::Wait;
use vs_types::{Answer, Query, Request};

/// A place of the log as it is in a trace, whose places are counted from this one on. `None` of a place before it, and of one that is
/// 2^32 places behind it or more.
fn place_behind(base: u64, place: u64) -> Option<u32>
    ensures { IfSome result (λ at. place ≡ base + at) }
{
    u32::try_from(place.checked_sub(base)?).ok()
}

/// What all threads of a run share: the replicas, the clock, the gate, how many turns each call has, and the place of the log from
/// which on places are counted.
#[derive(Drop)]
pub(crate) struct Team<'a, J: LogName, K: ReplicasName, G: Gate> {
    pub(crate) replicas: &'a Replicas<J, K>,
    pub(crate) clock: &'a Clock,
    pub(crate) gate: &'a G,
    pub(crate) turns: u32,
    pub(crate) base: u64,
}

impl<J: LogName, K: ReplicasName, G: Gate> Team<'_, J, K, G> {
    /// Makes a call: stamps it, has the replicas answer it, and stamps the reply. If the gate says stop, or the replicas do
    /// not answer, there is none.
    pub(crate) fn call<R: Wait>(
        &self,
        rt: &R,
        pen: &mut Pen,
        pass: &mut LogPass<J>,
        thread: u16,
        request: Request,
    ) -> CallOutcome
        requires layout { self.now.replicas.now ≡ self.now.clock.now.layout }
        requires names { IsNamed self.now.clock.now.layout self.now.base J.depth J.replicas K.tables
            K.base }
        requires pen { (pen.old.clock ≡ self.now.clock.now) × (pen.old.waiting ≡ None)
            × (calls_in pen.old.made < pen.old.quota) }
        requires pass { pass.old.log ≡ K.log }
        requires thread { thread < self.now.clock.now.layout.threads }
        requires fits { IsQuery self.now.clock.now.layout.depth request }
        ensures log { pass.new.log ≡ pass.old.log }
        ensures heard { HasHeard J.depth J.replicas pass.old.view pass.new.view }
        ensures called { HasCalled self.now.clock.now.layout K.base request pen.old pen.new
            pass.new result }
    {
        pass.has_seen_a_history();
        let number = pen.call(self.clock, request);
        if self.gate.at(thread, Point::Called) == Signal::Stop {
            return CallOutcome::Stopped;
        }
        let Some((reached, answer)) = self.ask(rt, pass, thread, number, request) else {
            return CallOutcome::Stopped;
        };
        let Some(at) = place_behind(self.base, reached) else {
            return CallOutcome::Stopped;
        };
        if self.gate.at(thread, Point::Answered) == Signal::Stop {
            return CallOutcome::Stopped;
        }
        pen.reply(self.clock, at, answer);
        CallOutcome::Answer(at, answer)
    }

    /// Has the replicas answer a call: where it was reached, and the answer.
    fn ask<R: Wait>(
        &self,
        rt: &R,
        pass: &mut LogPass<J>,
        thread: u16,
        number: u32,
        request: Request,
    ) -> Option<(u64, Answer)>
        requires layout { self.now.replicas.now ≡ self.now.clock.now.layout }
        requires names { IsNamed self.now.clock.now.layout self.now.base J.depth J.replicas K.tables
            K.base }
        requires pass { pass.old.log ≡ K.log }
        requires thread { thread < self.now.clock.now.layout.threads }
        requires number { number < CALLS }
        requires fits { IsQuery self.now.clock.now.layout.depth request }
        ensures log { pass.new.log ≡ pass.old.log }
        ensures heard { HasHeard J.depth J.replicas pass.old.view pass.new.view }
        ensures told { IfSome result
            (λ told.
            IsTrueAt self.now.clock.now.layout (log_after J.replicas pass.new.view.seen) number
            request told.0 told.1) }
    {
        let (replicas, turns) = (self.replicas, self.turns);
        match request.query() {
            Query::Update(op) => replicas
                .update(rt, pass, thread, number, op, turns, self.gate)
                .ok(),
            Query::Resolve(address) => replicas.read(rt, pass, thread, number, address, turns).ok(),
            Query::Access(address, mode, access) => replicas
                .access(rt, pass, thread, number, address, mode, access, turns)
                .ok(),
        }
    }
}
