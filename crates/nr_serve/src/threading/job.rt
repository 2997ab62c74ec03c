//! What a thread is given, and how it works through its script.
ghost use Rattle.std.specs.Prelude.{◌≡◌, ◌<◌, ◌≤◌, [], ◌∷◌, ◌++◌, length, vec_capacity, vec_len};
ghost use Rattle.nr_serve.specs.SegmentRun.{HasSeenMore};
ghost use Rattle.nr_serve.specs.inside.Calls.{IsServed, since};
ghost use Rattle.nr_serve.specs.inside.Working.{IsDone, IsNamed, IsReady, IsReadyJob};

use crate::endings::call_outcome::CallOutcome;
use crate::threading::team::Team;
use crate::threading::worker::Worker;
use nr_record::Pen;
use nr_replicas::{Gate, ReplicasName};
use nr_ring::{LogName, LogPass};
use std::marker::Model;
use std::sync::Wait;
use vs_types::Request;

/// What a thread is given: its number, its script, a pen, a pass, and room for what comes of each call.
#[derive(Drop)]
pub(crate) struct Job<J: LogName> {
    pub(crate) thread: u16,
    pub(crate) script: Vec<Request>,
    pub(crate) pen: Pen,
    pub(crate) pass: LogPass<J>,
    pub(crate) said: Vec<CallOutcome>,
}

impl<J: LogName> Model for Job<J> {
    ghost use Rattle.std.specs.Prelude.{◌≡◌, ◌≤◌, [], length, vec_capacity};
    ghost use Rattle.nr_serve.specs.inside.Working.{JobState};

    ghost Value = { JobState };

    ghost view = { λ j.
        record { thread = j.thread; script = j.script.items; pen = j.pen; pass = j.pass } };

    ghost invariant = { λ j. (j.said.items ≡ []) × (length j.script.items ≤ vec_capacity j.said) };
}

impl<J: LogName> Job<J> {
    /// Works through the script, and hands back the pen, the pass and what came of each call. It allocates no memory.
    pub(crate) fn work<K: ReplicasName, G: Gate, R: Wait>(
        self,
        rt: &R,
        team: &Team<'_, J, K, G>,
    ) -> Worker<J>
        requires layout { team.now.replicas.now ≡ team.now.clock.now.layout }
        requires names { IsNamed team.now.clock.now.layout team.now.base J.depth J.replicas K.tables K.base }
        requires ready { IsReadyJob team.now.clock.now K.log self }
        ensures { IsDone team.now.clock.now (since K.log K.base) self result }
    {
        let Job {
            thread,
            script,
            mut pen,
            mut pass,
            mut said,
        } = self;
        work_through(rt, team, thread, &script, &mut pen, &mut pass, &mut said);
        Worker { pen, pass, said }
    }
}

/// Makes a call of each request of the script, up to the first that is stopped, and notes what came of it.
fn work_through<J: LogName, K: ReplicasName, G: Gate, R: Wait>(
    rt: &R,
    team: &Team<'_, J, K, G>,
    thread: u16,
    script: &[Request],
    pen: &mut Pen,
    pass: &mut LogPass<J>,
    said: &mut Vec<CallOutcome>,
)
    requires layout { team.now.replicas.now ≡ team.now.clock.now.layout }
    requires names { IsNamed team.now.clock.now.layout team.now.base J.depth J.replicas K.tables K.base }
    requires ready { IsReady team.now.clock.now K.log thread script.now pen.old pass.old }
    requires said { (said.old.items ≡ []) × (length script.now ≤ vec_capacity said.old) }
    ensures served { IsServed team.now.clock.now (since K.log K.base) thread script.now
        (record { pen = pen.new; pass = pass.new; said = said.new.items }) }
    ensures heard { HasSeenMore pass.old pass.new }
{
    pass.has_seen_a_history();
    for done in 0..script.len() {
        let item = team.call(rt, pen, pass, thread, script[done]);
        note(said, item);
        match item {
            CallOutcome::Answer(_, _) => {}
            CallOutcome::Stopped => return,
        }
    }
}

/// Adds an item, for which there is room.
fn note(said: &mut Vec<CallOutcome>, item: CallOutcome)
    requires { vec_len said.old < vec_capacity said.old }
    ensures { (said.new.items ≡ said.old.items ++ item ∷ [])
        × (vec_capacity said.old ≤ vec_capacity said.new) }
{
    let Ok(()) = said.push(item) else {
        unreachable!()
    };
}
