//! A pen: what one thread's calls are, and how they were answered.
ghost use Rattle.std.specs.Prelude.{◌≡◌, ℕ, ◌%◌, ◌<◌, ◌≤◌, [], ◌∷◌, ◌++◌, All, IfOk, IsSome, None, Some, vec_capacity, vec_len};
ghost use Rattle.vs_types.specs.Config.{Layout};
ghost use Rattle.vs_types.specs.Query.{IsQuery};
ghost use Rattle.vs_types.specs.declared.limits.TheConstants.{CALLS, LOG_PLACES};
ghost use Rattle.nr_trace.specs.Recording.{IsEvent};
ghost use Rattle.nr_trace.specs.declared.formats.version.Version.TheVariants.{V2};
ghost use Rattle.nr_record.specs.Pen.{calls_in, clock_of, new_pen, with_call, with_reply};

use crate::clock::Clock;
use crate::stamped::Stamped;
use crate::view::View;
use atomic_table::Seat;
use nr_trace::{Asked, Event, Recorded};
use std::alloc::Global;
use std::marker::Model;
use vs_types::{Answer, Config, Memory, Request};

/// What one thread has called and how it was answered, each with the stamp that was drawn for it. Contracts see which clock it draws
/// from, whose it is, how many calls it may make, the call that waits for its reply, and its notes.
#[derive(Drop)]
pub struct Pen {
    pub(crate) seat: Seat<(), View>,
    replica: u8,
    thread: u16,
    waiting: Option<u32>,
    pub(crate) made: Vec<Stamped>,
}

impl Model for Pen {
    ghost use Rattle.std.specs.Prelude.{◌≡◌, [], vec_capacity};
    ghost use Rattle.nr_record.specs.Pen.{PenState, clock_of};
    ghost use Rattle.nr_record.specs.inside.Held.{IsHeld};

    ghost Value = { PenState };

    ghost view = { λ p. record {
      clock = clock_of p.seat.table_id p.seat.me.0.plan;
      thread = p.thread;
      quota = p.seat.me.0.quota;
      waiting = p.waiting;
      made = p.made.items;
    } };

    ghost invariant = { λ p. (p.seat.me.1 ≡ [])
        × IsHeld p.seat.me.0 p.replica p.thread p.waiting (vec_capacity p.made) p.made.items };
}

/// Adds a note, for which there is room.
fn note(made: &mut Vec<Stamped>, item: Stamped)
    requires { vec_len made.old < vec_capacity made.old }
    ensures { (made.new.items ≡ made.old.items ++ item ∷ [])
        × (vec_capacity made.old ≤ vec_capacity made.new) }
{
    let Ok(()) = made.push(item) else {
        unreachable!()
    };
}

/// What keeps a reply.
fn reply_of(call: u32, at: u32, answer: Answer) -> Recorded
    ensures event { result ≡ Event.Reply call at answer }
    ensures in_range { (layout : Layout) → IsEvent V2 layout (Event.Reply call at answer) }
{
    Recorded::of(Event::Reply { call, at, answer })
}

impl Pen {
    /// A pen that has made no call, with room for the calls of its quota.
    pub(crate) fn new(
        alloc: Global,
        seat: Seat<(), View>,
        replica: u8,
        thread: u16,
        quota: u32,
    ) -> Result<Pen, Memory>
        requires seat { (seat.me.1 ≡ []) × (seat.me.0.stamps ≡ []) × (seat.me.0.quota ≡ quota) }
        requires place { (replica ≡ thread % seat.me.0.plan.config.replicas)
            × (replica < seat.me.0.plan.config.replicas)
            × (thread < seat.me.0.plan.config.threads) }
        requires quota { quota ≤ LOG_PLACES }
        ensures { IfOk result
            (λ pen. pen ≡ new_pen (clock_of seat.table_id seat.me.0.plan) thread quota) }
    {
        let made = Vec::with_capacity(alloc, 2 * quota as usize)?;
        Ok(Pen {
            seat,
            replica,
            thread,
            waiting: None,
            made,
        })
    }

    /// The stamp of a call that the thread makes now, which is the call's number. The thread has had its replies, may make one call
    /// more, and the request is well formed at the depth of the service.
    ///
    /// It allocates no memory.
    pub fn call(&mut self, clock: &Clock, request: Request) -> u32
        requires clock { self.old.clock ≡ clock.now }
        requires none_waiting { self.old.waiting ≡ None }
        requires quota { calls_in self.old.made < self.old.quota }
        requires fits { IsQuery self.old.clock.layout.depth request }
        ensures made { self.new ≡ with_call self.old result request }
        ensures later { All (λ item. item.stamp < result) self.old.made }
        ensures in_range { result < CALLS }
    {
        let stamp = clock.draw(&mut self.seat);
        let event = Recorded::of(Event::Call {
            replica: self.replica,
            thread: self.thread,
            asked: Asked::Request(request),
        });
        self.waiting = Some(stamp);
        note(&mut self.made, Stamped { stamp, event });
        stamp
    }

    /// The stamp of the reply to the call that waits for it: where the answer was reached, and the answer.
    ///
    /// It allocates no memory.
    pub fn reply(&mut self, clock: &Clock, at: u32, answer: Answer) -> u32
        requires clock { self.old.clock ≡ clock.now }
        requires waiting { IsSome self.old.waiting }
        ensures made { (call : ℕ) → self.old.waiting ≡ Some call
            → self.new ≡ with_reply self.old result call at answer }
        ensures later { All (λ item. item.stamp < result) self.old.made }
        ensures in_range { result < CALLS }
    {
        let Some(call) = self.waiting else {
            unreachable!()
        };
        let stamp = clock.draw(&mut self.seat);
        let event = reply_of(call, at, answer);
        self.waiting = None;
        note(&mut self.made, Stamped { stamp, event });
        stamp
    }
}
