//! The replicas of an address space, which threads share.
ghost use Rattle.std.specs.Arc.{arc_value};
ghost use Rattle.std.specs.Prelude.{◌≡◌, ◌-◌, ◌/◌, ◌<◌, IfErr, IfOk, None};
ghost use Rattle.vs_types.specs.declared.limits.TheConstants.{LOG_PLACES, RING};
ghost use Rattle.vs_types.specs.Depth.{IsCanonical};
ghost use Rattle.vs_types.specs.Operation.{IsAction};
ghost use Rattle.vs_types.specs.Step.{allow, look};
ghost use Rattle.vs_types.specs.declared.limits.TheConstants.{CALLS};
ghost use Rattle.nr_ring.specs.LogHistory.{completed, log_after, tail};
ghost use Rattle.nr_replicas.specs.Replicas.{HasHeard, IsAnsweredAt, IsFaultOf, IsReadAt};
ghost use Rattle.nr_replicas.specs.declared.replicas.Combined.TheVariants.{Ended};
ghost use Rattle.nr_replicas.specs.inside.Replicas.{IsOwnAnswer, answer_in, slots_each};

use crate::gate::{Gate, Point, Signal};
use crate::local::{Local, Wanted};
use crate::name::ReplicasName;
use crate::patience::Patience;
use crate::question::Question;
use crate::shared::Shared;
use crate::update_fault::{Stopped, UpdateFault};
use nr_ring::{AppendFault, LogName, LogPass, RingLog};
use nr_slots::Waiting;
use std::alloc::Global;
use std::marker::Model;
use std::sync::Wait;
use vs_types::{Access, Answer, Config, Mode, Op};

/// An address space with one copy for each memory node (Node Replication, ASPLOS 2017): a shared log of updates, and for each
/// replica a node under a lock and a slot for each of its threads. Contracts see the configuration.
///
/// Thread `t` belongs to replica `t` modulo the number of replicas, and has slot `t` divided by that number there. No lock is held
/// where a gate is asked, and never those of two replicas at once. A turn is one poll of the thread's slot, or one attempt at a
/// replica's lock with at most one append and one catch-up, or one read.
#[derive(Drop)]
pub struct Replicas<J: LogName, K: ReplicasName> {
    pub(crate) log: RingLog<J>,
    pub(crate) config: Config,
    pub(crate) shared: Vec<Shared<J, K>>,
    pub(crate) alloc: Global,
}

impl<J: LogName, K: ReplicasName> Model for Replicas<J, K> {
    ghost use Rattle.std.specs.Arc.{arc_value};
    ghost use Rattle.std.specs.Prelude.{◌≡◌, ◌≤◌, map};
    ghost use Rattle.vs_types.specs.Config.{Layout};
    ghost use Rattle.vs_types.specs.declared.limits.TheConstants.{LOG_PLACES};
    ghost use Rattle.nr_replicas.specs.inside.Replicas.{AreShared};

    ghost Value = { Layout };

    ghost view = { λ r. r.config };

    ghost invariant = { λ r. (r.log ≡ K.log)
        × AreShared J.depth J.replicas K.tables r.config (map (λ s. arc_value s.slots) r.shared.items)
        × (LOG_PLACES ≤ J.places) };
}

/// What an update does next.
#[derive(Clone, Copy)]
enum Turn {
    /// Polls its slot.
    Poll,
    /// Combines at its replica.
    Combine,
    /// Has this replica catch up.
    CatchUp(usize),
}

/// What came of a combiner's turn.
#[derive(Clone, Copy)]
enum Combined {
    /// It appended a batch.
    Appended,
    /// It appended a batch, after which the gate said stop.
    Stopped,
    /// It did not, or did not have the lock.
    Went,
    /// The ring is full.
    Full,
    /// The log has ended.
    Ended,
}

impl Combined {
    /// What comes of it once the gate was asked, which it is where a batch was appended.
    #[inline(always)]
    fn ask<G: Gate>(self, gate: &G, thread: u16) -> Combined
        ensures { result ≡ Ended → self ≡ Ended }
    {
        match self {
            Combined::Appended if gate.at(thread, Point::Appended) == Signal::Stop => {
                Combined::Stopped
            }
            _ => self,
        }
    }
}

impl<J: LogName, K: ReplicasName> Replicas<J, K> {
    /// The replica to which a thread belongs.
    fn home(&self, thread: u16) -> &Shared<J, K>
        requires { thread < self.now.threads }
        ensures { arc_value result.now.slots ≡ slots_each self.now }
    {
        &self.shared[usize::from(thread % u16::from(self.config.replicas()))]
    }

    /// The slot of a thread at its replica.
    fn slot_of(&self, thread: u16) -> u16
        requires { thread < self.now.threads }
        ensures is { result ≡ thread / self.now.replicas }
        ensures within { result < slots_each self.now }
    {
        thread / u16::from(self.config.replicas())
    }

    /// Updates the address space: the place of the update in the log, and its answer.
    ///
    /// The thread's update waits in its slot until a combiner of its replica has appended and applied it; the thread combines
    /// itself where no other does. It takes at most so many turns. The answer is confirmed under its replica's lock: in the turn in
    /// which the thread combined and answered its update itself, and else by one hold more after its turns. The gate is asked after
    /// each batch that this thread appends.
    ///
    /// Waits for locks. Allocates no memory.
    ///
    /// # Errors
    ///
    /// `Occupied` where an earlier update of the thread was not answered. `Ended` where the log has no room for a batch, which
    /// this thread found when it appended. `Stopped` where the turns are used up, the gate says stop, or the replica does not
    /// confirm the answer. After `Ended` and `Stopped` the update may still be placed, and the slot may stay occupied.
    pub fn update<G: Gate, R: Wait>(
        &self,
        rt: &R,
        pass: &mut LogPass<J>,
        thread: u16,
        call: u32,
        op: Op,
        turns: u32,
        gate: &G,
    ) -> Result<(u64, Answer), UpdateFault>
        requires log { pass.old.log ≡ K.log }
        requires thread { thread < self.now.threads }
        requires call { call < CALLS }
        requires fits { IsAction J.depth op }
        ensures log { pass.new.log ≡ pass.old.log }
        ensures heard { HasHeard J.depth J.replicas pass.old.view pass.new.view }
        ensures answered { IfOk result (λ update.
            IsAnsweredAt J.depth K.tables (tail (log_after J.replicas pass.old.view.seen))
            (log_after J.replicas pass.new.view.seen)
            (record { call = call; op = op }) update.0 update.1) }
        ensures refused { IfErr result (IsFaultOf call (log_after J.replicas pass.new.view.seen)) }
    {
        let from = self.log.look(pass).tail;
        let home = self.home(thread);
        let slot = self.slot_of(thread);
        let waiting = Waiting::new(slot, call, op);
        if home.slots.post_waiting(waiting).is_err() {
            return Err(UpdateFault::Occupied);
        }
        let entry = waiting.entry();
        let wanted = Wanted {
            thread,
            slot,
            entry,
            from,
        };
        let mut own = None;
        let place = self.wait(rt, pass, home, &wanted, turns, gate, &mut own)?;
        if let Some(update) = own {
            return Ok(update);
        }
        match Patience::new()
            .hold(rt, &home.local)
            .confirm(&self.log, pass, &wanted, place)
        {
            Some(update) => Ok(update),
            None => Err(UpdateFault::Stopped(call)),
        }
    }

    /// Takes turns until the thread's slot has an answer, or the thread has answered its update itself: its place. If it has answered
    /// it itself it is confirmed, and has its answer.
    #[inline(always)]
    fn wait<G: Gate, R: Wait>(
        &self,
        rt: &R,
        pass: &mut LogPass<J>,
        home: &Shared<J, K>,
        wanted: &Wanted,
        turns: u32,
        gate: &G,
        own: &mut Option<(u64, Answer)>,
    ) -> Result<u64, UpdateFault>
        requires log { pass.old.log ≡ K.log }
        requires slot { wanted.now.slot < arc_value home.now.slots }
        requires none { own.old ≡ None }
        ensures log { pass.new.log ≡ pass.old.log }
        ensures heard { HasHeard J.depth J.replicas pass.old.view pass.new.view }
        ensures own { IsOwnAnswer J.depth K.tables wanted.now.from
            (log_after J.replicas pass.new.view.seen) wanted.now.entry own.new }
        ensures refused { IfErr result
            (IsFaultOf wanted.now.entry.call (log_after J.replicas pass.new.view.seen)) }
    {
        pass.has_seen_a_history();
        let call = wanted.entry.call();
        let mut patience = Patience::new();
        let mut turn = Turn::Combine;
        for taken in 0..turns {
            turn = match turn {
                Turn::Poll => match home.slots.poll(wanted.slot) {
                    Some(answered) => return Ok(answered.place()),
                    None => Turn::Combine,
                },
                Turn::Combine => {
                    let combined = self.combine(rt, pass, home, wanted, &mut patience, own);
                    match (*own, combined.ask(gate, wanted.thread)) {
                        (_, Combined::Stopped) => return Err(UpdateFault::Stopped(call)),
                        (Some((place, _)), _) if taken + 1 < turns => {
                            let _closed = home.slots.close(wanted.slot, call);
                            return Ok(place);
                        }
                        (Some(_), _) => return Err(UpdateFault::Stopped(call)),
                        (None, Combined::Appended | Combined::Went) => Turn::Poll,
                        (None, Combined::Full) => Turn::CatchUp(0),
                        (None, Combined::Ended) => {
                            return match home.slots.poll(wanted.slot) {
                                Some(answered) => Ok(answered.place()),
                                None => Err(UpdateFault::Ended(call)),
                            };
                        }
                    }
                }
                Turn::CatchUp(replica) => self.catch_up(rt, replica, &mut patience),
            };
        }
        Err(UpdateFault::Stopped(call))
    }

    /// One attempt at a replica's lock, with at most one append and one catch-up, and the thread's own update if that answered it.
    /// If the log has ended, the pass has seen so.
    #[inline(always)]
    fn combine<R: Wait>(
        &self,
        rt: &R,
        pass: &mut LogPass<J>,
        home: &Shared<J, K>,
        wanted: &Wanted,
        patience: &mut Patience,
        own: &mut Option<(u64, Answer)>,
    ) -> Combined
        requires log { pass.old.log ≡ K.log }
        requires none { own.old ≡ None }
        ensures log { pass.new.log ≡ pass.old.log }
        ensures heard { HasHeard J.depth J.replicas pass.old.view pass.new.view }
        ensures own { IsOwnAnswer J.depth K.tables wanted.now.from
            (log_after J.replicas pass.new.view.seen) wanted.now.entry own.new }
        ensures ended { result ≡ Ended
            → LOG_PLACES - RING < tail (log_after J.replicas pass.new.view.seen) }
    {
        let Some(mut local) = patience.attempt(rt, &home.local) else {
            pass.has_seen_a_history();
            return Combined::Went;
        };
        match local.combine(&self.log, pass, wanted, own) {
            Ok(true) => Combined::Appended,
            Ok(false) => Combined::Went,
            Err(AppendFault::Moved(_)) => Combined::Went,
            Err(AppendFault::Full(_)) => Combined::Full,
            Err(AppendFault::LogEnded) => {
                local.tell(&self.log, pass);
                Combined::Ended
            }
        }
    }

    /// One attempt at the lock of a replica, to have it catch up; and what comes next: the same for the next replica, if there is
    /// one.
    fn catch_up<R: Wait>(&self, rt: &R, replica: usize, patience: &mut Patience) -> Turn {
        let Some(shared) = self.shared.get(replica) else {
            return Turn::Poll;
        };
        if let Some(mut local) = patience.attempt(rt, &shared.local) {
            local.catch_up(&self.log);
        }
        if replica + 1 < self.shared.len() {
            Turn::CatchUp(replica + 1)
        } else {
            Turn::Poll
        }
    }

    /// Reads a canonical address: how many entries of the log the thread's replica had applied, and the translation after them,
    /// or `NotMapped`. They are all that was completed when the call began, or more. The number of the call is not used: a read
    /// leaves nothing behind.
    ///
    /// Waits for locks. Allocates no memory.
    ///
    /// # Errors
    ///
    /// `Stopped` where the turns are used up.
    pub fn read<R: Wait>(
        &self,
        rt: &R,
        pass: &mut LogPass<J>,
        thread: u16,
        call: u32,
        address: u64,
        turns: u32,
    ) -> Result<(u64, Answer), Stopped>
        requires log { pass.old.log ≡ K.log }
        requires thread { thread < self.now.threads }
        requires canonical { IsCanonical J.depth address }
        ensures log { pass.new.log ≡ pass.old.log }
        ensures heard { HasHeard J.depth J.replicas pass.old.view pass.new.view }
        ensures read { IfOk result (λ read.
            IsReadAt J.depth K.tables (completed (log_after J.replicas pass.old.view.seen))
            (log_after J.replicas pass.new.view.seen) (λ space. look space address) read.0 read.1) }
    {
        let home = self.home(thread);
        self.ask(rt, pass, home, address, Question::Resolve, turns)
    }

    /// Whether an access of a canonical address is allowed: how many entries of the log the thread's replica had applied, and
    /// `Allowed` with the physical address, or `Fault` with the page fault's error code. Else as `read`.
    ///
    /// Waits for locks. Allocates no memory.
    ///
    /// # Errors
    ///
    /// `Stopped` where the turns are used up.
    pub fn access<R: Wait>(
        &self,
        rt: &R,
        pass: &mut LogPass<J>,
        thread: u16,
        call: u32,
        address: u64,
        mode: Mode,
        access: Access,
        turns: u32,
    ) -> Result<(u64, Answer), Stopped>
        requires log { pass.old.log ≡ K.log }
        requires thread { thread < self.now.threads }
        requires canonical { IsCanonical J.depth address }
        ensures log { pass.new.log ≡ pass.old.log }
        ensures heard { HasHeard J.depth J.replicas pass.old.view pass.new.view }
        ensures read { IfOk result (λ read.
            IsReadAt J.depth K.tables (completed (log_after J.replicas pass.old.view.seen))
            (log_after J.replicas pass.new.view.seen)
            (λ space. allow space address mode access) read.0 read.1) }
    {
        let home = self.home(thread);
        let question = Question::Access(mode, access);
        self.ask(rt, pass, home, address, question, turns)
    }

    /// Asks a question about an address, once this replica has applied all that was completed.
    fn ask<R: Wait>(
        &self,
        rt: &R,
        pass: &mut LogPass<J>,
        home: &Shared<J, K>,
        address: u64,
        question: Question,
        turns: u32,
    ) -> Result<(u64, Answer), Stopped>
        requires log { pass.old.log ≡ K.log }
        requires canonical { IsCanonical J.depth address }
        ensures log { pass.new.log ≡ pass.old.log }
        ensures heard { HasHeard J.depth J.replicas pass.old.view pass.new.view }
        ensures read { IfOk result (λ read.
            IsReadAt J.depth K.tables (completed (log_after J.replicas pass.old.view.seen))
            (log_after J.replicas pass.new.view.seen) (answer_in question address) read.0 read.1) }
    {
        let completed = self.log.look(pass).completed;
        let mut patience = Patience::new();
        for _ in 0..turns {
            if let Some(mut local) = patience.attempt(rt, &home.local) {
                let read = local.read(&self.log, pass, completed, address, question);
                if let Some(read) = read {
                    return Ok(read);
                }
            }
        }
        Err(Stopped)
    }
}
