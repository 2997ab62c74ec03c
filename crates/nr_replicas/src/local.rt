//! What lies under the lock of a replica.
ghost use Rattle.std.specs.Option.{ForSome};
ghost use Rattle.std.specs.Prelude.{◌≡◌, ◌-◌, ◌≤◌, ◌<◌, IfErr, IfNone, IfSome, None, OnErr, []};
ghost use Rattle.vs_types.specs.declared.limits.TheConstants.{LOG_PLACES};
ghost use Rattle.vs_types.specs.Depth.{IsCanonical};
ghost use Rattle.nr_ring.specs.LogHistory.{log_after, tail};
ghost use Rattle.nr_ring.specs.declared.ring.tails.AppendFault.TheVariants.{LogEnded};
ghost use Rattle.nr_node.specs.Calls.{IsAnsweredIn};
ghost use Rattle.nr_node.specs.Node.{log_of, node_space};
ghost use Rattle.nr_replicas.specs.Replicas.{HasHeard, IsAnsweredAt, IsReadAt};
ghost use Rattle.nr_replicas.specs.inside.Replicas.{IsOwnAnswer, answer_in};

use crate::fitting::Fitting;
use crate::name::ReplicasName;
use crate::question::Question;
use arrayvec::ArrayVec;
use nr_node::{Held, Node};
use nr_ring::{AppendFault, LogName, LogPass, PackedEntry, RingLog};
use nr_slots::{Answered, Slots};
use std::marker::{Model, PhantomData};
use std::sync::Arc;
use vs_arena::RawArena;
use vs_types::{Answer, RING};

/// How many entries a node may have applied above its local tail when it follows the log once more: the ring has room for 16.
const MOST_AHEAD: usize = 7;

/// An update that a thread waits for: the thread, its slot, the update's entry, and a place that is not above its own.
#[derive(Clone, Copy)]
pub(crate) struct Wanted {
    pub(crate) thread: u16,
    pub(crate) slot: u16,
    pub(crate) entry: PackedEntry,
    pub(crate) from: u64,
}

/// The node of a replica, and the slots of its threads. The node is of the log that the name says, may have as many tables and keeps the
/// entries since the last cut; the log has 65,536 places at least. Beside them there is room for what a call answers, so that no call
/// has to fill an array of its own.
#[derive(Drop)]
pub(crate) struct Local<J: LogName, K: ReplicasName> {
    node: Node<RawArena, J>,
    slots: Arc<Slots<Fitting<J>>>,
    answers: ArrayVec<Answered, RING>,
    of: PhantomData<K>,
}

impl<J: LogName, K: ReplicasName> Model for Local<J, K> {
    ghost use Rattle.std.specs.Prelude.{◌≡◌, ◌≤◌};
    ghost use Rattle.nr_node.specs.Node.{NodeState};
    ghost use Rattle.vs_types.specs.declared.limits.TheConstants.{LOG_PLACES};

    ghost Value = { NodeState };

    ghost view = { λ l. l.node };

    ghost invariant = { λ l. (l.node.known.log ≡ K.log) × (l.node.tables ≡ K.tables)
        × (l.node.base ≡ K.base) × (LOG_PLACES ≤ J.places) };
}

impl<J: LogName, K: ReplicasName> Local<J, K> {
    pub(crate) fn new(node: Node<RawArena, J>, slots: Arc<Slots<Fitting<J>>>) -> Local<J, K>
        requires log { node.known.log ≡ K.log }
        requires tables { node.tables ≡ K.tables }
        requires base { node.base ≡ K.base }
        requires places { LOG_PLACES ≤ J.places }
        ensures { result ≡ node }
    {
        Local {
            node,
            slots,
            answers: ArrayVec::new(),
            of: PhantomData,
        }
    }

    pub(crate) fn into_node(self) -> Node<RawArena, J>
        ensures node { result ≡ self }
        ensures log { result.known.log ≡ K.log }
        ensures tables { result.tables ≡ K.tables }
        ensures base { result.base ≡ K.base }
    {
        self.node
    }

    /// A combiner's turn: takes a batch from the slots where the node holds none, appends it where it has no place yet, and takes all
    /// entries that the log has. Whether it appended one; and the place and the answer of the combiner's own update, where this turn
    /// answered it: that is confirmed here, and its slot stays taken.
    #[inline(always)]
    pub(crate) fn combine(
        &mut self,
        log: &RingLog<J>,
        pass: &mut LogPass<J>,
        wanted: &Wanted,
        own: &mut Option<(u64, Answer)>,
    ) -> Result<bool, AppendFault>
        requires log { (log.now ≡ K.log) × (pass.old.log ≡ K.log) }
        requires none { own.old ≡ None }
        ensures log { pass.new.log ≡ pass.old.log }
        ensures heard { HasHeard J.depth J.replicas pass.old.view pass.new.view }
        ensures own { IsOwnAnswer J.depth K.tables wanted.now.from
            (log_after J.replicas pass.new.view.seen) wanted.now.entry own.new }
        ensures none { OnErr result (own.new ≡ None) }
        ensures ended { IfErr result (λ fault. fault ≡ LogEnded
            → LOG_PLACES - RING < tail (log_of J.replicas self.new)) }
    {
        if self.node.held() == Held::Nothing {
            self.collect();
        }
        match self.put_and_catch_up(log, wanted, own) {
            Ok(appended) => {
                self.confirm_own(log, pass, wanted, own);
                Ok(appended)
            }
            Err(fault) => {
                pass.has_seen_a_history();
                Err(fault)
            }
        }
    }

    /// Appends the batch, where it has no place yet, takes all entries that the log has, and leaves the answers of the held updates in
    /// their slots. Whether it appended one; and of the update that is wanted its place and answer, in place of an answer in its slot.
    #[inline(always)]
    fn put_and_catch_up(
        &mut self,
        log: &RingLog<J>,
        wanted: &Wanted,
        own: &mut Option<(u64, Answer)>,
    ) -> Result<bool, AppendFault>
        requires log { log.now ≡ K.log }
        requires none { own.old ≡ None }
        ensures own { IfSome own.new (λ update.
            IsAnsweredIn J.depth K.tables (log_of J.replicas self.new).entries
            wanted.now.entry update.0 update.1) }
        ensures none { OnErr result (own.new ≡ None) }
        ensures ended { IfErr result (λ fault. fault ≡ LogEnded
            → LOG_PLACES - RING < tail (log_of J.replicas self.new)) }
    {
        self.node.is_well_formed();
        if !self.node.has_room() {
            return Err(AppendFault::LogEnded);
        }
        let slots = &self.slots;
        match self.node.held() {
            Held::Unplaced(_) => {
                let Wanted { slot, entry, .. } = wanted;
                match self.node.put_and_catch_up(log, slots, *slot, *entry, own) {
                    Ok(()) => Ok(true),
                    Err(fault) => Err(fault),
                }
            }
            _ => {
                self.follow(log);
                Ok(false)
            }
        }
    }

    /// Takes the updates that wait in the slots into the node's batch.
    fn collect(&mut self)
        requires { self.old.batch ≡ [] }
        ensures { self.new.known ≡ self.old.known }
    {
        self.node.collect(&self.slots);
    }

    /// Applies all entries that the log has, each of which is completed: whoever appends one takes it in the same exchange. The node's own
    /// replica takes them with its next append, or once there are so many that others might soon wait for room. So they cost no exchange
    /// here, which would take the log's cell from all other replicas.
    fn follow(&mut self, log: &RingLog<J>)
        requires log { log.now ≡ K.log }
    {
        if self.node.ahead() > MOST_AHEAD || !self.node.has_room_to_take() {
            self.catch_up(log);
            return;
        }
        match self.node.held() {
            Held::Placed(_, _) => self.catch_up(log),
            _ => self.node.follow(log),
        }
    }

    /// Takes all entries that the log has, and leaves the answers of the held updates in their slots.
    pub(crate) fn catch_up(&mut self, log: &RingLog<J>)
        requires log { log.now ≡ K.log }
    {
        self.answers.clear();
        if !self.node.has_room_to_take() {
            return;
        }
        if self.node.catch_up(log, &mut self.answers).is_err() {
            return;
        }
        for answered in self.answers.as_slice() {
            let _taken = self.slots.answer(*answered);
        }
    }

    /// Confirms the combiner's own update, where it was answered: it is, where its place is not below the one that it may have at the
    /// least. The pass then gets what the node has seen.
    #[inline(always)]
    fn confirm_own(
        &mut self,
        log: &RingLog<J>,
        pass: &mut LogPass<J>,
        wanted: &Wanted,
        own: &mut Option<(u64, Answer)>,
    )
        requires log { (log.now ≡ K.log) × (pass.old.log ≡ K.log) }
        requires own { ForSome own.old (λ update.
            IsAnsweredIn J.depth K.tables (log_of J.replicas self.old).entries
            wanted.now.entry update.0 update.1) }
        ensures same { self.new ≡ self.old }
        ensures log { pass.new.log ≡ pass.old.log }
        ensures heard { HasHeard J.depth J.replicas pass.old.view pass.new.view }
        ensures own { IsOwnAnswer J.depth K.tables wanted.now.from
            (log_after J.replicas pass.new.view.seen) wanted.now.entry own.new }
    {
        pass.has_seen_a_history();
        let Some((place, _)) = *own else {
            return;
        };
        let early = place < wanted.from;
        if early {
            *own = None;
            return;
        }
        self.node.tell(log, pass);
    }

    /// The answer of an update, where the log has it at this place, which is not below the one that it may have at the least.
    #[inline(always)]
    fn recall(&self, wanted: &Wanted, place: u64) -> Option<Answer>
        ensures { IfSome result (λ answer. IsAnsweredAt J.depth K.tables wanted.now.from
            (log_of J.replicas self.now) wanted.now.entry place answer) }
    {
        if place < wanted.from {
            return None;
        }
        let answer = self.node.answer_to(place, wanted.entry)?;
        Some(answer)
    }

    /// This place and the answer of an update, where the log has it there, and the place is not below the one that it may have at the
    /// least. The pass then gets what the node has seen.
    #[inline(always)]
    pub(crate) fn confirm(
        &mut self,
        log: &RingLog<J>,
        pass: &mut LogPass<J>,
        wanted: &Wanted,
        place: u64,
    ) -> Option<(u64, Answer)>
        requires log { (log.now ≡ K.log) × (pass.old.log ≡ K.log) }
        ensures log { pass.new.log ≡ pass.old.log }
        ensures heard { HasHeard J.depth J.replicas pass.old.view pass.new.view }
        ensures confirmed { IfSome result (λ update.
            IsAnsweredAt J.depth K.tables wanted.now.from
            (log_after J.replicas pass.new.view.seen) wanted.now.entry update.0 update.1) }
    {
        pass.has_seen_a_history();
        let answer = self.recall(wanted, place)?;
        self.node.tell(log, pass);
        Some((place, answer))
    }

    /// Reads, where the node has applied so many entries, and hands the pass what the node has seen; else it catches up.
    pub(crate) fn read(
        &mut self,
        log: &RingLog<J>,
        pass: &mut LogPass<J>,
        completed: u64,
        address: u64,
        question: Question,
    ) -> Option<(u64, Answer)>
        requires log { (log.now ≡ K.log) × (pass.old.log ≡ K.log) }
        requires canonical { IsCanonical J.depth address }
        ensures log { pass.new.log ≡ pass.old.log }
        ensures heard { IfSome result (λ _.
            HasHeard J.depth J.replicas pass.old.view pass.new.view) }
        ensures unheard { IfNone result (pass.new ≡ pass.old) }
        ensures read { IfSome result (λ read.
            IsReadAt J.depth K.tables completed (log_after J.replicas pass.new.view.seen)
            (answer_in question address) read.0 read.1) }
    {
        if self.node.applied() < completed {
            self.follow(log);
            return None;
        }
        let read = self.answer(address, question);
        self.node.tell(log, pass);
        Some(read)
    }

    /// How many entries the node has applied, and what a question is answered after them.
    fn answer(&self, address: u64, question: Question) -> (u64, Answer)
        requires { IsCanonical J.depth address }
        ensures at { result.0 ≡ self.now.applied }
        ensures written { result.0 ≤ tail (log_of J.replicas self.now) }
        ensures answer { result.1
            ≡ answer_in question address (node_space J.depth J.replicas self.now) }
    {
        self.node.is_well_formed();
        match question {
            Question::Resolve => self.node.read(address),
            Question::Access(mode, access) => self.node.access(address, mode, access),
        }
    }

    /// Hands a pass what the node has seen.
    pub(crate) fn tell(&mut self, log: &RingLog<J>, pass: &mut LogPass<J>)
        requires log { (log.now ≡ K.log) × (pass.old.log ≡ K.log) }
        ensures same { self.new ≡ self.old }
        ensures log { pass.new.log ≡ pass.old.log }
        ensures heard { HasHeard J.depth J.replicas pass.old.view pass.new.view }
        ensures more { tail (log_of J.replicas self.old)
            ≤ tail (log_after J.replicas pass.new.view.seen) }
    {
        self.node.tell(log, pass);
    }
}
