//! A replica with its pass to the log, and the batch that it holds.
ghost use Rattle.std.specs.Prelude.{◌≡◌, ◌≢◌, ◌⊎◌, ◌<◌, ◌≤◌, ◌+◌, ◌-◌, ℕ, All, IfErr, IfNone, IfOk, IfSome, MatchBool, MatchOption};
ghost use Rattle.std.specs.Prelude.{None, OnErr, OnOk};
ghost use Rattle.std.specs.Prelude.{Some, [], ◌∷◌, length, slice_get};
ghost use Rattle.std.specs.FinMap as finite;
ghost use Rattle.vs_types.specs.Depth.{IsCanonical};
ghost use Rattle.vs_types.specs.LogEntry.{IsLogEntry};
ghost use Rattle.vs_types.specs.Operation.{IsAction};
ghost use Rattle.vs_types.specs.Refusal.{IfRefused};
ghost use Rattle.vs_types.specs.Space.{table_count};
ghost use Rattle.vs_types.specs.Step.{allow, look};
ghost use Rattle.vs_types.specs.declared.limits.TheConstants.{LOG_PLACES, RING, TABLES};
ghost use Rattle.vs_walk.specs.Walk.{TranslatesAs};
ghost use Rattle.nr_ring.specs.Calls.{HasLooked, HasMoved, copy_of, joint_view};
ghost use Rattle.nr_ring.specs.Entries.{HasAppended, IsReason};
ghost use Rattle.nr_ring.specs.LogHistory.{log_after, tail};
ghost use Rattle.nr_ring.specs.View.{HasSeenAdvances, StartsWith};
ghost use Rattle.nr_slots.specs.Batch.{Rises};
ghost use Rattle.nr_slots.specs.Updates.{Answered, Waiting};
ghost use Rattle.nr_node.specs.Calls.{HasCaughtUp, HasFollowed, HasPutAndCaughtUp, HasStayed, IsAnsweredIn, IsOwnPlace, LacksUpdate, answers_of};
ghost use Rattle.nr_node.specs.Calls.{entries_of};
ghost use Rattle.nr_node.specs.Node.{IsNode, held_of, log_of, new_node, node_space, replica_of, taken_by};
ghost use Rattle.nr_node.specs.Spaces.{answer_at};
ghost use Rattle.nr_node.specs.declared.held.Held.TheVariants.{Placed};

use crate::batch::{ask_for, entries_of, keep_unplaced};
use crate::held::Held;
use crate::laws::is_short;
use crate::replica::Replica;
use arrayvec::ArrayVec;
use nr_ring::{AppendFault, LogName, LogPass, Moved, PackedEntry, RingLog};
use nr_slots::{Answered, SlotRule, Slots, Waiting};
use std::alloc::Global;
use std::marker::Model;
use vs_arena::FrameStore;
use vs_space::NoRoot;
use vs_types::{Access, Answer, Depth, Fail, LOG_PLACES, LogEntry, Memory, Mode, RING};
use vs_walk::Dump;

/// A replica of the address space with its pass to the log, and at most one batch of updates that are on their way.
///
/// Its page table is that of the address space after the first `applied` entries of the log, which are all that its replica has
/// taken, and those that it has followed since then. Contracts see its log, what its pass knows, how many tables it may have, what it has
/// applied, and its batch. Beside these it has room for the entries that a call appends or takes, so that no call has to fill an array of
/// its own.
#[derive(Drop)]
pub struct Node<S: FrameStore, J: LogName> {
    pass: LogPass<J>,
    replica: Replica<S, J>,
    batch: ArrayVec<Waiting, RING>,
    first: Option<u64>,
    asked: [PackedEntry; RING],
    entries: ArrayVec<PackedEntry, RING>,
    ahead: usize,
}

impl<S: FrameStore, J: LogName> Model for Node<S, J> {
    ghost use Rattle.std.specs.Prelude.{◌≡◌};
    ghost use Rattle.nr_node.specs.Node.{IsNode, NodeState};
    ghost use Rattle.nr_node.specs.inside.Node.{Follows, IsAhead, node_state};

    ghost Value = { NodeState };

    ghost view = { λ n. node_state n.pass n.replica n.batch.items n.first };

    ghost invariant = { λ n.
        IsNode J.depth J.replicas (node_state n.pass n.replica n.batch.items n.first)
        × Follows J.depth J.replicas
        (node_state n.pass n.replica n.batch.items n.first) n.replica
        × IsAhead J.replicas n.pass.view n.replica n.ahead };
}

impl<S: FrameStore + Drop, J: LogName> Node<S, J> {
    /// A node that has applied nothing and holds nothing. Its tables lie in the store, of which no frame is in use; its pass owns
    /// a replica that has taken nothing; and the depth is that of the log. It allocates all memory that the node ever needs, but for
    /// its dumps.
    ///
    /// # Errors
    ///
    /// `NoRoot` only where the store has no frame, or out of memory.
    pub fn new(
        alloc: Global,
        store: S,
        pass: LogPass<J>,
        depth: Depth,
    ) -> Result<Node<S, J>, Fail<NoRoot>>
        requires store { S.frames store ≡ finite.empty }
        requires owner { (replica : ℕ) × (pass.view.owns ≡ replica ∷ []) }
        requires nothing_taken { taken_by J.replicas pass.view ≡ 0 }
        requires depth { depth ≡ J.depth }
        ensures made { IfOk result (λ node. node ≡ new_node pass (S.place store).size) }
        ensures no_root { IfErr result (IfRefused (λ _. (S.place store).size ≡ 0)) }
    {
        let replica = Replica::new(alloc, store, &pass, depth)?;
        Ok(Node {
            pass,
            replica,
            batch: ArrayVec::new(),
            first: None,
            asked: [PackedEntry::default(); RING],
            entries: ArrayVec::new(),
            ahead: 0,
        })
    }

    /// Its pass, which owns its replica. The rest of the node is given up.
    pub fn into_pass(self) -> LogPass<J>
        ensures pass { result ≡ self.known }
        ensures is_node { IsNode J.depth J.replicas self }
    {
        self.pass
    }
}

impl<S: FrameStore, J: LogName> Node<S, J> {
    /// How many entries of the log it has applied: its replica's local tail, and those above it.
    pub fn applied(&self) -> u64
        ensures reads { result ≡ self.now.applied }
        ensures is_node { IsNode J.depth J.replicas self.now }
    {
        self.replica.applied()
    }

    /// A law: its pass owns one replica, it has applied no more than the log has, and its batch is one.
    #[inline(always)]
    pub fn is_well_formed(&self)
        ensures is_node { IsNode J.depth J.replicas self.now }
    {
        let _known = &self.pass;
    }

    /// How many of the entries that it has applied are above its replica's local tail: 16 at most.
    #[inline(always)]
    pub fn ahead(&self) -> usize
        ensures { taken_by J.replicas self.now.known.view + result
            ≡ self.now.applied }
    {
        self.ahead
    }

    /// How many of the entries that it has applied it keeps no more: those before the last `forget`.
    pub fn base(&self) -> u64
        ensures { result ≡ self.now.base }
    {
        self.replica.base()
    }

    /// Whether it keeps so few entries that it may put a batch and take what comes with it: 65,536 at most.
    #[inline(always)]
    pub fn has_room(&self) -> bool
        ensures { MatchBool result (self.now.applied ≤ self.now.base + LOG_PLACES)
            (self.now.base + LOG_PLACES < self.now.applied) }
    {
        self.replica.kept_count() <= u64::from(LOG_PLACES)
    }

    /// Whether it keeps so few entries that it may take more: 65,552 at most. So a node may still take what others put while they had room.
    #[inline(always)]
    pub fn has_room_to_take(&self) -> bool
        ensures { MatchBool result
            (self.now.applied ≤ self.now.base + (LOG_PLACES + RING))
            (self.now.base + (LOG_PLACES + RING) < self.now.applied) }
    {
        self.replica.kept_count() <= u64::from(LOG_PLACES) + RING as u64
    }

    /// Keeps none of the entries any more that it has applied, all of which its replica has taken: `told` and `answer_to` give none of
    /// them, and there is room again.
    pub fn forget(&mut self)
        requires { taken_by J.replicas self.old.known.view ≡ self.old.applied }
        ensures { self.new ≡ record self.old { base = self.old.applied } }
    {
        self.pass.has_seen_a_history();
        self.replica.forget(&self.pass);
    }

    /// The number of its replica.
    pub fn number(&self) -> u8
        ensures { self.now.known.view.owns ≡ result ∷ [] }
    {
        match self.pass.replica() {
            Some(replica) => replica,
            None => unreachable!(),
        }
    }

    /// What it holds.
    pub fn held(&self) -> Held
        ensures { result ≡ held_of self.now.batch self.now.first }
    {
        let count = self.batch.len();
        match self.first {
            _ if count == 0 => Held::Nothing,
            None => Held::Unplaced(count),
            Some(first) => Held::Placed(first, count),
        }
    }

    /// Holds a batch of 1 to 16 updates that are well formed at the log's depth; it holds nothing before.
    pub fn hold(&mut self, batch: &ArrayVec<Waiting, RING>)
        requires nothing { self.old.batch ≡ [] }
        requires some { 1 ≤ length batch.now.items }
        requires fit { All (λ waiting. IsAction J.depth waiting.op) batch.now.items }
        ensures { self.new ≡ record self.old { batch = batch.now.items } }
    {
        match self.batch.try_extend_from_slice(batch.as_slice()) {
            Ok(()) => {}
            Err(_) => unreachable!(),
        }
    }

    /// Holds updates that wait in these slots, by rising thread, of each its own, 16 at most, or none; it holds nothing before. What is
    /// posted there is well formed at the log's depth, by the rule of the slots.
    #[inline(always)]
    pub fn collect<P: SlotRule>(&mut self, slots: &Slots<P>)
        requires nothing { self.old.batch ≡ [] }
        requires fit { (waiting : Waiting)
            → ∥ P.posted waiting.thread waiting.call waiting.op ∥₁ → IsAction J.depth waiting.op }
        ensures held { self.new ≡ record self.old { batch = self.new.batch } }
        ensures rising { Rises self.new.batch }
        ensures below { All (λ waiting. waiting.thread < slots.now) self.new.batch }
        ensures rule { All (λ waiting. ∥ P.posted waiting.thread waiting.call waiting.op ∥₁)
            self.new.batch }
    {
        slots.collect(&mut self.batch);
        is_short(&self.batch);
    }

    /// Appends the batch, which has no place yet, to the log: the place of its first update.
    ///
    /// # Errors
    ///
    /// Those of `RingLog::append`. The batch then has no place still, and the node has only looked.
    pub fn put_batch(&mut self, log: &RingLog<J>) -> Result<u64, AppendFault>
        requires log { self.old.known.log ≡ log.now }
        requires some { 1 ≤ length self.old.batch }
        requires unplaced { self.old.first ≡ None }
        ensures log { self.new.known.log ≡ self.old.known.log }
        ensures appended { IfOk result (λ place.
            HasAppended J.depth J.replicas self.old.known.view
            (entries_of self.old.batch) place self.new.known.view) }
        ensures placed { IfOk result (λ place.
            self.new ≡ record self.old { known = self.new.known; first = Some place }) }
        ensures looked { OnErr result (HasStayed J.depth J.replicas self.old self.new) }
        ensures refused { IfErr result
            (IsReason J.places (log_of J.replicas self.new)
            (length self.old.batch) self.old.known.view self.new.known.view) }
    {
        let entries = entries_of(&self.batch);
        let first = log.append(&mut self.pass, entries.as_slice())?;
        self.first = Some(first);
        Ok(first)
    }

    /// Appends the batch, which has no place yet, to the log, takes all entries that the log then has, and applies them: in one
    /// exchange of the log's cell, as by `put_batch` and then `catch_up`. The answers are left in the slots of their threads, but for
    /// that of this entry of this thread: its place and its answer, where it is in the batch.
    ///
    /// # Errors
    ///
    /// Those of `RingLog::append`. The batch then has no place still, no answer is given, and the node has only looked.
    #[inline(always)]
    pub fn put_and_catch_up<P: SlotRule>(
        &mut self,
        log: &RingLog<J>,
        slots: &Slots<P>,
        thread: u16,
        wanted: PackedEntry,
        own: &mut Option<(u64, Answer)>,
    ) -> Result<(), AppendFault>
        requires log { self.old.known.log ≡ log.now }
        requires some { 1 ≤ length self.old.batch }
        requires unplaced { self.old.first ≡ None }
        requires room { self.old.applied ≤ self.old.base + LOG_PLACES }
        requires rule { (answered : Answered) → ∥ P.answered answered ∥₁ }
        requires none { own.old ≡ None }
        ensures log { self.new.known.log ≡ self.old.known.log }
        ensures caught_up { OnOk result (HasPutAndCaughtUp J.depth J.replicas self.old self.new) }
        ensures own { IfSome own.new (λ update.
            IsAnsweredIn J.depth self.old.tables (log_of J.replicas self.new).entries
            wanted update.0 update.1) }
        ensures placed { IfSome own.new (λ update.
            IsOwnPlace thread wanted self.old.batch
            (tail (log_of J.replicas self.new) - length self.old.batch) update.0) }
        ensures given { OnOk result
            (IfNone own.new (LacksUpdate thread wanted self.old.batch)) }
        ensures none { OnErr result (own.new ≡ None) }
        ensures stayed { OnErr result (HasStayed J.depth J.replicas self.old self.new) }
        ensures refused { IfErr result
            (IsReason J.places (log_of J.replicas self.new)
            (length self.old.batch) self.old.known.view self.new.known.view) }
    {
        ask_for(&self.batch, &mut self.asked);
        let asked = &self.asked[..self.batch.len()];
        self.entries.clear();
        log.append_and_take(&mut self.pass, asked, &mut self.entries)?;
        let new = &self.entries.as_slice()[self.ahead..];
        self.replica.apply_all(new);
        self.ahead = 0;
        self.replica
            .apply_batch(&self.batch, slots, thread, wanted, own);
        self.batch.clear();
        Ok(())
    }

    /// Takes all entries that the log then has, and applies those of them that it hasn't applied: how many these are. The answers of the
    /// held updates among these are added to the vector, which is empty, by place.
    ///
    /// # Errors
    ///
    /// `Moved` where there were entries to take, but another pass's event came between. No answer is given then, and what it has
    /// applied and holds is as before.
    pub fn catch_up(
        &mut self,
        log: &RingLog<J>,
        answers: &mut ArrayVec<Answered, RING>,
    ) -> Result<u64, Moved>
        requires log { self.old.known.log ≡ log.now }
        requires empty { answers.old.items ≡ [] }
        requires room { self.old.applied
            ≤ self.old.base + (LOG_PLACES + RING) }
        ensures log { self.new.known.log ≡ self.old.known.log }
        ensures caught_up { IfOk result (λ count.
            HasCaughtUp J.depth J.replicas self.old count self.new) }
        ensures answered { OnOk result (answers.new.items
            ≡ answers_of J.depth self.old.tables
            (log_of J.replicas self.new).entries self.old.first self.old.batch) }
        ensures stayed { OnErr result (HasStayed J.depth J.replicas self.old self.new) }
        ensures moved { OnErr result (HasMoved self.old.known.view self.new.known.view) }
        ensures ahead { OnErr result (taken_by J.replicas self.new.known.view + 1
            ≤ tail (log_of J.replicas self.new)) }
        ensures no_answer { OnErr result (answers.new.items ≡ []) }
    {
        self.entries.clear();
        log.take(&mut self.pass, &mut self.entries)?;
        let new = &self.entries.as_slice()[self.ahead..];
        self.replica.apply_all(new);
        self.ahead = 0;
        self.replica.answer(self.first, &self.batch, answers);
        keep_unplaced(&mut self.batch, self.first);
        self.first = None;
        Ok(new.len() as u64)
    }

    /// Looks, and applies all entries that the log then has and that it hasn't applied. It makes no event: its replica's local tail stays
    /// where it is, so that nobody overwrites what it then reads once more. No held update has a place.
    pub fn follow(&mut self, log: &RingLog<J>)
        requires log { self.old.known.log ≡ log.now }
        requires unplaced { (place count : ℕ)
            → held_of self.old.batch self.old.first ≢ Placed place count }
        requires room { self.old.applied ≤ self.old.base + (LOG_PLACES + RING) }
        ensures log { self.new.known.log ≡ self.old.known.log }
        ensures followed { HasFollowed J.depth J.replicas self.old self.new }
    {
        self.entries.clear();
        log.peek(&mut self.pass, &mut self.entries);
        let new = &self.entries.as_slice()[self.ahead..];
        self.replica.apply_all(new);
        self.ahead = self.entries.len();
    }

    /// How many entries it has applied, and the translation of a canonical address after them, or `NotMapped`.
    pub fn read(&self, address: u64) -> (u64, Answer)
        requires { IsCanonical J.depth address }
        ensures at { result.0 ≡ self.now.applied }
        ensures answer { result.1 ≡ look (node_space J.depth J.replicas self.now) address }
    {
        (self.replica.applied(), self.replica.resolve(address))
    }

    /// How many entries it has applied, and whether an access of a canonical address is allowed after them: `Allowed` with the
    /// physical address, or `Fault` with the error code.
    pub fn access(&self, address: u64, mode: Mode, access: Access) -> (u64, Answer)
        requires { IsCanonical J.depth address }
        ensures at { result.0 ≡ self.now.applied }
        ensures answer { result.1
            ≡ allow (node_space J.depth J.replicas self.now) address mode access }
    {
        let answer = self.replica.access(address, mode, access);
        (self.replica.applied(), answer)
    }

    /// The entry of the log at a place and what it was answered; `None` where it has not applied the place's entry, or keeps it no more.
    pub fn told(&self, place: u64) -> Option<(LogEntry, Answer)>
        ensures { MatchOption result
            ((place < self.now.base) ⊎ (self.now.applied ≤ place)) (λ told.
            (slice_get (log_of J.replicas self.now).entries place ≡ Some told.0)
            × (told.1 ≡ answer_at J.depth self.now.tables
            (log_of J.replicas self.now).entries place told.0.op)
            × (place + 1 ≤ self.now.applied)) }
    {
        self.replica.told(place)
    }

    /// What this entry of the log was answered, where it is the one at a place, and the node has applied it and keeps it.
    #[inline(always)]
    pub fn answer_to(&self, place: u64, entry: PackedEntry) -> Option<Answer>
        ensures { MatchOption result (self.now.base ≤ place
            → place < self.now.applied → slice_get (log_of J.replicas self.now).entries place ≢ Some entry) (λ answer.
            (slice_get (log_of J.replicas self.now).entries place ≡ Some entry)
            × (answer ≡ answer_at J.depth self.now.tables
            (log_of J.replicas self.now).entries place entry.op)
            × (place + 1 ≤ self.now.applied)) }
    {
        self.replica.answer_to(place, entry)
    }

    /// Its page table, and how many entries it has applied since it last forgot them. It allocates memory.
    ///
    /// # Errors
    ///
    /// Out of memory.
    pub fn dump(&self) -> Result<Dump, Memory>
        ensures applied { IfOk result (λ dump.
            self.now.base + dump.applied ≡ self.now.applied) }
        ensures translates { IfOk result (λ dump.
            TranslatesAs J.depth dump.frames dump.root (node_space J.depth J.replicas self.now)) }
        ensures frames { IfOk result (λ dump.
            finite.len dump.frames ≡ table_count J.depth (node_space J.depth J.replicas self.now)) }
        ensures few { IfOk result (λ dump. finite.len dump.frames ≤ TABLES) }
    {
        self.replica.dump()
    }

    /// Hands another pass of its log what it has seen. It waits for nobody.
    pub fn tell(&mut self, log: &RingLog<J>, told: &mut LogPass<J>)
        requires log { (self.old.known.log ≡ log.now) × (told.old.log ≡ log.now) }
        ensures same { self.new ≡ self.old }
        ensures log { told.new.log ≡ told.old.log }
        ensures met { StartsWith told.new.view.seen self.old.known.view.seen
            × StartsWith told.new.view.seen told.old.view.seen }
        ensures advances { All
            (λ replica. HasSeenAdvances replica told.new.view.seen told.old.view.seen)
            told.old.view.owns }
        ensures looked { HasLooked J.depth J.replicas
            (joint_view told.old.view (copy_of self.old.known.view)) told.new.view }
    {
        log.meet(&mut self.pass, told);
    }
}
