//! The log: its entries are taken, by a call of its own or with a batch that is appended.
ghost use Rattle.std.specs.Prelude.{◌≡◌, ◌≤◌, ◌<◌, ◌+◌, ℕ, true, All, Contains, IfErr, IfOk, IsFalse, IsTrue, OnErr, OnOk, Some, [], ◌∷◌};
ghost use Rattle.std.specs.Prelude.{length};
ghost use Rattle.vs_types.specs.LogEntry.{IsLogEntry};
ghost use Rattle.nr_ring.specs.Calls.{HasLooked, HasMoved, LiesAhead};
ghost use Rattle.nr_ring.specs.LogHistory.{HasRoom, IsLogHistory, MayAdvance, MayAppend, local_of, log_after, tail as tail_of};
ghost use Rattle.nr_ring.specs.declared.ring.log_event.LogEvent.TheVariants.{Append, Advance};
ghost use Rattle.nr_ring.specs.Entries.{HasAppendedAndTaken, HasTakenAll, IsReason, to_take};
ghost use Rattle.nr_ring.specs.inside.Held.{MadeOrMoved, Remembers};

use crate::cells::code::advanced_code;
use crate::cells::packed::PackedEntry;
use crate::cells::words::{LAST_WORD, LOCAL_WORDS, TAIL_WORD};
use crate::passing::batch::why_not;
use crate::passing::pass::{Inner, LogPass};
use crate::passing::rule::Happening;
use crate::ring::name::LogName;
use crate::ring::ring_log::RingLog;
use crate::ring::tails::{AppendFault, Moved};
use arrayvec::ArrayVec;
use std::marker::Brand;
use vs_types::RING;

impl<J: LogName> RingLog<J> {
    /// Looks, and takes all entries from the local tail of the replica that the pass owns to the tail: gives them, in order, and raises
    /// the local tail and the completed tail to the tail. This is a fetch and an advance in one exchange. The vector is empty. It never
    /// waits.
    ///
    /// # Errors
    ///
    /// `Moved` where there were entries to take, but another pass's event has come since this pass last saw the log. It gives no
    /// entry then, and the pass has made no event.
    pub fn take(
        &self,
        pass: &mut LogPass<J>,
        entries: &mut ArrayVec<PackedEntry, RING>,
    ) -> Result<(), Moved>
        requires log { pass.old.log ≡ self.now }
        requires owner { (replica : ℕ) × (pass.old.view.owns ≡ replica ∷ []) }
        requires empty { entries.old.items ≡ [] }
        ensures log { pass.new.log ≡ pass.old.log }
        ensures taken { OnOk result (HasTakenAll J.depth J.replicas
            pass.old.view entries.new.items pass.new.view) }
        ensures moved { OnErr result (HasLooked J.depth J.replicas pass.old.view pass.new.view
            × HasMoved pass.old.view pass.new.view
            × LiesAhead J.replicas pass.new.view
            (tail_of (log_after J.replicas pass.new.view.seen))) }
        ensures none { OnErr result (entries.new.items ≡ []) }
        ensures history { IsLogHistory J.depth J.replicas pass.new.view.seen }
    {
        let Some(replica) = pass.replica else {
            unreachable!()
        };
        self.refresh(&mut pass.inner);
        let head = pass.inner.head();
        let to = head[TAIL_WORD];
        if head[LOCAL_WORDS + usize::from(replica)] == to {
            return Ok(());
        }
        if self.try_take::<Brand>(&mut pass.inner, replica, to, entries) {
            return Ok(());
        }
        Err(Moved)
    }

    /// Looks, and gives all entries from the local tail of the replica that the pass owns to the tail, in order: as `fetch`, but in words.
    /// Nobody may overwrite one of them as long as the local tail stays. The vector is empty. It never waits.
    pub fn peek(&self, pass: &mut LogPass<J>, entries: &mut ArrayVec<PackedEntry, RING>)
        requires log { pass.old.log ≡ self.now }
        requires owner { (replica : ℕ) × (pass.old.view.owns ≡ replica ∷ []) }
        requires empty { entries.old.items ≡ [] }
        ensures log { pass.new.log ≡ pass.old.log }
        ensures looked { HasLooked J.depth J.replicas pass.old.view pass.new.view }
        ensures fetched { (replica : ℕ) → pass.old.view.owns ≡ replica ∷ []
            → entries.new.items ≡ to_take (log_after J.replicas pass.new.view.seen) replica }
    {
        let Some(replica) = pass.replica else {
            unreachable!()
        };
        self.refresh(&mut pass.inner);
        self.read(&mut pass.inner, replica, entries);
    }

    /// Raises the local tail of a replica to the tail, and gives the entries between them.
    fn try_take<E: Happening>(
        &self,
        pass: &mut Inner<J>,
        replica: u8,
        to: u64,
        entries: &mut ArrayVec<PackedEntry, RING>,
    ) -> bool
        requires log { pass.old.cell ≡ self.now }
        requires known { (ring : ℕ)
            × Remembers J.depth J.replicas J.passes J.places (Some replica) ring pass.old }
        requires fresh { pass.old.fresh ≡ true }
        requires to { to ≡ tail_of (log_after J.replicas pass.old.view.seen) }
        requires event { (E.events ≡ Advance replica to ∷ []) × (E.ring < J.passes) }
        requires may { MayAdvance (log_after J.replicas pass.old.view.seen) replica to }
        requires empty { entries.old.items ≡ [] }
        ensures log { pass.new.cell ≡ pass.old.cell }
        ensures view { MadeOrMoved J.depth J.replicas E.events pass.old.view pass.new.view result }
        ensures known { (ring : ℕ)
            → Remembers J.depth J.replicas J.passes J.places (Some replica) ring pass.old
            → Remembers J.depth J.replicas J.passes J.places (Some replica) ring pass.new }
        ensures taken { IsTrue result
            → entries.new.items ≡ to_take (log_after J.replicas pass.old.view.seen) replica }
        ensures none { IsFalse result → entries.new.items ≡ [] }
    {
        self.read(pass, replica, entries);
        let head = pass.head();
        let code = advanced_code(head, to, replica, to, head[LAST_WORD]);
        if self.exchange::<E>(pass, code) {
            return true;
        }
        entries.clear();
        false
    }

    /// Looks, appends 1 to 16 entries at the log's depth, and takes all entries from the local tail of the replica that the pass owns to
    /// the new tail, in one exchange. It answers the place of the first entry of the batch. It gives the entries that lie before the
    /// batch, in order; after these the replica has taken the batch. The vector is empty. It never waits.
    ///
    /// # Errors
    ///
    /// Those of `append`. It gives no entry then.
    pub fn append_and_take(
        &self,
        pass: &mut LogPass<J>,
        batch: &[PackedEntry],
        before: &mut ArrayVec<PackedEntry, RING>,
    ) -> Result<u64, AppendFault>
        requires log { pass.old.log ≡ self.now }
        requires owner { (replica : ℕ) × (pass.old.view.owns ≡ replica ∷ []) }
        requires count { (1 ≤ length batch.now) × (length batch.now ≤ RING) }
        requires entries { All (IsLogEntry J.depth) batch.now }
        requires empty { before.old.items ≡ [] }
        ensures log { pass.new.log ≡ pass.old.log }
        ensures owns { pass.new.view.owns ≡ pass.old.view.owns }
        ensures done { IfOk result (λ place. HasAppendedAndTaken J.depth J.replicas
            pass.old.view batch.now place before.new.items pass.new.view) }
        ensures refused { IfErr result (λ fault.
            HasLooked J.depth J.replicas pass.old.view pass.new.view
            × IsReason J.places (log_after J.replicas pass.new.view.seen) (length batch.now)
            pass.old.view pass.new.view fault) }
        ensures none { OnErr result (before.new.items ≡ []) }
        ensures history { IsLogHistory J.depth J.replicas pass.new.view.seen }
    {
        let Some(replica) = pass.replica else {
            unreachable!()
        };
        let count = batch.len() as u64;
        let place = self.find_room(&mut pass.inner, count)?;
        let ring = pass.ring;
        if self.try_append_and_take::<Brand>(&mut pass.inner, ring, replica, batch, before) {
            return Ok(place);
        }
        Err(why_not(pass.inner.head(), count, self.places))
    }

    /// Appends a batch, whose entries lie in the pass's ring, and raises the local tail of a replica to the tail after it; gives the
    /// entries before the batch.
    fn try_append_and_take<E: Happening>(
        &self,
        pass: &mut Inner<J>,
        ring: u8,
        replica: u8,
        batch: &[PackedEntry],
        before: &mut ArrayVec<PackedEntry, RING>,
    ) -> bool
        requires log { pass.old.cell ≡ self.now }
        requires known { Remembers J.depth J.replicas J.passes J.places (Some replica) ring pass.old }
        requires fresh { pass.old.fresh ≡ true }
        requires may { MayAppend J.depth (log_after J.replicas pass.old.view.seen) batch.now }
        requires room { HasRoom J.places (log_after J.replicas pass.old.view.seen)
            (length batch.now) }
        requires event { (E.events ≡ Append batch.now
            ∷ Advance replica (tail_of (log_after J.replicas pass.old.view.seen) + length batch.now)
            ∷ []) × (E.ring ≡ ring) }
        requires empty { before.old.items ≡ [] }
        ensures log { pass.new.cell ≡ pass.old.cell }
        ensures view { MadeOrMoved J.depth J.replicas E.events pass.old.view pass.new.view result }
        ensures known { Remembers J.depth J.replicas J.passes J.places (Some replica) ring pass.new }
        ensures taken { IsTrue result
            → before.new.items ≡ to_take (log_after J.replicas pass.old.view.seen) replica }
        ensures none { IsFalse result → before.new.items ≡ [] }
    {
        self.read(pass, replica, before);
        self.write(pass, ring, batch);
        let head = pass.head();
        let tail = head[TAIL_WORD] + batch.len() as u64;
        let code = advanced_code(head, tail, replica, tail, u64::from(ring));
        if self.exchange::<E>(pass, code) {
            return true;
        }
        before.clear();
        false
    }
}
