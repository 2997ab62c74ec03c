//! The log: one cell that its threads share.
ghost use Rattle.std.specs.Prelude.{◌≡◌, ◌≤◌, ◌+◌, ◌-◌, ◌*◌, ◌<◌, ◌⊎◌, ℕ, true, All, Contains, IfErr, IfOk, MatchResult, OnErr, OnOk};
ghost use Rattle.std.specs.Prelude.{Option, Some, [], ◌∷◌, ◌++◌, length, map};
ghost use Rattle.std.specs.List.{range_with_len};
ghost use Rattle.version_cell.specs.Passes.{beside};
ghost use Rattle.vs_types.specs.LogEntry.{IsLogEntry};
ghost use Rattle.vs_types.specs.declared.limits.TheConstants.{LOG_PLACES};
ghost use Rattle.nr_ring.specs.Calls.{HasLooked, HasMoved, HasTaken, LiesAhead, Looks, MayTake, copy_of, joint_view};
ghost use Rattle.nr_ring.specs.LogHistory.{HasRoom, IsLogHistory, MayAdvance, MayAppend, local_of, log_after, tail};
ghost use Rattle.nr_ring.specs.declared.cells.words.TheConstants.{MOST_PLACES};
ghost use Rattle.nr_ring.specs.declared.ring.log_event.LogEvent.TheVariants.{Append, Advance};
ghost use Rattle.nr_ring.specs.Entries.{HasAppended, HasAppendedAndTaken, HasTakenAll, IsReason, to_take};
ghost use Rattle.nr_ring.specs.Pass.{AreApart, new_pass, new_passes, tails_of};
ghost use Rattle.nr_ring.specs.View.{HasSeenAdvances, StartsWith};
ghost use Rattle.nr_ring.specs.Words.{stored_after};
ghost use Rattle.nr_ring.specs.inside.Codes.{code_in};
ghost use Rattle.nr_ring.specs.inside.Batch.{AreStored};
ghost use Rattle.nr_ring.specs.inside.Held.{IsBelow, LeadTo, MadeOrMoved, Remembers, left_from, new_view, nothing_stored, owned, rest_of};

use crate::cells::code::{advanced_code, appended_code, code_of};
use crate::cells::packed::PackedEntry;
use crate::cells::stored::Stored;
use crate::cells::words::{
    HEAD_WORDS, LAST_WORD, LOCAL_WORDS, OTHERS, RING_WORDS, RINGS, TAIL_WORD,
};
use crate::passing::batch::{pack_all, unpack_all, why_not};
use crate::passing::pass::{Inner, LogPass};
use crate::passing::rule::{
    Copies, Existing, FirstOwned, Gathers, Happening, LogRule, Looking, Making,
};
use crate::ring::name::LogName;
use crate::ring::tails::{AppendFault, Moved, Tails};
use crate::ring::view::View;
use arrayvec::ArrayVec;
use std::alloc::Global;
use std::marker::{Brand, Model};
use version_cell::VersionCell;
use vs_types::{Depth, LOG_PLACES, LogEntry, Memory, REPLICAS, RING};

/// The shared log: a cell with the tails, and for each pass a ring of 16 entries beside it. Contracts see which log it is.
#[derive(Drop)]
pub struct RingLog<J: LogName> {
    pub(crate) cell: VersionCell<View, Stored, LogRule<J>, HEAD_WORDS>,
    depth: Depth,
    pub(crate) places: u64,
}

impl<J: LogName> Model for RingLog<J> {
    ghost use Rattle.std.specs.Prelude.{◌≡◌, ◌≤◌, ◌*◌};
    ghost use Rattle.atomic_table.specs.Seated.{TableId};
    ghost use Rattle.version_cell.specs.Passes.{beside};
    ghost use Rattle.nr_ring.specs.declared.cells.words.TheConstants.{MOST_PLACES, RING_WORDS};

    ghost Value = { TableId };

    ghost view = { λ l. l.cell };

    ghost invariant = { λ l. (l.depth ≡ J.depth) × (beside l.cell ≡ RING_WORDS * J.passes)
        × (l.places ≡ J.places) × (J.places ≤ MOST_PLACES) };
}

impl<J: LogName> RingLog<J> {
    /// A log without entries, of 65,536 places and 1 to 4 replicas, and its passes: pass r owns replica r, and `others` further
    /// passes own none, of which there may be 64. Each has one of the rights to make events. It allocates all memory that the log
    /// ever needs, and never waits.
    ///
    /// # Errors
    ///
    /// `Memory` where the allocator gives none.
    pub fn new(
        alloc: Global,
        depth: Depth,
        replicas: u8,
        others: u8,
    ) -> Result<(RingLog<J>, Vec<LogPass<J>>), Memory>
        requires depth { depth ≡ J.depth }
        requires replicas { (replicas ≡ J.replicas) × (1 ≤ replicas) × (replicas ≤ REPLICAS) }
        requires others { others ≤ OTHERS }
        requires passes { J.passes ≡ replicas + others }
        requires places { J.places ≡ LOG_PLACES }
        ensures { IfOk result (λ made. made.1.items ≡ new_passes made.0 replicas others) }
    {
        RingLog::with_places(alloc, depth, replicas, others, u64::from(LOG_PLACES))
    }

    /// A log without entries of so many places, at most `MOST_PLACES`, and its passes; else as `new`. Its memory is the same whatever
    /// the number of places.
    ///
    /// # Errors
    ///
    /// `Memory` where the allocator gives none.
    pub fn with_places(
        alloc: Global,
        depth: Depth,
        replicas: u8,
        others: u8,
        places: u64,
    ) -> Result<(RingLog<J>, Vec<LogPass<J>>), Memory>
        requires depth { depth ≡ J.depth }
        requires replicas { (replicas ≡ J.replicas) × (1 ≤ replicas) × (replicas ≤ REPLICAS) }
        requires others { others ≤ OTHERS }
        requires passes { J.passes ≡ replicas + others }
        requires places { (places ≡ J.places) × (places ≤ MOST_PLACES) }
        ensures { IfOk result (λ made. made.1.items ≡ new_passes made.0 replicas others) }
    {
        let code = code_of(0, [0; 4], u64::from(replicas)) * RINGS;
        let words = RING_WORDS * (usize::from(replicas) + usize::from(others));
        let (cell, mut first) = VersionCell::<View, Stored, LogRule<J>, HEAD_WORDS>::new(
            alloc, code, words,
        )?;
        let log = RingLog {
            cell,
            depth,
            places,
        };
        let mut passes = Vec::new(alloc);
        passes.reserve(usize::from(replicas) + usize::from(others))?;
        for replica in 0..replicas {
            let pass = log.split_off(&mut first, Some(replica), replica);
            passes.push(pass)?;
        }
        for other in 0..others {
            let pass = log.split_off(&mut first, None, replicas + other);
            passes.push(pass)?;
        }
        Ok((log, passes))
    }

    /// The depth of its entries.
    pub fn depth(&self) -> Depth
        ensures { result ≡ J.depth }
    {
        self.depth
    }

    /// Splits a pass off the first one, which gives it the first replica that it owns, one of its rights and the first of its rings.
    fn split_off(&self, first: &mut Inner<J>, replica: Option<u8>, ring: u8) -> LogPass<J>
        requires first { (first.old.cell ≡ self.now)
            × (first.old.view ≡ new_view (left_from J.replicas replica) first.old.view.rights) }
        requires right { 1 ≤ first.old.view.rights }
        requires value { first.old.value ≡ nothing_stored }
        requires rings { (first.old.from ≡ RING_WORDS * ring)
            × (RING_WORDS ≤ length first.old.own) × (ring < J.passes) }
        requires few { (J.replicas ≤ REPLICAS) × IsBelow J.replicas replica
            × (J.passes ≤ REPLICAS + OTHERS) }
        ensures first { (first.new.cell ≡ first.old.cell) × (first.new.value ≡ first.old.value)
            × (first.new.view
            ≡ new_view (rest_of J.replicas replica) (first.old.view.rights - 1)) }
        ensures rings { (first.new.from ≡ first.old.from + RING_WORDS)
            × (length first.new.own ≡ length first.old.own - RING_WORDS) }
        ensures pass { result ≡ new_pass self.now (owned replica) }
    {
        let pass = self.cell.split_pass::<FirstOwned, RING_WORDS>(first);
        LogPass::new(pass, replica, ring)
    }

    /// The tails of the log after all that the pass has then seen. One load of the cell; it never waits.
    pub fn look(&self, pass: &mut LogPass<J>) -> Tails
        requires { pass.old.log ≡ self.now }
        ensures log { pass.new.log ≡ pass.old.log }
        ensures looked { HasLooked J.depth J.replicas pass.old.view pass.new.view }
        ensures tails { result ≡ tails_of (log_after J.replicas pass.new.view.seen) }
    {
        self.refresh(&mut pass.inner);
        pass.tails()
    }

    /// Has a pass see the whole history, so that it may load and store.
    pub(crate) fn refresh(&self, pass: &mut Inner<J>)
        requires { pass.old.cell ≡ self.now }
        ensures log { pass.new.cell ≡ pass.old.cell }
        ensures looked { HasLooked J.depth J.replicas pass.old.view pass.new.view }
        ensures known { (replica : Option ℕ) (ring : ℕ)
            → Remembers J.depth J.replicas J.passes J.places replica ring pass.old
            → Remembers J.depth J.replicas J.passes J.places replica ring pass.new }
        ensures fresh { pass.new.fresh ≡ true }
    {
        self.cell.look_as::<Looking<J>>(pass);
    }

    /// Raises the local tail of the replica that the pass owns to a place, and the completed tail to it if that is lower.
    /// If the local tail is there already, nothing is exchanged. It never waits.
    ///
    /// # Errors
    ///
    /// `Moved` where another pass's event has come since this pass last saw the cell. The pass has made no event then.
    pub fn advance(&self, pass: &mut LogPass<J>, to: u64) -> Result<(), Moved>
        requires log { pass.old.log ≡ self.now }
        requires to { MayTake J.replicas pass.old.view to }
        ensures log { pass.new.log ≡ pass.old.log }
        ensures owns { pass.new.view.owns ≡ pass.old.view.owns }
        ensures taken { OnOk result (HasTaken J.replicas pass.old.view to pass.new.view) }
        ensures moved { OnErr result (HasLooked J.depth J.replicas pass.old.view pass.new.view
            × HasMoved pass.old.view pass.new.view × LiesAhead J.replicas pass.old.view to) }
        ensures history { IsLogHistory J.depth J.replicas pass.new.view.seen }
    {
        let Some(replica) = pass.replica else {
            unreachable!()
        };
        let local = LOCAL_WORDS + usize::from(replica);
        if pass.inner.head()[local] == to {
            return Ok(());
        }
        if self.try_advance::<Brand>(&mut pass.inner, replica, to) {
            return Ok(());
        }
        Err(Moved)
    }

    /// Raises the local tail of a replica to a place.
    fn try_advance<E: Happening>(&self, pass: &mut Inner<J>, replica: u8, to: u64) -> bool
        requires log { pass.old.cell ≡ self.now }
        requires known { (ring : ℕ)
            × Remembers J.depth J.replicas J.passes J.places (Some replica) ring pass.old }
        requires event { (E.events ≡ Advance replica to ∷ []) × (E.ring < J.passes) }
        requires may { MayAdvance (log_after J.replicas pass.old.view.seen) replica to }
        ensures log { pass.new.cell ≡ pass.old.cell }
        ensures view { MadeOrMoved J.depth J.replicas E.events pass.old.view pass.new.view result }
        ensures known { (ring : ℕ)
            → Remembers J.depth J.replicas J.passes J.places (Some replica) ring pass.old
            → Remembers J.depth J.replicas J.passes J.places (Some replica) ring pass.new }
    {
        let head = pass.head();
        let code = advanced_code(head, head[TAIL_WORD], replica, to, head[LAST_WORD]);
        self.exchange::<E>(pass, code)
    }

    /// Looks, and then appends 1 to 16 entries at the log's depth: the place of the first. It never waits.
    ///
    /// # Errors
    ///
    /// `LogEnded` where the log would have more entries than places; `Full` where some replica would have more than 16 entries to take;
    /// `Moved` where neither holds, but another pass's event has come since this pass last saw the log. The tails are those of
    /// the log that the pass has then seen, and it has made no event.
    pub fn append(&self, pass: &mut LogPass<J>, batch: &[LogEntry]) -> Result<u64, AppendFault>
        requires log { pass.old.log ≡ self.now }
        requires count { (1 ≤ length batch.now) × (length batch.now ≤ RING) }
        requires entries { All (IsLogEntry J.depth) batch.now }
        ensures log { pass.new.log ≡ pass.old.log }
        ensures owns { pass.new.view.owns ≡ pass.old.view.owns }
        ensures appended { IfOk result (λ place.
            HasAppended J.depth J.replicas pass.old.view batch.now place pass.new.view) }
        ensures refused { IfErr result (λ fault.
            HasLooked J.depth J.replicas pass.old.view pass.new.view
            × IsReason J.places (log_after J.replicas pass.new.view.seen) (length batch.now)
            pass.old.view pass.new.view fault) }
        ensures history { IsLogHistory J.depth J.replicas pass.new.view.seen }
    {
        let count = batch.len() as u64;
        let place = self.find_room(&mut pass.inner, count)?;
        let mut packed = [PackedEntry::default(); RING];
        pack_all(batch, &mut packed);
        let packed = &packed[..batch.len()];
        if self.try_append::<Brand>(&mut pass.inner, pass.ring, packed) {
            return Ok(place);
        }
        Err(why_not(pass.inner.head(), count, self.places))
    }

    /// Appends a batch, whose entries lie in the pass's ring.
    fn try_append<E: Happening>(&self, pass: &mut Inner<J>, ring: u8, batch: &[PackedEntry]) -> bool
        requires log { pass.old.cell ≡ self.now }
        requires known { (replica : Option ℕ)
            × Remembers J.depth J.replicas J.passes J.places replica ring pass.old }
        requires fresh { pass.old.fresh ≡ true }
        requires event { (E.events ≡ Append batch.now ∷ []) × (E.ring ≡ ring) }
        requires may { MayAppend J.depth (log_after J.replicas pass.old.view.seen) batch.now }
        requires room { HasRoom J.places (log_after J.replicas pass.old.view.seen)
            (length batch.now) }
        ensures log { pass.new.cell ≡ pass.old.cell }
        ensures view { MadeOrMoved J.depth J.replicas E.events pass.old.view pass.new.view result }
        ensures known { (replica : Option ℕ)
            → Remembers J.depth J.replicas J.passes J.places replica ring pass.old
            → Remembers J.depth J.replicas J.passes J.places replica ring pass.new }
    {
        self.write(pass, ring, batch);
        let head = pass.head();
        let tail = head[TAIL_WORD] + batch.len() as u64;
        let code = appended_code(head, tail, u64::from(ring));
        self.exchange::<E>(pass, code)
    }

    /// Looks, and gives all entries from the local tail of the replica that the pass owns to the tail, in order. The vector is
    /// empty. It never waits.
    pub fn fetch(&self, pass: &mut LogPass<J>, entries: &mut ArrayVec<LogEntry, RING>)
        requires log { pass.old.log ≡ self.now }
        requires owner { (replica : ℕ) × (pass.old.view.owns ≡ replica ∷ []) }
        requires empty { entries.old.items ≡ [] }
        ensures log { pass.new.log ≡ pass.old.log }
        ensures looked { HasLooked J.depth J.replicas pass.old.view pass.new.view }
        ensures fetched { (replica : ℕ) → pass.old.view.owns ≡ replica ∷ []
            → entries.new.items ≡ to_take (log_after J.replicas pass.new.view.seen) replica }
    {
        let Some(replica) = pass.replica else {
            unreachable!()
        };
        self.refresh(&mut pass.inner);
        let mut packed = ArrayVec::new();
        self.read(&mut pass.inner, replica, &mut packed);
        unpack_all(packed.as_slice(), entries);
    }

    /// Exchanges what a pass saw last for what is there after events, which has this code, where the cell has it still; else it looks. The
    /// entries of the events lie in the pass's ring already.
    pub(crate) fn exchange<E: Happening>(&self, pass: &mut Inner<J>, code: u64) -> bool
        requires log { pass.old.cell ≡ self.now }
        requires known { (replica : Option ℕ) × (ring : ℕ)
            × Remembers J.depth J.replicas J.passes J.places replica ring pass.old }
        requires some { 1 ≤ length E.events }
        requires ring { E.ring < J.passes }
        requires code { code ≡ code_in J.replicas (stored_after E.ring pass.old.value E.events) }
        requires events { LeadTo J.depth J.replicas J.places pass.old.view E.events }
        requires stored { AreStored J.replicas E.ring E.events pass.old }
        ensures log { pass.new.cell ≡ pass.old.cell }
        ensures view { MadeOrMoved J.depth J.replicas E.events pass.old.view pass.new.view result }
        ensures known { (replica : Option ℕ) (ring : ℕ)
            → Remembers J.depth J.replicas J.passes J.places replica ring pass.old
            → Remembers J.depth J.replicas J.passes J.places replica ring pass.new }
    {
        self.cell.exchange_as::<Making<E>, Looking<J>>(pass, code)
    }

    /// Hands one pass what another has seen: what `told` has then seen begins with all that either had seen, and nobody has
    /// advanced the replica that it owns since it last saw the log itself. It looks at nothing, and waits for nobody.
    pub fn meet(&self, pass: &mut LogPass<J>, told: &mut LogPass<J>)
        requires log { (pass.old.log ≡ self.now) × (told.old.log ≡ self.now) }
        ensures pass { pass.new ≡ pass.old }
        ensures log { told.new.log ≡ told.old.log }
        ensures met { StartsWith told.new.view.seen pass.old.view.seen
            × StartsWith told.new.view.seen told.old.view.seen }
        ensures advances { All
            (λ replica. HasSeenAdvances replica told.new.view.seen told.old.view.seen)
            told.old.view.owns }
        ensures looked { HasLooked J.depth J.replicas
            (joint_view told.old.view (copy_of pass.old.view)) told.new.view }
    {
        self.cell
            .meet_as::<Copies, Looking<J>>(&mut pass.inner, &mut told.inner);
    }

    /// Gathers the replicas that passes own in the first of them, which has seen all that the others have. They are given up. Each
    /// replica has one owner at most: so no two of these passes own the same one. It looks at nothing, and waits for nobody.
    pub fn gather(&self, first: LogPass<J>, others: Vec<LogPass<J>>)
        requires log { (first.log ≡ self.now) × All (λ pass. pass.log ≡ self.now) others.items }
        requires seen { All (λ pass. StartsWith first.view.seen pass.view.seen) others.items }
        ensures { AreApart first.view.owns (map (λ pass. pass.view.owns) others.items) }
    {
        let mut owner = first.inner;
        for other in others {
            self.take_over(&mut owner, other);
        }
    }

    /// Takes over the replicas that a pass owns.
    fn take_over(&self, owner: &mut Inner<J>, other: LogPass<J>)
        requires log { (owner.old.cell ≡ self.now) × (other.log ≡ self.now) }
        requires seen { StartsWith owner.old.view.seen other.view.seen }
        ensures log { owner.new.cell ≡ owner.old.cell }
        ensures seen { owner.new.view.seen ≡ owner.old.view.seen }
        ensures owns { owner.new.view.owns ≡ owner.old.view.owns ++ other.view.owns }
        ensures apart { (replica : ℕ) → Contains owner.old.view.owns replica
            → Contains other.view.owns replica → ⊥ }
    {
        let mut pass = other.inner;
        self.cell.meet_as::<Gathers, Existing>(&mut pass, owner);
    }
}
