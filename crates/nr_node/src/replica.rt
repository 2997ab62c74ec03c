//! A page table that follows a log.
ghost use Rattle.std.specs.Prelude.{◌≡◌, ◌≢◌, ◌⊎◌, ◌^◌, ℕ, ◌+◌, ◌<◌, ◌≤◌, All, [], ◌∷◌, ◌++◌, IfErr, IfNone, IfOk, IfSome, MatchOption, None, Some};
ghost use Rattle.std.specs.Prelude.{length, slice_get, take};
ghost use Rattle.std.specs.FinMap as finite;
ghost use Rattle.vs_types.specs.Depth.{IsCanonical};
ghost use Rattle.vs_types.specs.LogEntry.{IsLogEntry};
ghost use Rattle.vs_types.specs.Refusal.{IfRefused};
ghost use Rattle.vs_types.specs.Space.{table_count};
ghost use Rattle.vs_types.specs.Step.{allow, look};
ghost use Rattle.vs_types.specs.declared.limits.TheConstants.{TABLES};
ghost use Rattle.vs_types.specs.declared.log_entry.LogEntry.{LogEntry};
ghost use Rattle.vs_walk.specs.Walk.{TranslatesAs};
ghost use Rattle.nr_ring.specs.LogHistory.{log_after};
ghost use Rattle.nr_ring.specs.declared.cells.words.TheConstants.{MOST_PLACES};
ghost use Rattle.nr_slots.specs.Updates.{Answered};
ghost use Rattle.nr_node.specs.Calls.{IsAnsweredIn, IsOwnPlace, LacksUpdate, answered_from, answers_of, entries_of};
ghost use Rattle.nr_node.specs.Node.{StandFrom};
ghost use Rattle.nr_node.specs.Spaces.{answer_at, space_of};
ghost use Rattle.nr_node.specs.inside.Replica.{IsKeptAt, most_kept};

use crate::applied_entry::AppliedEntry;
use crate::laws::{counts_tables, is_small};
use crate::past::Past;
use arrayvec::ArrayVec;
use nr_ring::{LogName, LogPass, PackedEntry};
use nr_slots::{Answered, SlotRule, Slots, Waiting};
use std::alloc::Global;
use std::marker::Model;
use vs_arena::FrameStore;
use vs_space::{NoRoot, Space};
use vs_types::{Access, Answer, Depth, Fail, LOG_PLACES, LogEntry, Memory, Mode, RING};
use vs_walk::Dump;

/// How many entries a replica keeps at most: those of a log of 65,536 places, and those of one turn.
const MOST_KEPT: usize = LOG_PLACES as usize + 2 * RING;

/// A page table that follows a log, and the entries that it has applied: it keeps those that came since it last forgot them, each with
/// its answer. Contracts see all entries.
#[derive(Drop)]
pub(crate) struct Replica<S: FrameStore, J: LogName> {
    space: Space<S>,
    past: Past<J>,
    told: Vec<AppliedEntry>,
    alloc: Global,
}

impl<S: FrameStore, J: LogName> Model for Replica<S, J> {
    ghost use Rattle.std.specs.Prelude.{◌++◌, vec_capacity};
    ghost use Rattle.nr_node.specs.inside.Replica.{IsReplica, ReplicaState, entries_told};

    ghost Value = { ReplicaState };

    ghost view = { λ r. record {
      depth = r.space.depth;
      tables = r.space.limit;
      base = r.past.count;
      entries = r.past.entries ++ entries_told r.told.items;
    } };

    ghost invariant = { λ r. IsReplica r.space r.past.count r.past.entries r.told.items
        (vec_capacity r.told) };
}

impl<S: FrameStore + Drop, J: LogName> Replica<S, J> {
    /// A replica without entries, whose tables lie in a store of which no frame is in use. It allocates all memory that the replica
    /// ever needs, but for dumps.
    pub(crate) fn new(
        alloc: Global,
        store: S,
        pass: &LogPass<J>,
        depth: Depth,
    ) -> Result<Replica<S, J>, Fail<NoRoot>>
        requires { S.frames store ≡ finite.empty }
        ensures made { IfOk result (λ r.
            r ≡ record { depth = depth; tables = (S.place store).size; base = 0; entries = [] }) }
        ensures no_root { IfErr result (IfRefused (λ _. (S.place store).size ≡ 0)) }
    {
        let told = Vec::with_capacity(alloc, MOST_KEPT)?;
        is_small(&store);
        match Space::new(store, depth) {
            Ok(space) => Ok(Replica {
                space,
                past: Past::of(0, pass),
                told,
                alloc,
            }),
            Err(no_root) => Err(Fail::Refused(no_root)),
        }
    }
}

impl<S: FrameStore, J: LogName> Replica<S, J> {
    /// How many entries it has applied.
    pub(crate) fn applied(&self) -> u64
        ensures counts { result ≡ length self.now.entries }
        ensures at_most { result ≤ self.now.base + most_kept }
    {
        self.past.count() + self.kept_count()
    }

    /// How many of them it keeps no more.
    pub(crate) fn base(&self) -> u64
        ensures base { result ≡ self.now.base }
        ensures at_most { result ≤ MOST_PLACES }
    {
        self.past.count()
    }

    /// How many of them it keeps.
    pub(crate) fn kept_count(&self) -> u64
        ensures { self.now.base + result ≡ length self.now.entries }
    {
        self.told.len() as u64
    }

    /// Keeps none of the entries any more that it has applied, which are the first of those that a pass has seen.
    pub(crate) fn forget(&mut self, pass: &LogPass<J>)
        requires low { length self.old.entries ≤ MOST_PLACES }
        requires seen { self.old.entries ≡ take (length self.old.entries)
            (log_after J.replicas pass.now.view.seen).entries }
        ensures { self.new ≡ record self.old { base = length self.old.entries } }
    {
        let count = self.applied();
        self.past = Past::of(count, pass);
        self.told.clear();
    }

    /// Applies the next entry of the log: its answer.
    pub(crate) fn apply(&mut self, entry: PackedEntry) -> Answer
        requires fits { IsLogEntry self.old.depth entry }
        requires room { length self.old.entries < self.old.base + most_kept }
        ensures applied { self.new
            ≡ record self.old { entries = self.old.entries ++ entry ∷ [] } }
        ensures answer { result ≡ answer_at self.old.depth self.old.tables self.old.entries
            (length self.old.entries) entry.op }
    {
        let LogEntry { op, .. } = entry.entry();
        let answer = self.space.apply(op);
        self.told.push_reserved(AppliedEntry::new(entry, answer));
        answer
    }

    /// Applies entries of the log, in order.
    pub(crate) fn apply_all(&mut self, entries: &[PackedEntry])
        requires fit { All (IsLogEntry self.old.depth) entries.now }
        requires room { length self.old.entries + length entries.now ≤ self.old.base + most_kept }
        ensures { self.new ≡ record self.old { entries = self.old.entries ++ entries.now } }
    {
        for entry in entries {
            let _answer = self.apply(*entry);
        }
    }

    /// Applies the entries of a batch, in order, and leaves the answers in the slots of their threads, but for that of this entry of
    /// this thread: its place and its answer, where it is in the batch.
    #[inline(always)]
    pub(crate) fn apply_batch<P: SlotRule>(
        &mut self,
        batch: &ArrayVec<Waiting, RING>,
        slots: &Slots<P>,
        thread: u16,
        wanted: PackedEntry,
        own: &mut Option<(u64, Answer)>,
    )
        requires fit { All (IsLogEntry self.old.depth) (entries_of batch.now.items) }
        requires room { length self.old.entries + length batch.now.items
            ≤ self.old.base + most_kept }
        requires rule { (answered : Answered) → ∥ P.answered answered ∥₁ }
        requires none { own.old ≡ None }
        ensures applied { self.new
            ≡ record self.old { entries = self.old.entries ++ entries_of batch.now.items } }
        ensures own { IfSome own.new (λ update. IsAnsweredIn self.old.depth self.old.tables
            self.new.entries wanted update.0 update.1) }
        ensures placed { IfSome own.new (λ update. IsOwnPlace thread wanted batch.now.items
            (length self.old.entries) update.0) }
        ensures given { IfNone own.new (LacksUpdate thread wanted batch.now.items) }
    {
        for waiting in batch.as_slice() {
            let place = self.applied();
            let entry = waiting.entry();
            let answer = self.apply(entry);
            if waiting.thread() == thread && entry.is(wanted) {
                *own = Some((place, answer));
            } else {
                let _taken = slots.answer(Answered::new(*waiting, place, answer));
            }
        }
    }

    /// Adds the answers of a batch that has places, of which this is the first: it is among the entries.
    pub(crate) fn answer(
        &self,
        first: Option<u64>,
        batch: &ArrayVec<Waiting, RING>,
        answers: &mut ArrayVec<Answered, RING>,
    )
        requires empty { answers.old.items ≡ [] }
        requires stand { (place : ℕ) → first ≡ Some place
            → (self.now.base ≤ place) × StandFrom self.now.entries place batch.now.items }
        ensures { answers.new.items
            ≡ answers_of self.now.depth self.now.tables self.now.entries first batch.now.items }
    {
        if let Some(first) = first {
            self.answer_from(first, batch, answers);
        }
    }

    /// Adds the answers of calls that are one after another among the entries, from this place on.
    fn answer_from(
        &self,
        first: u64,
        batch: &ArrayVec<Waiting, RING>,
        answers: &mut ArrayVec<Answered, RING>,
    )
        requires empty { answers.old.items ≡ [] }
        requires above { self.now.base ≤ first }
        requires stand { StandFrom self.now.entries first batch.now.items }
        ensures { answers.new.items
            ≡ answered_from self.now.depth self.now.tables self.now.entries first batch.now.items }
    {
        let mut place = first;
        for waiting in batch.as_slice() {
            let Some(answer) = self.answered(place) else {
                unreachable!();
            };
            answers.push(Answered::new(*waiting, place, answer));
            place += 1;
        }
    }

    /// The translation of a canonical address, or `NotMapped`.
    pub(crate) fn resolve(&self, address: u64) -> Answer
        requires { IsCanonical self.now.depth address }
        ensures { result ≡ look (space_of self.now.depth self.now.tables self.now.entries) address }
    {
        self.space.resolve(address)
    }

    /// Whether an access of a canonical address is allowed.
    pub(crate) fn access(&self, address: u64, mode: Mode, access: Access) -> Answer
        requires { IsCanonical self.now.depth address }
        ensures { result
            ≡ allow (space_of self.now.depth self.now.tables self.now.entries) address mode access }
    {
        self.space.access(address, mode, access)
    }

    /// What is kept of the entry at a place; `None` where it is kept no more, or the place is not below the number of entries.
    #[inline(always)]
    fn kept(&self, place: u64) -> Option<&AppliedEntry>
        ensures kept { MatchOption result
            ((place < self.now.base) ⊎ (length self.now.entries ≤ place)) (λ told.
            IsKeptAt self.now place told.now) }
        ensures within { IfSome result (λ _. place < 2 ^ 63) }
    {
        let base = self.past.count();
        if place < base {
            return None;
        }
        let told = self.told.get((place - base) as usize)?;
        Some(told)
    }

    /// The entry at a place with its answer; `None` where it is kept no more, or the place is not below the number of entries.
    pub(crate) fn told(&self, place: u64) -> Option<(LogEntry, Answer)>
        ensures { MatchOption result
            ((place < self.now.base) ⊎ (length self.now.entries ≤ place))
            (λ told. (slice_get self.now.entries place ≡ Some told.0)
            × (told.1
            ≡ answer_at self.now.depth self.now.tables self.now.entries place told.0.op)) }
    {
        let told = self.kept(place)?;
        Some((told.entry().entry(), told.answer()))
    }

    /// What the entry at a place was answered; `None` where it is kept no more, or the place is not below the number of entries.
    #[inline(always)]
    fn answered(&self, place: u64) -> Option<Answer>
        ensures so { MatchOption result
            ((place < self.now.base) ⊎ (length self.now.entries ≤ place)) (λ answer.
            (entry : LogEntry) → slice_get self.now.entries place ≡ Some entry
            → answer ≡ answer_at self.now.depth self.now.tables self.now.entries place entry.op) }
        ensures within { IfSome result (λ _. place < 2 ^ 63) }
    {
        let told = self.kept(place)?;
        Some(told.answer())
    }

    /// What this entry was answered, where it is the one at a place and is kept.
    #[inline(always)]
    pub(crate) fn answer_to(&self, place: u64, entry: PackedEntry) -> Option<Answer>
        ensures { MatchOption result
            (self.now.base ≤ place → slice_get self.now.entries place ≢ Some entry)
            (λ answer. (slice_get self.now.entries place ≡ Some entry)
            × (answer
            ≡ answer_at self.now.depth self.now.tables self.now.entries place entry.op)) }
    {
        let told = self.kept(place)?;
        if told.entry().is(entry) {
            Some(told.answer())
        } else {
            None
        }
    }

    /// Its page table as it is, with how many entries it keeps. It allocates memory.
    pub(crate) fn dump(&self) -> Result<Dump, Memory>
        ensures applied { IfOk result (λ dump.
            self.now.base + dump.applied ≡ length self.now.entries) }
        ensures translates { IfOk result (λ dump. TranslatesAs self.now.depth dump.frames dump.root
            (space_of self.now.depth self.now.tables self.now.entries)) }
        ensures frames { IfOk result (λ dump. finite.len dump.frames
            ≡ table_count self.now.depth
            (space_of self.now.depth self.now.tables self.now.entries)) }
        ensures few { IfOk result (λ dump. finite.len dump.frames ≤ TABLES) }
    {
        counts_tables(&self.space);
        let root = self.space.root();
        let depth = self.space.depth();
        match Dump::gather(self.alloc, &self.space, root, depth, self.told.len() as u32) {
            Ok(dump) => Ok(dump),
            Err(Fail::Memory) => Err(Memory),
            Err(Fail::Refused(_)) => unreachable!(),
        }
    }
}
