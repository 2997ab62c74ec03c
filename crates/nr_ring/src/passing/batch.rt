//! Batches of entries, and the rings that they lie in.
ghost use Rattle.std.specs.Prelude.{◌≡◌, ◌<◌, ◌≤◌, ◌+◌, ◌*◌, ℕ, true, List, All, IfOk, MatchResult, Option, Some, [], length, take};
ghost use Rattle.vs_types.specs.LogEntry.{IsLogEntry};
ghost use Rattle.vs_types.specs.declared.limits.TheConstants.{RING};
ghost use Rattle.nr_ring.specs.Calls.{HasLooked};
ghost use Rattle.nr_ring.specs.Entries.{to_take};
ghost use Rattle.nr_ring.specs.LogHistory.{AllKeepUp, HasRoom, Log, MayAppend, log_after, tail};
ghost use Rattle.nr_ring.specs.Words.{last_ring, spot};
ghost use Rattle.nr_ring.specs.inside.Batch.{AreSmall, Bars, Explains, IsWritten};
ghost use Rattle.nr_ring.specs.inside.Held.{IsHeadOf, Remembers};
ghost use Rattle.nr_ring.specs.declared.cells.words.TheConstants.{MOST_PLACES};

use crate::cells::packed::PackedEntry;
use crate::cells::words::{COUNT_WORD, HEAD_WORDS, LAST_WORD, LOCAL_WORDS, TAIL_WORD};
use crate::passing::pass::Inner;
use crate::ring::name::LogName;
use crate::ring::ring_log::RingLog;
use crate::ring::tails::{AppendFault, tails_in};
use arrayvec::ArrayVec;
use vs_types::{CALLS, LogEntry, RING};

/// The second word of an entry in a ring has from this bit on the ring of the entry before it.
const RING_BEFORE: u64 = 1 << 56;

/// Has the first places of an array be a batch in the words that it has in the log.
pub(crate) fn pack_all(batch: &[LogEntry], packed: &mut [PackedEntry; RING])
    requires count { length batch.now ≤ RING }
    requires calls { All (λ entry. entry.call < CALLS) batch.now }
    ensures { take (length batch.now) packed.new ≡ batch.now }
{
    for (place, entry) in batch.iter().enumerate() {
        packed[place] = PackedEntry::new(*entry);
    }
}

/// Gives the entries that are packed here, in order. The vector is empty.
pub(crate) fn unpack_all(packed: &[PackedEntry], entries: &mut ArrayVec<LogEntry, RING>)
    requires count { length packed.now ≤ RING }
    requires empty { entries.old.items ≡ [] }
    ensures { entries.new.items ≡ packed.now }
{
    for entry in packed {
        entries.push(entry.entry());
    }
}

/// Tests that so many entries may be appended to a log of so many places: it does not end before, and each replica has the room.
pub(crate) fn test_room(
    head: &[u64; HEAD_WORDS],
    count: u64,
    places: u64,
) -> Result<(), AppendFault>
    requires { AreSmall head.now × (count ≤ RING) }
    ensures { (log : Log) (last : ℕ) → IsHeadOf log last head.now
        → MatchResult result (λ _. HasRoom places log count × AllKeepUp log count)
        (Bars places log count) }
{
    let end = head[TAIL_WORD] + count;
    if end > places {
        return Err(AppendFault::LogEnded);
    }
    for replica in 0..head[COUNT_WORD] as usize {
        if end > head[LOCAL_WORDS + replica] + RING as u64 {
            return Err(AppendFault::Full(tails_in(head)));
        }
    }
    Ok(())
}

/// Why a batch of so many entries was not appended to the log of so many places with these first words, which another pass changed.
pub(crate) fn why_not(head: &[u64; HEAD_WORDS], count: u64, places: u64) -> AppendFault
    requires { AreSmall head.now × (count ≤ RING) }
    ensures { (log : Log) (last : ℕ) → IsHeadOf log last head.now → Explains places log count result }
{
    match test_room(head, count, places) {
        Ok(()) => AppendFault::Moved(tails_in(head)),
        Err(fault) => fault,
    }
}

/// The index of the first of the two words of the entry that lies in this ring at this place of the log.
fn spot(ring: u64, place: u64) -> usize
    requires { ring < 128 }
    ensures { result ≡ spot ring place }
{
    2 * RING * ring as usize + 2 * (place % RING as u64) as usize
}

impl<J: LogName> RingLog<J> {
    /// Looks, and tests that so many entries may be appended: the place of the first.
    pub(crate) fn find_room(&self, pass: &mut Inner<J>, count: u64) -> Result<u64, AppendFault>
        requires log { pass.old.cell ≡ self.now }
        requires known { (replica : Option ℕ) × (ring : ℕ)
            × Remembers J.depth J.replicas J.passes J.places replica ring pass.old }
        requires count { count ≤ RING }
        ensures log { pass.new.cell ≡ pass.old.cell }
        ensures looked { HasLooked J.depth J.replicas pass.old.view pass.new.view }
        ensures known { (replica : Option ℕ) (ring : ℕ)
            → Remembers J.depth J.replicas J.passes J.places replica ring pass.old
            → Remembers J.depth J.replicas J.passes J.places replica ring pass.new }
        ensures fresh { pass.new.fresh ≡ true }
        ensures place { IfOk result (λ place.
            place ≡ tail (log_after J.replicas pass.new.view.seen)) }
        ensures room { let log = log_after J.replicas pass.new.view.seen in
            MatchResult result (λ _. HasRoom J.places log count × AllKeepUp log count)
            (Bars J.places log count) }
        ensures most { J.places ≤ MOST_PLACES }
    {
        self.refresh(pass);
        let place = pass.head()[TAIL_WORD];
        test_room(pass.head(), count, self.places)?;
        Ok(place)
    }

    /// Stores a batch in the pass's ring, at the places from the tail on. Each entry has the ring of the one before it beside it.
    pub(crate) fn write(&self, pass: &mut Inner<J>, ring: u8, batch: &[PackedEntry])
        requires log { pass.old.cell ≡ self.now }
        requires known { (replica : Option ℕ)
            × Remembers J.depth J.replicas J.passes J.places replica ring pass.old }
        requires fresh { pass.old.fresh ≡ true }
        requires may { MayAppend J.depth (log_after J.replicas pass.old.view.seen) batch.now }
        ensures same { (pass.new.cell ≡ pass.old.cell) × (pass.new.number ≡ pass.old.number)
            × (pass.new.view ≡ pass.old.view) × (pass.new.value ≡ pass.old.value)
            × (pass.new.fresh ≡ true) × (pass.new.from ≡ pass.old.from) }
        ensures written { IsWritten ring (last_ring pass.old.value)
            (tail (log_after J.replicas pass.old.view.seen)) (length batch.now)
            batch.now pass.new.own }
    {
        let own = u64::from(ring);
        let head = pass.head();
        let (mut place, mut before) = (head[TAIL_WORD], head[LAST_WORD]);
        for entry in batch {
            let [operation, rest] = entry.words();
            let at = spot(own, place);
            self.cell.store(pass, at, operation);
            self.cell.store(pass, at + 1, rest + before * RING_BEFORE);
            before = own;
            place += 1;
        }
    }

    /// Adds the entries that a replica has still to take, as far as its owner has seen. From the last one on, each names the ring that
    /// the one before it lies in.
    pub(crate) fn read(
        &self,
        pass: &mut Inner<J>,
        replica: u8,
        entries: &mut ArrayVec<PackedEntry, RING>,
    )
        requires log { pass.old.cell ≡ self.now }
        requires known { (ring : ℕ)
            × Remembers J.depth J.replicas J.passes J.places (Some replica) ring pass.old }
        requires fresh { pass.old.fresh ≡ true }
        requires empty { entries.old.items ≡ [] }
        ensures same { pass.new ≡ pass.old }
        ensures read { entries.new.items
            ≡ to_take (log_after J.replicas pass.old.view.seen) replica }
    {
        let head = pass.head();
        let from = head[LOCAL_WORDS + usize::from(replica)];
        let (to, mut ring) = (head[TAIL_WORD], head[LAST_WORD]);
        for place in (from..to).rev() {
            let at = spot(ring, place);
            let operation = self.cell.load(pass, at);
            let rest = self.cell.load(pass, at + 1);
            entries.push(PackedEntry::of([operation, rest % RING_BEFORE]));
            ring = rest / RING_BEFORE;
        }
        entries.as_mut_slice().reverse();
    }
}
