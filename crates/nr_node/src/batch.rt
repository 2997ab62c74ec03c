//! Batches: the updates that a node holds.
ghost use Rattle.std.specs.Prelude.{◌≡◌, ◌<◌, All, length, take};
ghost use Rattle.vs_types.specs.declared.limits.TheConstants.{CALLS};
ghost use Rattle.nr_node.specs.Calls.{entries_of, left_of};

use arrayvec::ArrayVec;
use nr_ring::PackedEntry;
use nr_slots::Waiting;
use vs_types::{LogEntry, RING};

/// The entries of a log that a batch asks for.
pub(crate) fn entries_of(batch: &ArrayVec<Waiting, RING>) -> ArrayVec<LogEntry, RING>
    ensures entries { result.items ≡ entries_of batch.now.items }
    ensures in_range { All (λ entry. entry.call < CALLS) result.items }
{
    let mut entries = ArrayVec::new();
    for waiting in batch.as_slice() {
        entries.push(waiting.entry().entry());
    }
    entries
}

/// Has the first places of an array be the packed entries of a log that a batch asks for.
pub(crate) fn ask_for(batch: &ArrayVec<Waiting, RING>, asked: &mut [PackedEntry; RING])
    ensures entries { take (length batch.now.items) asked.new ≡ entries_of batch.now.items }
    ensures in_range { All (λ entry. entry.call < CALLS) (take (length batch.now.items) asked.new) }
{
    for (place, waiting) in batch.as_slice().iter().enumerate() {
        asked[place] = waiting.entry();
    }
}

/// Empties a batch whose updates have places from this one on.
pub(crate) fn keep_unplaced(batch: &mut ArrayVec<Waiting, RING>, first: Option<u64>)
    ensures { batch.new.items ≡ left_of first batch.old.items }
{
    if first.is_some() {
        batch.clear();
    }
}
