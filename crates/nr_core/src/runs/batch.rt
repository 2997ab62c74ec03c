//! Batches: the updates that a combiner has collected.
ghost use Rattle.std.specs.Prelude.{◌≡◌, ◌+◌, ◌++◌, ◌==◌, ◌≤◌, nat_le, filter, find, map, not, option_and_then, OnOk, OnErr};
ghost use Rattle.std.specs.List.{list_all};
ghost use Rattle.vs_types.specs.declared.limits.TheConstants.{CALLS};
ghost use Rattle.nr_core.specs.Steps as steps;

use crate::states::parts::ReplicaState;
use crate::states::stage::{Answered, Collected};
use vs_types::{LogEntry, Memory, RING};

/// The update, with the answer where it is that of its call.
fn noted(update: Collected, answered: Answered) -> Collected
    ensures { result ≡ steps.note answered update }
{
    if update.entry.call == answered.call {
        Collected {
            noted: Some(answered),
            ..update
        }
    } else {
        update
    }
}

/// The answer is noted for the update of its call.
pub(crate) fn note(batch: &mut Vec<Collected>, answered: Answered)
    ensures { batch.new.items ≡ map (steps.note answered) batch.old.items }
{
    for update in batch.iter_mut() {
        *update = noted(*update, answered);
    }
}

/// The answer that is noted for the first update of a thread.
pub(crate) fn find_noted(batch: &[Collected], thread: u16) -> Option<Answered>
    ensures { result ≡ option_and_then (λ update. update.noted)
        (find (λ update. update.thread == thread) batch.now) }
{
    for update in batch {
        if update.thread == thread {
            return update.noted;
        }
    }
    None
}

/// All updates of the thread leave the batch.
pub(crate) fn keep_others(batch: &mut Vec<Collected>, thread: u16)
    ensures { batch.new.items ≡ filter (λ update. not (update.thread == thread)) batch.old.items }
{
    batch.retain(|update| update.thread != thread);
}

/// The entries of the batch are at the log's end.
pub(crate) fn push_entries(log: &mut Vec<LogEntry>, batch: &[Collected]) -> Result<(), Memory>
    ensures ok { OnOk result
        (log.new.items ≡ log.old.items ++ map (λ update. update.entry) batch.now) }
    ensures err { OnErr result (log.new.items ≡ log.old.items) }
{
    log.reserve(batch.len())?;
    for update in batch {
        log.push_reserved(update.entry);
    }
    Ok(())
}

/// Whether each replica would have at most `RING` entries to fetch of a log of so many.
pub(crate) fn keep_up(replicas: &[ReplicaState], end: usize) -> bool
    requires { end ≤ CALLS }
    ensures { result ≡ list_all (λ replica. nat_le end (replica.marks.local + RING)) replicas.now }
{
    replicas
        .iter()
        .all(|replica| end <= replica.marks.local as usize + RING)
}
