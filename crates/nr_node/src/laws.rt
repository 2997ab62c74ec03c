//! Laws. Each function does nothing: its clauses say what holds of every log, and, inside the crate, of every value of a type.
ghost use Rattle.std.specs.Prelude.{◌≡◌, ℕ, ◌+◌, ◌≤◌, List, Some, length, slice_get};
ghost use Rattle.std.specs.FinMap as finite;
ghost use Rattle.vs_types.specs.Operation.{IsAction};
ghost use Rattle.vs_types.specs.Space as spaces;
ghost use Rattle.vs_types.specs.Space.{IsSpace, table_count};
ghost use Rattle.vs_types.specs.Step.{step};
ghost use Rattle.vs_types.specs.declared.addresses.depth.Depth.{Depth};
ghost use Rattle.vs_types.specs.declared.limits.TheConstants.{RING, TABLES};
ghost use Rattle.vs_types.specs.declared.log_entry.LogEntry.{LogEntry};
ghost use Rattle.vs_types.specs.declared.requests.op.Action.{Action};
ghost use Rattle.vs_space.specs.Table.{IsTableOf};
ghost use Rattle.nr_ring.specs.Laws.{HasGoneOn};
ghost use Rattle.nr_ring.specs.LogHistory.{Log, IsLogHistory, log_after, tail};
ghost use Rattle.nr_ring.specs.declared.ring.log_event.LogEvent.{LogEvent};
ghost use Rattle.nr_node.specs.Spaces.{answer_at, space_at};

use arrayvec::ArrayVec;
use nr_slots::Waiting;
use vs_arena::FrameStore;
use vs_space::Space;
use vs_types::RING;

/// A log that has gone on says the same of the places that the earlier log had: the entries there, the spaces after them, and
/// what each operation is answered there.
pub fn later_logs_say_the_same()
    ensures entry { (earlier later : Log) (place : ℕ) (entry : LogEntry) → HasGoneOn earlier later
        → slice_get earlier.entries place ≡ Some entry
        → slice_get later.entries place ≡ Some entry }
    ensures space { (depth : Depth) (tables n : ℕ) (earlier later : Log) → HasGoneOn earlier later
        → n ≤ tail earlier
        → space_at depth tables later.entries n ≡ space_at depth tables earlier.entries n }
    ensures answer { (depth : Depth) (tables place : ℕ) (op : Action) (earlier later : Log)
        → HasGoneOn earlier later → place ≤ tail earlier
        → answer_at depth tables later.entries place op
        ≡ answer_at depth tables earlier.entries place op }
{}

/// The space after one entry more is that after a step by its operation, of which the answer is the one at its place.
pub fn spaces_go_on_by_entries()
    ensures { (depth : Depth) (tables place : ℕ) (log : Log) (entry : LogEntry)
        → slice_get log.entries place ≡ Some entry
        → space_at depth tables log.entries (place + 1)
        ≡ (step depth tables (space_at depth tables log.entries place) entry.op).space }
{}

/// The space after entries of a history's log is a space of the log's depth.
pub fn entries_make_spaces()
    ensures { (depth : Depth) (tables replicas n : ℕ) (events : List LogEvent)
        → IsLogHistory depth replicas events
        → IsSpace depth (space_at depth tables (log_after replicas events).entries n) }
{}

/// A batch has at most 16 updates.
#[inline(always)]
pub(crate) fn is_short(batch: &ArrayVec<Waiting, RING>)
    ensures { length batch.now.items ≤ RING }
{
    let _updates = batch.as_slice();
}

/// A page table has at most as many tables as it may have, and just as many as the space has whose page table it is.
#[inline(always)]
pub(crate) fn counts_tables<S: FrameStore>(table: &Space<S>)
    ensures at_most { finite.len table.now.memory ≤ table.now.limit }
    ensures counts { (space : spaces.Space) → IsTableOf table.now space
        → finite.len table.now.memory ≡ table_count table.now.depth space }
{
    let _count = table.tables();
}

/// A store has at most 4,096 frames.
#[inline(always)]
pub(crate) fn is_small<S: FrameStore>(store: &S)
    ensures { (S.place store.now).size ≤ TABLES }
{
    let _capacity = store.capacity();
}
