//! Laws of the definitions in `specs/`. Each function does nothing: its clauses say what holds of every history.
ghost use Rattle.std.specs.Prelude.{◌≡◌, ℕ, ◌<◌, ◌≤◌, ◌⊎◌, List, [], ◌∷◌, All, Contains, length};
ghost use Rattle.vs_types.specs.LogEntry.{IsLogEntry};
ghost use Rattle.vs_types.specs.declared.addresses.depth.Depth.{Depth};
ghost use Rattle.vs_types.specs.declared.log_entry.LogEntry.{LogEntry};
ghost use Rattle.nr_ring.specs.LogHistory.{Log, MayGoOn, MayAppend, IsLogHistory, IsEnded, IsFull, log_after_events, log_after, local_of};
ghost use Rattle.nr_ring.specs.LogHistory.{completed};
ghost use Rattle.nr_ring.specs.declared.cells.words.TheConstants.{MOST_PLACES};
ghost use Rattle.nr_ring.specs.Laws.{HasGoneOn, HasSameTails, FitsTheRing};
ghost use Rattle.nr_ring.specs.Calls.{HasLooked, HasTaken};
ghost use Rattle.nr_ring.specs.Entries.{HasAppended};
ghost use Rattle.nr_ring.specs.View.{HasSeenAdvances, StartsWith};
ghost use Rattle.nr_ring.specs.declared.ring.log_event.LogEvent.{LogEvent};
ghost use Rattle.nr_ring.specs.declared.ring.view.View.{View};
ghost use Rattle.vs_types.specs.declared.limits.TheConstants.{RING};

pub use crate::cells::cell_words::{
    advances_change_two_words, advances_need_nothing_new, appends_keep_needed_entries,
    appends_need_their_batch, codes_determine_tails_and_ring, codes_determine_the_first_words,
    needed_words_are_unique, new_logs_have_new_words, places_of_a_batch_are_free,
    rings_hold_the_words_of_the_log, words_are_a_function_of_the_log,
};
pub use crate::passing::steps::{
    events_keep_the_rule, events_leave_what_lasts, joins_keep_the_rule, looks_keep_the_rule,
    makers_have_rights, new_logs_keep_the_rule, splits_keep_the_rule,
};

/// Events only add entries at the end, and no tail falls.
pub fn tails_never_fall()
    ensures { (depth : Depth) (log : Log) (events : List LogEvent) → MayGoOn depth log events
        → HasGoneOn log (log_after_events log events) }
{}

/// Each event raises a tail, so that where the tails are as before nothing has happened.
pub fn equal_tails_mean_no_event()
    ensures { (depth : Depth) (log : Log) (events : List LogEvent) → MayGoOn depth log events
        → HasSameTails (log_after_events log events) log → events ≡ [] }
{}

/// If there was no advance of a replica, its local tail is as it was.
pub fn local_tails_rise_by_advances()
    ensures { (replicas replica : ℕ) (events seen : List LogEvent)
        → HasSeenAdvances replica events seen
        → local_of (log_after replicas events) replica
        ≡ local_of (log_after replicas seen) replica }
{}

/// What a history begins with is a history.
pub fn beginnings_are_histories()
    ensures { (depth : Depth) (replicas : ℕ) (events seen : List LogEvent)
        → IsLogHistory depth replicas events → StartsWith events seen
        → IsLogHistory depth replicas seen }
{}

/// The log after what a history begins with has gone on to the log after all of it.
pub fn histories_go_on()
    ensures { (depth : Depth) (replicas : ℕ) (events seen : List LogEvent)
        → IsLogHistory depth replicas events → StartsWith events seen
        → HasGoneOn (log_after replicas seen) (log_after replicas events) }
{}

/// What a beginning begins with is a beginning.
pub fn beginnings_of_beginnings()
    ensures { (events later seen : List LogEvent) → StartsWith events later
        → StartsWith later seen → StartsWith events seen }
{}

/// A look leaves the local tail of each replica that the pass owns, as far as the pass has seen.
pub fn looks_keep_local_tails()
    ensures { (depth : Depth) (replicas replica : ℕ) (before after : View)
        → HasLooked depth replicas before after → Contains before.owns replica
        → local_of (log_after replicas after.seen) replica
        ≡ local_of (log_after replicas before.seen) replica }
{}

/// And so does an append.
pub fn appends_keep_local_tails()
    ensures { (depth : Depth) (replicas replica place : ℕ) (batch : List LogEntry)
        (before after : View)
        → HasAppended depth replicas before batch place after → Contains before.owns replica
        → local_of (log_after replicas after.seen) replica
        ≡ local_of (log_after replicas before.seen) replica }
{}

/// After an advance that succeeded the local tail of the replica is the place, and the entries are those that the pass had
/// seen.
pub fn advances_set_local_tails()
    ensures local { (depth : Depth) (replicas replica to : ℕ) (before after : View)
        → IsLogHistory depth replicas after.seen
        → HasTaken replicas before to after → before.owns ≡ replica ∷ []
        → local_of (log_after replicas after.seen) replica ≡ to }
    ensures entries { (replicas to : ℕ) (before after : View)
        → HasTaken replicas before to after
        → (log_after replicas after.seen).entries ≡ (log_after replicas before.seen).entries }
{}

/// The entries that a replica has still to take are the last 16 at most.
pub fn needed_entries_fit_the_ring()
    ensures { (depth : Depth) (replicas : ℕ) (events : List LogEvent)
        → IsLogHistory depth replicas events → FitsTheRing (log_after replicas events) }
{}

/// The completed tail is the local tail of some replica, and no local tail is greater.
pub fn completed_is_a_local_tail()
    ensures reached { (log : Log) → 0 < length log.locals
        → (replica : ℕ) × (replica < length log.locals) × (local_of log replica ≡ completed log) }
    ensures greatest { (log : Log) (replica : ℕ) → local_of log replica ≤ completed log }
{}

/// A batch of 1 to 16 entries at the log's depth may be appended, unless the log would go past `MOST_PLACES` or is full.
pub fn refused_for_a_reason()
    ensures one { (depth : Depth) (log : Log) (batch : List LogEntry)
        → 1 ≤ length batch → length batch ≤ RING → All (IsLogEntry depth) batch
        → MayAppend depth log batch
        ⊎ (IsEnded MOST_PLACES log (length batch) ⊎ IsFull log (length batch)) }
    ensures ended { (depth : Depth) (log : Log) (batch : List LogEntry)
        → MayAppend depth log batch → IsEnded MOST_PLACES log (length batch) → ⊥ }
    ensures full { (depth : Depth) (log : Log) (batch : List LogEntry)
        → MayAppend depth log batch → IsFull log (length batch) → ⊥ }
{}
