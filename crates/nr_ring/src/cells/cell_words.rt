//! What each event is to the cell of a log. Each function does nothing: its clauses say what holds of every log.
ghost use Rattle.std.specs.Prelude.{◌≡◌, ◌⊎◌, ℕ, ◌+◌, ◌<◌, ◌≤◌, List, length, slice_index};
ghost use Rattle.vs_types.specs.declared.addresses.depth.Depth.{Depth};
ghost use Rattle.vs_types.specs.declared.limits.TheConstants.{REPLICAS};
ghost use Rattle.vs_types.specs.declared.log_entry.LogEntry.{LogEntry};
ghost use Rattle.nr_ring.specs.Laws.{FitsTheRing, HasSameTails};
ghost use Rattle.nr_ring.specs.LogHistory.{AllKeepUp, IsLogHistory, Log, MayAdvance, MayAppend, log_after, log_after_event, new_log, tail};
ghost use Rattle.nr_ring.specs.Words.{IsAppended, IsOfBatch, IsWordOfLog, IsWordsOf, NeededBy, Needs, advanced_words, last_ring, new_words};
ghost use Rattle.nr_ring.specs.Words.{spot, stored_after_event};
ghost use Rattle.nr_ring.specs.declared.ring.log_event.LogEvent.TheVariants.{Append, Advance};
ghost use Rattle.nr_ring.specs.declared.cells.stored.Stored.{Stored};
ghost use Rattle.nr_ring.specs.declared.cells.words.TheConstants.{ENTRY_WORDS, RINGS};
ghost use Rattle.nr_ring.specs.inside.Codes.{code_in, word_in};

/// The words of a log are a function of it.
pub fn words_are_a_function_of_the_log()
    ensures { (log : Log) (p q : List ℕ) → IsWordsOf log p → IsWordsOf log q → p ≡ q }
{}

/// A new log has the words of a new log.
pub fn new_logs_have_new_words()
    ensures { (replicas : ℕ) → IsWordsOf (new_log replicas) (new_words replicas) }
{}

/// An advance is two words: the replica's local tail, and the completed tail, which it raises in the same exchange.
pub fn advances_change_two_words()
    ensures { (log : Log) (replica to : ℕ) (words : List ℕ) → replica < REPLICAS
        → IsWordsOf log words → MayAdvance log replica to
        → IsWordsOf (log_after_event log (Advance replica to)) (advanced_words replica to words) }
{}

/// An append that writes its entries at their places changes no entry that a replica has still to take.
pub fn appends_keep_needed_entries()
    ensures { (depth : Depth) (log : Log) (batch : List LogEntry) (before words : List ℕ)
        → IsWordsOf log before → MayAppend depth log batch → IsAppended log batch before words
        → IsWordsOf (log_after_event log (Append batch)) words }
{}

/// The code of the cell determines all tails of its log, and the ring of the last entry.
pub fn codes_determine_tails_and_ring()
    ensures { (depth : Depth) (replicas : ℕ) (x y : Stored) → replicas ≤ REPLICAS
        → IsLogHistory depth replicas x.history → IsLogHistory depth replicas y.history
        → last_ring x < RINGS → last_ring y < RINGS → code_in replicas x ≡ code_in replicas y
        → HasSameTails (log_after replicas x.history) (log_after replicas y.history)
        × (last_ring x ≡ last_ring y) }
{}

/// At most one word is needed at a place beside the cell.
pub fn needed_words_are_unique()
    ensures { (depth : Depth) (replicas : ℕ) (x : Stored) (at word other : ℕ)
        → IsLogHistory depth replicas x.history
        → Needs replicas x at word → Needs replicas x at other → word ≡ other }
{}

/// After an advance no word is needed that wasn't before.
pub fn advances_need_nothing_new()
    ensures { (replicas ring replica to : ℕ) (x : Stored) (at word : ℕ)
        → MayAdvance (log_after replicas x.history) replica to
        → Needs replicas (stored_after_event ring x (Advance replica to)) at word
        → Needs replicas x at word }
{}

/// After an append each word that is needed was needed before, or is one of the entries of the batch.
pub fn appends_need_their_batch()
    ensures { (replicas ring : ℕ) (batch : List LogEntry) (x : Stored) (at word : ℕ)
        → length x.rings ≡ tail (log_after replicas x.history)
        → Needs replicas (stored_after_event ring x (Append batch)) at word
        → Needs replicas x at word
        ⊎ IsOfBatch ring (last_ring x) (tail (log_after replicas x.history)) batch at word }
{}

/// If each replica has room for so many entries more, no word is needed at their places, in whatever ring.
pub fn places_of_a_batch_are_free()
    ensures { (replicas ring count i k : ℕ) (x : Stored) (other : ℕ)
        → AllKeepUp (log_after replicas x.history) count → i < count → k < 2
        → Needs replicas x (spot ring (tail (log_after replicas x.history) + i) + k) other → ⊥ }
{}

/// What a replica needs beside the cell are words of the log, with the ring of the entry before each.
pub fn rings_hold_the_words_of_the_log()
    ensures { (log : Log) (rings words : List ℕ) (replica at word : ℕ) → FitsTheRing log
        → IsWordsOf log words → NeededBy log rings replica at word
        → IsWordOfLog rings words at word }
{}

/// The first words of a log are what the code of the cell says.
pub fn codes_determine_the_first_words()
    ensures { (depth : Depth) (replicas : ℕ) (x : Stored) (words : List ℕ) (place : ℕ)
        → replicas ≤ REPLICAS → IsLogHistory depth replicas x.history → last_ring x < RINGS
        → IsWordsOf (log_after replicas x.history) words → place < ENTRY_WORDS
        → slice_index words place ≡ word_in (code_in replicas x) place }
{}
