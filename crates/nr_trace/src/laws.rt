//! Laws of the definitions in `specs/`. Each function does nothing: its clauses say what holds of all bytes and all
//! recordings.

ghost use Rattle.std.specs.Prelude.{◌≡◌, ◌≢◌, ◌<◌, ◌≤◌, ◌++◌, ◌+◌, ℕ, max, ◌⊎◌, ◌↔◌, length, slice_get, take, All, Contains, List, []};
ghost use Rattle.std.specs.Prelude.{None, Some, Option, Result, Err};
ghost use Rattle.std.specs.List.{concat};
ghost use Rattle.vs_walk.specs.Dump.{Image};
ghost use Rattle.vs_types.specs.declared.requests.refusal.Fail.{Fail};
ghost use Rattle.vs_types.specs.declared.requests.refusal.Fail.TheVariants.{Memory};
ghost use Rattle.vs_types.specs.Space.{Space};
ghost use Rattle.vs_types.specs.Step.{step};
ghost use Rattle.vs_types.specs.declared.requests.op.Action.{Action};
ghost use Rattle.nr_trace.specs.Calls.{operation_of, reply_of, reply_to, IsOrdered, IsWellFormedHistory, Response};
ghost use Rattle.vs_types.specs.Config.{Layout};
ghost use Rattle.nr_trace.specs.FirstFault.{HasFormatFault, HasRefusalAs, HasSegmentFault};
ghost use Rattle.nr_trace.specs.Feed.{Ends, Fed, FeedsAll, Reads};
ghost use Rattle.nr_trace.specs.Feed.Fed.{Taken};
ghost use Rattle.nr_trace.specs.Faults.{Earlier, HasFault, HasFaultFrom, IsFirstFrom, IsFirstOf, StandsAfter};
ghost use Rattle.nr_trace.specs.Laws.{HasCleanLog, HasRank, IsFaultlessFrom, IsSerialFrom, Stands};
ghost use Rattle.nr_trace.specs.Orders.{before, floor, known_by, recorded_order, space_from, updates, FitsFrom, IsLegalFrom};
ghost use Rattle.nr_trace.specs.Joined.{joined_traces};
ghost use Rattle.nr_trace.specs.Recording.{IsThere, Recording};
ghost use Rattle.nr_trace.specs.Run.{IsOrderly};
ghost use Rattle.nr_trace.specs.Spelling.{Spells, SpellsSegment};
ghost use Rattle.nr_trace.specs.declared.refusals.fault.Fault.{Fault};
ghost use Rattle.nr_trace.specs.declared.refusals.fault.Fault.TheVariants.{AnsweredTwice, Early, NoSuchCall, ThreadOpen, WrongAnswer};
ghost use Rattle.nr_trace.specs.declared.refusals.fault.Format.{Format};
ghost use Rattle.nr_trace.specs.declared.refusals.refusal.Refusal.{Refusal};
ghost use Rattle.nr_trace.specs.declared.formats.version.Form.{Form};
ghost use Rattle.nr_trace.specs.declared.refusals.fault.Format.TheVariants.{Trailing, Truncated};

/// Bytes spell at most one trace.
pub fn bytes_spell_one_trace()
    ensures { (bytes : List ℕ) (first second : Recording) → Spells bytes first → Spells bytes second
        → first ≡ second }
{}

/// Bytes that spell a trace are at most 20 + 4 * 65,536 + 24 * 131,072 + 4 * (16 + 4,096 * 4,104): counts, log, events and
/// the dumps of four replicas.
pub fn no_longer_trace()
    ensures { (bytes : List ℕ) (trace : Recording) → Spells bytes trace → length bytes ≤ 70647892 }
{}

/// Bytes have at most one fault of the format.
pub fn one_format_fault()
    ensures { (bytes : List ℕ) (first second : Format) → HasFormatFault bytes first
        → HasFormatFault bytes second → first ≡ second }
{}

/// Bytes are refused in one way at most, as a trace or as a segment: with one fault, at one unit, which begins at one byte.
pub fn one_refusal()
    ensures { (form : Form) (bytes : List ℕ) (first second : Refusal) → HasRefusalAs form bytes first
        → HasRefusalAs form bytes second → first ≡ second }
{}

/// Bytes that spell a trace have no fault of the format.
pub fn no_fault_of_a_spelling()
    ensures { (bytes : List ℕ) (trace : Recording) (fault : Format) → Spells bytes trace
        → HasFormatFault bytes fault → ⊥ }
{}

/// A feed that starts with nothing and is fed some pieces one after another ends as a reading of their bytes joined. Two
/// readings of the same bytes give the same trace or the same fault, but for those that run out of memory.
pub fn pieces_are_read_as_one()
    ensures joined { (pieces : List (List ℕ)) (fed : Fed) (result : Result Recording (Fail Format))
        → FeedsAll (Taken []) pieces fed → Ends fed result
        → Reads (concat pieces) result }
    ensures one { (bytes : List ℕ) (first second : Result Recording (Fail Format))
        → Reads bytes first → Reads bytes second
        → first ≢ Err Memory → second ≢ Err Memory → first ≡ second }
{}

/// A history is well formed exactly where none of faults 2 to 4 holds at any event.
pub fn well_formed_histories_have_no_call_fault()
    ensures { (trace : Recording) → IsWellFormedHistory trace
        ↔ ((index : ℕ) → (HasFault trace (ThreadOpen index) → ⊥)
        × (HasFault trace (NoSuchCall index) → ⊥) × (HasFault trace (AnsweredTwice index) → ⊥)) }
{}

/// From any start: where no fault holds of the events, the log and the replies' places, and no answer is wrong, the recorded
/// order is legal but for precedence.
pub fn recorded_order_is_serial()
    ensures { (start : Space) (trace : Recording) → HasCleanLog trace
        → ((call : ℕ) → HasFaultFrom start trace (WrongAnswer call) → ⊥)
        → IsSerialFrom start trace (recorded_order trace) }
{}

/// If no call comes too early either, the recorded order is legal.
pub fn recorded_order_is_legal()
    ensures { (start : Space) (trace : Recording) → HasCleanLog trace
        → ((call : ℕ) → HasFault trace (Early call) → ⊥)
        → ((call : ℕ) → HasFaultFrom start trace (WrongAnswer call) → ⊥)
        → IsLegalFrom start trace (recorded_order trace) }
{}

/// If two faults hold of a trace from a start on, one is earlier, or they are one.
pub fn faults_are_ordered()
    ensures { (start : Space) (trace : Recording) (first second : Fault) → HasRank trace first
        → HasRank trace second → HasFaultFrom start trace first → HasFaultFrom start trace second
        → (first ≡ second) ⊎ (Earlier trace first second ⊎ Earlier trace second first) }
{}

/// A trace has at most one first fault from a start on.
pub fn one_first_fault()
    ensures { (start : Space) (trace : Recording) (first second : Fault)
        → IsFirstFrom start trace first → IsFirstFrom start trace second → first ≡ second }
{}

/// Bytes have at most one first fault.
pub fn one_first_fault_of_bytes()
    ensures { (bytes : List ℕ) (first second : Fault) → IsFirstOf bytes first
        → IsFirstOf bytes second → first ≡ second }
{}

/// If no fault holds of a recording from a start on, its history is well formed, the recorded order is legal, and each
/// dump that is there fits it.
pub fn faultless_recordings_have_an_order()
    ensures history { (start : Space) (trace : Recording) → IsFaultlessFrom start trace
        → IsWellFormedHistory trace }
    ensures legal { (start : Space) (trace : Recording) → IsFaultlessFrom start trace
        → IsLegalFrom start trace (recorded_order trace) }
    ensures fits { (start : Space) (trace : Recording) (replica : ℕ) (dump : Image)
        → IsFaultlessFrom start trace → slice_get trace.dumps replica ≡ Some dump → IsThere dump
        → FitsFrom start trace (recorded_order trace) replica dump }
{}

/// The members of the recorded order are the calls that come after some entries, each after one number of them. Before a
/// member come the operations of so many places of the log, and the updates in all are the log.
pub fn recorded_order_by_entries()
    ensures members { (trace : Recording) (call : ℕ) → HasCleanLog trace
        → Contains (recorded_order trace) call ↔ Stands trace call }
    ensures once { (trace : Recording) (call m n : ℕ) → HasCleanLog trace → StandsAfter trace call m
        → StandsAfter trace call n → m ≡ n }
    ensures answered { (trace : Recording) (call : ℕ) (reply : Response) → HasCleanLog trace
        → IsOrdered trace call → reply_to trace call ≡ Some reply
        → StandsAfter trace call reply.at × (reply.at ≤ length trace.log) }
    ensures first { (trace : Recording) (index : ℕ) (reply : Response) → HasCleanLog trace
        → reply_of trace index ≡ Some reply
        → reply_to trace reply.call ≡ Some reply }
    ensures updates { (trace : Recording) → HasCleanLog trace
        → updates trace (recorded_order trace) ≡ trace.log }
    ensures space { (start : Space) (trace : Recording) (call n : ℕ) → HasCleanLog trace
        → n ≤ length trace.log → StandsAfter trace call n
        → space_from start trace (before call (recorded_order trace))
        ≡ space_from start trace (take n trace.log) }
{}

/// The earlier one of two wrong answers is that whose call comes before the other's.
pub fn earlier_wrong_answer()
    ensures { (start : Space) (trace : Recording) (i j : ℕ) → HasCleanLog trace
        → HasFaultFrom start trace (WrongAnswer i) → HasFaultFrom start trace (WrongAnswer j)
        → Earlier trace (WrongAnswer i) (WrongAnswer j) ↔ Contains (before j (recorded_order trace))
        i }
{}

/// A floor is raised by what each reply makes known, and by nothing else.
pub fn floors_rise_by_replies()
    ensures start { (trace : Recording) → floor trace 0 ≡ 0 }
    ensures reply { (trace : Recording) (index : ℕ) (reply : Response)
        → reply_of trace index ≡ Some reply
        → floor trace (index + 1) ≡ max (floor trace index) (known_by trace reply) }
    ensures other { (trace : Recording) (index : ℕ) → reply_of trace index ≡ None
        → floor trace (index + 1) ≡ floor trace index }
{}

/// The space after one place more is that after a step by its operation.
pub fn spaces_go_on_by_places()
    ensures start { (start : Space) (trace : Recording)
        → space_from start trace (take 0 trace.log) ≡ start }
    ensures next { (start : Space) (trace : Recording) (place call : ℕ) (action : Action)
        → slice_get trace.log place ≡ Some call → operation_of trace call ≡ Some action
        → space_from start trace (take (place + 1) trace.log)
        ≡ (step trace.layout.depth trace.layout.tables
        (space_from start trace (take place trace.log)) action).space }
{}

/// Bytes have the fault `Trailing` exactly where a front of them spells a trace, and more bytes come after it.
pub fn trailing_bytes_follow_a_trace()
    ensures { (bytes : List ℕ) → HasFormatFault bytes Trailing
        ↔ ((front : List ℕ) × (more : List ℕ) × (trace : Recording) × (bytes ≡ front ++ more)
        × (more ≢ []) × Spells front trace) }
{}

/// If bytes spell a trace, each front of them that lacks some has the fault `Truncated`.
pub fn fronts_of_a_spelling_are_truncated()
    ensures { (front more : List ℕ) (trace : Recording) → Spells (front ++ more) trace → more ≢ []
        → HasFormatFault front Truncated }
{}

/// Any bytes spell a trace, or have a fault of the format.
pub fn bytes_spell_a_trace_or_have_a_fault()
    ensures { (bytes : List ℕ) → All (λ byte. byte < 256) bytes
        → ((trace : Recording) × Spells bytes trace) ⊎
        ((fault : Format) × HasFormatFault bytes fault) }
{}

/// Bytes spell at most one segment, and no front of them spells another one.
pub fn bytes_begin_with_one_segment()
    ensures spell { (before : Option Layout) (bytes : List ℕ) (first second : Recording)
        → SpellsSegment before bytes first → SpellsSegment before bytes second → first ≡ second }
    ensures begin { (before : Option Layout) (front other more rest : List ℕ)
        (first second : Recording) → SpellsSegment before front first
        → SpellsSegment before other second → front ++ more ≡ other ++ rest
        → (front ≡ other) × (first ≡ second) }
{}

/// Bytes have at most one fault as a segment.
pub fn one_segment_fault()
    ensures { (before : Option Layout) (bytes : List ℕ) (first second : Format)
        → HasSegmentFault before bytes first → HasSegmentFault before bytes second
        → first ≡ second }
{}

/// Bytes that begin with a segment have no fault as one, whatever comes after it.
pub fn no_fault_of_a_segment()
    ensures { (before : Option Layout) (bytes more : List ℕ) (segment : Recording) (fault : Format)
        → SpellsSegment before bytes segment → HasSegmentFault before (bytes ++ more) fault → ⊥ }
{}

/// If bytes spell a segment, each front of them that lacks some has the fault `Truncated`.
pub fn fronts_of_a_segment_are_truncated()
    ensures { (before : Option Layout) (front more : List ℕ) (segment : Recording)
        → SpellsSegment before (front ++ more) segment → more ≢ []
        → HasSegmentFault before front Truncated }
{}

/// Any bytes begin with a segment, or have a fault as one.
pub fn bytes_begin_with_a_segment_or_have_a_fault()
    ensures { (before : Option Layout) (bytes : List ℕ) → All (λ byte. byte < 256) bytes
        → ((front : List ℕ) × (more : List ℕ) × (segment : Recording) × (bytes ≡ front ++ more)
        × SpellsSegment before front segment) ⊎
        ((fault : Format) × HasSegmentFault before bytes fault) }
{}

/// A recording of which none of faults 2 to 8 holds is orderly; and so are two that are, as one.
pub fn recordings_are_orderly()
    ensures clean { (trace : Recording) → HasCleanLog trace → IsOrderly trace }
    ensures both { (first second : Recording) → IsOrderly first → IsOrderly second
        → IsOrderly (joined_traces first second) }
{}

/// The space after two recordings, as one, is that after the second from the space after the first.
pub fn spaces_go_on()
    ensures { (start : Space) (first second : Recording) → second.layout ≡ first.layout
        → IsOrderly first → space_from start (joined_traces first second) (joined_traces first second).log
        ≡ space_from (space_from start first first.log) second second.log }
{}

/// Three recordings, one after the other, are one however they are taken together.
pub fn recordings_associate()
    ensures { (first second third : Recording) → joined_traces (joined_traces first second) third
        ≡ joined_traces first (joined_traces second third) }
{}
