//! Worked examples: what the definitions say of short recordings. Each function does nothing: the prover computes.

ghost use Rattle.std.specs.Prelude.{◌≡◌, [], ◌∷◌, ◌++◌, None, Some, take, drop, length};
ghost use Rattle.nr_trace.specs.Examples.{empty_dump, missing_frame, nothing_recorded, reserved_bit, shared_frame};
ghost use Rattle.nr_trace.specs.Examples.{stray_frame, unmapped_page};
ghost use Rattle.nr_trace.specs.FirstFault.{HasFormatFault, HasSegmentFault};
ghost use Rattle.nr_trace.specs.Laws.{IsFaultless};
ghost use Rattle.nr_trace.specs.declared.refusals.fault.Format.TheVariants.{BadChain, BadMagic, BadVersion, Trailing, Truncated};
ghost use Rattle.nr_trace.specs.Calls.{IsWellFormedHistory};
ghost use Rattle.nr_trace.specs.Examples.{access_it, access_refused, answered_again, as_version_2, looks_mapped, map_it, map_then_access};
ghost use Rattle.nr_trace.specs.Examples.{map_then_resolve, map_then_resolve_bytes, map_then_touch, map_then_touch_bytes};
ghost use Rattle.nr_trace.specs.Examples.{read_before_and_after, resolve_it, stale_read, unanswered_left_out, unanswered_too_early};
ghost use Rattle.nr_trace.specs.Examples.{with_applied, with_log, with_replies, without_first_reply};
ghost use Rattle.nr_trace.specs.Faults.{HasFault};
ghost use Rattle.nr_trace.specs.Orders.{answer_in, before, floor, recorded_order, space_after, FitsOrder, IsLegalOrder};
ghost use Rattle.nr_trace.specs.Recording.{IsEvent};
ghost use Rattle.nr_trace.specs.Spelling.{spelling, Spells, SpellsSegment};
ghost use Rattle.nr_trace.specs.Versions.{KnowsDepth};
ghost use Rattle.nr_trace.specs.declared.recordings.event.Event.TheVariants.{Call, Reply};
ghost use Rattle.nr_trace.specs.declared.recordings.event.Asked.TheVariants.{Request};
ghost use Rattle.nr_trace.specs.declared.formats.version.Version.TheVariants.{V1, V2};
ghost use Rattle.vs_types.specs.declared.addresses.depth.Depth.TheVariants.{Five};
ghost use Rattle.vs_types.specs.declared.requests.answer.Answer.TheVariants.{Allowed, Done};
ghost use Rattle.nr_trace.specs.declared.refusals.fault.Fault.TheVariants.{AnsweredTwice, Early, NoSuchCall, NotAnUpdate, NotPlaced, PastLog};
ghost use Rattle.nr_trace.specs.declared.refusals.fault.Fault.TheVariants.{PlacedTwice, PrefixPastLog, PrefixShort, ThreadOpen, WrongAnswer};
ghost use Rattle.nr_trace.specs.declared.refusals.fault.Fault.TheVariants.{Differs, MissingFrame, ReservedBit, SharedFrame, StrayFrame};

/// The update comes first, and then the read that saw it.
pub fn map_then_resolve_order()
    ensures { recorded_order map_then_resolve ≡ 0 ∷ 2 ∷ [] }
{}

/// The read that did not see the update comes before it, and the one that saw it comes after.
pub fn read_before_and_after_order()
    ensures { recorded_order read_before_and_after ≡ 2 ∷ 0 ∷ 1 ∷ [] }
{}

/// A read that another replica's answer precedes has to see what that answer saw.
pub fn stale_read_is_early()
    ensures floor { floor stale_read 3 ≡ 1 }
    ensures early { HasFault stale_read (Early 3) }
{}

/// An update without an answer keeps its floor too.
pub fn unanswered_update_too_early()
    ensures floor { floor unanswered_too_early 2 ≡ 2 }
    ensures early { HasFault unanswered_too_early (Early 2) }
{}

/// The update is done, and the read sees its page.
pub fn map_then_resolve_answers()
    ensures map { answer_in map_then_resolve.layout
        (space_after map_then_resolve (before 0 (recorded_order map_then_resolve))) map_it ≡ Done }
    ensures resolve { answer_in map_then_resolve.layout
        (space_after map_then_resolve (before 2 (recorded_order map_then_resolve))) resolve_it
        ≡ looks_mapped }
{}

/// The order of the two calls is legal.
pub fn map_then_resolve_is_legal()
    ensures { IsLegalOrder map_then_resolve (0 ∷ 2 ∷ []) }
{}

/// The bytes of a short recording: up to its frames, and how many they are in all.
pub fn map_then_resolve_spelling()
    ensures front { take 136 (spelling map_then_resolve) ≡ map_then_resolve_bytes }
    ensures whole { length (spelling map_then_resolve) ≡ 16552 }
{}

/// The recording keeps all ranges, so that its bytes spell it.
pub fn map_then_resolve_is_a_recording()
    ensures { Spells (spelling map_then_resolve) map_then_resolve }
{}

/// An update that was never answered nor placed is not in the order.
pub fn unanswered_update_left_out()
    ensures { recorded_order unanswered_left_out ≡ 0 ∷ 1 ∷ [] }
{}

/// One change to a recording without fault makes one fault hold.
pub fn one_fault_each()
    ensures not_an_update { HasFault (with_log (2 ∷ [])) (NotAnUpdate 0) }
    ensures placed_twice { HasFault (with_log (0 ∷ 0 ∷ [])) (PlacedTwice 1) }
    ensures not_placed { HasFault (with_replies 1 2 1 0x1123) (NotPlaced 1) }
    ensures past_log { HasFault (with_replies 0 2 2 0x1123) (PastLog 3) }
    ensures no_such_call { HasFault (with_replies 0 1 1 0x1123) (NoSuchCall 3) }
    ensures answered_twice { HasFault (with_replies 0 0 1 0x1123) (AnsweredTwice 3) }
    ensures thread_open { HasFault without_first_reply (ThreadOpen 1) }
    ensures wrong_answer { HasFault (with_replies 0 2 1 0x1124) (WrongAnswer 2) }
    ensures prefix_past_log { HasFault (with_applied 2) (PrefixPastLog 0) }
    ensures prefix_short { HasFault (with_applied 0) (PrefixShort 0) }
{}

/// A second reply to the read, with another answer: the order has the first one's, and is as legal as before. But no call has two
/// replies in a well-formed history.
pub fn answered_again_is_no_history()
    ensures legal { IsLegalOrder answered_again (0 ∷ 2 ∷ []) }
    ensures history { IsWellFormedHistory answered_again → ⊥ }
    ensures fault { HasFault answered_again (AnsweredTwice 4) }
    ensures spelled { Spells (spelling answered_again) answered_again }
{}

/// A read that asks for rights is in the order like one that resolves, and is allowed what the page allows.
pub fn map_then_access_answers()
    ensures order { recorded_order map_then_access ≡ 0 ∷ 2 ∷ [] }
    ensures access { answer_in map_then_access.layout
        (space_after map_then_access (before 2 (recorded_order map_then_access))) access_it
        ≡ Allowed 0x1123 }
    ensures refused { HasFault access_refused (WrongAnswer 2) }
{}

/// The version is one number of the spelling, and an access is in traces of version 2 alone, as are five levels.
pub fn versions_apart()
    ensures spelling { drop 6 (spelling as_version_2) ≡ drop 6 (spelling map_then_resolve) }
    ensures second { IsEvent V2 map_then_resolve.layout (Call 0 0 (Request access_it)) }
    ensures first { IsEvent V1 map_then_resolve.layout (Call 0 0 (Request access_it)) → ⊥ }
    ensures answer { IsEvent V1 map_then_resolve.layout (Reply 2 1 (Allowed 0x1123)) → ⊥ }
    ensures five { KnowsDepth V2 Five }
    ensures not_five { KnowsDepth V1 Five → ⊥ }
{}

/// Each fault of a dump, where nothing is recorded.
pub fn one_fault_of_each_dump()
    ensures missing { HasFault missing_frame (MissingFrame 0 2) }
    ensures shared { HasFault shared_frame (SharedFrame 0 1) }
    ensures reserved { HasFault reserved_bit (ReservedBit 0 3 1) }
    ensures stray { HasFault stray_frame (StrayFrame 0 2) }
    ensures differs { HasFault unmapped_page (Differs 0 0) }
{}

/// If nothing is recorded and the page table is empty, no fault holds, and the dump fits the order without calls.
pub fn nothing_recorded_is_faultless()
    ensures faultless { IsFaultless nothing_recorded }
    ensures order { recorded_order nothing_recorded ≡ [] }
    ensures fits { FitsOrder nothing_recorded [] 0 empty_dump }
{}

/// Bytes that spell no trace: too few, with a fault in their first unit or in their second, and with one byte less or more than a trace.
pub fn faults_of_the_format()
    ensures nothing { HasFormatFault [] Truncated }
    ensures magic { HasFormatFault (0x4e ∷ 0x52 ∷ 0x56 ∷ 0x58 ∷ []) BadMagic }
    ensures version { HasFormatFault (0x4e ∷ 0x52 ∷ 0x56 ∷ 0x54 ∷ 0 ∷ 3 ∷ []) BadVersion }
    ensures less { HasFormatFault (take 16551 (spelling map_then_resolve)) Truncated }
    ensures more { HasFormatFault (spelling map_then_resolve ++ 0 ∷ []) Trailing }
{}

/// A segment that maps a page and touches it: a touch has no place in the order, and what its reply says of a place makes
/// nothing known and is no fault. Its bytes spell it where it is the first segment or is laid out as the one before it; laid
/// out otherwise they have the fault `BadChain`, and they are no trace.
pub fn map_then_touch_is_a_segment()
    ensures order { recorded_order map_then_touch ≡ 0 ∷ [] }
    ensures floor { floor map_then_touch 4 ≡ 1 }
    ensures within { HasFault map_then_touch (PastLog 3) → ⊥ }
    ensures first { SpellsSegment None map_then_touch_bytes map_then_touch }
    ensures further { SpellsSegment (Some map_then_touch.layout) map_then_touch_bytes
        map_then_touch }
    ensures otherwise { HasSegmentFault (Some map_then_resolve.layout) map_then_touch_bytes
        BadChain }
    ensures no_trace { HasFormatFault map_then_touch_bytes BadMagic }
{}
