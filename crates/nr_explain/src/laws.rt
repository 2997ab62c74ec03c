//! Laws of the definitions in `specs/`. Each function does nothing: its clauses say what holds of all bytes.

ghost use Rattle.std.specs.Prelude.{◌≡◌, ◌<◌, ◌-◌, ◌^◌, ◌++◌, ℕ, All, List, None, Some, length, min};
ghost use Rattle.nr_trace.specs.Recording.{IsEvent};
ghost use Rattle.nr_trace.specs.FirstFault.{IsCounts};
ghost use Rattle.nr_trace.specs.Spelling.{counts, event, magic, version_word};
ghost use Rattle.nr_trace.specs.declared.recordings.event.Event.{Event};
ghost use Rattle.nr_trace.specs.declared.formats.fields.Counts.{Counts};
ghost use Rattle.nr_trace.specs.declared.formats.version.Version.{Version};
ghost use Rattle.nr_explain.specs.Fields.{event_fault};
ghost use Rattle.nr_explain.specs.Units.{IsBadUnit};
ghost use Rattle.nr_explain.specs.declared.units.BadUnit.{BadUnit};
ghost use Rattle.nr_trace.specs.declared.refusals.fault.Fault.{Fault};
ghost use Rattle.nr_chain.specs.Bytes.{GoesOnSo};
ghost use Rattle.nr_explain.specs.ChainExplanation.{IsExplanationOfChain};
ghost use Rattle.nr_explain.specs.declared.chain.evidence.SegmentEvidence.{SegmentEvidence};
ghost use Rattle.nr_explain.specs.declared.chain.explanation.ChainCounts.{ChainCounts};
ghost use Rattle.nr_explain.specs.declared.chain.explanation.ChainExplanation.TheVariants.{Yes, No};

/// Bytes have at most one bad unit: what it is, where it begins, what was read of it, which fault it shows and which field
/// of an event is wrong are determined by them.
pub fn one_bad_unit()
    ensures fault { (bytes : List ℕ) (first second : BadUnit) → IsBadUnit bytes first
        → IsBadUnit bytes second → first.fault ≡ second.fault }
    ensures unit { (bytes : List ℕ) (first second : BadUnit) → IsBadUnit bytes first
        → IsBadUnit bytes second → first.unit ≡ second.unit }
    ensures offset { (bytes : List ℕ) (first second : BadUnit) → IsBadUnit bytes first
        → IsBadUnit bytes second → first.offset ≡ second.offset }
    ensures read { (bytes : List ℕ) (first second : BadUnit) → IsBadUnit bytes first
        → IsBadUnit bytes second → first.read.items ≡ second.read.items }
    ensures field { (bytes : List ℕ) (first second : BadUnit) → IsBadUnit bytes first
        → IsBadUnit bytes second → first.field ≡ second.field }
{}

/// If no field of 24 bytes is wrong, they spell an event of a trace, or of a segment, with this header. So what is refused has such a
/// field.
pub fn refused_events_have_a_bad_field()
    ensures { (version : Version) (numbers : Counts) (header behind unit : List ℕ)
        → IsCounts version numbers
        → header ≡ magic version ++ (version_word version ++ (counts version numbers ++ behind))
        → length unit ≡ 24 → All (λ byte. byte < 256) unit → event_fault header unit ≡ None
        → (one : Event) × IsEvent version numbers.layout one × (unit ≡ event one) }
{}

/// What explains the bytes of a chain has the verdict of an audit: all segments are right, with their orders; or so many are, and the
/// next one has the fault.
pub fn explanations_are_verdicts()
    ensures yes { (bytes : List ℕ) (counts : ChainCounts) → IsExplanationOfChain bytes (Yes counts)
        → (orders : List (List ℕ)) × GoesOnSo None bytes orders None }
    ensures no { (bytes : List ℕ) (number : ℕ) (fault : Fault) (shown : SegmentEvidence)
        → IsExplanationOfChain bytes (No number fault shown)
        → (orders : List (List ℕ)) × GoesOnSo None bytes orders (Some fault)
        × (number ≡ min (length orders) (2 ^ 64 - 1)) }
{}
