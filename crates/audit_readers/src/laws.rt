//! Laws of what the engines print. Each function does nothing: its clauses say what holds of all bytes.

ghost use Rattle.std.specs.Prelude.{◌≡◌, ◌++◌, ℕ, Bool, List, None, Some, slice_get};
ghost use Rattle.vs_walk.specs.Dump.{Image};
ghost use Rattle.vs_walk.specs.Traversal.{walk_fault};
ghost use Rattle.vs_walk.specs.declared.walk.WalkFault.{WalkFault};
ghost use Rattle.nr_trace.specs.Faults.{HasFault};
ghost use Rattle.nr_trace.specs.Recording.{Recording};
ghost use Rattle.nr_trace.specs.Spelling.{Spells};
ghost use Rattle.nr_chain.specs.Bytes.{GoesOnSo};
ghost use Rattle.nr_chain.specs.Headline.{IsRightChain};
ghost use Rattle.nr_trace.specs.Run.{end_of};
ghost use Rattle.nr_audit.specs.Start.{first_space};
ghost use Rattle.audit_readers.specs.ChainAudit.{IsChainAudit};
ghost use Rattle.audit_readers.specs.ChainPages.{IsChainEnd, IsChainStart, IsSettledBefore, ShowsEnd, ShowsStart, TellsFault};
ghost use Rattle.audit_readers.specs.PagesAnswers.{dump_fault};
ghost use Rattle.audit_texts.specs.ChainText.{quiet_lines};

/// What is printed of a chain, and its status, is a function of its bytes.
pub fn a_chain_has_one_text()
    ensures start { (as_ranges : Bool) (bytes text other : List ℕ) (status same : ℕ)
        → IsChainStart as_ranges bytes text status → IsChainStart as_ranges bytes other same
        → (text ≡ other) × (status ≡ same) }
    ensures end { (as_ranges : Bool) (bytes text other : List ℕ) (status same : ℕ)
        → IsChainEnd as_ranges bytes text status → IsChainEnd as_ranges bytes other same
        → (text ≡ other) × (status ≡ same) }
{}

/// Let two parts of a chain have one layout, and let the same be printed for the end of the first and for the start of the second. Then
/// the space at the one is that at the other. Let the second give no memory away, or let nothing be left open behind the first. If the
/// second is right, they are right as one, with the orders one after the other. What is printed for the end of the whole is what is
/// printed for the end of the second, so that a third part may follow. So any number of parts can be judged, each elsewhere.
pub fn parts_with_equal_ends_are_right_as_one()
    ensures spaces { (as_ranges : Bool) (front back text : List ℕ) (status same : ℕ)
        (end : ShowsEnd as_ranges front text status) (start : ShowsStart as_ranges back text same)
        → start.first.layout ≡ end.last.trace.layout
        → end_of end.last ≡ first_space None start.first }
    ensures right { (as_ranges : Bool) (front back text : List ℕ) (status same : ℕ)
        (others : List (List ℕ)) (end : ShowsEnd as_ranges front text status)
        (start : ShowsStart as_ranges back text same) → start.first.layout ≡ end.last.trace.layout
        → IsSettledBefore end.last back → GoesOnSo None back others None
        → IsRightChain (front ++ back) (end.orders ++ others) }
    ensures ends { (as_ranges : Bool) (front back text last : List ℕ) (status same : ℕ)
        (end : ShowsEnd as_ranges front text status) (start : ShowsStart as_ranges back text same)
        → start.first.layout ≡ end.last.trace.layout → IsSettledBefore end.last back
        → ShowsEnd as_ranges back last 0 → ShowsEnd as_ranges (front ++ back) last 0 }
{}

/// For a chain that is refused the last lines of its audit are printed.
pub fn refused_chains_are_told_as_audited()
    ensures { (orders : List (List ℕ)) (bytes text : List ℕ) (status least : ℕ)
        → TellsFault orders bytes text status
        → IsChainAudit quiet_lines least bytes text status }
{}

/// The fault that is named of a dump is one that the trace has, in the words of the audit.
pub fn named_faults_are_the_audits()
    ensures { (bytes : List ℕ) (trace : Recording) (replica : ℕ) (dump : Image)
        (fault : WalkFault) → Spells bytes trace → slice_get trace.dumps replica ≡ Some dump
        → walk_fault trace.layout.depth dump.frames dump.root ≡ Some fault
        → HasFault trace (dump_fault replica fault) }
{}
