//! A chain that is judged as it comes.

ghost use Rattle.std.specs.Prelude.{◌≡◌, ◌≢◌, ◌≤◌, ℕ, List, Bool, IfOk};
ghost use Rattle.nr_explain.specs.ChainExplanation.{IsExplanationOfChain};
ghost use Rattle.audit_numbers.specs.Calls.{TellsText};
ghost use Rattle.audit_numbers.specs.Chains.{HasJudged, IsTold};
ghost use Rattle.audit_numbers.specs.inside.Said.{HasEnded, IsSaid};

use crate::finding::Finding;
use crate::status::{
    MORE, NO_MEMORY, NOT_EXPLAINED, OVER, end_status, explanation_status, status_of,
};
use crate::telling::{Telling, begin_telling, end_told, take_told};
use crate::written::{write_order, write_text};
use audit_texts::told_chain;
use nr_audit::Verdict;
use nr_chain::{Chain, Step};
use nr_explain::ChainExplanation;
use nr_trace::Fault;
use std::alloc::Global;
use std::mem::replace;
use vs_types::Memory;

/// A chain that is judged as it comes.
#[derive(Drop)]
pub enum Judging {
    /// More may come.
    Open(Chain, Option<Telling>),
    /// It has its verdict, or memory ran out; what explains the verdict, if that was asked for.
    Over(Option<ChainExplanation>),
}

/// What is said of a piece.
#[derive(Drop)]
enum Said {
    /// The whole piece is taken, and too few bytes have come of the segment.
    More(Judging),
    /// So many bytes at the front of the piece show this of the segment.
    Verdict(usize, Verdict, Judging),
}

/// How a chain ends.
#[derive(Drop)]
struct Ended {
    /// The fault, if there is one.
    found: Option<Fault>,
    /// What explains it, if that was asked for.
    explanation: Option<ChainExplanation>,
}

/// Feeds a piece to an open chain, up to the end of a segment.
fn judge_piece(
    alloc: Global,
    chain: Chain,
    telling: Option<Telling>,
    piece: &[u8],
) -> Result<Said, Memory>
    ensures { (bytes : List ℕ) (orders : List (List ℕ)) (explain : Bool)
        → HasJudged bytes orders chain → IsTold bytes explain telling
        → IfOk result (IsSaid bytes orders explain piece.now) }
{
    if piece.is_empty() {
        return Ok(Said::More(Judging::Open(chain, telling)));
    }
    match chain.feed(alloc, piece, false)? {
        Step::More(next) => {
            let told = take_told(telling, piece)?;
            Ok(Said::More(Judging::Open(next, told)))
        }
        Step::Right(count, order, _, next) => {
            let told_so_far = take_told(telling, &piece[..count])?;
            let judging = Judging::Open(next, told_so_far);
            Ok(Said::Verdict(count, Verdict::Yes(order), judging))
        }
        Step::Wrong(fault) => {
            let all_told = take_told(telling, piece)?;
            let explanation = end_told(all_told)?;
            let judging = Judging::Over(explanation);
            Ok(Said::Verdict(piece.len(), Verdict::No(fault), judging))
        }
    }
}

/// What is found at the end of an open chain, and what explains it.
fn judge_end(chain: Chain, telling: Option<Telling>) -> Result<Ended, Memory>
    ensures { (bytes : List ℕ) (orders : List (List ℕ)) (explain : Bool)
        → HasJudged bytes orders chain → IsTold bytes explain telling
        → IfOk result (HasEnded bytes orders explain) }
{
    let explanation = end_told(telling)?;
    Ok(Ended {
        found: chain.end(),
        explanation,
    })
}

/// Writes the text of an explanation, if there is room for it, and how many bytes it has.
fn write_told(
    alloc: Global,
    as_json: bool,
    explanation: &ChainExplanation,
    text: &mut [u8],
    length: &mut usize,
) -> u32
    ensures told { result ≤ 1 → (bytes : List ℕ) → IsExplanationOfChain bytes explanation.now
        → TellsText as_json bytes result length.new text.old text.new }
    ensures statuses { (result ≤ 3) × (result ≢ 2) }
    ensures length { 2 ≤ result → length.new ≡ length.old }
    ensures text { 2 ≤ result → text.new ≡ text.old }
{
    let Ok(told) = told_chain(alloc, as_json, explanation) else {
        return NO_MEMORY;
    };
    let bytes = told.as_bytes();
    *length = bytes.len();
    write_text(bytes, text);
    explanation_status(explanation)
}

impl Judging {
    ghost use Rattle.std.specs.Prelude.{◌≡◌, ◌≢◌, ◌≤◌, ◌⊎◌, [], ℕ, List, Bool, Option, None, Some, true};
    ghost use Rattle.nr_chain.specs.Fed.{ChainFed};
    ghost use Rattle.nr_explain.specs.declared.chain.explanation.ChainExplanation.{ChainExplanation as ExplanationRow};
    ghost use Rattle.audit_numbers.specs.declared.telling.Telling.{Telling as TellingRow};
    ghost use Rattle.audit_numbers.specs.Calls.{TellsEnd, TellsMore, TellsSegment, TellsText};
    ghost use Rattle.audit_numbers.specs.Chains.{IsFed, IsOver};

    /// A chain of which nothing has come yet. Its verdict can be explained later only if `explain` is true. It allocates nothing, and
    /// `alloc` is where the chain keeps what comes.
    pub fn new(alloc: Global, explain: bool) -> Judging
        ensures { IsFed [] [] explain (Some result) }
    {
        Judging::Open(Chain::new(alloc), begin_telling(alloc, explain))
    }

    /// Takes bytes at the front of a piece: all of them, or so many that a segment is whole, which is judged then; so what is left is fed
    /// again. What the chain says, a segment and what its judgement takes are allocated from `alloc`, and freed with the chain.
    ///
    /// Returns 0 where a segment is right: `taken` bytes end it, and its order is in the array where that has room. Returns 1 where it has
    /// the fault that `finding` says, whatever comes behind; then the chain is over. Returns 2 where all bytes are taken and no segment
    /// ends with them, 3 where memory was refused, and then the chain is over without a verdict. 5: it is over.
    pub fn feed(
        &mut self,
        alloc: Global,
        piece: &[u8],
        order: &mut [u32],
        finding: &mut Finding,
        taken: &mut usize,
    ) -> u32
        ensures told { result ≤ 1 → (bytes : List ℕ) (orders : List (List ℕ)) (explain : Bool)
            → IsFed bytes orders explain (Some self.old)
            → TellsSegment bytes orders explain piece.now result taken.new finding.new order.old
            order.new (Some self.new) }
        ensures more { result ≡ 2 → (bytes : List ℕ) (orders : List (List ℕ)) (explain : Bool)
            → IsFed bytes orders explain (Some self.old)
            → TellsMore bytes orders explain piece.now taken.new (Some self.new) }
        ensures over { result ≡ 5 → (bytes : List ℕ) (orders : List (List ℕ)) (explain : Bool)
            → IsFed bytes orders explain (Some self.old) → ⊥ }
        ensures closed { (explanation : Option ExplanationRow)
            → self.old ≡ Judging.Over explanation → result ≡ 5 }
        ensures memory { result ≡ 3 → self.new ≡ Judging.Over None }
        ensures taken { 3 ≤ result → taken.new ≡ taken.old }
        ensures kept { result ≡ 5 → self.new ≡ self.old }
        ensures statuses { (result ≤ 5) × (result ≢ 4) }
        ensures finding { 2 ≤ result → finding.new ≡ finding.old }
        ensures order { 2 ≤ result → order.new ≡ order.old }
    {
        match replace(self, Judging::Over(None)) {
            Judging::Over(explanation) => {
                *self = Judging::Over(explanation);
                OVER
            }
            Judging::Open(chain, telling) => match judge_piece(alloc, chain, telling, piece) {
                Err(Memory) => NO_MEMORY,
                Ok(Said::More(next)) => {
                    *self = next;
                    *taken = piece.len();
                    MORE
                }
                Ok(Said::Verdict(count, verdict, next)) => {
                    *self = next;
                    *taken = count;
                    *finding = Finding::of(&verdict);
                    write_order(&verdict, order);
                    status_of(&verdict)
                }
            },
        }
    }

    /// Ends the chain: no piece comes any more. What explains the verdict is allocated, if that was asked for, and freed with the chain.
    ///
    /// Returns 0 where all segments are right and the last is whole, and then `finding` has no fault; else 1, where the next one is cut, or
    /// there is none. Returns 3 where memory was refused, and then the chain has no verdict. 5: it is over.
    pub fn end(&mut self, finding: &mut Finding) -> u32
        ensures told { result ≤ 1 → (bytes : List ℕ) (orders : List (List ℕ)) (explain : Bool)
            → IsFed bytes orders explain (Some self.old)
            → TellsEnd bytes orders explain result finding.new (Some self.new) }
        ensures over { result ≡ 5 → (bytes : List ℕ) (orders : List (List ℕ)) (explain : Bool)
            → IsFed bytes orders explain (Some self.old) → ⊥ }
        ensures closed { (explanation : Option ExplanationRow)
            → self.old ≡ Judging.Over explanation → result ≡ 5 }
        ensures memory { result ≡ 3 → self.new ≡ Judging.Over None }
        ensures kept { result ≡ 5 → self.new ≡ self.old }
        ensures statuses { (result ≤ 5) × (result ≢ 4) × (result ≢ 2) }
        ensures finding { 2 ≤ result → finding.new ≡ finding.old }
    {
        match replace(self, Judging::Over(None)) {
            Judging::Over(explanation) => {
                *self = Judging::Over(explanation);
                OVER
            }
            Judging::Open(chain, telling) => match judge_end(chain, telling) {
                Err(Memory) => NO_MEMORY,
                Ok(ended) => {
                    *self = Judging::Over(ended.explanation);
                    *finding = Finding::of_end(ended.found);
                    end_status(ended.found)
                }
            },
        }
    }

    /// Writes the text that explains the verdict, as lines or as a JSON object on a line, if the array has room for it; and how many bytes
    /// it has. The object and the text are allocated from `alloc`, and freed before it returns.
    ///
    /// Returns 0 where the chain is right and 1 where it isn't. 3: memory was refused; 7: it has no verdict yet, or was begun without
    /// explanations. Nothing is written then.
    pub fn explain(&self, alloc: Global, as_json: bool, text: &mut [u8], length: &mut usize) -> u32
        ensures told { result ≤ 1 → (bytes : List ℕ) (explain : Bool)
            → IsOver bytes explain (Some self.now)
            → TellsText as_json bytes result length.new text.old text.new }
        ensures unexplained { result ≡ 7 → (bytes : List ℕ)
            → IsOver bytes true (Some self.now) → ⊥ }
        ensures early { (chain : ChainFed) (telling : Option TellingRow)
            → self.now ≡ Judging.Open chain telling → result ≡ 7 }
        ensures none { self.now ≡ Judging.Over None → result ≡ 7 }
        ensures statuses { (result ≡ 7) ⊎ ((result ≤ 3) × (result ≢ 2)) }
        ensures length { 2 ≤ result → length.new ≡ length.old }
        ensures text { 2 ≤ result → text.new ≡ text.old }
    {
        match self {
            Judging::Open(_, _) => NOT_EXPLAINED,
            Judging::Over(None) => NOT_EXPLAINED,
            Judging::Over(Some(explanation)) => {
                write_told(alloc, as_json, explanation, text, length)
            }
        }
    }
}
