//! The statuses of the calls, and of those for C.

ghost use Rattle.std.specs.Prelude.{◌≡◌, ◌≤◌, is_some, if◌then◌else◌};
ghost use Rattle.nr_audit.specs.Verdict.{verdict_status};
ghost use Rattle.audit_texts.specs.ChainExplained.{chain_explanation_status};

use nr_audit::Verdict;
use nr_explain::ChainExplanation;
use nr_trace::Fault;

/// The trace, the segment or the chain is right.
pub const RIGHT: u32 = 0;

/// It isn't.
pub const WRONG: u32 = 1;

/// More bytes are wanted: no verdict can be given yet.
pub const MORE: u32 = 2;

/// A growth of memory was refused.
pub const NO_MEMORY: u32 = 3;

/// The chain was never begun, or is freed.
pub const NO_CHAIN: u32 = 4;

/// The chain has its verdict, or memory ran out for it.
pub const OVER: u32 = 5;

/// The chain was begun before, and isn't freed.
pub const IN_USE: u32 = 6;

/// The chain has no verdict yet, or nothing that explains it.
pub const NOT_EXPLAINED: u32 = 7;

/// The status of a verdict.
pub(crate) fn status_of(verdict: &Verdict) -> u32
    ensures is { result ≡ verdict_status verdict.now }
    ensures small { result ≤ 1 }
{
    match verdict {
        Verdict::Yes(_) => RIGHT,
        Verdict::No(_) => WRONG,
    }
}

/// The status of a chain that ends so.
pub(crate) fn end_status(found: Option<Fault>) -> u32
    ensures is { result ≡ (if is_some found then 1 else 0) }
    ensures small { result ≤ 1 }
{
    match found {
        None => RIGHT,
        Some(_) => WRONG,
    }
}

/// The status of a chain that is explained so.
pub(crate) fn explanation_status(explanation: &ChainExplanation) -> u32
    ensures is { result ≡ chain_explanation_status explanation.now }
    ensures small { result ≤ 1 }
{
    match explanation {
        ChainExplanation::Yes(_) => RIGHT,
        ChainExplanation::No(_, _, _) => WRONG,
    }
}
