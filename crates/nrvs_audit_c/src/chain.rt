//! The calls for C that judge a chain as it comes. Each takes what the chain has come to out of its handle, and puts it back.

ghost use Rattle.std.specs.Prelude.{◌≡◌, ◌≢◌, ◌≤◌, ◌⊎◌, [], ℕ, List, Bool, Option, None, Some, true};
ghost use Rattle.nr_chain.specs.Fed.{ChainFed};
ghost use Rattle.nr_explain.specs.declared.chain.explanation.ChainExplanation.{ChainExplanation as ExplanationRow};
ghost use Rattle.audit_numbers.specs.declared.telling.Telling.{Telling as TellingRow};
ghost use Rattle.audit_numbers.specs.Calls.{TellsEnd, TellsMore, TellsSegment, TellsText};
ghost use Rattle.audit_numbers.specs.Chains.{IsFed, IsOver};
ghost use Rattle.nrvs_audit_c.specs.Handle.{IsSound};
ghost use Rattle.nrvs_audit_c.specs.declared.handle.TheConstants.{MADE};

use crate::handle::{Handle, MADE};
use audit_numbers::status::{IN_USE, MORE, NO_CHAIN, NO_MEMORY};
use audit_numbers::{Finding, Judging};
use std::alloc::Global;

/// Begins a chain, of which nothing has come yet. Its verdict can be explained later only if `explain` is true. Allocates a block, which
/// `nrvs_audit_chain_free` frees.
///
/// Returns 2, as more is wanted; 3 where memory was refused; 6 where the handle is in use. The handle is as it was then.
#[unsafe(no_mangle)]
pub extern "C" fn nrvs_audit_chain_new(alloc: Global, chain: &mut Handle, explain: bool) -> u32
    ensures fed { result ≡ 2 → IsFed [] [] explain chain.new.held.value }
    ensures made { result ≡ 2 → chain.new.magic ≡ MADE }
    ensures in_use { chain.old.magic ≡ MADE → result ≡ 6 }
    ensures free { chain.old.magic ≢ MADE → (result ≢ 6) × (result ≢ 2 → result ≡ 3) }
    ensures kept { result ≢ 2 → chain.new ≡ chain.old }
{
    if chain.magic == MADE {
        return IN_USE;
    }
    let Ok(judging) = Box::new(alloc, Judging::new(alloc, explain)) else {
        return NO_MEMORY;
    };
    *chain = Handle::of(judging);
    MORE
}

/// Takes bytes at the front of a piece: all of them, or so many that a segment is whole, which is judged then; so what is left is fed
/// again. What the chain says, a segment and what its judgement takes are allocated, and freed with the chain.
///
/// Returns 0 where a segment is right: `taken` bytes end it, and its order is in the array where that has room. Returns 1 where it has
/// the fault that `finding` says, whatever comes behind; then the chain is over. Returns 2 where all bytes are taken and no segment ends
/// with them, 3 where memory was refused, and then the chain is over without a verdict. 4: there is no chain; 5: it is over.
#[unsafe(no_mangle)]
pub extern "C" fn nrvs_audit_chain_feed(
    alloc: Global,
    chain: &mut Handle,
    bytes: &[u8],
    order: &mut [u32],
    finding: &mut Finding,
    taken: &mut usize,
) -> u32
    requires { IsSound chain.old }
    ensures told { result ≤ 1 → (before : List ℕ) (orders : List (List ℕ)) (explain : Bool)
        → IsFed before orders explain chain.old.held.value
        → TellsSegment before orders explain bytes.now result taken.new finding.new order.old
        order.new chain.new.held.value }
    ensures more { result ≡ 2 → (before : List ℕ) (orders : List (List ℕ)) (explain : Bool)
        → IsFed before orders explain chain.old.held.value
        → TellsMore before orders explain bytes.now taken.new chain.new.held.value }
    ensures over { result ≡ 5 → (before : List ℕ) (orders : List (List ℕ)) (explain : Bool)
        → IsFed before orders explain chain.old.held.value → ⊥ }
    ensures closed { chain.old.magic ≡ MADE → (explanation : Option ExplanationRow)
        → chain.old.held.value ≡ Some (Judging.Over explanation) → result ≡ 5 }
    ensures kept { result ≡ 5 → chain.new.held.value ≡ chain.old.held.value }
    ensures memory { result ≡ 3 → chain.new.held.value ≡ Some (Judging.Over None) }
    ensures taken { 3 ≤ result → taken.new ≡ taken.old }
    ensures no_chain { chain.old.magic ≢ MADE → (result ≡ 4) × (chain.new ≡ chain.old) }
    ensures statuses { chain.old.magic ≡ MADE → (result ≤ 5) × (result ≢ 4) }
    ensures finding { 2 ≤ result → finding.new ≡ finding.old }
    ensures order { 2 ≤ result → order.new ≡ order.old }
    ensures magic { chain.new.magic ≡ chain.old.magic }
    ensures sound { IsSound chain.new }
{
    if chain.magic != MADE {
        return NO_CHAIN;
    }
    let mut judging = chain.open(alloc);
    let status = judging.feed(alloc, bytes, order, finding, taken);
    *chain = Handle::of(judging);
    status
}

/// Ends the chain: no piece comes any more. What explains the verdict is allocated, if that was asked for, and freed with the chain.
///
/// Returns 0 where all segments are right and the last is whole, and then `finding` has no fault; else 1, where the next one is cut, or
/// there is none. Returns 3 where memory was refused, and then the chain has no verdict. 4: there is no chain; 5: it is over.
#[unsafe(no_mangle)]
pub extern "C" fn nrvs_audit_chain_end(
    alloc: Global,
    chain: &mut Handle,
    finding: &mut Finding,
) -> u32
    requires { IsSound chain.old }
    ensures told { result ≤ 1 → (bytes : List ℕ) (orders : List (List ℕ)) (explain : Bool)
        → IsFed bytes orders explain chain.old.held.value
        → TellsEnd bytes orders explain result finding.new chain.new.held.value }
    ensures over { result ≡ 5 → (bytes : List ℕ) (orders : List (List ℕ)) (explain : Bool)
        → IsFed bytes orders explain chain.old.held.value → ⊥ }
    ensures closed { chain.old.magic ≡ MADE → (explanation : Option ExplanationRow)
        → chain.old.held.value ≡ Some (Judging.Over explanation) → result ≡ 5 }
    ensures kept { result ≡ 5 → chain.new.held.value ≡ chain.old.held.value }
    ensures memory { result ≡ 3 → chain.new.held.value ≡ Some (Judging.Over None) }
    ensures no_chain { chain.old.magic ≢ MADE → (result ≡ 4) × (chain.new ≡ chain.old) }
    ensures statuses { chain.old.magic ≡ MADE → (result ≤ 5) × (result ≢ 4) × (result ≢ 2) }
    ensures finding { 2 ≤ result → finding.new ≡ finding.old }
    ensures magic { chain.new.magic ≡ chain.old.magic }
    ensures sound { IsSound chain.new }
{
    if chain.magic != MADE {
        return NO_CHAIN;
    }
    let mut judging = chain.open(alloc);
    let status = judging.end(finding);
    *chain = Handle::of(judging);
    status
}

/// Writes the text that explains the verdict of a chain, as lines or as a JSON object on a line, if the array has room for it; and how
/// many bytes it has. The object and the text are allocated, and freed before it returns.
///
/// Returns 0 where the chain is right and 1 where it isn't. 3: memory was refused; 4: there is no chain; 7: it has no verdict yet, or was
/// begun without explanations. Nothing is written then.
#[unsafe(no_mangle)]
pub extern "C" fn nrvs_audit_chain_explain(
    alloc: Global,
    chain: &mut Handle,
    as_json: bool,
    text: &mut [u8],
    length: &mut usize,
) -> u32
    requires { IsSound chain.old }
    ensures told { result ≤ 1 → (bytes : List ℕ) (explain : Bool)
        → IsOver bytes explain chain.old.held.value
        → TellsText as_json bytes result length.new text.old text.new }
    ensures unexplained { result ≡ 7 → (bytes : List ℕ)
        → IsOver bytes true chain.old.held.value → ⊥ }
    ensures no_chain { chain.old.magic ≢ MADE → (result ≡ 4) × (chain.new ≡ chain.old) }
    ensures early { chain.old.magic ≡ MADE → (fed : ChainFed) (telling : Option TellingRow)
        → chain.old.held.value ≡ Some (Judging.Open fed telling) → result ≡ 7 }
    ensures none { chain.old.magic ≡ MADE
        → chain.old.held.value ≡ Some (Judging.Over None) → result ≡ 7 }
    ensures statuses { chain.old.magic ≡ MADE
        → (result ≡ 7) ⊎ ((result ≤ 3) × (result ≢ 2)) }
    ensures value { chain.old.magic ≡ MADE → chain.new.held.value ≡ chain.old.held.value }
    ensures length { 2 ≤ result → length.new ≡ length.old }
    ensures text { 2 ≤ result → text.new ≡ text.old }
    ensures magic { chain.new.magic ≡ chain.old.magic }
    ensures sound { IsSound chain.new }
{
    if chain.magic != MADE {
        return NO_CHAIN;
    }
    let judging = chain.open(alloc);
    let status = judging.explain(alloc, as_json, text, length);
    *chain = Handle::of(judging);
    status
}

/// Frees all that the chain keeps, if there is one. The handle is then one that was never made.
#[unsafe(no_mangle)]
pub extern "C" fn nrvs_audit_chain_free(alloc: Global, chain: &mut Handle)
    requires { IsSound chain.old }
    ensures freed { chain.old.magic ≡ MADE
        → (chain.new.magic ≡ 0) × (chain.new.held.value ≡ None) }
    ensures none { chain.old.magic ≢ MADE → chain.new ≡ chain.old }
{
    if chain.magic == MADE {
        let _judging = chain.open(alloc);
    }
}
