//! How a plan begins.
ghost use Rattle.std.specs.Prelude.{◌≡◌, ◌≢◌, ◌<◌, ◌≤◌, ℕ, IfErr, MatchResult, nat_lt, if◌then◌else◌};
ghost use Rattle.vs_types.specs.Depth.{levels};
ghost use Rattle.vs_plan.specs.declared.plans.request.Request.{Request};
ghost use Rattle.vs_plan.specs.Request.{IsRequest, request_fault};
ghost use Rattle.vs_plan.specs.Target.{highest_link};
ghost use Rattle.nrvs_plan_c.specs.declared.records.codes.TheConstants.{BRIEF, DESCENT};
ghost use Rattle.nrvs_plan_c.specs.Kept.{depth_in, request_in, target_at, target_in, target_of};
ghost use Rattle.nrvs_plan_c.specs.Next.{HasBegun, IsAtRoot};
ghost use Rattle.nrvs_plan_c.specs.Status.{begun_status, target_status};

use crate::records::codes::{BRIEF, DESCENT, depth_in};
use crate::records::kept::{Call, Plan, Target, Way};
use crate::records::status::{BAD_LEVELS, BAD_RIGHTS, PHYS_BITS, SEE, status_of};
use vs_types::all_allowed;

/// A level above that of each root.
const ABOVE_ROOTS: u32 = 6;

/// The numbers of a call of this kind, with nothing else.
///
/// # Errors
///
/// The status where the target has another number of levels, or too many bits.
pub(crate) fn call_of(target: &Target, kind: u8, address: u64) -> Result<Call, u32>
    ensures { MatchResult result
        (λ call. (target_status target.now.levels target.now.phys_bits 0 ≡ 0)
        × (target_in call ≡ target_of target.now)
        × (call.kind ≡ kind)
        × (call.address ≡ address))
        (λ status. (target_status target.now.levels target.now.phys_bits 0 ≡ status)
        × (status ≢ 0)) }
{
    if target.levels != 4 && target.levels != 5 {
        return Err(BAD_LEVELS);
    }
    if target.phys_bits > 52 {
        return Err(PHYS_BITS);
    }
    Ok(Call {
        root: target.root,
        address,
        physical: 0,
        bits: 0,
        levels: target.levels as u8,
        phys_bits: target.phys_bits as u8,
        pinned: target.pinned.min(ABOVE_ROOTS) as u8,
        kind,
        size: 0,
        rights: 0,
    })
}

/// The numbers of a call of this kind with rights.
///
/// # Errors
///
/// As `call_of`; then the status where the code means no rights.
#[inline(always)]
pub(crate) fn call_with(target: &Target, kind: u8, address: u64, rights: u32) -> Result<Call, u32>
    ensures made { MatchResult result
        (λ call. (target_status target.now.levels target.now.phys_bits 0 ≡ 0)
        × (target_in call ≡ target_of target.now)
        × (call.kind ≡ kind)
        × (call.address ≡ address)
        × (rights ≤ 7)
        × (call.rights ≡ rights))
        (λ status. status ≢ 32) }
    ensures refused { IfErr result (λ status. (rest : ℕ) → target_status target.now.levels
        target.now.phys_bits (if nat_lt 7 rights then 7 else rest) ≡ status) }
{
    let call = call_of(target, kind, address)?;
    if rights > 7 {
        return Err(BAD_RIGHTS);
    }
    Ok(Call {
        rights: rights as u8,
        ..call
    })
}

/// Begins a plan.
#[inline(always)]
pub(crate) fn begin(plan: &mut Plan, call: Call) -> u32
    ensures status { result ≡ begun_status (request_fault (target_in call) (request_in call)) }
    ensures call { result ≡ 32 → plan.new.call ≡ call }
    ensures begun { result ≡ 32 → HasBegun plan.new }
    ensures refused { result ≢ 32 → plan.new ≡ plan.old }
{
    match call.request().test(call.target()) {
        Ok(()) => {
            plan.call = call;
            start(plan, first_phase(call));
            SEE
        }
        Err(fault) => status_of(fault),
    }
}

/// The phase in which a plan begins: an unmap that may unlink its page's table first goes down by a brief way.
fn first_phase(call: Call) -> u8
    ensures down { result ≤ DESCENT }
    ensures brief { result ≡ BRIEF → (call.kind ≡ 1) × (1 < highest_link (target_in call)) }
    ensures descent { result ≢ BRIEF → call.kind ≡ 1 → highest_link (target_in call) ≤ 1 }
{
    if call.kind == 1 && !call.pins_all() {
        BRIEF
    } else {
        DESCENT
    }
}

/// Asks for the words of the root.
#[inline(always)]
pub(crate) fn start(plan: &mut Plan, phase: u8)
    requires good { IsRequest (target_in plan.old.call) (request_in plan.old.call) }
    requires phase { phase ≤ DESCENT }
    ensures begun { IsAtRoot plan.new }
    ensures call { plan.new.call ≡ plan.old.call }
    ensures phase { plan.new.way.phase ≡ phase }
    ensures level { plan.new.way.level ≡ levels (depth_in plan.old.call.levels) }
{
    let stop = first_stop(plan, phase);
    let level = depth_in(plan.call.levels).levels();
    plan.frame = plan.call.root;
    plan.store_count = 0;
    plan.way = Way {
        allowed: all_allowed(),
        phase,
        level,
        stop,
        height: 0,
    };
}

/// The level of the lowest table that stays, before any was seen: it is looked for by the second way of an unmap alone.
fn first_stop(plan: &Plan, phase: u8) -> u8
    requires { phase ≤ DESCENT }
    ensures most { result ≤ highest_link (target_at phase plan.now.call) }
    ensures all { (base : ℕ) → request_in plan.now.call ≡ Request.Unmap base
        → highest_link (target_at phase plan.now.call) ≤ result }
{
    if phase == BRIEF {
        return 0;
    }
    if plan.call.kind != 1 {
        return 0;
    }
    highest_link(plan)
}

/// The level of the highest tables whose links may be cleared.
fn highest_link(plan: &Plan) -> u8
    ensures { result ≡ highest_link (target_in plan.now.call) }
{
    let levels = depth_in(plan.call.levels).levels();
    if plan.call.pinned == 0 {
        return levels;
    }
    levels.min(plan.call.pinned - 1)
}
