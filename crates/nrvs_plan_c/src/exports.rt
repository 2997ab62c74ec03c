//! The calls for C.
ghost use Rattle.std.specs.Prelude.{◌≡◌, ◌≢◌, ◌↔◌, ◌<◌, ◌-◌, ◌⊎◌, ◌≤◌, [], ◌∷◌, ◌++◌, ℕ, Some, None, IfSome, IsFalse, IsTrue, nat_lt, slice_index, if◌then◌else◌};
ghost use Rattle.std.specs.FinMap as finite;
ghost use Rattle.vs_walk.specs.Memory.{Memory};
ghost use Rattle.vs_plan.specs.declared.plans.request.Request.{Request};
ghost use Rattle.vs_plan.specs.declared.plans.plan.TheConstants.{MOST_UNLINKED};
ghost use Rattle.vs_types.specs.Bits.{HasFlagsSet};
ghost use Rattle.vs_plan.specs.Planner.{IsSpareFor, frames_given};
ghost use Rattle.vs_plan.specs.Request.{request_fault};
ghost use Rattle.vs_plan.specs.Shown.{IsShown};
ghost use Rattle.nrvs_plan_c.specs.declared.records.codes.TheConstants.{DESCENT, ENDED, SEARCH};
ghost use Rattle.nrvs_plan_c.specs.Kept.{IsSound, page_in, phase_in, planner_in, request_in, rights_in, shows_left, takes_frame, target_in, target_of};
ghost use Rattle.nrvs_plan_c.specs.Next.{HasBegun, IsNextOf, status_in};
ghost use Rattle.nrvs_plan_c.specs.Told.{plan_again, store_at};
ghost use Rattle.nrvs_plan_c.specs.Status.{begun_status, target_status};

use crate::begin::{begin, call_of, call_with};
use crate::next::go_on;
use crate::records::codes::{DESCENT, ENDED, SEARCH, takes_frame};
use crate::records::kept::{Call, Plan, Target, Words, open};
use crate::records::status::{BAD_RIGHTS, BAD_SIZE, NOT_ASKED, PLANNED};
use crate::records::told::{bits_again, is_linking};
use crate::see::{go_on_down, search_these};
use vs_plan::{PlainWords, Planner};

/// Begins the plan of a map.
#[inline(never)]
#[unsafe(no_mangle)]
pub extern "C" fn nrvs_plan_map(
    plan: &mut Plan,
    target: &Target,
    base: u64,
    size: u32,
    physical: u64,
    rights: u32,
    bits: u64,
) -> u32
    ensures status { result ≡ target_status target.now.levels target.now.phys_bits
        (if nat_lt 2 size then 6 else if nat_lt 7 rights then 7
        else begun_status (request_fault (target_of target.now)
        (Request.Map (page_in base size physical rights) bits))) }
    ensures target { result ≡ 32 → target_in plan.new.call ≡ target_of target.now }
    ensures request { result ≡ 32 → request_in plan.new.call
        ≡ Request.Map (page_in base size physical rights) bits }
    ensures begun { result ≡ 32 → HasBegun plan.new }
    ensures refused { result ≢ 32 → plan.new ≡ plan.old }
{
    let call = match call_of(target, 0, base) {
        Ok(call) => call,
        Err(status) => return status,
    };
    if size > 2 {
        return BAD_SIZE;
    }
    if rights > 7 {
        return BAD_RIGHTS;
    }
    let call = Call {
        physical,
        bits,
        size: size as u8,
        rights: rights as u8,
        ..call
    };
    begin(plan, call)
}

/// Begins the plan of an unmap.
#[inline(never)]
#[unsafe(no_mangle)]
pub extern "C" fn nrvs_plan_unmap(plan: &mut Plan, target: &Target, base: u64) -> u32
    ensures status { result ≡ target_status target.now.levels target.now.phys_bits
        (begun_status (request_fault (target_of target.now) (Request.Unmap base))) }
    ensures target { result ≡ 32 → target_in plan.new.call ≡ target_of target.now }
    ensures request { result ≡ 32 → request_in plan.new.call ≡ Request.Unmap base }
    ensures begun { result ≡ 32 → HasBegun plan.new }
    ensures refused { result ≢ 32 → plan.new ≡ plan.old }
{
    match call_of(target, 1, base) {
        Ok(call) => begin(plan, call),
        Err(status) => status,
    }
}

/// Begins the plan of a protect.
#[inline(never)]
#[unsafe(no_mangle)]
pub extern "C" fn nrvs_plan_protect(plan: &mut Plan, target: &Target, base: u64, rights: u32) -> u32
    ensures status { result ≡ target_status target.now.levels target.now.phys_bits
        (if nat_lt 7 rights then 7 else begun_status (request_fault (target_of target.now)
        (Request.Protect base (rights_in rights)))) }
    ensures target { result ≡ 32 → target_in plan.new.call ≡ target_of target.now }
    ensures request { result ≡ 32 → request_in plan.new.call
        ≡ Request.Protect base (rights_in rights) }
    ensures begun { result ≡ 32 → HasBegun plan.new }
    ensures refused { result ≢ 32 → plan.new ≡ plan.old }
{
    match call_with(target, 2, base, rights) {
        Ok(call) => begin(plan, call),
        Err(status) => status,
    }
}

/// Begins the plan of a remap.
#[inline(never)]
#[unsafe(no_mangle)]
pub extern "C" fn nrvs_plan_remap(
    plan: &mut Plan,
    target: &Target,
    base: u64,
    physical: u64,
    rights: u32,
) -> u32
    ensures status { result ≡ target_status target.now.levels target.now.phys_bits
        (if nat_lt 7 rights then 7 else begun_status (request_fault (target_of target.now)
        (Request.Remap base physical (rights_in rights)))) }
    ensures target { result ≡ 32 → target_in plan.new.call ≡ target_of target.now }
    ensures request { result ≡ 32 → request_in plan.new.call
        ≡ Request.Remap base physical (rights_in rights) }
    ensures begun { result ≡ 32 → HasBegun plan.new }
    ensures refused { result ≢ 32 → plan.new ≡ plan.old }
{
    match call_with(target, 4, base, rights) {
        Ok(call) => begin(plan, Call { physical, ..call }),
        Err(status) => status,
    }
}

/// Begins the plan of a split.
#[unsafe(no_mangle)]
pub extern "C" fn nrvs_plan_split(plan: &mut Plan, target: &Target, base: u64) -> u32
    ensures status { result ≡ target_status target.now.levels target.now.phys_bits
        (begun_status (request_fault (target_of target.now) (Request.Split base))) }
    ensures target { result ≡ 32 → target_in plan.new.call ≡ target_of target.now }
    ensures request { result ≡ 32 → request_in plan.new.call ≡ Request.Split base }
    ensures begun { result ≡ 32 → HasBegun plan.new }
    ensures refused { result ≢ 32 → plan.new ≡ plan.old }
{
    match call_of(target, 5, base) {
        Ok(call) => begin(plan, call),
        Err(status) => status,
    }
}

/// Begins the plan of a join.
#[unsafe(no_mangle)]
pub extern "C" fn nrvs_plan_join(plan: &mut Plan, target: &Target, base: u64) -> u32
    ensures status { result ≡ target_status target.now.levels target.now.phys_bits
        (begun_status (request_fault (target_of target.now) (Request.Join base))) }
    ensures target { result ≡ 32 → target_in plan.new.call ≡ target_of target.now }
    ensures request { result ≡ 32 → request_in plan.new.call ≡ Request.Join base }
    ensures begun { result ≡ 32 → HasBegun plan.new }
    ensures refused { result ≢ 32 → plan.new ≡ plan.old }
{
    match call_of(target, 6, base) {
        Ok(call) => begin(plan, call),
        Err(status) => status,
    }
}

/// Begins to look at an address.
#[inline(never)]
#[unsafe(no_mangle)]
pub extern "C" fn nrvs_plan_ask(plan: &mut Plan, target: &Target, address: u64) -> u32
    ensures status { result ≡ target_status target.now.levels target.now.phys_bits
        (begun_status (request_fault (target_of target.now) (Request.Ask address))) }
    ensures target { result ≡ 32 → target_in plan.new.call ≡ target_of target.now }
    ensures request { result ≡ 32 → request_in plan.new.call ≡ Request.Ask address }
    ensures begun { result ≡ 32 → HasBegun plan.new }
    ensures refused { result ≢ 32 → plan.new ≡ plan.old }
{
    match call_of(target, 3, address) {
        Ok(call) => begin(plan, call),
        Err(status) => status,
    }
}

/// Begins the plan of a prune.
#[unsafe(no_mangle)]
pub extern "C" fn nrvs_plan_prune(plan: &mut Plan, target: &Target, address: u64) -> u32
    ensures status { result ≡ target_status target.now.levels target.now.phys_bits
        (begun_status (request_fault (target_of target.now) (Request.Prune address))) }
    ensures target { result ≡ 32 → target_in plan.new.call ≡ target_of target.now }
    ensures request { result ≡ 32 → request_in plan.new.call ≡ Request.Prune address }
    ensures begun { result ≡ 32 → HasBegun plan.new }
    ensures refused { result ≢ 32 → plan.new ≡ plan.old }
{
    match call_of(target, 7, address) {
        Ok(call) => begin(plan, call),
        Err(status) => status,
    }
}

/// Takes the words of the frame that is asked for: `Planner::see`.
#[unsafe(no_mangle)]
pub extern "C" fn nrvs_plan_see(plan: &mut Plan, words: &Words) -> u32
    requires { IsSound plan.old }
    ensures asked { (result ≡ 17) ↔ (SEARCH < plan.old.way.phase) }
    ensures status { result ≢ 17 → result ≡ status_in (phase_in plan.new.way.phase) }
    ensures ended { result ≡ 0 → plan.new.way.phase ≡ ENDED }
    ensures named { result ≡ 0 → plan.new.unlinked_count ≤ MOST_UNLINKED }
    ensures sound { IsSound plan.new }
    ensures call { plan.new.call ≡ plan.old.call }
    ensures refused { result ≡ 17 → plan.new ≡ plan.old }
    ensures fewer { result ≡ 32 → shows_left plan.new < shows_left plan.old }
    ensures given { result ≡ 33 → frames_given (planner_in plan.new) ≡ [] }
    ensures next { result ≢ 17 → (memory : Memory) → IsShown memory (planner_in plan.old)
        → finite.get memory plan.old.frame ≡ Some words.now.word
        → IsNextOf memory plan.new [] result }
{
    if plan.way.phase > DESCENT {
        return see_later(plan, words);
    }
    go_on_down(plan, PlainWords(&words.word))
}

/// Takes a frame whose words are all 0: `Planner::give`.
#[unsafe(no_mangle)]
pub extern "C" fn nrvs_plan_give(plan: &mut Plan, frame: u64) -> u32
    requires { IsSound plan.old }
    ensures asked { (result ≡ 17) ↔ (IsFalse (takes_frame plan.old.way.phase)) }
    ensures status { result ≢ 17 → result ≡ status_in (phase_in plan.new.way.phase) }
    ensures ended { result ≡ 0 → plan.new.way.phase ≡ ENDED }
    ensures named { result ≡ 0 → plan.new.unlinked_count ≤ MOST_UNLINKED }
    ensures ends { result ≢ 32 }
    ensures sound { IsSound plan.new }
    ensures call { plan.new.call ≡ plan.old.call }
    ensures refused { result ≡ 17 → plan.new ≡ plan.old }
    ensures fewer { result ≡ 33 → plan.new.way.level - plan.new.way.height
        < plan.old.way.level - plan.old.way.height }
    ensures given { result ≡ 33 → frames_given (planner_in plan.new)
        ≡ frames_given (planner_in plan.old) ++ frame ∷ [] }
    ensures next { result ≢ 17 → (memory : Memory) → IsShown memory (planner_in plan.old)
        → IsSpareFor memory (planner_in plan.old) frame
        → IsNextOf memory plan.new (Some frame ∷ []) result }
{
    give(plan, Some(frame))
}

/// Says that there is no frame: `Planner::give`.
#[unsafe(no_mangle)]
pub extern "C" fn nrvs_plan_give_none(plan: &mut Plan) -> u32
    requires { IsSound plan.old }
    ensures asked { (result ≡ 17) ↔ (IsFalse (takes_frame plan.old.way.phase)) }
    ensures status { result ≢ 17 → result ≡ status_in (phase_in plan.new.way.phase) }
    ensures ended { result ≡ 0 → plan.new.way.phase ≡ ENDED }
    ensures named { result ≡ 0 → plan.new.unlinked_count ≤ MOST_UNLINKED }
    ensures ends { result ≢ 32 }
    ensures sound { IsSound plan.new }
    ensures call { plan.new.call ≡ plan.old.call }
    ensures refused { result ≡ 17 → plan.new ≡ plan.old }
    ensures fewer { result ≡ 33 → plan.new.way.level - plan.new.way.height
        < plan.old.way.level - plan.old.way.height }
    ensures next { result ≢ 17 → (memory : Memory) → IsShown memory (planner_in plan.old)
        → IsNextOf memory plan.new (None ∷ []) result }
{
    give(plan, None)
}

/// Call this if the store at an index finds a word that differs from its `old` in flags alone. The plan gets that word in its place
/// (`Store::again`). The word's flags go into the bits that are said of the page's entry, or by a split into what the frame is filled
/// with (`Fill::again`), as by `Plan::again`.
#[unsafe(no_mangle)]
pub extern "C" fn nrvs_plan_again(plan: &mut Plan, index: usize, found: u64) -> u32
    requires { IsSound plan.old }
    ensures sound { IsSound plan.new }
    ensures status { (result ≡ 0) ⊎ (result ≡ 17) }
    ensures asked { result ≡ 0 → (plan.old.way.phase ≡ ENDED) × (index < plan.old.store_count) }
    ensures refused { result ≡ 17 → plan.new ≡ plan.old }
    ensures flags { result ≡ 0 → HasFlagsSet (store_at plan.old index).old found }
    ensures again { result ≡ 0 → plan.new ≡ plan_again plan.old index found }
    ensures done { plan.old.way.phase ≡ ENDED → index < plan.old.store_count
        → HasFlagsSet (store_at plan.old index).old found → result ≡ 0 }
{
    if plan.way.phase != ENDED || index >= plan.store_count {
        return NOT_ASKED;
    }
    let store = plan.stores[index];
    let Some(again) = store.again(found, is_linking(plan)) else {
        return NOT_ASKED;
    };
    plan.stores[index] = again;
    plan.bits = bits_again(plan, index, store, found);
    if plan.fills != 0 {
        plan.fill = plan.fill.again(found);
    }
    PLANNED
}

/// Takes the words of a frame that isn't asked for on the way down.
#[inline(never)]
fn see_later(plan: &mut Plan, words: &Words) -> u32
    requires sound { IsSound plan.old }
    requires searches { DESCENT < plan.old.way.phase }
    ensures asked { (result ≡ 17) ↔ (SEARCH < plan.old.way.phase) }
    ensures status { result ≢ 17 → result ≡ status_in (phase_in plan.new.way.phase) }
    ensures ended { result ≡ 0 → plan.new.way.phase ≡ ENDED }
    ensures named { result ≡ 0 → plan.new.unlinked_count ≤ MOST_UNLINKED }
    ensures sound { IsSound plan.new }
    ensures call { plan.new.call ≡ plan.old.call }
    ensures refused { result ≡ 17 → plan.new ≡ plan.old }
    ensures fewer { result ≡ 32 → shows_left plan.new < shows_left plan.old }
    ensures given { result ≡ 33 → frames_given (planner_in plan.new) ≡ [] }
    ensures next { result ≢ 17 → (memory : Memory) → IsShown memory (planner_in plan.old)
        → finite.get memory plan.old.frame ≡ Some words.now.word
        → IsNextOf memory plan.new [] result }
{
    if plan.way.phase > SEARCH {
        return NOT_ASKED;
    }
    search_these(plan, PlainWords(&words.word))
}

/// Takes a frame, or none.
pub(crate) fn give(plan: &mut Plan, frame: Option<u64>) -> u32
    requires { IsSound plan.old }
    ensures asked { (result ≡ 17) ↔ (IsFalse (takes_frame plan.old.way.phase)) }
    ensures status { result ≢ 17 → result ≡ status_in (phase_in plan.new.way.phase) }
    ensures ended { result ≡ 0 → plan.new.way.phase ≡ ENDED }
    ensures named { result ≡ 0 → plan.new.unlinked_count ≤ MOST_UNLINKED }
    ensures ends { result ≢ 32 }
    ensures phase { 1 ≤ plan.old.way.phase → 1 ≤ plan.new.way.phase }
    ensures sound { IsSound plan.new }
    ensures call { plan.new.call ≡ plan.old.call }
    ensures refused { result ≡ 17 → plan.new ≡ plan.old }
    ensures fewer { result ≡ 33 → plan.new.way.level - plan.new.way.height
        < plan.old.way.level - plan.old.way.height }
    ensures given { result ≡ 33 → IfSome frame (λ number. frames_given (planner_in plan.new)
        ≡ frames_given (planner_in plan.old) ++ number ∷ []) }
    ensures next { result ≢ 17 → (memory : Memory) → IsShown memory (planner_in plan.old)
        → IfSome frame (λ number. IsSpareFor memory (planner_in plan.old) number)
        → IsNextOf memory plan.new (frame ∷ []) result }
{
    if !takes_frame(plan.way.phase) {
        return NOT_ASKED;
    }
    give_by(&mut open(plan), plan, frame)
}

/// The same, by the planner that is kept.
#[inline(never)]
fn give_by(planner: &mut Planner, plan: &mut Plan, frame: Option<u64>) -> u32
    requires sound { IsSound plan.old }
    requires takes { IsTrue (takes_frame plan.old.way.phase) }
    requires planner { planner.old ≡ planner_in plan.old }
    requires target { planner.old.target ≡ target_in plan.old.call }
    ensures asked { result ≢ 17 }
    ensures status { result ≡ status_in (phase_in plan.new.way.phase) }
    ensures ended { result ≡ 0 → plan.new.way.phase ≡ ENDED }
    ensures named { result ≡ 0 → plan.new.unlinked_count ≤ MOST_UNLINKED }
    ensures ends { result ≢ 32 }
    ensures phase { 1 ≤ plan.new.way.phase }
    ensures sound { IsSound plan.new }
    ensures call { plan.new.call ≡ plan.old.call }
    ensures fewer { result ≡ 33 → plan.new.way.level - plan.new.way.height
        < plan.old.way.level - plan.old.way.height }
    ensures given { result ≡ 33 → IfSome frame (λ number. frames_given (planner_in plan.new)
        ≡ frames_given (planner_in plan.old) ++ number ∷ []) }
    ensures next { (memory : Memory) → IsShown memory (planner_in plan.old)
        → IfSome frame (λ number. IsSpareFor memory (planner_in plan.old) number)
        → IsNextOf memory plan.new (frame ∷ []) result }
{
    let step = planner.give(frame);
    go_on(plan, planner, &step)
}
